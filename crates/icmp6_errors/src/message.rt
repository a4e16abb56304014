//! The bytes of an error message in front of what it quotes (RFC 4443 section 3).

ghost use Rattle.std.specs.Prelude.{◌≡◌};
ghost use Rattle.srv6_rules.specs.Errors.{code_of, message_head, last_word_of, type_of};
ghost use Rattle.srv6_rules.specs.ErrorsTerms.{IsKind};

use srv6_rules::IcmpKind;
use srv6_rules::numbers::{
    DESTINATION_UNREACHABLE, ICMPV6_HEADER_LEN, PACKET_TOO_BIG, PARAMETER_PROBLEM, TIME_EXCEEDED,
};

/// The error's type.
fn type_of(kind: &IcmpKind) -> u8
    ensures { result ≡ type_of kind.now }
{
    match kind {
        IcmpKind::Unreachable => DESTINATION_UNREACHABLE,
        IcmpKind::PacketTooBig { .. } => PACKET_TOO_BIG,
        IcmpKind::TimeExceeded => TIME_EXCEEDED,
        IcmpKind::Parameter { .. } => PARAMETER_PROBLEM,
    }
}

/// The error's code.
fn code_of(kind: &IcmpKind) -> u8
    ensures { result ≡ code_of kind.now }
{
    match kind {
        IcmpKind::Unreachable | IcmpKind::PacketTooBig { .. } | IcmpKind::TimeExceeded => 0,
        IcmpKind::Parameter { code, .. } => *code,
    }
}

/// The error's last four bytes: its pointer or MTU, and 0 where they are unused.
fn last_word_of(kind: &IcmpKind) -> u32
    ensures { result ≡ last_word_of kind.now }
{
    match kind {
        IcmpKind::Unreachable | IcmpKind::TimeExceeded => 0,
        IcmpKind::PacketTooBig { mtu } => *mtu,
        IcmpKind::Parameter { at, .. } => *at,
    }
}

/// Type, code, checksum, and the pointer or the MTU.
#[tactic(auto, unfolding(srv6_rules::specs::Packet::two_bytes, srv6_rules::specs::Packet::four_bytes))]
pub(crate) fn message_head(kind: &IcmpKind, checksum: u16) -> [u8; ICMPV6_HEADER_LEN]
    ensures head { result ≡ message_head kind.now checksum }
    ensures kind { IsKind kind.now }
{
    let [high, low] = checksum.to_be_bytes();
    let [first, second, third, fourth] = last_word_of(kind).to_be_bytes();
    [
        type_of(kind),
        code_of(kind),
        high,
        low,
        first,
        second,
        third,
        fourth,
    ]
}
