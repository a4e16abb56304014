//! Where no error is made about a packet (RFC 4443 section 2.4).

ghost use Rattle.std.specs.Prelude.{◌≡◌, ◌≤◌, length, slice_get};
ghost use Rattle.srv6_rules.specs.Chain.{ChainPlace as ChainPlaceValue};
ghost use Rattle.srv6_rules.specs.Errors.{may_answer_multicast, is_error_message, is_error_type, is_later_fragment, is_unanswered};

use ip6_headers::{BadChain, ChainStep, Ip6View, chain_start, chain_step, two_at};
use srv6_rules::IcmpKind;
use srv6_rules::numbers::{
    EXTENSION_UNIT, FIRST_INFORMATIONAL, FRAGMENT, FRAGMENT_OFFSET_AT, FRAGMENT_OFFSET_UNIT,
    ICMPV6, REDIRECT, UNKNOWN_OPTION,
};

/// The header, which a value names, is a Fragment header of another fragment than the first (RFC
/// 8200 section 4.5).
fn is_later_fragment(kind: u8, header: &[u8]) -> bool
    requires { EXTENSION_UNIT ≤ length header.now }
    ensures { (place : ChainPlaceValue) → place.kind ≡ kind
        → result ≡ is_later_fragment (record { place = place; bytes = header.now }) }
{
    kind == FRAGMENT && two_at(header, FRAGMENT_OFFSET_AT) / FRAGMENT_OFFSET_UNIT > 0
}

/// An ICMPv6 message of these bytes is an error or a redirect; one of no bytes is neither (RFC 4443
/// section 2.1).
fn is_error_type(message: &[u8]) -> bool
    ensures { result ≡ is_error_type (slice_get message.now 0) }
{
    match message {
        [kind, ..] => *kind < FIRST_INFORMATIONAL || *kind == REDIRECT,
        [] => false,
    }
}

/// The packet is itself an ICMPv6 error or a redirect. Its chain is stepped over, a Fragment header
/// of the first fragment too; a header that is cut and a later fragment end the question.
fn is_error_message(packet: &Ip6View<'_>) -> bool
    ensures { result ≡ is_error_message packet.now }
{
    let bytes = packet.bytes();
    let mut place = chain_start(packet);
    'headers: loop {
        let rest = bytes.split_at(place.at).1;
        match chain_step(bytes, place) {
            Ok(ChainStep::Header { len, next }) => {
                if is_later_fragment(place.kind, rest.split_at(len).0) {
                    return false;
                }
                place = next;
            }
            Ok(ChainStep::Upper) => return place.kind == ICMPV6 && is_error_type(rest),
            Err(BadChain) => return false,
        }
    }
}

/// An error that is made about a packet to a multicast destination too: Packet Too Big, and
/// Parameter Problem for an unknown option (RFC 4443 section 2.4).
fn may_answer_multicast(kind: &IcmpKind) -> bool
    ensures { result ≡ may_answer_multicast kind.now }
{
    match kind {
        IcmpKind::Unreachable | IcmpKind::TimeExceeded => false,
        IcmpKind::PacketTooBig { .. } => true,
        IcmpKind::Parameter { code, .. } => *code == UNKNOWN_OPTION,
    }
}

/// No error of the kind is made about the packet: its source is unspecified or multicast, its
/// destination is multicast (but for two kinds), or it is itself an error or a redirect.
#[tactic(auto, unfolding(srv6_rules::specs::Errors::is_unanswered))]
pub(crate) fn is_unanswered(packet: &Ip6View<'_>, kind: &IcmpKind) -> bool
    ensures { result ≡ is_unanswered packet.now kind.now }
{
    packet.source().is_unspecified()
        || packet.source().is_multicast()
        || (packet.destination().is_multicast() && !may_answer_multicast(kind))
        || is_error_message(packet)
}
