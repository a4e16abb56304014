//! Which ICMPv6 error a drop gives, and laws about errors and their checksums (RFC 4443, RFC 1071).

ghost use Rattle.std.specs.Prelude.{◌≡◌, ◌+◌, ◌-◌, ◌/◌, ◌%◌, ◌^◌, ◌<◌, ◌≤◌, ◌⊎◌, true, false, ◌&&◌, not, if◌then◌else◌, List, [], ℕ, ◌∷◌, ◌++◌, length, All, Option, Some, None};
ghost use Rattle.v6_addr.specs.AddressKinds.{is_multicast};
ghost use Rattle.srv6_rules.specs.Chain.{ChainPlace, Header, Chain, Upper, is_extension, is_whole, header_in, behind_in, behind, start_of, from_place};
ghost use Rattle.srv6_rules.specs.ChainTerms.{chain_at};
ghost use Rattle.srv6_rules.specs.Checksum.{all_ones, ones_sum, pseudo_header, upper_layer_sum};
ghost use Rattle.srv6_rules.specs.ChecksumTerms.{word_sum, carried, Verifies};
ghost use Rattle.srv6_rules.specs.Errors.{kind_of, is_error_message, leads_to_error, ends_in_error, is_later_fragment, message_head, quote_of, error_checksum, error_packet};
ghost use Rattle.srv6_rules.specs.ErrorsTerms.{IsKind};
ghost use Rattle.srv6_rules.specs.Packet.{Packet, IsSpellable, spelling, header_len, two_bytes, four_bytes};
ghost use Rattle.srv6_rules.specs.declared.numbers.TheConstants.{ICMPV6, MIN_MTU};
ghost use Rattle.srv6_rules.specs.declared.icmp.IcmpKind.{IcmpKind as IcmpKindValue};
ghost use Rattle.srv6_rules.specs.declared.icmp.IcmpKind.TheVariants.{Unreachable, PacketTooBig, TimeExceeded, Parameter};
ghost use Rattle.srv6_rules.specs.declared.reason.Reason.{Reason as ReasonValue};

use crate::numbers::{UNKNOWN_OPTION, WRONG_FIELD, WRONG_NEXT_HEADER, WRONG_UPPER_LAYER};
use crate::reason::Reason;

/// An ICMPv6 error (RFC 4443 section 3).
#[derive(Clone, Copy, Debug, PartialEq, Eq)]
pub enum IcmpKind {
    /// Destination Unreachable with code 0, no route: type 1 (RFC 4443 section 3.1).
    Unreachable,
    /// Packet Too Big with code 0: type 2 (RFC 4443 section 3.2).
    PacketTooBig {
        /// The MTU of the link on which the packet would have gone, in bytes.
        mtu: u32,
    },
    /// Time Exceeded with code 0, the hop limit: type 3 (RFC 4443 section 3.3).
    TimeExceeded,
    /// Parameter Problem: type 4 (RFC 4443 section 3.4).
    Parameter {
        /// Its code.
        code: u8,
        /// Its pointer: the place of the fault in bytes from the packet's first.
        at: u32,
    },
}

impl IcmpKind {
    /// The error that a drop of an IPv6 packet gives, by its reason and a detail: the place of the
    /// fault in bytes from the packet's first, or for `MtuExceeded` the link's MTU in bytes. None
    /// where the reason gives none (RFC 4443 section 3).
    pub fn of(reason: Reason, detail: u32) -> Option<IcmpKind>
        ensures { result ≡ kind_of reason detail }
    {
        let code = match reason {
            Reason::NoRoute => return Some(IcmpKind::Unreachable),
            Reason::MtuExceeded => return Some(IcmpKind::PacketTooBig { mtu: detail }),
            Reason::HopLimit => return Some(IcmpKind::TimeExceeded),
            Reason::LateHopByHop => WRONG_NEXT_HEADER,
            Reason::OptionUnknown => UNKNOWN_OPTION,
            Reason::BadSegments | Reason::UnknownRouting => WRONG_FIELD,
            Reason::UpperLayer => WRONG_UPPER_LAYER,
            Reason::Truncated
            | Reason::BadVersion
            | Reason::Multicast
            | Reason::BadChain
            | Reason::OptionDiscard
            | Reason::Fragment
            | Reason::HmacTlv
            | Reason::BadTlv
            | Reason::Ttl
            | Reason::TooBig
            | Reason::InnerHop => return None,
        };
        Some(IcmpKind::Parameter { code, at: detail })
    }
}

/// Words can be summed in parts of even lengths, and the carries beyond 16 bits added at the end,
/// as often as it takes (RFC 1071 section 2).
pub fn carries_can_be_added_last()
    ensures sum { (bytes : List ℕ) → All (λ b. b < 2 ^ 8) bytes
        → ones_sum bytes ≡ carried (word_sum bytes) }
    ensures parts { (xs ys : List ℕ) → length xs % 2 ≡ 0
        → word_sum (xs ++ ys) ≡ word_sum xs + word_sum ys }
    ensures upper_layer { (source destination next : ℕ) (upper : List ℕ) → next < 2 ^ 8
        → All (λ b. b < 2 ^ 8) upper
        → upper_layer_sum source destination next upper
        ≡ carried (word_sum (pseudo_header source destination (length upper) next)
        + word_sum upper) }
    ensures again { (n : ℕ) → carried (n / 2 ^ 16 + n % 2 ^ 16) ≡ carried n }
    ensures small { (n : ℕ) → n < 2 ^ 16 → carried n ≡ n }
{}

/// Whether a packet is itself an error or a redirect is seen header by header: a header that is cut
/// and a Fragment header of a later fragment end the question, and else the upper layer answers it
/// (RFC 4443 section 2.4).
pub fn error_is_found_along_the_chain()
    ensures start { (p : Packet) → is_error_message p
        ≡ leads_to_error p (chain_at p (start_of p)) }
    ensures each { (p : Packet) (place : ChainPlace) → header_len ≤ place.at
        → leads_to_error p (chain_at p place)
        ≡ (if is_extension place.kind
        then (if is_whole place.kind (from_place p place.at)
        then not (is_later_fragment (header_in place (from_place p place.at)))
        && leads_to_error p (chain_at p (behind_in place (from_place p place.at)))
        else false)
        else ends_in_error p (Upper place)) }
    ensures header { (p : Packet) (h : Header) (c : Chain) → leads_to_error p (behind h c)
        ≡ (not (is_later_fragment h) && leads_to_error p c) }
{}

/// No error is made about an error or a redirect, so none about an error that was made; and about a
/// packet to a multicast destination Packet Too Big and Parameter Problem about an option alone
/// (RFC 4443 section 2.4).
pub fn errors_are_not_answered()
    ensures none { (p : Packet) (kind : IcmpKindValue) (from : ℕ) → is_error_message p ≡ true
        → error_packet p kind from ≡ None }
    ensures made { (p q : Packet) (kind : IcmpKindValue) (from : ℕ)
        → error_packet p kind from ≡ Some q → is_error_message q ≡ true }
    ensures once { (p q : Packet) (kind other : IcmpKindValue) (from again : ℕ)
        → error_packet p kind from ≡ Some q → error_packet q other again ≡ None }
    ensures multicast { (p q : Packet) (kind : IcmpKindValue) (from : ℕ)
        → is_multicast p.destination ≡ true → error_packet p kind from ≡ Some q
        → ((mtu : ℕ) × (kind ≡ PacketTooBig mtu)) ⊎ ((at : ℕ) × (kind ≡ Parameter 2 at)) }
{}

/// An error goes over every link, and quotes the packet from its first byte on (RFC 4443 section
/// 2.4 (c)).
pub fn errors_fit_every_link()
    ensures most { (p q : Packet) (kind : IcmpKindValue) (from : ℕ)
        → error_packet p kind from ≡ Some q → length (spelling q) ≤ MIN_MTU }
    ensures quote { (p q : Packet) (kind : IcmpKindValue) (from : ℕ)
        → error_packet p kind from ≡ Some q
        → length (spelling q) ≡ 48 + length (quote_of p) }
    ensures short { (p : Packet) → length (spelling p) ≤ 1232 → quote_of p ≡ spelling p }
{}

/// The checksum of an error about a packet is that of the plain sums of its parts: the
/// pseudo-header, the 8 bytes in front of the quote, and the quote (RFC 1071 section 2).
pub fn error_checksum_is_of_its_parts()
    ensures { (p : Packet) (kind : IcmpKindValue) (from : ℕ) → IsSpellable p → IsKind kind
        → error_checksum p kind from
        ≡ all_ones
        - carried (word_sum (pseudo_header from p.source (8 + length (quote_of p)) ICMPV6)
        + (word_sum (message_head kind 0) + word_sum (quote_of p))) }
{}

/// Each error can be spelled, and its checksum verifies (RFC 4443 section 2.3).
pub fn errors_verify()
    ensures kind { (reason : ReasonValue) (at : ℕ) (kind : IcmpKindValue) → at < 2 ^ 32
        → kind_of reason at ≡ Some kind → IsKind kind }
    ensures spellable { (p q : Packet) (kind : IcmpKindValue) (from : ℕ) → IsSpellable p
        → IsKind kind → from < 2 ^ 128 → error_packet p kind from ≡ Some q → IsSpellable q }
    ensures checksum { (p q : Packet) (kind : IcmpKindValue) (from : ℕ) → IsSpellable p
        → IsKind kind → from < 2 ^ 128 → error_packet p kind from ≡ Some q → Verifies q }
{}

/// The figures of errors: Destination Unreachable has type 1, Packet Too Big 2, Time Exceeded 3 and
/// Parameter Problem 4, each with code 0 but for Parameter Problem about a next header, 1, an
/// option, 2, and an upper layer, 4; the message's last four bytes are its pointer, and of Packet
/// Too Big the MTU (RFC 4443 sections 3.1 to 3.4, RFC 8200 sections 4 and 4.2, RFC 8986 section
/// 4.1.1).
pub fn errors_have_their_figures()
    ensures unreachable { (checksum : ℕ)
        → message_head Unreachable checksum ≡ 1 ∷ 0 ∷ (two_bytes checksum ++ four_bytes 0) }
    ensures too_big { (mtu checksum : ℕ)
        → message_head (PacketTooBig mtu) checksum
        ≡ 2 ∷ 0 ∷ (two_bytes checksum ++ four_bytes mtu) }
    ensures time_exceeded { (checksum : ℕ)
        → message_head TimeExceeded checksum ≡ 3 ∷ 0 ∷ (two_bytes checksum ++ four_bytes 0) }
    ensures parameter { (code at checksum : ℕ)
        → message_head (Parameter code at) checksum
        ≡ 4 ∷ code ∷ (two_bytes checksum ++ four_bytes at) }
    ensures no_route { (at : ℕ) → kind_of ReasonValue.NoRoute at ≡ Some Unreachable }
    ensures hop_limit { (at : ℕ) → kind_of ReasonValue.HopLimit at ≡ Some TimeExceeded }
    ensures mtu { (mtu : ℕ) → kind_of ReasonValue.MtuExceeded mtu ≡ Some (PacketTooBig mtu) }
    ensures segments { (at : ℕ) → kind_of ReasonValue.BadSegments at ≡ Some (Parameter 0 at) }
    ensures routing { (at : ℕ) → kind_of ReasonValue.UnknownRouting at ≡ Some (Parameter 0 at) }
    ensures next_header { (at : ℕ)
        → kind_of ReasonValue.LateHopByHop at ≡ Some (Parameter 1 at) }
    ensures option { (at : ℕ) → kind_of ReasonValue.OptionUnknown at ≡ Some (Parameter 2 at) }
    ensures upper_layer { (at : ℕ) → kind_of ReasonValue.UpperLayer at ≡ Some (Parameter 4 at) }
{}
