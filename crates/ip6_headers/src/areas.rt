//! Areas of items that each begin with a type: the options of a header (RFC 8200 section 4.2) and
//! the type-length-value area of a segment routing header (RFC 8754 section 2.1).

ghost use Rattle.std.specs.Prelude.{◌≡◌, ℕ, List, ◌+◌, ◌<◌, ◌≤◌, false, length, slice_index};
ghost use Rattle.srv6_rules.specs.Areas.{area_fault, option_fault, options_fault, passes_end};
ghost use Rattle.srv6_rules.specs.Chain.{Header};
ghost use Rattle.ip6_headers.specs.Items.{IsItemLen, fault_in, first_fault};

use srv6_rules::Reason;
use srv6_rules::numbers::{OPTIONS_AT, PAD1, PADN};

/// Why a packet is dropped, and the place of the fault in bytes from the packet's first, 0 where
/// the reason has no place.
#[derive(Clone, Copy, Debug, PartialEq, Eq)]
pub struct Fault {
    /// Why.
    pub reason: Reason,
    /// The place, in bytes from the packet's first.
    pub at: usize,
}

impl Fault {
    /// A fault that has no place.
    pub fn of(reason: Reason) -> Fault
        ensures { result ≡ record { reason = reason; at = 0 } }
    {
        Fault { reason, at: 0 }
    }
}

/// The length in bytes of the item that these bytes begin with, at least 1, or none where the item
/// lacks its length or passes their end. Pad1 is its type alone; any other item is a type, a length
/// and so many bytes (RFC 8200 section 4.2, RFC 8754 section 2.1).
pub fn item_len(item: &[u8]) -> Option<usize>
    requires { 0 < length item.now }
    ensures { IsItemLen item.now result }
{
    if item[0] == PAD1 {
        return Some(1);
    }
    if item.len() < 2 {
        return None;
    }
    let len = 2 + usize::from(item[1]);
    if item.len() < len { None } else { Some(len) }
}

/// The fault of an option that does not pass its header's end: of an unknown type its two highest
/// bits decide (RFC 8200 section 4.2).
fn option_fault(kind: u8, at: usize) -> Option<Fault>
    ensures { (item : List ℕ) → slice_index item 0 ≡ kind → passes_end item ≡ false
        → fault_in result ≡ option_fault at item }
{
    if kind == PAD1 || kind == PADN || kind / 64 == 0 {
        return None;
    }
    let reason = if kind / 64 == 1 {
        Reason::OptionDiscard
    } else {
        Reason::OptionUnknown
    };
    Some(Fault { reason, at })
}

/// The first fault among options that begin at a place.
fn area_options_fault(options: &[u8], start: usize) -> Option<Fault>
    requires { start + length options.now ≤ usize.MAX }
    ensures { fault_in result ≡ area_fault option_fault 0 start options.now }
{
    let mut rest = options;
    let mut at = start;
    'options: while !rest.is_empty() {
        let Some(len) = item_len(rest) else {
            return Some(Fault {
                reason: Reason::BadChain,
                at,
            });
        };
        if let Some(fault) = option_fault(rest[0], at) {
            return Some(fault);
        }
        at += len;
        rest = rest.split_at(len).1;
    }
    None
}

/// Looks at the options of the bytes of a Destination Options header, which stands at a place in
/// bytes from the packet's first. The first option with a fault decides, with its place: one that
/// passes the header's end or lacks its length is `BadChain`, whatever its type; Pad1, PadN and
/// types whose two highest bits are 00 are skipped; 01 is `OptionDiscard`, and 10 and 11 are
/// `OptionUnknown` (RFC 8200 section 4.2).
pub fn options(header: &[u8], at: usize) -> Result<(), Fault>
    requires options { OPTIONS_AT ≤ length header.now }
    requires fits { at + length header.now ≤ usize.MAX }
    ensures { (h : Header) → h.place.at ≡ at → h.bytes ≡ header.now
        → first_fault result ≡ options_fault h }
{
    match area_options_fault(header.split_at(OPTIONS_AT).1, at + OPTIONS_AT) {
        Some(fault) => Err(fault),
        None => Ok(()),
    }
}
