//! The argument of a destination, and the shift over it.

ghost use Rattle.std.specs.Prelude.{◌≡◌, ◌<◌, ◌≤◌, true};
ghost use Rattle.srv6_rules.specs.Packet.{packet_at};
ghost use Rattle.srv6_rules.specs.Compressed.{argument_of, shift_of};
ghost use Rattle.srv6_rules.specs.CompressedSteps.{shifts};
ghost use Rattle.srv6_rules.specs.CompressedStepsTerms.{IsNext};
ghost use Rattle.ip6_headers.specs.Ip6Reading.{HoldsPacket};
ghost use Rattle.next_csid.specs.Shifting.{IsShift};

use ip6_headers::{Ip6Edit, Ip6View};
use srv6_rules::{Compression, Csid};
use v6_addr::{Addr, field, with_field};

/// What came of a packet at a SID with NEXT-CSID and an argument that is not 0 (RFC 9800 section
/// 4.1).
#[derive(Clone, Copy, Debug, PartialEq, Eq)]
pub enum ShiftOutcome {
    /// The next SID is active, and the hop limit is one lower.
    Shifted,
    /// The hop limit is at most 1: the packet is dropped for it, and its bytes are as they were.
    Drop,
}

/// The bits of an address after a SID of so many bits.
#[tactic(auto, using(crate::proofs::ShiftLemmas::arguments))]
fn argument_in(destination: Addr, sid_len: u8) -> u128
    requires { sid_len ≤ 128 }
    ensures { result ≡ argument_of destination.value sid_len }
{
    if sid_len == 128 {
        return 0;
    }
    field(destination, sid_len, 128 - sid_len)
}

/// The address whose argument is moved up to its block.
fn shifted(destination: Addr, compression: Compression) -> Addr
    requires next { IsNext compression }
    requires some { compression.prefix_len < 128 }
    ensures { result.value
        ≡ shift_of destination.value compression.block_len compression.prefix_len }
{
    let argument = argument_in(destination, compression.prefix_len);
    let argument_len = 128 - compression.prefix_len;
    let csid_len = compression.csid_len();
    let moved = with_field(destination, compression.block_len, argument_len, argument);
    with_field(moved, 128 - csid_len, csid_len, 0)
}

/// The argument of a packet's destination at a SID: the bits after the SID, as a number. At a SID
/// with NEXT-CSID it is 0 exactly where no SID follows in the destination (RFC 9800 section 4.1).
pub fn argument(compression: Compression, bytes: &[u8]) -> u128
    requires packet { HoldsPacket bytes.now }
    requires within { compression.prefix_len ≤ 128 }
    ensures { result
        ≡ argument_of (packet_at bytes.now).destination compression.prefix_len }
{
    argument_in(Ip6View::over(bytes).destination(), compression.prefix_len)
}

/// Whether a packet is shifted at a SID: the SID has NEXT-CSID, and the argument of the packet's
/// destination is not 0 (RFC 9800 section 4.1).
pub fn shifts(compression: Compression, bytes: &[u8]) -> bool
    requires packet { HoldsPacket bytes.now }
    requires within { compression.prefix_len ≤ 128 }
    ensures { result ≡ shifts compression (packet_at bytes.now).destination }
{
    match compression.kind {
        Csid::Plain | Csid::Replace => false,
        Csid::Next => argument(compression, bytes) != 0,
    }
}

/// Shifts a packet at a SID with NEXT-CSID and an argument that is not 0: the argument moves up to
/// directly after the SID's block, the destination's bits after it become 0, and the hop limit
/// falls by 1. No other byte changes, those of a segment routing header among them. `Drop` comes
/// exactly where the hop limit is at most 1, and then no byte changes (RFC 9800 section 4.1).
#[tactic(auto, using(crate::proofs::ShiftLemmas::shifting))]
pub fn shift(compression: Compression, bytes: &mut [u8]) -> ShiftOutcome
    requires packet { HoldsPacket bytes.old }
    requires next { IsNext compression }
    requires shifts { shifts compression (packet_at bytes.old).destination ≡ true }
    ensures { IsShift compression bytes.old bytes.new result }
{
    let packet = Ip6View::over(bytes);
    let hop_limit = packet.hop_limit();
    let destination = packet.destination();
    if hop_limit <= 1 {
        return ShiftOutcome::Drop;
    }
    let mut edit = Ip6Edit::over(bytes);
    edit.set_hop_limit(hop_limit - 1);
    edit.set_destination(shifted(destination, compression));
    ShiftOutcome::Shifted
}
