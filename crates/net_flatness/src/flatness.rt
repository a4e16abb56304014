//! Flat networks, over which lists are compiled.

ghost use Rattle.std.specs.Prelude.{◌≡◌, ◌↔◌, [], IsOk};
ghost use Rattle.net_model.specs.NetworkTerms.{network_of};
ghost use Rattle.net_flatness.specs.Flat.{flatness_of, IsFlat};
ghost use Rattle.net_flatness.specs.FlatTerms.{IsJudged};

use crate::nested::refuse_nested_pair;
use crate::not_flat::NotFlat;
use crate::pairs::{refuse_clash, refuse_mixed, refuse_zero};
use net_model::{Net, NetParts};
use std::alloc::Global;

/// The first refusal, in their order.
fn refuse(alloc: Global, parts: &NetParts) -> Result<(), NotFlat>
    ensures { result ≡ flatness_of (network_of parts.now) }
{
    refuse_nested_pair(alloc, parts)?;
    refuse_zero(parts)?;
    refuse_mixed(parts)?;
    refuse_clash(parts)
}

/// Whether lists may be compiled over the network, of which nothing may be hidden. It is
/// flat where
///
/// - no entry lies strictly inside the prefix of a SID: the prefix of a SID, of an IPv6 route of
///   any table, or a node's address (`Nested`); but for a SID of the same node that has the 16 bits
///   after the outer SID's, not all 0, where both lie in one NEXT block, after which the outer one
///   has 16 bits, and NEXT-CSID, and each is the one SID on its prefix;
/// - no SID that lies strictly inside a block has the CSID 0 (`ZeroCsid`);
/// - each SID that overlaps a block is longer than it; in a REPLACE block it has as many bits
///   after the block's as a compressed SID of the block, and in a NEXT block, where it is not of
///   NEXT-CSID, a multiple of `BLOCK_UNIT` (`MixedBlock`);
/// - SIDs of two nodes on one prefix that make the next segment the destination are compressed
///   alike (`Clash`).
///
/// The refusals come in this order, each of the whole network before the next. Within one the first
/// pair is refused by the place of its outer item in the description and then by that of its inner
/// one: of `Nested` the SID and then the entry, where the prefixes of SIDs come before those of the
/// IPv6 routes of all tables, and these before the nodes' addresses; of `ZeroCsid` the SID; of
/// `MixedBlock` the block and then the SID; of `Clash` the earlier SID and then the later one.
///
/// A table of the SIDs' prefixes tells fast that there is no nested pair but allowed ones; where it
/// gets no memory the pairs are searched as where there is one, which takes longer.
pub fn compilable(alloc: Global, net: &Net) -> Result<(), NotFlat>
    ensures answer { result ≡ flatness_of net.now }
    ensures flat { net.now.hidden ≡ [] → (IsOk result ↔ IsFlat net.now) }
    ensures judged { net.now.hidden ≡ [] → IsJudged net.now result }
{
    refuse(alloc, net.parts())
}
