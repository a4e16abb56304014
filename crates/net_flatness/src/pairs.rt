//! Pairs of an outer and an inner item that a flat network has none of: CSIDs of 0, SIDs that do
//! not fit a block, and SIDs that clash.

ghost use Rattle.std.specs.Prelude.{◌≡◌, ◌≤◌, Bool, find, Ok};
ghost use Rattle.net_model.specs.NetworkTerms.{network_of};
ghost use Rattle.net_flatness.specs.Flat.{is_zero_in, zero_csid, has_wrong_length, is_mixed, mixed_block, same_csid, is_clash, clash, pair_or, first_pair, no_zero, no_mixed, no_clash};
ghost use Rattle.net_flatness.specs.declared.not_flat.NotFlat.{NotFlat};

use crate::not_flat::NotFlat;
use net_model::{BLOCK_UNIT, Block, BlockKind, NetParts, same_prefix};
use srv6_rules::{Csid, SidEntry};
use v6_addr::field;

/// Pairs of an outer and an inner item that a flat network has none of.
trait Pairs<X, Y> {
    ghost test: { X → Y → Bool };

    ghost why: { X → Y → NotFlat };

    /// Whether the two are such a pair.
    fn are_pair(outer: &X, inner: &Y) -> bool
        ensures { result ≡ test outer.now inner.now };

    /// Why a network that has the pair is not flat.
    fn refusal(outer: &X, inner: &Y) -> NotFlat
        ensures { result ≡ why outer.now inner.now };
}

/// Refuses the first of the inner items that is a pair with the outer one.
fn refuse_pair_of<X, Y, P: Pairs<X, Y>>(outer: &X, inners: &[Y]) -> Result<(), NotFlat>
    ensures { result ≡ pair_or P.why outer.now (find (P.test outer.now) inners.now) (Ok tt) }
{
    let mut rest = inners;
    while let [inner, more @ ..] = rest {
        if P::are_pair(outer, inner) {
            return Err(P::refusal(outer, inner));
        }
        rest = more;
    }
    Ok(())
}

/// Refuses the first pair, by the outer item's and then by the inner one's place.
fn refuse_pair<X, Y, P: Pairs<X, Y>>(outers: &[X], inners: &[Y]) -> Result<(), NotFlat>
    ensures { result ≡ first_pair P.test P.why inners.now outers.now }
{
    let mut rest = outers;
    while let [outer, more @ ..] = rest {
        if let Err(why) = refuse_pair_of::<X, Y, P>(outer, inners) {
            return Err(why);
        }
        rest = more;
    }
    Ok(())
}

/// SIDs whose CSIDs in a block are 0.
struct ZeroCsids;

impl Pairs<SidEntry, Block> for ZeroCsids {
    ghost test = { is_zero_in };

    ghost why = { zero_csid };

    fn are_pair(s: &SidEntry, b: &Block) -> bool {
        let at = b.prefix.len();
        s.prefix.inside(&b.prefix) && field(s.prefix.value(), at, s.prefix.len() - at) == 0
    }

    fn refusal(s: &SidEntry, b: &Block) -> NotFlat {
        NotFlat::ZeroCsid { prefix: s.prefix }
    }
}

/// Whether a SID that lies strictly inside a block is not as long as SIDs of such a block are.
fn has_wrong_length(b: &Block, s: &SidEntry) -> bool
    requires { b.now.prefix.len ≤ s.now.prefix.len }
    ensures { result ≡ has_wrong_length b.now.kind b.now s.now }
{
    let behind = s.prefix.len() - b.prefix.len();
    match b.kind {
        BlockKind::Next => s.csid != Csid::Next && behind % BLOCK_UNIT != 0,
        BlockKind::Replace => {
            u32::from(s.prefix.len()) != u32::from(b.prefix.len()) + u32::from(b.csid)
        }
    }
}

/// Blocks, and SIDs that overlap them without being longer or have a wrong length in them.
struct MixedBlocks;

impl Pairs<Block, SidEntry> for MixedBlocks {
    ghost test = { is_mixed };

    ghost why = { mixed_block };

    fn are_pair(b: &Block, s: &SidEntry) -> bool {
        (s.prefix.len() <= b.prefix.len() && s.prefix.holds(b.prefix.value()))
            || (s.prefix.inside(&b.prefix) && has_wrong_length(b, s))
    }

    fn refusal(b: &Block, s: &SidEntry) -> NotFlat {
        NotFlat::MixedBlock {
            block: b.prefix,
            prefix: s.prefix,
        }
    }
}

/// Whether two SIDs are compressed alike.
fn same_csid(a: Csid, b: Csid) -> bool
    ensures { result ≡ same_csid a b }
{
    a == b
}

/// SIDs of two nodes on one prefix that differ in their compression.
struct Clashes;

impl Pairs<SidEntry, SidEntry> for Clashes {
    ghost test = { is_clash };

    ghost why = { clash };

    fn are_pair(s: &SidEntry, t: &SidEntry) -> bool {
        s.node != t.node
            && same_prefix(&s.prefix, &t.prefix)
            && s.goes_on()
            && t.goes_on()
            && !same_csid(s.csid, t.csid)
    }

    fn refusal(s: &SidEntry, t: &SidEntry) -> NotFlat {
        NotFlat::Clash {
            prefix: s.prefix,
            first: s.node,
            second: t.node,
        }
    }
}

/// Refuses the first SID of CSID 0.
pub(crate) fn refuse_zero(parts: &NetParts) -> Result<(), NotFlat>
    ensures { result ≡ no_zero (network_of parts.now) }
{
    refuse_pair::<SidEntry, Block, ZeroCsids>(parts.sids.as_slice(), parts.blocks.as_slice())
}

/// Refuses the first block with a SID that does not fit it.
pub(crate) fn refuse_mixed(parts: &NetParts) -> Result<(), NotFlat>
    ensures { result ≡ no_mixed (network_of parts.now) }
{
    refuse_pair::<Block, SidEntry, MixedBlocks>(parts.blocks.as_slice(), parts.sids.as_slice())
}

/// Refuses the first SIDs that clash.
pub(crate) fn refuse_clash(parts: &NetParts) -> Result<(), NotFlat>
    ensures { result ≡ no_clash (network_of parts.now) }
{
    refuse_pair::<SidEntry, SidEntry, Clashes>(parts.sids.as_slice(), parts.sids.as_slice())
}
