//! SIDs nested in another SID of their node.

ghost use Rattle.std.specs.Prelude.{◌≡◌, ◌↔◌, ◌+◌, ◌<◌, ◌≤◌, Some, OnOk, IfOk, IsTrue, length, slice_get};
ghost use Rattle.v6_addr.specs.Address.{IsInside};
ghost use Rattle.srv6_rules.specs.declared.sid.SidEntry.{SidEntry};
ghost use Rattle.srv6_rules.specs.CompressedSteps.{is_next};
ghost use Rattle.net_model.specs.NetworkTerms.{network_of};
ghost use Rattle.net_flatness.specs.Flat.{IsFlat};
ghost use Rattle.net_flatness.specs.Nests.{unit_at, IsNest};
ghost use Rattle.net_flatness.specs.NestTests.{same_kind, same_block, is_alone, are_units, is_nest};
ghost use Rattle.net_flatness.specs.Units.{GetsUnit, AreNestedUnits};

use base::NoMemory;
use net_model::{Block, BlockKind, Net, NetParts, block_of, same_prefix};
use srv6_rules::{Csid, SidEntry};
use std::alloc::Global;
use v6_addr::{Prefix, field};

fn is_next(csid: Csid) -> bool
    ensures { result ≡ is_next csid }
{
    csid == Csid::Next
}

fn same_kind(a: BlockKind, b: BlockKind) -> bool
    ensures { result ≡ same_kind a b }
{
    a == b
}

fn same_block(a: &Block, b: &Block) -> bool
    ensures { result ≡ same_block a.now b.now }
{
    same_prefix(&a.prefix, &b.prefix) && same_kind(a.kind, b.kind) && a.csid == b.csid
}

/// Whether at most one of these SIDs stands on a prefix.
fn is_alone(sids: &[SidEntry], p: &Prefix) -> bool
    ensures { result ≡ is_alone sids.now p.now }
{
    sids.iter().filter(|s| same_prefix(&s.prefix, p)).count() <= 1
}

/// The 16 bits of a prefix from a bit on.
fn unit(p: &Prefix, at: u8) -> u16
    requires { at + 16 ≤ 128 }
    ensures { result ≡ unit_at p.now at }
{
    field(p.value(), at, 16) as u16
}

/// Whether two SIDs are a nest of a block as far as they tell without the others.
fn are_units(b: &Block, outer: &SidEntry, inner: &SidEntry) -> bool
    ensures { result ≡ are_units b.now outer.now inner.now }
{
    let at = u32::from(b.prefix.len());
    same_kind(b.kind, BlockKind::Next)
        && is_next(outer.csid)
        && u32::from(outer.prefix.len()) == at + 16
        && u32::from(inner.prefix.len()) == at + 32
        && inner.prefix.inside(&outer.prefix)
        && unit(&inner.prefix, outer.prefix.len()) != 0
        && outer.node == inner.node
}

/// Whether two SIDs are an allowed nest: both lie in one NEXT block and stand at one node, each
/// alone on its prefix; the outer one has NEXT-CSID and 16 bits after the block's, the inner one
/// lies inside it with 16 bits more, which are not all 0.
#[tactic(auto, unfolding(crate::specs::NestTests::is_nest))]
pub(crate) fn is_nest(parts: &NetParts, outer: &SidEntry, inner: &SidEntry) -> bool
    ensures { result ≡ is_nest (network_of parts.now) outer.now inner.now }
{
    let sids = parts.sids.as_slice();
    let blocks = parts.blocks.as_slice();
    match (
        block_of(blocks, &outer.prefix),
        block_of(blocks, &inner.prefix),
    ) {
        (Some(b), Some(c)) => {
            same_block(&b, &c)
                && are_units(&b, outer, inner)
                && is_alone(sids, &outer.prefix)
                && is_alone(sids, &inner.prefix)
        }
        _ => false,
    }
}

/// Whether two SIDs are an allowed nest, the inner one nested in the outer one.
pub fn are_nest(net: &Net, outer: &SidEntry, inner: &SidEntry) -> bool
    ensures { IsTrue result ↔ IsNest net.now outer.now inner.now }
{
    is_nest(net.parts(), outer, inner)
}

/// The unit of a SID that lies strictly inside another is put behind these.
fn push_unit(units: &mut Vec<u16>, outer: &SidEntry, inner: &SidEntry) -> Result<(), NoMemory>
    requires { IsInside inner.now.prefix outer.now.prefix → outer.now.prefix.len + 16 ≤ 128 }
    ensures { OnOk result (GetsUnit units.old.items units.new.items outer.now inner.now) }
{
    if !inner.prefix.inside(&outer.prefix) {
        return Ok(());
    }
    units.push(unit(&inner.prefix, outer.prefix.len()))?;
    Ok(())
}

/// The units of the SIDs nested in the SID with a number, in any order: the 16 bits after the
/// SID's. A SID may come directly after it in a container where its first 16 bits after the
/// block's, which then stand there, are none of them.
pub fn units_nested_in(alloc: Global, net: &Net, sid: u32) -> Result<Vec<u16>, NoMemory>
    requires flat { IsFlat net.now }
    requires there { sid < length net.now.sids }
    ensures { IfOk result (λ units. (s : SidEntry) → slice_get net.now.sids sid ≡ Some s
        → AreNestedUnits net.now s units.items) }
{
    net.keeps_rules();
    let outer = net.sid(sid);
    let sids = net.parts().sids.as_slice();
    let mut units = Vec::new(alloc);
    for inner in sids {
        push_unit(&mut units, outer, inner)?;
    }
    Ok(units)
}
