//! Which SIDs may come directly after another in its container, as far as nested SIDs go.

ghost use Rattle.std.specs.Prelude.{◌≡◌, ◌==◌, ◌<◌, Some, IfOk, length, slice_get};
ghost use Rattle.std.specs.List.{list_any};
ghost use Rattle.srv6_rules.specs.declared.sid.SidEntry.{SidEntry};
ghost use Rattle.net_flatness.specs.Flat.{IsFlat};
ghost use Rattle.net_flatness.specs.Units.{AreNestedUnits};
ghost use Rattle.leg_table.specs.NestLegs.{stays_of};
ghost use Rattle.leg_table.specs.NestLegsTerms.{AreNested};

use base::{NoMemory, Seq};
use net_flatness::units_nested_in;
use net_model::Net;
use std::alloc::Global;
use v6_addr::field;

/// The units of the SIDs nested in a SID: the 16 bits after the SID's.
pub type Units = Seq<u16>;

/// The units of the SIDs nested in each SID of a flat network, by the SIDs' numbers.
pub fn nested_of(alloc: Global, net: &Net) -> Result<Vec<Units>, NoMemory>
    requires { IsFlat net.now }
    ensures { IfOk result (λ nested. AreNested net.now (length net.now.sids) nested.items) }
{
    let mut nested = Vec::new(alloc);
    for n in 0..net.sids() {
        nested.push(Units::new(units_nested_in(alloc, net, n)?))?;
    }
    Ok(nested)
}

/// A unit is one of these
fn is_among(units: &[u16], unit: u16) -> bool
    ensures { result ≡ list_any (λ u. u == unit) units.now }
{
    units.iter().any(|u| *u == unit)
}

/// A SID may come directly after one with these units nested in it: its own first 16 bits after
/// that one's block are none of them
fn stays_by(net: &Net, units: &[u16], sid: u32, next: u32) -> bool
    requires is_there { sid < length net.now.sids }
    requires next_there { next < length net.now.sids }
    requires units { (s : SidEntry) → slice_get net.now.sids sid ≡ Some s
        → AreNestedUnits net.now s units.now }
    ensures { result ≡ stays_of net.now sid next }
{
    net.keeps_rules();
    if units.is_empty() {
        return true;
    }
    let unit = field(net.sid(next).prefix.value(), net.sid(sid).block_len, 16) as u16;
    !is_among(units, unit)
}

/// Whether a SID may come directly after another in its container, as far as the SIDs nested in
/// that one go: by the units of the SIDs nested in each SID.
pub fn may_stay(net: &Net, nested: &[Units], sid: u32, next: u32) -> bool
    requires is_there { sid < length net.now.sids }
    requires next_there { next < length net.now.sids }
    requires nested { AreNested net.now (length net.now.sids) nested.now }
    ensures { result ≡ stays_of net.now sid next }
{
    stays_by(net, nested[sid as usize].as_slice(), sid, next)
}
