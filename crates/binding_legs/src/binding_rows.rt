//! The origins behind the SIDs of each position.

ghost use Rattle.std.specs.Prelude.{◌≡◌, ◌+◌, ◌≤◌, length, IfOk, Some};
ghost use Rattle.intent_reader.specs.IntentRulesTerms.{IsIntent};
ghost use Rattle.binding_spec.specs.Origins.{binding_origin};
ghost use Rattle.binding_legs.specs.BindingTable.{AreOrigins, AreOriginsAt};

use base::{NoMemory, Seq};
use binding_spec::Origin;
use intent_reader::Intent;
use leg_table::StrictLegs;
use net_model::Net;
use policy_walks::origin_behind;
use std::alloc::Global;

/// The origins behind all SIDs at a position, by the SIDs' numbers; none behind one that isn't of
/// the position, or from which no packet goes on.
pub type Row = Seq<Option<Origin>>;

/// The origin behind a SID at a position
fn origin_at(
    alloc: Global,
    net: &Net,
    intent: &Intent,
    strict: &StrictLegs<'_>,
    position: u32,
    sid: u32,
) -> Result<Option<Origin>, NoMemory>
    requires is_intent { IsIntent net.now intent.now }
    requires strict { strict.now ≡ record { net = net.now; intent = intent.now } }
    requires within { position ≤ length intent.now.steps }
    ensures { IfOk result (λ origin. origin ≡ binding_origin net.now intent.now position (Some sid)) }
{
    if !strict.has_sid(position, sid) {
        return Ok(None);
    }
    origin_behind(alloc, net, intent, position, sid)
}

/// The origins behind the SIDs of a position.
fn row_of(
    alloc: Global,
    net: &Net,
    intent: &Intent,
    strict: &StrictLegs<'_>,
    position: u32,
) -> Result<Row, NoMemory>
    requires is_intent { IsIntent net.now intent.now }
    requires strict { strict.now ≡ record { net = net.now; intent = intent.now } }
    requires within { position ≤ length intent.now.steps }
    ensures { IfOk result (AreOriginsAt net.now intent.now position) }
{
    let mut row = Vec::new(alloc);
    for sid in 0..net.sids() {
        row.push(origin_at(alloc, net, intent, strict, position, sid)?)?;
    }
    Ok(Row::new(row))
}

/// The origins behind the SIDs of each position, from the origin to the end.
pub fn origins_of(
    alloc: Global,
    net: &Net,
    intent: &Intent,
    strict: &StrictLegs<'_>,
) -> Result<Vec<Row>, NoMemory>
    requires is_intent { IsIntent net.now intent.now }
    requires strict { strict.now ≡ record { net = net.now; intent = intent.now } }
    ensures { IfOk result (λ rows.
        AreOrigins net.now intent.now (length intent.now.steps + 1) rows.items) }
{
    let positions = intent.steps.as_slice().len() + 1;
    let mut rows = Vec::new(alloc);
    for position in 0..positions {
        rows.push(row_of(alloc, net, intent, strict, position as u32)?)?;
    }
    Ok(rows)
}
