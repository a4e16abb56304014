//! The legs of an intent in a network.

ghost use Rattle.std.specs.Prelude.{◌≡◌, ◌<◌, ◌≤◌, ℕ, length, drop, Some, IfOk, IfSome};
ghost use Rattle.net_model.specs.NetworkKeeps.{Keeps};
ghost use Rattle.net_model.specs.NetworkRulesTerms.{IsNetwork};
ghost use Rattle.intent_reader.specs.IntentRulesTerms.{IsIntent};
ghost use Rattle.leg_table.specs.Courses.{way_behind};
ghost use Rattle.leg_table.specs.TransitTables.{IsReach, IsOrigin, AreLater, way_along, way_at};
ghost use Rattle.leg_table.specs.StrictLegsTerms as legs_terms;
ghost use Rattle.leg_table.specs.Realizes.{headend_place};
ghost use Rattle.leg_table.specs.PositionSids as sids;
ghost use Rattle.net_flatness.specs.Flat.{IsFlat};

use crate::nest_legs::{Units, may_stay, nested_of};
use crate::sid_shapes::{shape_of, takes_step};
use crate::step_links::{Behind, if_none_left, leg_with};
use crate::strict_rows::{Row, is_sid_at, rows_of};
use crate::transit_table::{TransitTable, reaches_of, way_at, way_from};
use base::NoMemory;
use intent_reader::{Intent, Step};
use list_pack::{Leg, Legs, ListLegs, Shape};
use net_model::Net;
use srv6_rules::numbers::{IPV4_INSIDE, IPV6_INSIDE};
use srv6_rules::{Family, SidEntry};
use std::alloc::Global;
use std::marker::Model;
use walk_rules::{How, Place, onward_from};

/// The legs of an intent in a network, with the SIDs of each position, the ways from its node to
/// all SIDs, and what is nested in each SID, so that each question is a look-up or two.
#[derive(Debug, Drop)]
pub struct StrictLegs<'a> {
    net: &'a Net,
    intent: &'a Intent,
    rows: Vec<Row>,
    // from the last position backwards
    reaches: Vec<TransitTable>,
    // by the SIDs' numbers
    nested: Vec<Units>,
}

impl<'a> Model for StrictLegs<'a> {
    ghost use Rattle.leg_table.specs.StrictTableTerms.{LegTable, IsTable};

    ghost Value = { LegTable };

    ghost view = { λ s. record { net = s.net.now; intent = s.intent.now } };

    ghost invariant = { λ s. IsTable s.net.now s.intent.now s.rows.items s.reaches.items
        s.nested.items };
}

impl<'a> StrictLegs<'a> {
    /// The legs of an intent that keeps the rules in a flat network.
    pub fn build(
        alloc: Global,
        net: &'a Net,
        intent: &'a Intent,
    ) -> Result<StrictLegs<'a>, NoMemory>
        requires intent { IsIntent net.now intent.now }
        requires flat { IsFlat net.now }
        ensures { IfOk result (λ t. t ≡ record { net = net.now; intent = intent.now }) }
    {
        net.keeps_rules();
        let rows = rows_of(alloc, net, intent)?;
        let reaches = reaches_of(alloc, net, intent.headend, intent.steps.as_slice())?;
        let nested = nested_of(alloc, net)?;
        Ok(StrictLegs {
            net,
            intent,
            rows,
            reaches,
            nested,
        })
    }

    /// That the network and the intent keep their rules, and that the network is flat: a call for
    /// the callers' proofs alone.
    pub fn keeps_rules(&self)
        ensures network { IsNetwork self.now.net }
        ensures facts { Keeps self.now.net }
        ensures flat { IsFlat self.now.net }
        ensures intent { IsIntent self.now.net self.now.intent }
    {
        self.net.keeps_rules();
    }

    fn count(&self) -> u32
        ensures value { result ≡ length self.now.intent.steps }
        ensures few { result ≤ 48 }
    {
        self.keeps_rules();
        self.intent.steps.as_slice().len() as u32
    }

    fn row(&self, position: u32) -> &[u32]
        requires { position ≤ length self.now.intent.steps }
        ensures { result.now ≡ sids.sids_of self.now.net self.now.intent position }
    {
        self.rows[position as usize].as_slice()
    }

    /// Whether a SID may be executed at a position, all of whose SIDs stand at one node.
    pub fn has_sid(&self, position: u32, n: u32) -> bool
        requires { position ≤ length self.now.intent.steps }
        ensures { result ≡ sids.is_sid_at self.now.net self.now.intent position n }
    {
        self.keeps_rules();
        let row = self.row(position);
        if row.is_empty() {
            return false;
        }
        if n >= self.net.sids() {
            return false;
        }
        let node = self.net.sid(row[0]).node;
        is_sid_at(self.net, self.intent, position, node, n)
    }

    /// From where a packet starts to the next SID
    fn start(&self, position: u32, via: Option<u32>) -> Option<Place>
        ensures { result ≡ legs_terms.origin_of self.now.net self.now.intent position via }
    {
        self.keeps_rules();
        if position > self.count() {
            return None;
        }
        match via {
            None if position == 0 => Some(headend_place(self.intent)),
            None => None,
            Some(v) if self.has_sid(position, v) => place_behind(self.net, v),
            Some(_) => None,
        }
    }
}

impl<'a> StrictLegs<'a> {
    /// The same, with what is known of the place
    fn place(&self, position: u32, via: Option<u32>) -> Option<Place>
        ensures value { result ≡ legs_terms.origin_of self.now.net self.now.intent position via }
        ensures is_origin { IfSome result (λ place.
            IsOrigin self.now.net self.now.intent position place) }
    {
        self.keeps_rules();
        self.start(position, via)
    }

    /// The ways from the node where the walk stands at a position
    fn reach(&self, position: u32) -> &TransitTable
        requires { position ≤ length self.now.intent.steps }
        ensures { (at : ℕ) → sids.node_at self.now.net self.now.intent position ≡ Some at →
            IsReach self.now.net (drop position self.now.intent.steps) at result.now }
    {
        let count = self.count();
        &self.reaches[(count - position) as usize]
    }

    /// The steps from a position on
    fn rest(&self, position: u32) -> &[Step]
        requires { position ≤ length self.now.intent.steps }
        ensures value { result.now ≡ drop position self.now.intent.steps }
        ensures few { length result.now ≤ 48 }
    {
        self.count();
        let (_, rest) = self.intent.steps.as_slice().split_at(position as usize);
        rest
    }

    /// The ways from where the step that starts at a position ends, if one does
    fn later(&self, position: u32) -> &[Option<Behind>]
        requires { position ≤ length self.now.intent.steps }
        ensures { (at : ℕ) → sids.node_at self.now.net self.now.intent position ≡ Some at →
            AreLater self.now.net at (drop position self.now.intent.steps) result.now
            × ((n : ℕ) → IfSome (way_at result.now n) (λ b. b.lowered ≤ 48)) }
    {
        self.keeps_rules();
        if position < self.count() {
            self.reach(position + 1).arrived.as_slice()
        } else {
            &[]
        }
    }

    /// The way of a packet to a next SID and its execution, along the steps from a position on,
    /// from a place at the node where the walk stands at that position: how many steps are left
    /// then, and how often the hop limit was lowered. None where the packet doesn't come to the SID
    /// first, or leaves the steps before.
    pub fn way_on(&self, position: u32, place: &Place, next: u32) -> Option<Behind>
        requires next { next < length self.now.net.sids }
        requires start { IsOrigin self.now.net self.now.intent position place.now }
        ensures value { result
            ≡ way_along self.now.net (drop position self.now.intent.steps) place.now next }
        ensures few { IfSome result (λ b.
            (b.left ≤ length self.now.intent.steps) × (b.lowered ≤ 48)) }
    {
        self.keeps_rules();
        self.way_found(position, place, next)
    }

    /// The same, without its bounds
    fn way_found(&self, position: u32, place: &Place, next: u32) -> Option<Behind>
        requires next { next < length self.now.net.sids }
        requires start { IsOrigin self.now.net self.now.intent position place.now }
        ensures { result
            ≡ way_along self.now.net (drop position self.now.intent.steps) place.now next }
    {
        match place.how {
            How::Submitted { table: 0 } => {
                way_at(self.reach(position).submitted.as_slice(), next)
            }
            How::Arrived { table: 0 } => way_at(self.reach(position).arrived.as_slice(), next),
            How::Arrived { .. } | How::Submitted { .. } | How::Through { .. } => {
                let steps = self.rest(position);
                way_from(self.net, steps, self.later(position), place, next)
            }
        }
    }

    /// The way from the start to a next SID
    fn way_behind(&self, position: u32, via: Option<u32>, next: u32) -> Option<Behind>
        requires { next < length self.now.net.sids }
        ensures value { result ≡ way_behind self.now.net self.now.intent position via next }
        ensures few { IfSome result (λ b.
            (b.left ≤ length self.now.intent.steps) × (b.lowered ≤ 48)) }
    {
        let place = self.place(position, via)?;
        self.way_on(position, &place, next)
    }
}

impl<'a> Legs for StrictLegs<'a> {
    ghost use Rattle.leg_table.specs.StrictLegsValue.{legs_value};

    ghost seen = { λ t. legs_value t.net t.intent };

    fn steps(&self) -> u32 {
        self.keeps_rules();
        self.count()
    }

    fn sid_cost(&self) -> u32 {
        self.intent.prefer.sid_cost()
    }

    fn sids_at(&self, position: u32) -> &[u32] {
        self.row(position)
    }

    fn shape(&self, sid: u32) -> Shape {
        self.keeps_rules();
        shape_of(self.net, sid)
    }

    fn leg(&self, position: u32, via: Option<u32>, next: u32) -> Option<Leg> {
        if !is_middle(self.net, next) {
            return None;
        }
        match self.way_behind(position, via, next) {
            Some(behind) => Some(leg_with(self.count(), behind.lowered, behind.left)),
            None => None,
        }
    }

    fn finish(&self, position: u32, via: Option<u32>, next: u32) -> Option<u32> {
        if !is_last(self.net, self.intent.inner, next) {
            return None;
        }
        match self.way_behind(position, via, next) {
            Some(behind) => if_none_left(behind.lowered, behind.left),
            None => None,
        }
    }

    fn stays(&self, sid: u32, next: u32) -> bool {
        self.keeps_rules();
        may_stay(self.net, self.nested.as_slice(), sid, next)
    }
}

impl<'a> ListLegs for StrictLegs<'a> {
    ghost use Rattle.leg_table.specs.Realizes.{ListRealizes};
    ghost use Rattle.leg_table.specs.RealizesTerms.{ListExecutes, ListHands};

    ghost network = { λ t. t.net };

    ghost realizes = { λ t. ListRealizes t.net t.intent };

    ghost executes = { λ t. ListExecutes t.net t.intent };

    ghost hands = { λ t. ListHands t.net t.intent };

    fn keeps_meaning(&self) {
        self.keeps_rules();
    }
}

/// The SID exposes a packet of a family inside
fn hands_over(sid: &SidEntry, family: Family) -> bool
    ensures { result ≡ sids.hands_over family sid.now }
{
    sid.exposes(match family {
        Family::V6 => IPV6_INSIDE,
        Family::V4 => IPV4_INSIDE,
    })
}

/// Whether there is a SID with this number from which the packet goes on to a next segment, after
/// no further header.
pub fn is_middle(net: &Net, n: u32) -> bool
    ensures { result ≡ sids.is_middle net.now n }
{
    n < net.sids() && takes_step(net.sid(n))
}

/// Whether there is a SID with this number that exposes a packet of a family inside.
pub fn is_last(net: &Net, family: Family, n: u32) -> bool
    ensures { result ≡ sids.is_last net.now family n }
{
    n < net.sids() && hands_over(net.sid(n), family)
}

/// Where the packet stands that the headend of an intent makes.
pub fn headend_place(intent: &Intent) -> Place
    ensures { result ≡ headend_place intent.now }
{
    Place {
        node: intent.headend,
        how: How::Submitted { table: 0 },
        family: Family::V6,
    }
}

/// Where the packet stands after the execution of a middle SID: none after any other.
pub fn place_behind(net: &Net, v: u32) -> Option<Place>
    ensures { result ≡ legs_terms.middle_place net.now v }
{
    if !is_middle(net, v) {
        return None;
    }
    let sid = net.sid(v);
    Some(Place {
        node: sid.node,
        how: onward_from(v, &sid.behaviour),
        family: Family::V6,
    })
}
