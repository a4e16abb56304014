//! The table of an intent's legs through binding SIDs.

ghost use Rattle.std.specs.Prelude.{◌≡◌, ◌<◌, ◌≤◌, length, IfOk, IfSome};
ghost use Rattle.net_model.specs.NetworkKeeps.{Keeps};
ghost use Rattle.net_model.specs.NetworkRulesTerms.{IsNetwork};
ghost use Rattle.net_flatness.specs.Flat.{IsFlat};
ghost use Rattle.intent_reader.specs.IntentRulesTerms.{IsIntent};
ghost use Rattle.binding_spec.specs.Origins.{binding_origin, leads_on};
ghost use Rattle.binding_legs_theory.specs.OriginFacts.{OriginsFrom};
ghost use Rattle.binding_legs.specs.BindingTable.{binding_way};

use crate::binding_rows::{Row, origins_of};
use base::NoMemory;
use binding_spec::Origin;
use intent_reader::Intent;
use leg_table::{Behind, StrictLegs, headend_place, if_none_left, is_last, leg_with};
use list_pack::{Leg, Legs, ListLegs, Shape};
use net_model::Net;
use std::alloc::Global;
use std::marker::Model;

/// The legs of an intent through binding SIDs in a network: those of strict steps, and an origin for
/// each position and SID, so that each question is a look-up or two.
#[derive(Debug, Drop)]
pub struct BindingLegs<'a> {
    net: &'a Net,
    intent: &'a Intent,
    strict: StrictLegs<'a>,
    // by the positions
    origins: Vec<Row>,
}

impl<'a> Model for BindingLegs<'a> {
    ghost use Rattle.leg_table.specs.StrictTableTerms.{LegTable};
    ghost use Rattle.binding_legs.specs.BindingTable.{IsBindingTable};

    ghost Value = { LegTable };

    ghost view = { λ b. record { net = b.net.now; intent = b.intent.now } };

    ghost invariant = { λ b. IsBindingTable b.net.now b.intent.now b.strict b.origins.items };
}

impl<'a> BindingLegs<'a> {
    /// The legs of an intent that keeps the rules in a flat network. The header of each binding SID
    /// of each position is run once, for at most 1,000 stages.
    pub fn build(
        alloc: Global,
        net: &'a Net,
        intent: &'a Intent,
    ) -> Result<BindingLegs<'a>, NoMemory>
        requires intent { IsIntent net.now intent.now }
        requires flat { IsFlat net.now }
        ensures { IfOk result (λ t. t ≡ record { net = net.now; intent = intent.now }) }
    {
        let strict = StrictLegs::build(alloc, net, intent)?;
        let origins = origins_of(alloc, net, intent, &strict)?;
        Ok(BindingLegs {
            net,
            intent,
            strict,
            origins,
        })
    }

    /// The legs of strict steps
    fn strict(&self) -> &StrictLegs<'a>
        ensures { result.now ≡ self.now }
    {
        &self.strict
    }

    /// That the network and the intent keep their rules, and that the network is flat: a call for
    /// the callers' proofs alone.
    pub fn keeps_rules(&self)
        ensures network { IsNetwork self.now.net }
        ensures facts { Keeps self.now.net }
        ensures flat { IsFlat self.now.net }
        ensures intent { IsIntent self.now.net self.now.intent }
    {
        self.strict().keeps_rules();
    }

    /// From where a packet goes on behind a SID of a position
    fn origin_behind(&self, position: u32, sid: u32) -> Option<Origin>
        ensures { result ≡ binding_origin self.now.net self.now.intent position (Some sid) }
    {
        let row = self.origins.get(position as usize)?;
        match row.as_slice().get(sid as usize) {
            Some(origin) => *origin,
            None => None,
        }
    }

    /// From where a packet goes on to the next SID
    fn origin_from(&self, position: u32, via: Option<u32>) -> Option<Origin>
        ensures { result ≡ binding_origin self.now.net self.now.intent position via }
    {
        match via {
            None if position == 0 => Some(Origin {
                place: headend_place(self.intent),
                done: 0,
            }),
            None => None,
            Some(sid) => self.origin_behind(position, sid),
        }
    }

    /// The same, with what is known of the origin
    fn origin(&self, position: u32, via: Option<u32>) -> Option<Origin>
        ensures value { result ≡ binding_origin self.now.net self.now.intent position via }
        ensures origins { IfSome result (OriginsFrom self.now.net self.now.intent position) }
    {
        self.keeps_rules();
        self.origin_from(position, via)
    }

    /// The way from the origin to a next SID
    fn way(&self, position: u32, via: Option<u32>, next: u32) -> Option<Behind>
        requires { next < length self.now.net.sids }
        ensures value { result ≡ binding_way self.now.net self.now.intent position via next }
        ensures few { IfSome result (λ b.
            (b.left ≤ length self.now.intent.steps) × (b.lowered ≤ 48)) }
    {
        let origin = self.origin(position, via)?;
        self.strict().way_on(origin.done, &origin.place, next)
    }
}

impl<'a> Legs for BindingLegs<'a> {
    ghost use Rattle.binding_spec.specs.BindingLegsValue.{binding_legs_value};

    ghost seen = { λ t. binding_legs_value t.net t.intent };

    fn steps(&self) -> u32 {
        self.keeps_rules();
        self.strict().steps()
    }

    fn sid_cost(&self) -> u32 {
        self.strict().sid_cost()
    }

    fn sids_at(&self, position: u32) -> &[u32] {
        self.strict().sids_at(position)
    }

    fn shape(&self, sid: u32) -> Shape {
        let shape = self.strict().shape(sid);
        Shape {
            middle: leads_on(self.net, sid),
            ..shape
        }
    }

    fn leg(&self, position: u32, via: Option<u32>, next: u32) -> Option<Leg> {
        if !leads_on(self.net, next) {
            return None;
        }
        match self.way(position, via, next) {
            Some(behind) => Some(leg_with(self.steps(), behind.lowered, behind.left)),
            None => None,
        }
    }

    fn finish(&self, position: u32, via: Option<u32>, next: u32) -> Option<u32> {
        if !is_last(self.net, self.intent.inner, next) {
            return None;
        }
        match self.way(position, via, next) {
            Some(behind) => if_none_left(behind.lowered, behind.left),
            None => None,
        }
    }

    fn stays(&self, sid: u32, next: u32) -> bool {
        self.strict().stays(sid, next)
    }
}

impl<'a> ListLegs for BindingLegs<'a> {
    ghost use Rattle.binding_spec.specs.BindingHands.{OwnListExecutes, OwnListHands, OwnListRealizes};

    ghost network = { λ t. t.net };

    ghost realizes = { λ t. OwnListRealizes t.net t.intent };

    ghost executes = { λ t. OwnListExecutes t.net t.intent };

    ghost hands = { λ t. OwnListHands t.net t.intent };

    fn keeps_meaning(&self) {
        self.keeps_rules();
    }
}

/// From a SID a packet goes on to a next segment, with or without a further header in front
fn leads_on(net: &Net, sid: u32) -> bool
    ensures { result ≡ leads_on net.now sid }
{
    sid < net.sids() && net.sid(sid).goes_on()
}
