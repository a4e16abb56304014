//! Legs of the kind that an intent and its network ask for.

ghost use Rattle.std.specs.Prelude.{◌≡◌, true, false, IfOk};
ghost use Rattle.net_model.specs.NetworkKeeps.{Keeps};
ghost use Rattle.net_model.specs.NetworkRulesTerms.{IsNetwork};
ghost use Rattle.net_flatness.specs.Flat.{IsFlat};
ghost use Rattle.intent_reader.specs.IntentRulesTerms.{IsIntent};
ghost use Rattle.intent_compiler.specs.LegKinds.{BindsNothing};
ghost use Rattle.intent_compiler.specs.LegKindsTerms.{BindsSomething};
ghost use Rattle.intent_compiler.specs.IntentLegs.{intent_legs_value};

use base::NoMemory;
use binding_legs::BindingLegs;
use intent_reader::{Intent, has_reach};
use leg_table::StrictLegs;
use list_pack::{Leg, Legs, ListLegs, Shape};
use loose_legs::LooseLegs;
use net_model::Net;
use std::alloc::Global;
use std::marker::Model;

/// A kind of legs.
#[derive(Debug, Drop)]
enum Kind<'a> {
    /// Of a network without binding SIDs.
    Strict(StrictLegs<'a>),
    /// Through binding SIDs.
    Binding(BindingLegs<'a>),
    /// Along steps of which one is loose.
    Loose(LooseLegs<'a>),
}

/// The legs of an intent in a network: where a step is loose, the legs along such steps;
/// else those through binding SIDs, where there is a binding SID, and those of strict steps where
/// there is none, which are the same there.
#[derive(Debug, Drop)]
pub struct IntentLegs<'a> {
    kind: Kind<'a>,
}

impl<'a> Model for IntentLegs<'a> {
    ghost use Rattle.leg_table.specs.StrictTableTerms.{LegTable};
    ghost use Rattle.intent_compiler.specs.LegKindsTerms.{SuitsKind, table_of};

    ghost Value = { LegTable };

    ghost view = { λ l. table_of l.kind };

    ghost invariant = { λ l. SuitsKind l.kind };
}

/// No SID is a binding SID.
fn binds_nothing(net: &Net) -> bool
    ensures nothing { result ≡ true → BindsNothing net.now }
    ensures some { result ≡ false → BindsSomething net.now }
{
    for n in 0..net.sids() {
        if net.sid(n).behaviour.policy().is_some() {
            return false;
        }
    }
    true
}

impl<'a> IntentLegs<'a> {
    /// The legs of an intent that keeps the rules in a flat network.
    pub fn build(
        alloc: Global,
        net: &'a Net,
        intent: &'a Intent,
    ) -> Result<IntentLegs<'a>, NoMemory>
        requires intent { IsIntent net.now intent.now }
        requires flat { IsFlat net.now }
        ensures { IfOk result (λ t. t ≡ record { net = net.now; intent = intent.now }) }
    {
        if has_reach(intent.steps.as_slice()) {
            let legs = LooseLegs::build(alloc, net, intent)?;
            return Ok(IntentLegs {
                kind: Kind::Loose(legs),
            });
        }
        if binds_nothing(net) {
            let legs = StrictLegs::build(alloc, net, intent)?;
            return Ok(IntentLegs {
                kind: Kind::Strict(legs),
            });
        }
        let legs = BindingLegs::build(alloc, net, intent)?;
        Ok(IntentLegs {
            kind: Kind::Binding(legs),
        })
    }

    /// That the network and the intent keep their rules, and that the network is flat: a call for
    /// the callers' proofs alone.
    pub fn keeps_rules(&self)
        ensures network { IsNetwork self.now.net }
        ensures facts { Keeps self.now.net }
        ensures flat { IsFlat self.now.net }
        ensures intent { IsIntent self.now.net self.now.intent }
    {
        match &self.kind {
            Kind::Strict(legs) => legs.keeps_rules(),
            Kind::Binding(legs) => legs.keeps_rules(),
            Kind::Loose(legs) => legs.keeps_rules(),
        }
    }

    /// How many steps the intent has
    fn count(&self) -> u32
        ensures { result ≡ (intent_legs_value self.now.net self.now.intent).steps }
    {
        match &self.kind {
            Kind::Strict(legs) => legs.steps(),
            Kind::Binding(legs) => legs.steps(),
            Kind::Loose(legs) => legs.steps(),
        }
    }
}

impl<'a> Legs for IntentLegs<'a> {
    ghost seen = { λ t. intent_legs_value t.net t.intent };

    fn steps(&self) -> u32 {
        self.keeps_rules();
        self.count()
    }

    fn sid_cost(&self) -> u32 {
        match &self.kind {
            Kind::Strict(legs) => legs.sid_cost(),
            Kind::Binding(legs) => legs.sid_cost(),
            Kind::Loose(legs) => legs.sid_cost(),
        }
    }

    fn sids_at(&self, position: u32) -> &[u32] {
        match &self.kind {
            Kind::Strict(legs) => legs.sids_at(position),
            Kind::Binding(legs) => legs.sids_at(position),
            Kind::Loose(legs) => legs.sids_at(position),
        }
    }

    fn shape(&self, sid: u32) -> Shape {
        match &self.kind {
            Kind::Strict(legs) => legs.shape(sid),
            Kind::Binding(legs) => legs.shape(sid),
            Kind::Loose(legs) => legs.shape(sid),
        }
    }

    fn leg(&self, position: u32, via: Option<u32>, next: u32) -> Option<Leg> {
        match &self.kind {
            Kind::Strict(legs) => legs.leg(position, via, next),
            Kind::Binding(legs) => legs.leg(position, via, next),
            Kind::Loose(legs) => legs.leg(position, via, next),
        }
    }

    fn finish(&self, position: u32, via: Option<u32>, next: u32) -> Option<u32> {
        match &self.kind {
            Kind::Strict(legs) => legs.finish(position, via, next),
            Kind::Binding(legs) => legs.finish(position, via, next),
            Kind::Loose(legs) => legs.finish(position, via, next),
        }
    }

    fn stays(&self, sid: u32, next: u32) -> bool {
        match &self.kind {
            Kind::Strict(legs) => legs.stays(sid, next),
            Kind::Binding(legs) => legs.stays(sid, next),
            Kind::Loose(legs) => legs.stays(sid, next),
        }
    }
}

impl<'a> ListLegs for IntentLegs<'a> {
    ghost use Rattle.intent_compiler.specs.IntentLegs.{ListExecutesFor, ListHandsFor, ListRealizesFor};

    ghost network = { λ t. t.net };

    ghost realizes = { λ t. ListRealizesFor t.net t.intent };

    ghost executes = { λ t. ListExecutesFor t.net t.intent };

    ghost hands = { λ t. ListHandsFor t.net t.intent };

    fn keeps_meaning(&self) {
        self.keeps_rules();
    }
}
