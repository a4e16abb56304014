//! The table of an intent's legs along steps of which some may be loose.

ghost use Rattle.std.specs.Prelude.{◌≡◌, ◌≤◌, length, Some, IfOk};
ghost use Rattle.net_model.specs.NetworkKeeps.{Keeps};
ghost use Rattle.net_model.specs.NetworkRulesTerms.{IsNetwork};
ghost use Rattle.net_flatness.specs.Flat.{IsFlat};
ghost use Rattle.intent_reader.specs.IntentRulesTerms.{IsIntent};
ghost use Rattle.loose_legs_theory.specs.LooseStepsTerms.{AreSteps};
ghost use Rattle.loose_spec.specs.LooseLegsValue.{sids_of};
ghost use Rattle.loose_legs.specs.IntentSteps.{trace_steps};
ghost use Rattle.loose_legs.specs.LooseTable.{AreLegRows, AreRowsFrom, IsRowFrom, onward_of};

use crate::intent_steps::steps_of;
use crate::loose_rows::{Row, rows_of, stands_of};
use crate::onwards::{Onward, Onwards, first_onwards, further_onwards, tables_of};
use base::{NoMemory, Seq};
use intent_reader::Intent;
use intent_traces::TraceStep;
use leg_table::{Units, may_stay, nested_of, shape_of};
use list_pack::{Leg, Legs, ListLegs, Shape};
use net_model::Net;
use std::alloc::Global;
use std::marker::Model;

/// The SIDs of each position, and what leads on from them.
#[derive(Debug, Drop)]
struct LegRows {
    // by the positions
    rows: Vec<Row>,
    // from the start
    first: Onwards,
    // by the positions, and the SIDs' numbers
    further: Vec<Seq<Onwards>>,
}

/// Those of an intent's steps
fn leg_rows(
    alloc: Global,
    net: &Net,
    intent: &Intent,
    steps: &[TraceStep],
) -> Result<LegRows, NoMemory>
    requires { AreSteps net.now intent.now steps.now }
    ensures { IfOk result (λ legs. AreLegRows net.now intent.now steps.now legs.rows.items
        legs.first legs.further.items) }
{
    let stands = stands_of(alloc, net, intent, steps)?;
    let rows = rows_of(alloc, net, intent, steps, stands.as_slice())?;
    let tables = tables_of(alloc, net, steps)?;
    let first = first_onwards(alloc, net, intent, steps, tables.as_slice())?;
    let further = further_onwards(
        alloc,
        net,
        intent,
        steps,
        tables.as_slice(),
        stands.as_slice(),
    )?;
    Ok(LegRows {
        rows,
        first,
        further,
    })
}

/// The legs of an intent in a network, along steps of which some may be loose: the SIDs
/// of each position, what leads on from them, and what is nested in each SID, so that each question
/// is a look-up.
#[derive(Debug, Drop)]
pub struct LooseLegs<'a> {
    net: &'a Net,
    intent: &'a Intent,
    legs: LegRows,
    // by the SIDs' numbers
    nested: Vec<Units>,
}

impl<'a> Model for LooseLegs<'a> {
    ghost use Rattle.leg_table.specs.StrictTableTerms.{LegTable};
    ghost use Rattle.loose_legs.specs.LooseTable.{IsLooseTable};

    ghost Value = { LegTable };

    ghost view = { λ s. record { net = s.net.now; intent = s.intent.now } };

    ghost invariant = { λ s. IsLooseTable s.net.now s.intent.now s.legs.rows.items
        s.legs.first s.legs.further.items s.nested.items };
}

impl<'a> LooseLegs<'a> {
    /// The legs of an intent that keeps the rules in a flat network of at most 128 SIDs.
    pub fn build(alloc: Global, net: &'a Net, intent: &'a Intent) -> Result<LooseLegs<'a>, NoMemory>
        requires intent { IsIntent net.now intent.now }
        requires flat { IsFlat net.now }
        requires few { length net.now.sids ≤ 128 }
        ensures { IfOk result (λ t. t ≡ record { net = net.now; intent = intent.now }) }
    {
        net.keeps_rules();
        let steps = steps_of(alloc, intent)?;
        let legs = leg_rows(alloc, net, intent, steps.as_slice())?;
        let nested = nested_of(alloc, net)?;
        Ok(LooseLegs {
            net,
            intent,
            legs,
            nested,
        })
    }

    /// That the network and the intent keep their rules, and that the network is flat and has few
    /// SIDs: a call for the callers' proofs alone.
    pub fn keeps_rules(&self)
        ensures network { IsNetwork self.now.net }
        ensures facts { Keeps self.now.net }
        ensures flat { IsFlat self.now.net }
        ensures intent { IsIntent self.now.net self.now.intent }
        ensures steps { AreSteps self.now.net self.now.intent (trace_steps self.now.intent) }
        ensures few { length self.now.net.sids ≤ 128 }
    {
        self.net.keeps_rules();
    }

    fn count(&self) -> u32
        ensures value { result ≡ length (trace_steps self.now.intent) }
        ensures few { result ≤ 48 }
    {
        self.keeps_rules();
        self.intent.steps.as_slice().len() as u32
    }

    fn row(&self, position: u32) -> &[u32]
        requires { position ≤ length (trace_steps self.now.intent) }
        ensures { result.now
            ≡ sids_of self.now.net self.now.intent (trace_steps self.now.intent) position }
    {
        self.legs.rows[position as usize].as_slice()
    }

    /// What leads on from the SIDs of a position
    fn rows_at(&self, position: u32) -> &[Onwards]
        ensures { AreRowsFrom self.now.net self.now.intent (trace_steps self.now.intent) position
            result.now }
    {
        match self.legs.further.get(position as usize) {
            Some(rows) => rows.as_slice(),
            None => &[],
        }
    }

    /// What leads on from a position
    fn row_from(&self, position: u32, via: Option<u32>) -> &[Onward]
        ensures { IsRowFrom self.now.net self.now.intent (trace_steps self.now.intent) position via
            result.now }
    {
        match via {
            None if position == 0 => self.legs.first.as_slice(),
            None => &[],
            Some(sid) => match self.rows_at(position).get(sid as usize) {
                Some(row) => row.as_slice(),
                None => &[],
            },
        }
    }

    /// What leads to a next SID
    fn onward(&self, position: u32, via: Option<u32>, next: u32) -> Onward
        ensures { result ≡ onward_of self.now.net self.now.intent (trace_steps self.now.intent)
            position via next }
    {
        match self.row_from(position, via).get(next as usize) {
            Some(onward) => *onward,
            None => Onward {
                leg: None,
                finish: None,
            },
        }
    }
}

impl<'a> Legs for LooseLegs<'a> {
    ghost use Rattle.loose_legs.specs.IntentSteps.{trace_steps};
    ghost use Rattle.loose_spec.specs.LooseLegsValue.{loose_legs_value};

    ghost seen = { λ t. loose_legs_value t.net t.intent (trace_steps t.intent) };

    fn steps(&self) -> u32 {
        self.keeps_rules();
        self.count()
    }

    fn sid_cost(&self) -> u32 {
        self.intent.prefer.sid_cost()
    }

    fn sids_at(&self, position: u32) -> &[u32] {
        self.row(position)
    }

    fn shape(&self, sid: u32) -> Shape {
        self.keeps_rules();
        shape_of(self.net, sid)
    }

    fn leg(&self, position: u32, via: Option<u32>, next: u32) -> Option<Leg> {
        self.onward(position, via, next).leg
    }

    fn finish(&self, position: u32, via: Option<u32>, next: u32) -> Option<u32> {
        self.onward(position, via, next).finish
    }

    fn stays(&self, sid: u32, next: u32) -> bool {
        self.keeps_rules();
        may_stay(self.net, self.nested.as_slice(), sid, next)
    }
}

impl<'a> ListLegs for LooseLegs<'a> {
    ghost use Rattle.loose_legs.specs.IntentSteps.{trace_steps};
    ghost use Rattle.loose_spec.specs.LooseRealizes.{LooseListExecutes, LooseListHands, LooseListRealizes};

    ghost network = { λ t. t.net };

    ghost realizes = { λ t. LooseListRealizes t.net t.intent (trace_steps t.intent) };

    ghost executes = { λ t. LooseListExecutes t.net t.intent (trace_steps t.intent) };

    ghost hands = { λ t. LooseListHands t.net t.intent (trace_steps t.intent) };

    fn keeps_meaning(&self) {
        self.keeps_rules();
    }
}
