//! Events one after the other, and what is left after them.

ghost use Rattle.std.specs.Prelude.{◌≡◌, ℕ, ◌≤◌, ◌<◌, OnOk, Some, length, replicate, slice_get};
ghost use Rattle.packet_walk.specs.FlightTerms.{IsNumber};
ghost use Rattle.walk_rules.specs.declared.limits.TheConstants.{MAX_STAGES};
ghost use Rattle.command_output.specs.CommandAnswers.{ending_of_step};
ghost use Rattle.command_output.specs.GatheredTerms.{Goes, pooled};
ghost use Rattle.update_driver.specs.declared.seat.Seat.TheVariants as seats;
ghost use Rattle.update_driver.specs.Events.{to_their_ends};
ghost use Rattle.update_driver.specs.Going.{GoesOn, IsGoing, has_ended, written};
ghost use Rattle.update_driver.specs.Moving.{sides_by};

use crate::moving::{Moving, Sides};
use crate::seat::Seat;
use command_output::{Failure, Pool};
use run_commands::Enters;
use srx_edge::Sink;
use std::alloc::Global;
use walk_rules::MAX_STAGES;

impl<'a> Moving<'a> {
    /// Writes what happens by events.
    pub(crate) fn put_events<W: Enters, O: Sink, E: Sink>(
        &mut self,
        alloc: Global,
        sides: &Sides<W>,
        events: &[u32],
        pool: &mut Pool,
        out: &mut O,
        err: &mut E,
    ) -> Result<(), Failure>
        requires old { W.ready sides.now.old }
        requires new { W.ready sides.now.new }
        requires going { IsGoing (sides_by (W.entry sides.now.old) (W.entry sides.now.new))
            self.old }
        ensures after { OnOk result (GoesOn
            (sides_by (W.entry sides.now.old) (W.entry sides.now.new))
            events.now self.old self.new) }
        ensures wrote { Goes (ending_of_step result) (written
            (sides_by (W.entry sides.now.old) (W.entry sides.now.new)) self.old events.now)
            (pooled pool.old (O.seen out.old) (E.seen err.old))
            (pooled pool.new (O.seen out.new) (E.seen err.new)) }
    {
        let mut rest = events;
        'events: while let [event, more @ ..] = rest {
            self.put_event(alloc, sides, *event, pool, out, err)?;
            rest = more;
        }
        Ok(())
    }

    /// Whether the packet of a frame has no stage to come.
    fn is_over(&self, at: usize) -> bool
        requires numbered { (packet : ℕ) → slice_get self.now.seats.items at
            ≡ Some (seats.Entered packet)
            → IsNumber self.now.update.transition.packets.packets packet }
        requires at { at < length self.now.seats.items }
        ensures { result ≡ has_ended self.now.update (slice_get self.now.seats.items at) }
    {
        match &self.seats[at] {
            Seat::ToCome(_) => false,
            Seat::Entered(packet) => self.update.packets().ended(*packet).is_some(),
            Seat::Gone => true,
        }
    }

    /// The packet of a frame goes to its end.
    fn put_to_end<W: Enters, O: Sink, E: Sink>(
        &mut self,
        alloc: Global,
        sides: &Sides<W>,
        number: u32,
        pool: &mut Pool,
        out: &mut O,
        err: &mut E,
    ) -> Result<(), Failure>
        requires old { W.ready sides.now.old }
        requires new { W.ready sides.now.new }
        requires going { IsGoing (sides_by (W.entry sides.now.old) (W.entry sides.now.new))
            self.old }
        requires number { 1 ≤ number }
        requires at { number ≤ length self.old.seats.items }
        ensures after { OnOk result (GoesOn
            (sides_by (W.entry sides.now.old) (W.entry sides.now.new))
            (replicate MAX_STAGES number) self.old self.new) }
        ensures wrote { Goes (ending_of_step result) (written
            (sides_by (W.entry sides.now.old) (W.entry sides.now.new))
            self.old (replicate MAX_STAGES number))
            (pooled pool.old (O.seen out.old) (E.seen err.old))
            (pooled pool.new (O.seen out.new) (E.seen err.new)) }
    {
        let mut left = MAX_STAGES;
        'stages: while left > 0 {
            if self.is_over((number - 1) as usize) {
                return Ok(());
            }
            self.put_packet(alloc, sides, number, pool, out, err)?;
            left -= 1;
        }
        Ok(())
    }

    /// The packets that are left go to their ends, in the order of their numbers.
    pub(crate) fn put_rest<W: Enters, O: Sink, E: Sink>(
        &mut self,
        alloc: Global,
        sides: &Sides<W>,
        pool: &mut Pool,
        out: &mut O,
        err: &mut E,
    ) -> Result<(), Failure>
        requires old { W.ready sides.now.old }
        requires new { W.ready sides.now.new }
        requires going { IsGoing (sides_by (W.entry sides.now.old) (W.entry sides.now.new))
            self.old }
        ensures after { OnOk result (GoesOn
            (sides_by (W.entry sides.now.old) (W.entry sides.now.new))
            (to_their_ends self.old.seats.items) self.old self.new) }
        ensures wrote { Goes (ending_of_step result) (written
            (sides_by (W.entry sides.now.old) (W.entry sides.now.new))
            self.old (to_their_ends self.old.seats.items))
            (pooled pool.old (O.seen out.old) (E.seen err.old))
            (pooled pool.new (O.seen out.new) (E.seen err.new)) }
    {
        let count = self.seats.len() as u32;
        let mut number = 0;
        'packets: while number < count {
            number += 1;
            self.put_to_end(alloc, sides, number, pool, out, err)?;
        }
        Ok(())
    }

    /// So many edits are asked for.
    pub(crate) fn put_edits<W: Enters, O: Sink, E: Sink>(
        &mut self,
        alloc: Global,
        sides: &Sides<W>,
        count: usize,
        pool: &mut Pool,
        out: &mut O,
        err: &mut E,
    ) -> Result<(), Failure>
        requires old { W.ready sides.now.old }
        requires new { W.ready sides.now.new }
        requires going { IsGoing (sides_by (W.entry sides.now.old) (W.entry sides.now.new))
            self.old }
        ensures after { OnOk result (GoesOn
            (sides_by (W.entry sides.now.old) (W.entry sides.now.new))
            (replicate count 0) self.old self.new) }
        ensures wrote { Goes (ending_of_step result) (written
            (sides_by (W.entry sides.now.old) (W.entry sides.now.new)) self.old (replicate count 0))
            (pooled pool.old (O.seen out.old) (E.seen err.old))
            (pooled pool.new (O.seen out.new) (E.seen err.new)) }
    {
        let mut left = count;
        'edits: while left > 0 {
            self.put_event(alloc, sides, 0, pool, out, err)?;
            left -= 1;
        }
        Ok(())
    }
}
