//! The driver of packets and events.

ghost use Rattle.std.specs.Prelude.{◌≡◌, ◌+◌, ◌++◌, [], IfOk, length, replicate};
ghost use Rattle.command_inputs.specs.InputPackets.{fault_of, reading_of};
ghost use Rattle.command_inputs.specs.InputPacketsTerms.{HasHead};
ghost use Rattle.command_output.specs.CommandAnswers.{ending_of_step};
ghost use Rattle.command_output.specs.GatheredTerms.{Goes, WroteInGroups, pooled};
ghost use Rattle.command_output.specs.OutputPiecesTerms.{sinks_of};
ghost use Rattle.run_commands.specs.AdmissionTerms.{AllEnterIn};
ghost use Rattle.update_plan.specs.UpdateState.{starting_by};
ghost use Rattle.update_driver.specs.Events.{to_their_ends, update_pieces};
ghost use Rattle.update_driver.specs.Going.{IsGoing, moving_of, written};
ghost use Rattle.update_driver.specs.Moving.{first_member, sides_by};

use crate::arriving::{put_first, seats_of};
use crate::moving::{Moving, Sides};
use crate::seat::Seat;
use command_inputs::{Frames, Packets};
use command_output::{Failure, Pool, Refusal};
use net_model::Net;
use run_commands::Enters;
use srx_edge::Sink;
use std::alloc::{AllocError, Global};
use update_plan::{Plan, Update};

/// The choices of each packet: every decision takes the first member.
fn first_member(alloc: Global) -> Result<Vec<u32>, AllocError>
    ensures { IfOk result (λ choices. choices.items ≡ first_member) }
{
    Ok(vec![in alloc; 0]?)
}

/// How many edits there are: each addition, the switch, each removal.
fn count_edits(plan: &Plan) -> usize
    ensures { result ≡ length plan.now.added + length plan.now.removed + 1 }
{
    plan.added().len() + plan.removed().len() + 1
}

/// What is on its way before the first event; a network has the names of both descriptions, and each
/// packet takes these choices.
fn start<'a>(
    alloc: Global,
    net: &'a Net,
    choices: &'a [u32],
    plan: Plan,
    seats: Vec<Seat>,
) -> Moving<'a>
    ensures net { result.net.now ≡ net.now }
    ensures choices { result.choices.now ≡ choices.now }
    ensures moving { moving_of result
        ≡ record { update = starting_by plan; seats = seats.items; numbers = [] } }
{
    Moving {
        net,
        choices,
        update: Update::new(alloc, plan),
        seats,
        numbers: Vec::new(alloc),
        line: String::new(alloc),
    }
}

/// A change of a network under packets.
#[derive(Clone, Copy, Drop)]
pub struct Change<'a, W> {
    /// The old description's network.
    pub net: &'a Net,
    /// How packets enter by both descriptions.
    pub sides: &'a Sides<W>,
    /// An event 0 is one edit, and another number a stage of the packet of that number, counted from
    /// 1, which enters first where it hasn't; after the last event the packets that are left go to
    /// their ends in the order of their numbers, and then the edits that are left are done.
    pub events: &'a [u32],
}

/// Writes what happens by the events and after them, by a pool.
fn put_moves<W: Enters, O: Sink, E: Sink>(
    alloc: Global,
    change: &Change<'_, W>,
    moving: &mut Moving<'_>,
    count: usize,
    pool: &mut Pool,
    out: &mut O,
    err: &mut E,
) -> Result<(), Failure>
    requires old { W.ready change.now.sides.now.old }
    requires new { W.ready change.now.sides.now.new }
    requires going { IsGoing (sides_by (W.entry change.now.sides.now.old)
        (W.entry change.now.sides.now.new)) moving.old }
    ensures { Goes (ending_of_step result) (written (sides_by (W.entry change.now.sides.now.old)
        (W.entry change.now.sides.now.new)) moving.old
        (change.now.events.now ++ (to_their_ends moving.old.seats.items ++ replicate count 0)))
        (pooled pool.old (O.seen out.old) (E.seen err.old))
        (pooled pool.new (O.seen out.new) (E.seen err.new)) }
{
    moving.put_events(alloc, change.sides, change.events, pool, out, err)?;
    moving.put_rest(alloc, change.sides, pool, out, err)?;
    moving.put_edits(alloc, change.sides, count, pool, out, err)
}

/// Writes the capture's head and the lines of the packets that stay before the first event, of a
/// first source of the frames, and what happens by the events to the packets of a second; gives the
/// refusal of what comes after the frames, if anything does.
fn drive_frames<N: Frames, W: Enters, O: Sink, E: Sink>(
    alloc: Global,
    change: &Change<'_, W>,
    plan: Plan,
    first: &mut N,
    again: &mut N,
    out: &mut O,
    err: &mut E,
) -> Result<Option<Refusal>, Failure>
    requires old { W.ready change.now.sides.now.old }
    requires new { W.ready change.now.sides.now.new }
    requires here { AllEnterIn change.now.net.now (W.entry change.now.sides.now.old) }
    requires within_old { AllEnterIn plan.joined (W.entry change.now.sides.now.old) }
    requires within_new { AllEnterIn plan.joined (W.entry change.now.sides.now.new) }
    requires nodes { plan.joined.nodes ≡ change.now.net.now.nodes }
    requires links { plan.joined.links ≡ change.now.net.now.links }
    requires same { N.seen again.old ≡ N.seen first.old }
    ensures fault { IfOk result (λ fault. fault ≡ (N.seen first.old).end) }
    ensures wrote { WroteInGroups (ending_of_step result)
        (update_pieces change.now.net.now (sides_by (W.entry change.now.sides.now.old)
        (W.entry change.now.sides.now.new)) plan
        (N.seen first.old).frames change.now.events.now)
        (sinks_of (O.seen out.old) (E.seen err.old)) (sinks_of (O.seen out.new) (E.seen err.new)) }
{
    let mut pool = Pool::new(alloc)?;
    let enters = &change.sides.old;
    put_first(alloc, change.net, enters, first, &mut pool, out, err)?;
    let (seats, fault) = seats_of(alloc, enters, again)?;
    let choices = first_member(alloc)?;
    let count = count_edits(&plan);
    let mut moving = start(alloc, change.net, choices.as_slice(), plan, seats);
    put_moves(alloc, change, &mut moving, count, &mut pool, out, err)?;
    pool.pour(out, err)?;
    Ok(fault)
}

/// Writes the capture's head, the lines of the packets of the input that stay before the first
/// event, and then what happens by the events and after them, as each happens. It goes out in
/// groups, and nothing waits at the end; after a fault or want of memory what still waited is lost.
/// Gives the refusal of what comes after the frames, if anything does.
pub fn drive_update<W: Enters, O: Sink, E: Sink>(
    alloc: Global,
    change: &Change<'_, W>,
    plan: Plan,
    packets: &Packets,
    out: &mut O,
    err: &mut E,
) -> Result<Option<Refusal>, Failure>
    requires old { W.ready change.now.sides.now.old }
    requires new { W.ready change.now.sides.now.new }
    requires here { AllEnterIn change.now.net.now (W.entry change.now.sides.now.old) }
    requires within_old { AllEnterIn plan.joined (W.entry change.now.sides.now.old) }
    requires within_new { AllEnterIn plan.joined (W.entry change.now.sides.now.new) }
    requires nodes { plan.joined.nodes ≡ change.now.net.now.nodes }
    requires links { plan.joined.links ≡ change.now.net.now.links }
    requires head { HasHead packets.now }
    ensures fault { IfOk result (λ fault. fault ≡ fault_of (reading_of packets.now)) }
    ensures wrote { WroteInGroups (ending_of_step result)
        (update_pieces change.now.net.now
        (sides_by (W.entry change.now.sides.now.old) (W.entry change.now.sides.now.new)) plan
        (reading_of packets.now).frames change.now.events.now)
        (sinks_of (O.seen out.old) (E.seen err.old)) (sinks_of (O.seen out.new) (E.seen err.new)) }
{
    let mut first = packets.frames();
    let mut again = packets.frames();
    drive_frames(alloc, change, plan, &mut first, &mut again, out, err)
}
