//! Bytes for both sinks, gathered before they go out.

ghost use Rattle.std.specs.Prelude.{◌≡◌, ◌+◌, ◌≤◌, ◌∷◌, [], IfOk, OnOk, length};
ghost use Rattle.std.specs.Bool.{OnTrue};
ghost use Rattle.pcap_io.specs.Capture.{written_frame_bytes};
ghost use Rattle.command_output.specs.CommandAnswers.{ending_of_step};
ghost use Rattle.command_output.specs.GatheredTerms.{Goes, WantsInSinks, none_waits, pooled, waiting_pieces};
ghost use Rattle.command_output.specs.OutputPieces.{ForErr, ForOut};
ghost use Rattle.command_output.specs.OutputPiecesTerms.{WroteAll, sinks_of};

use crate::halt::Failure;
use crate::limits::MOST_WAITING;
use crate::sinks::write_all;
use base::NoMemory;
use pcap_io::write_frame;
use srv6_rules::numbers::MAX_PACKET_LEN;
use srx_edge::Sink;
use std::alloc::Global;
use std::marker::Model;

/// Bytes of a frame's head in the capture that is written.
const FRAME_HEAD_LEN: usize = 16;

/// What waits to be written: bytes for `out` and bytes for `err`. Those for `out` go out before
/// those for `err`, so that no line stands on `err` before what comes in front of it stands on
/// `out`. Contracts see the bytes that wait for each.
#[derive(Debug, Drop)]
pub struct Pool {
    out: Vec<u8>,
    err: Vec<u8>,
}

impl Model for Pool {
    ghost use Rattle.std.specs.Prelude.{◌≤◌};
    ghost use Rattle.std.specs.Vec.{vec_capacity};
    ghost use Rattle.command_output.specs.GatheredTerms.{Waiting};
    ghost use Rattle.command_output.specs.declared.limits.TheConstants.{MOST_WAITING};

    ghost Value = { Waiting };

    ghost view = { λ pool. record { out = pool.out.items; err = pool.err.items } };

    // So no call after the first takes memory.
    ghost invariant = { λ pool. (MOST_WAITING ≤ vec_capacity pool.out)
        × (MOST_WAITING ≤ vec_capacity pool.err) };
}

/// Whether bytes have room beside those that wait.
fn has_room(waiting: usize, more: usize) -> bool
    requires { more ≤ MOST_WAITING }
    ensures { OnTrue result (waiting + more ≤ MOST_WAITING) }
{
    waiting <= MOST_WAITING - more
}

impl Pool {
    /// One in which nothing waits, with room for all that may wait.
    pub fn new(alloc: Global) -> Result<Pool, NoMemory>
        ensures { IfOk result (λ pool. pool ≡ none_waits) }
    {
        Ok(Pool {
            out: Vec::with_capacity(alloc, MOST_WAITING)?,
            err: Vec::with_capacity(alloc, MOST_WAITING)?,
        })
    }

    /// Pours what waits: what is for `out`, and then what is for `err`; none waits after it.
    pub fn pour<O: Sink, E: Sink>(&mut self, out: &mut O, err: &mut E) -> Result<(), Failure>
        ensures wrote { WroteAll (ending_of_step result) (waiting_pieces self.old)
            (sinks_of (O.seen out.old) (E.seen err.old))
            (sinks_of (O.seen out.new) (E.seen err.new)) }
        ensures wants { WantsInSinks (ending_of_step result)
            (sinks_of (O.seen out.old) (E.seen err.old))
            (sinks_of (O.seen out.new) (E.seen err.new)) }
        ensures emptied { OnOk result (self.new ≡ none_waits) }
    {
        write_all(out, self.out.as_slice())?;
        write_all(err, self.err.as_slice())?;
        self.out.clear();
        self.err.clear();
        Ok(())
    }

    /// Pours what waits, if there is no room for more beside it.
    fn make_room<O: Sink, E: Sink>(
        &mut self,
        for_out: usize,
        for_err: usize,
        out: &mut O,
        err: &mut E,
    ) -> Result<(), Failure>
        requires for_out { for_out ≤ MOST_WAITING }
        requires for_err { for_err ≤ MOST_WAITING }
        ensures goes { Goes (ending_of_step result) []
            (pooled self.old (O.seen out.old) (E.seen err.old))
            (pooled self.new (O.seen out.new) (E.seen err.new)) }
        ensures wants { WantsInSinks (ending_of_step result)
            (sinks_of (O.seen out.old) (E.seen err.old))
            (sinks_of (O.seen out.new) (E.seen err.new)) }
        ensures out { OnOk result (length self.new.out + for_out ≤ MOST_WAITING) }
        ensures err { OnOk result (length self.new.err + for_err ≤ MOST_WAITING) }
    {
        if has_room(self.out.len(), for_out) && has_room(self.err.len(), for_err) {
            return Ok(());
        }
        self.pour(out, err)
    }

    /// Writes bytes for `out`: they wait beside those before them, which are poured where there is
    /// no room for both.
    pub fn put_out<O: Sink, E: Sink>(
        &mut self,
        bytes: &[u8],
        out: &mut O,
        err: &mut E,
    ) -> Result<(), Failure>
        ensures goes { Goes (ending_of_step result) (ForOut bytes.now ∷ [])
            (pooled self.old (O.seen out.old) (E.seen err.old))
            (pooled self.new (O.seen out.new) (E.seen err.new)) }
        ensures wants { WantsInSinks (ending_of_step result)
            (sinks_of (O.seen out.old) (E.seen err.old))
            (sinks_of (O.seen out.new) (E.seen err.new)) }
    {
        if bytes.len() > MOST_WAITING {
            self.pour(out, err)?;
            return write_all(out, bytes);
        }
        self.make_room(bytes.len(), 0, out, err)?;
        self.out.extend_from_slice(bytes)?;
        Ok(())
    }

    /// Writes bytes for `err` in the same way.
    pub fn put_err<O: Sink, E: Sink>(
        &mut self,
        bytes: &[u8],
        out: &mut O,
        err: &mut E,
    ) -> Result<(), Failure>
        ensures goes { Goes (ending_of_step result) (ForErr bytes.now ∷ [])
            (pooled self.old (O.seen out.old) (E.seen err.old))
            (pooled self.new (O.seen out.new) (E.seen err.new)) }
        ensures wants { WantsInSinks (ending_of_step result)
            (sinks_of (O.seen out.old) (E.seen err.old))
            (sinks_of (O.seen out.new) (E.seen err.new)) }
    {
        if bytes.len() > MOST_WAITING {
            self.pour(out, err)?;
            return write_all(err, bytes);
        }
        self.make_room(0, bytes.len(), out, err)?;
        self.err.extend_from_slice(bytes)?;
        Ok(())
    }

    /// Writes the frame of a packet for `out` in the same way: its number as seconds, and
    /// microseconds.
    pub fn put_frame<O: Sink, E: Sink>(
        &mut self,
        number: u32,
        micros: u32,
        packet: &[u8],
        out: &mut O,
        err: &mut E,
    ) -> Result<(), Failure>
        requires { length packet.now ≤ MAX_PACKET_LEN }
        ensures goes { Goes (ending_of_step result)
            (ForOut (written_frame_bytes number micros packet.now) ∷ [])
            (pooled self.old (O.seen out.old) (E.seen err.old))
            (pooled self.new (O.seen out.new) (E.seen err.new)) }
        ensures wants { WantsInSinks (ending_of_step result)
            (sinks_of (O.seen out.old) (E.seen err.old))
            (sinks_of (O.seen out.new) (E.seen err.new)) }
    {
        self.make_room(FRAME_HEAD_LEN + packet.len(), 0, out, err)?;
        write_frame(&mut self.out, number, micros, packet)?;
        Ok(())
    }
}
