//! The frames of an input one by one, wherever they come from.

ghost use Rattle.std.specs.Prelude.{◌≡◌, IfOk, IfSome, OnOk, List};
ghost use Rattle.std.specs.List.{flat_map};
ghost use Rattle.pcap_io.specs.declared.frame.Frame.{Frame as FrameValue};
ghost use Rattle.command_output.specs.CommandAnswers.{ending_of_step};
ghost use Rattle.command_output.specs.GatheredTerms.{Goes, pooled};
ghost use Rattle.command_output.specs.OutputPieces.{Piece};
ghost use Rattle.command_inputs.specs.InputFrames.{FramesSeen, Finds};

use base::NoMemory;
use command_output::{Failure, Pool, Refusal};
use pcap_io::LentFrame;
use srx_edge::Sink;
use std::alloc::Global;

/// What `Frames::next` finds.
#[derive(Debug, Drop)]
pub enum Found {
    /// A frame, which is at hand until the next call.
    Frame,
    /// None is left: the refusal of what is after the last frame, if anything is.
    End(Option<Refusal>),
}

/// The frames of an input, one by one. What an input begins with, as a capture's head, is judged
/// before there are any: whoever has frames may write.
pub trait Frames {
    /// What is seen of them: the frame at hand, the frames that will come and how they end, and how
    /// many came.
    ghost seen: { Self → FramesSeen };

    /// Goes to the next frame, which is at hand then; the end comes exactly where none is left.
    /// After `NoMemory` nothing is said of the frames.
    fn next(&mut self) -> Result<Found, NoMemory>
        ensures { Finds (seen self.old) result (seen self.new) };

    /// The frame at hand, lent, if one is.
    fn frame(&self) -> Option<LentFrame<'_>>
        ensures { result ≡ (seen self.now).at };
}

/// What is written of frames by the pool, frame by frame.
pub trait Puts {
    /// What holds of those that may be asked.
    ghost ready: { Self → Type 0 };

    /// The pieces that are written of a frame.
    ghost pieces: { Self → FrameValue → List Piece };

    /// Writes what is to be written of a frame; of the frames behind it the same is to be written
    /// as before.
    fn put<O: Sink, E: Sink>(
        &mut self,
        alloc: Global,
        frame: &LentFrame<'_>,
        pool: &mut Pool,
        out: &mut O,
        err: &mut E,
    ) -> Result<(), Failure>
        requires { ready self.old }
        ensures ready { OnOk result (ready self.new) }
        ensures same { OnOk result (pieces self.new ≡ pieces self.old) }
        ensures wrote { Goes (ending_of_step result) (pieces self.old frame.now)
            (pooled pool.old (O.seen out.old) (E.seen err.old))
            (pooled pool.new (O.seen out.new) (E.seen err.new)) };
}

/// Writes what is to be written of the frame at hand, by the pool.
fn put_at_hand<N: Frames, P: Puts, O: Sink, E: Sink>(
    alloc: Global,
    puts: &mut P,
    frames: &N,
    pool: &mut Pool,
    out: &mut O,
    err: &mut E,
) -> Result<(), Failure>
    requires { P.ready puts.old }
    ensures ready { OnOk result (P.ready puts.new) }
    ensures same { OnOk result (P.pieces puts.new ≡ P.pieces puts.old) }
    ensures wrote { IfSome (N.seen frames.now).at (λ frame. Goes (ending_of_step result)
        (P.pieces puts.old frame)
        (pooled pool.old (O.seen out.old) (E.seen err.old))
        (pooled pool.new (O.seen out.new) (E.seen err.new))) }
{
    match frames.frame() {
        Some(frame) => puts.put(alloc, &frame, pool, out, err),
        None => Ok(()),
    }
}

/// Writes what is to be written of all frames that will come, one after the other, by the pool, and
/// gives the refusal of what is after the last, if anything is.
#[tactic(auto, using(crate::proofs::FrameLoops::put_to_the_end))]
pub fn put_frames<N: Frames, P: Puts, O: Sink, E: Sink>(
    alloc: Global,
    puts: &mut P,
    frames: &mut N,
    pool: &mut Pool,
    out: &mut O,
    err: &mut E,
) -> Result<Option<Refusal>, Failure>
    requires { P.ready puts.old }
    ensures fault { IfOk result (λ fault. fault ≡ (N.seen frames.old).end) }
    ensures wrote { Goes (ending_of_step result)
        (flat_map (P.pieces puts.old) (N.seen frames.old).frames)
        (pooled pool.old (O.seen out.old) (E.seen err.old))
        (pooled pool.new (O.seen out.new) (E.seen err.new)) }
{
    'frames: loop {
        match frames.next()? {
            Found::Frame => put_at_hand(alloc, puts, frames, pool, out, err)?,
            Found::End(fault) => return Ok(fault),
        }
    }
}
