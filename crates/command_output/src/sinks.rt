//! Bytes written to a sink.

ghost use Rattle.srx_edge.specs.CallStepsTerms.{Wrote};
ghost use Rattle.command_output.specs.CommandAnswers.{ending_of_step};
ghost use Rattle.command_output.specs.GatheredTerms.{WantsInSink};

use crate::halt::Failure;
use srx_edge::{Sink, pour};

/// Pours bytes into a sink; takes no memory.
#[tactic(auto, using(crate::proofs::OutputWriting::writing))]
pub fn write_all<O: Sink>(sink: &mut O, bytes: &[u8]) -> Result<(), Failure>
    ensures wrote { Wrote (ending_of_step result) bytes.now (O.seen sink.old) (O.seen sink.new) }
    ensures wants { WantsInSink (ending_of_step result) (O.seen sink.old) (O.seen sink.new) }
{
    Ok(pour(sink, bytes)?)
}
