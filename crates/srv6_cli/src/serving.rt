//! The top call.

ghost use Rattle.std.specs.Prelude.{◌≡◌, IfOk};
ghost use Rattle.srx_edge.specs.CallSteps.{Whole};
ghost use Rattle.command_output.specs.CommandAnswers.{Tells, Concludes, ending_of_failure};
ghost use Rattle.srv6_cli.specs.Commands.{command_of};
ghost use Rattle.command_output.specs.Outside.{outside};
ghost use Rattle.command_output.specs.Verbs.{words_of};
ghost use Rattle.srv6_cli.specs.Serves.{Serves};
ghost use Rattle.command_output.specs.Endings.{ending_of_status};

use crate::commands::command;
use command_output::{Conclusion, Failure, Halt, Status, line_of_refusal, write_all};
use srx_edge::{Files, Sink, Source};
use std::alloc::Global;

/// The status of a failure.
fn status_of(failure: Failure) -> Status
    ensures { ending_of_status result ≡ ending_of_failure failure }
{
    match failure {
        Failure::Fault => Status::OutsideFault,
        Failure::NoMemory => Status::NoMemory,
    }
}

/// Writes a command's line on `err`, and answers the status that goes with it.
fn tell<E: Sink>(err: &mut E, line: &[u8], status: Status) -> Status
    requires { ending_of_status status ≡ Whole }
    ensures { Tells line.now status result (E.seen err.old) (E.seen err.new) }
{
    match write_all(err, line) {
        Ok(()) => status,
        Err(failure) => status_of(failure),
    }
}

/// Ends a command: its line on `err`, or nothing more where a step wasn't done.
fn conclude<E: Sink>(alloc: Global, answer: Result<Conclusion, Halt>, err: &mut E) -> Status
    requires { IfOk answer (λ told. ending_of_status told.status ≡ Whole) }
    ensures { Concludes answer result (E.seen err.old) (E.seen err.new) }
{
    match answer {
        Ok(told) => tell(err, told.line.as_bytes(), told.status),
        Err(Halt::Refused(refusal)) => match line_of_refusal(alloc, &refusal) {
            Ok(line) => tell(err, line.as_bytes(), Status::Refused),
            Err(_) => Status::NoMemory,
        },
        Err(Halt::Failed(failure)) => status_of(failure),
    }
}

/// Runs a command: words, files and input to output and a status. The words are those after the
/// program's name. After a fault of the outside and after want of memory nothing more is written.
///
///
/// `Serves` says what a call leaves: where it stopped, if it did, and that nothing of what follows
/// that place in the order files, input, pieces was read or written; which output is wanted of what
/// the files and the input tell, and how far it went out; which files were asked for; and what is
/// left of the input.
pub fn serve<F: Files, S: Source, O: Sink, E: Sink>(
    alloc: Global,
    words: &[String],
    files: &mut F,
    input: &mut S,
    out: &mut O,
    err: &mut E,
) -> Status
    ensures { Serves (command_of (words_of words.now)) result
        (outside (F.seen files.old) (S.seen input.old) (O.seen out.old) (E.seen err.old))
        (outside (F.seen files.new) (S.seen input.new) (O.seen out.new) (E.seen err.new)) }
{
    let answer = command(alloc, words, files, input, out, err);
    conclude(alloc, answer, err)
}
