//! The command `run`: the packets of the input, from a node of the network that a file describes,
//! in the order of a schedule, or one after the other.

ghost use Rattle.std.specs.Prelude.{◌≡◌, ◌<◌, IfOk, IfSome, length};
ghost use Rattle.command_output.specs.CommandAnswers.{Commands};
ghost use Rattle.command_output.specs.Outside.{outside};
ghost use Rattle.command_output.specs.Verbs.{words_of};
ghost use Rattle.run_commands.specs.RunCommand.{run_spec, run_words};
ghost use Rattle.run_commands.specs.RunCommandTerms.{run_asked};

use crate::at_node::AtNode;
use crate::course::Course;
use crate::packet_driver::drive;
use command_inputs::{network_of_file, node_of_name, packets_of_input, picks_of_words};
use command_output::{Conclusion, Halt, Status, Text, two_words_after};
use srx_edge::{Files, Sink, Source};
use std::alloc::{AllocError, Global};

/// What the words of `run` ask for.
#[derive(Debug, Drop)]
pub struct RunWords<'a> {
    /// The file's name.
    pub file: &'a str,
    /// The node's name.
    pub node: &'a str,
    /// The choices that each packet takes, at least one.
    pub choices: Vec<u32>,
    /// The numbers of the packets whose turns come first, one after the other.
    pub schedule: Vec<u32>,
}

/// What these words ask for, if they are those of `run`.
pub fn run_of_words(alloc: Global, words: &[String]) -> Result<Option<RunWords<'_>>, AllocError>
    ensures spelled { IfOk result (λ asked. run_asked asked ≡ run_words (words_of words.now)) }
    ensures some { IfOk result (λ asked. IfSome asked (λ a. 0 < length a.choices.items)) }
{
    let Some(two) = two_words_after("run", words) else {
        return Ok(None);
    };
    let Some(picks) = picks_of_words(alloc, two.more)? else {
        return Ok(None);
    };
    Ok(Some(RunWords {
        file: two.first,
        node: two.second,
        choices: picks.choices,
        schedule: picks.schedule,
    }))
}

/// Runs the packets of the input from a node of the network that a file describes. A schedule's
/// entry gives the packet of that number one stage; one that names no packet in flight gives none;
/// after the last entry the packets still in flight are run to their ends in the order of their
/// numbers. Decision d of each packet, counted in its sends from 0, takes the choice at d modulo
/// the number of choices. The file is judged, then the node's name, then the input, each before the
/// next is read. What comes after the last frame of a capture is refused once all packets were
/// walked.
pub fn run<F: Files, S: Source, O: Sink, E: Sink>(
    alloc: Global,
    words: &RunWords<'_>,
    files: &mut F,
    input: &mut S,
    out: &mut O,
    err: &mut E,
) -> Result<Conclusion, Halt>
    requires { 0 < length words.now.choices.items }
    ensures { Commands (run_spec words.now.file.now words.now.node.now words.now.choices.items
        words.now.schedule.items) result
        (outside (F.seen files.old) (S.seen input.old) (O.seen out.old) (E.seen err.old))
        (outside (F.seen files.new) (S.seen input.new) (O.seen out.new) (E.seen err.new)) }
{
    let net = network_of_file(alloc, files, words.file)?;
    let node = node_of_name(&net, words.node)?;
    let packets = packets_of_input(alloc, input)?;
    let (choices, schedule) = (words.choices.as_slice(), words.schedule.as_slice());
    let course = Course {
        net: &net,
        choices,
        schedule,
    };
    match drive(alloc, &course, &AtNode { node }, &packets, out, err)? {
        Some(refusal) => Err(Halt::Refused(refusal)),
        None => Ok(Conclusion {
            line: Text::Fixed(b""),
            status: Status::Done,
        }),
    }
}
