//! The command `walk`: the inner packets of the input, encapsulated at the headend of the intent of
//! a file with the list that the intent is compiled to, in the network that another describes.

ghost use Rattle.std.specs.Prelude.{◌≡◌, ◌<◌, IfOk, IfSome, length};
ghost use Rattle.command_output.specs.CommandAnswers.{Commands};
ghost use Rattle.command_output.specs.Outside.{outside};
ghost use Rattle.command_output.specs.Verbs.{words_of};
ghost use Rattle.walk_commands.specs.WalkCommand.{walk_spec, walk_words};
ghost use Rattle.walk_commands.specs.WalkCommandTerms.{walk_asked};

use crate::opening::{Opening, hop_limit_fits, start_of_intent};
use command_inputs::{intent_of_file, network_of_file, packets_of_input, picks_of_words};
use command_output::{Conclusion, Halt, Status, Text, two_words_after};
use run_commands::{Course, drive};
use srx_edge::{Files, Sink, Source};
use std::alloc::{AllocError, Global};

/// What the words of `walk` ask for.
#[derive(Debug, Drop)]
pub struct WalkWords<'a> {
    /// The description's name.
    pub file: &'a str,
    /// The intent's name.
    pub intent: &'a str,
    /// The choices that each packet takes, at least one.
    pub choices: Vec<u32>,
    /// The numbers of the packets whose turns come first, one after the other.
    pub schedule: Vec<u32>,
}

/// What these words ask for, if they are those of `walk`.
pub fn walk_of_words(alloc: Global, words: &[String]) -> Result<Option<WalkWords<'_>>, AllocError>
    ensures spelled { IfOk result (λ asked. walk_asked asked ≡ walk_words (words_of words.now)) }
    ensures some { IfOk result (λ asked. IfSome asked (λ a. 0 < length a.choices.items)) }
{
    let Some(two) = two_words_after("walk", words) else {
        return Ok(None);
    };
    let Some(picks) = picks_of_words(alloc, two.more)? else {
        return Ok(None);
    };
    Ok(Some(WalkWords {
        file: two.first,
        intent: two.second,
        choices: picks.choices,
        schedule: picks.schedule,
    }))
}

/// Walks the inner packets of the input, in the order of a schedule as `run` does, from the headend
/// of the intent of a file, encapsulated with the list that the intent is compiled to in the
/// network that another file describes; the list may execute binding SIDs, where no step
/// is to reach a node. Each inner packet that is small keeps to the intent's steps up to its own
/// hand-over, as the law `a_walk_keeps_to_the_intent` says. Decision d of each packet, counted in
/// its sends from 0, takes the choice at d modulo the number of choices. The description is judged,
/// then the intent, each before the next is read; where there is no list nothing is written but a
/// line, and the input is not read. Packets that are not read or that the headend drops have their
/// lines before the first stage of any packet, by their numbers. What comes after the last frame of
/// a capture is refused once all packets were walked.
pub fn walk<F: Files, S: Source, O: Sink, E: Sink>(
    alloc: Global,
    words: &WalkWords<'_>,
    files: &mut F,
    input: &mut S,
    out: &mut O,
    err: &mut E,
) -> Result<Conclusion, Halt>
    requires { 0 < length words.now.choices.items }
    ensures { Commands (walk_spec words.now.file.now words.now.intent.now words.now.choices.items
        words.now.schedule.items) result
        (outside (F.seen files.old) (S.seen input.old) (O.seen out.old) (E.seen err.old))
        (outside (F.seen files.new) (S.seen input.new) (O.seen out.new) (E.seen err.new)) }
{
    let net = network_of_file(alloc, files, words.file)?;
    let intent = intent_of_file(alloc, files, &net, words.intent)?;
    let start = start_of_intent(alloc, &net, &intent)?;
    let headend = match start {
        Opening::List(headend) => headend,
        Opening::NoList(line) => {
            return Ok(Conclusion {
                line,
                status: Status::NoAnswer,
            });
        }
    };
    net.keeps_rules();
    hop_limit_fits(intent.hop_limit);
    let packets = packets_of_input(alloc, input)?;
    let (choices, schedule) = (words.choices.as_slice(), words.schedule.as_slice());
    let course = Course {
        net: &net,
        choices,
        schedule,
    };
    match drive(alloc, &course, &headend, &packets, out, err)? {
        Some(refusal) => Err(Halt::Refused(refusal)),
        None => Ok(Conclusion {
            line: Text::Fixed(b""),
            status: Status::Done,
        }),
    }
}
