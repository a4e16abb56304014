//! The command `update`.

ghost use Rattle.command_output.specs.CommandAnswers.{Commands};
ghost use Rattle.command_output.specs.Outside.{outside};
ghost use Rattle.update_commands.specs.UpdateCommand.{update_spec};

use crate::update_opening::{UpdateStart, start_of_update};
use crate::update_words::UpdateWords;
use command_inputs::{intents_of_file, network_of_file, packets_of_input};
use command_output::{Conclusion, Halt, Status, Text};
use srx_edge::{Files, Sink, Source};
use std::alloc::Global;
use update_driver::{Change, drive_update};

/// Runs the inner packets of the input, encapsulated at the headend of one intent, while the nodes'
/// tables pass from an old description to a new one.
pub fn update<F: Files, S: Source, O: Sink, E: Sink>(
    alloc: Global,
    words: &UpdateWords<'_>,
    files: &mut F,
    input: &mut S,
    out: &mut O,
    err: &mut E,
) -> Result<Conclusion, Halt>
    ensures { Commands (update_spec words.now.old.now words.now.new.now words.now.intent.now
        words.now.events.items) result
        (outside (F.seen files.old) (S.seen input.old) (O.seen out.old) (E.seen err.old))
        (outside (F.seen files.new) (S.seen input.new) (O.seen out.new) (E.seen err.new)) }
{
    let old = network_of_file(alloc, files, words.old)?;
    let new = network_of_file(alloc, files, words.new)?;
    let both = intents_of_file(alloc, files, &old, &new, words.intent)?;
    let start = start_of_update(alloc, &old, &new, &both)?;
    let (plan, sides) = match start {
        UpdateStart::Lists(plan, sides) => (plan, sides),
        UpdateStart::NoList(line) => {
            return Ok(Conclusion {
                line,
                status: Status::NoAnswer,
            });
        }
    };
    old.keeps_rules();
    new.keeps_rules();
    let packets = packets_of_input(alloc, input)?;
    let change = Change {
        net: &old,
        sides: &sides,
        events: words.events.as_slice(),
    };
    match drive_update(alloc, &change, plan, &packets, out, err)? {
        Some(refusal) => Err(Halt::Refused(refusal)),
        None => Ok(Conclusion {
            line: Text::Fixed(b""),
            status: Status::Done,
        }),
    }
}
