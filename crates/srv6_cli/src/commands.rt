//! The words of the command line, and the call of the command that they name.

ghost use Rattle.std.specs.Prelude.{◌≡◌, IfOk};
ghost use Rattle.command_output.specs.CommandAnswers.{Commands};
ghost use Rattle.command_output.specs.Outside.{outside};
ghost use Rattle.command_output.specs.Verbs.{words_of};
ghost use Rattle.srv6_cli.specs.Commands.{command_of, spec_of};
ghost use Rattle.srv6_cli.specs.CommandsTerms.{HasChoices, UsageTold, command_seen};

use command_output::{Conclusion, Halt, Status, Text};
use compile_commands::check_command::{CheckWords, check, check_of_words};
use compile_commands::compile_command::{CompileWords, compile, compile_of_words};
use generate_commands::{GenWords, gen_of_words, generate};
use run_commands::run_command::{RunWords, run, run_of_words};
use run_commands::show_command::{is_show, show};
use srx_edge::{Files, Sink, Source};
use std::alloc::{AllocError, Global};
use trace_commands::replay_command::{ReplayWords, replay, replay_of_words};
use trace_commands::trace_command::{TraceWords, trace, trace_of_words};
use update_commands::update_command::update;
use update_commands::update_words::{UpdateWords, update_of_words};
use walk_commands::walk_command::{WalkWords, walk, walk_of_words};

/// The line that says how the program is called.
pub const USAGE: &[u8] = b"usage: srv6 compile|check|walk|run|trace|replay|show|gen|update\n";

/// What the words ask for: one of the commands, by its words.
#[derive(Debug, Drop)]
pub enum Asked<'a> {
    /// A run of the packets of the input from a node of the network that a file describes.
    Run(RunWords<'a>),
    /// A list for the intent of a file in the network that another describes.
    Compile(CompileWords<'a>),
    /// The verdict on a certificate for the intent of a file in the network that another describes.
    Check(CheckWords<'a>),
    /// A walk of the inner packets of the input along the list for the intent of a file in the
    /// network that another describes.
    Walk(WalkWords<'a>),
    /// The walks of the packets of the input from a node of the network that a file describes, as
    /// text.
    Trace(TraceWords<'a>),
    /// The verdict on the trace of a file in the network that another describes.
    Replay(ReplayWords<'a>),
    /// A text of a generated network, or what walks through it come to.
    Gen(GenWords),
    /// The inner packets of the input while the tables pass from the description of a file to that
    /// of another.
    Update(UpdateWords<'a>),
    /// The headers of the packets of the input as lines.
    Show,
    /// Nothing that there is.
    Unknown,
}

/// What the words ask for: the list of the commands.
fn asked_of_words(alloc: Global, words: &[String]) -> Result<Asked<'_>, AllocError>
    ensures spelled { IfOk result (λ asked. command_seen asked ≡ command_of (words_of words.now)) }
    ensures some { IfOk result HasChoices }
{
    if let Some(words) = run_of_words(alloc, words)? {
        return Ok(Asked::Run(words));
    }
    if let Some(words) = compile_of_words(words) {
        return Ok(Asked::Compile(words));
    }
    if let Some(words) = check_of_words(words) {
        return Ok(Asked::Check(words));
    }
    if let Some(words) = walk_of_words(alloc, words)? {
        return Ok(Asked::Walk(words));
    }
    if let Some(words) = trace_of_words(alloc, words)? {
        return Ok(Asked::Trace(words));
    }
    if let Some(words) = replay_of_words(words) {
        return Ok(Asked::Replay(words));
    }
    if let Some(words) = gen_of_words(words) {
        return Ok(Asked::Gen(words));
    }
    if let Some(words) = update_of_words(alloc, words)? {
        return Ok(Asked::Update(words));
    }
    if is_show(words) {
        return Ok(Asked::Show);
    }
    Ok(Asked::Unknown)
}

/// Words that are no command.
#[tactic(auto, unfolding(crate::specs::Commands::usage_line))]
fn usage() -> Result<Conclusion, Halt>
    ensures { UsageTold result }
{
    Ok(Conclusion {
        line: Text::Fixed(USAGE),
        status: Status::Usage,
    })
}

/// Runs the command that the words name, up to its last line. The words are those after the
/// program's name.
pub fn command<F: Files, S: Source, O: Sink, E: Sink>(
    alloc: Global,
    words: &[String],
    files: &mut F,
    input: &mut S,
    out: &mut O,
    err: &mut E,
) -> Result<Conclusion, Halt>
    ensures { Commands (spec_of (command_of (words_of words.now))) result
        (outside (F.seen files.old) (S.seen input.old) (O.seen out.old) (E.seen err.old))
        (outside (F.seen files.new) (S.seen input.new) (O.seen out.new) (E.seen err.new)) }
{
    match asked_of_words(alloc, words)? {
        Asked::Run(words) => run(alloc, &words, files, input, out, err),
        Asked::Compile(words) => compile(alloc, words.file, words.intent, files, out),
        Asked::Check(words) => check(alloc, words.file, words.intent, words.cert, files, out),
        Asked::Walk(words) => walk(alloc, &words, files, input, out, err),
        Asked::Trace(words) => {
            let choices = words.choices.as_slice();
            trace(alloc, words.file, words.node, choices, files, input, out)
        }
        Asked::Replay(words) => replay(alloc, words.file, words.trace, files, out),
        Asked::Gen(words) => generate(alloc, words.size, words.made, out),
        Asked::Update(words) => update(alloc, &words, files, input, out, err),
        Asked::Show => show(alloc, input, out),
        Asked::Unknown => usage(),
    }
}
