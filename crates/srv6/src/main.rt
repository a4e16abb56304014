//! The program `srv6`: SRv6 nodes run on packets, proved.
//!
//! `answer` has the clause of the whole program over what the system tells of its words, any files,
//! input and outputs: the words are those after the program's name, and the exit status is the
//! number of the status. What stands without a clause is `main`: that the words, the files and the
//! streams are the system's.
#![tactic(auto)]

ghost use Rattle.std.specs.Prelude.{◌≡◌, drop, IfOk};
ghost use Rattle.std.specs.Vec.Iter.{into_iter_items};
ghost use Rattle.std.specs.Process.{exit_status};
ghost use Rattle.command_output.specs.Outside.{outside};
ghost use Rattle.srv6.specs.Exit.{exit_number, Answers, Ends};

use srv6_cli::{Status, serve};
use srx_edge::{Files, HostFiles, HostSink, HostSource, Sink, Source};
use std::alloc::{AllocError, Global};
use std::process::ExitCode;
use std::{env, io};

/// The words after the program's name, which is the first of all words.
fn words_after_name(alloc: Global, all: env::Args) -> Result<Vec<String>, AllocError>
    ensures { IfOk result (λ words. words.items ≡ drop 1 (into_iter_items all)) }
{
    let mut all = all;
    let _name = all.next();
    let mut words = Vec::new(alloc);
    for word in all {
        words.push(word)?;
    }
    Ok(words)
}

/// The exit status of a status: from 0 for `Done` to 6 for `NoMemory`.
fn exit_code(status: Status) -> ExitCode
    ensures { exit_status result ≡ exit_number status }
{
    ExitCode::from(status as u8)
}

/// Runs the command of the words after the program's name over files, an input and outputs. Want of
/// memory for these words is answered before anything is asked for, read or written.
fn run<F: Files, S: Source, O: Sink, E: Sink>(
    alloc: Global,
    all: env::Args,
    files: &mut F,
    input: &mut S,
    out: &mut O,
    err: &mut E,
) -> ExitCode
    ensures { Ends (into_iter_items all) result
        (outside (F.seen files.old) (S.seen input.old) (O.seen out.old) (E.seen err.old))
        (outside (F.seen files.new) (S.seen input.new) (O.seen out.new) (E.seen err.new)) }
{
    let Ok(words) = words_after_name(alloc, all) else {
        return exit_code(Status::NoMemory);
    };
    let status = serve(alloc, words.as_slice(), files, input, out, err);
    exit_code(status)
}

/// Runs the command of the system's words. Where memory was wanting for them that is answered, and
/// nothing else is done; words that aren't texts are as no words.
fn answer<F: Files, S: Source, O: Sink, E: Sink>(
    alloc: Global,
    told: io::Result<env::Args>,
    files: &mut F,
    input: &mut S,
    out: &mut O,
    err: &mut E,
) -> ExitCode
    ensures { Answers told result
        (outside (F.seen files.old) (S.seen input.old) (O.seen out.old) (E.seen err.old))
        (outside (F.seen files.new) (S.seen input.new) (O.seen out.new) (E.seen err.new)) }
{
    match told {
        Ok(all) => run(alloc, all, files, input, out, err),
        Err(error) if error.kind() == io::ErrorKind::OutOfMemory => exit_code(Status::NoMemory),
        Err(_) => exit_code(serve(alloc, &[], files, input, out, err)),
    }
}

/// Answers the system's words over its files and streams; the status is the exit number.
fn main(rt: HostRuntime) -> ExitCode {
    answer(
        rt.alloc(),
        env::args(&rt),
        &mut HostFiles::new(&rt),
        &mut HostSource::new(rt.stdin()),
        &mut HostSink::new(rt.stdout()),
        &mut HostSink::new(rt.stderr()),
    )
}
