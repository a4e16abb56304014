//! The program `srv6-pce`: the resident engine over standard input and output.
//!
//! `run` has the clause of the whole program over any files, any client and any sink of errors. What
//! stands without a clause is `main`: that the words, the files and the streams are the system's.
#![tactic(auto)]

ghost use Rattle.std.specs.Prelude.{◌≡◌, length, nat_lt};
ghost use Rattle.std.specs.Vec.Iter.{into_iter_items};
ghost use Rattle.std.specs.Process.{exit_status};
ghost use Rattle.srv6_pce.specs.Ending.{Refuses, Ends};

use line_talk::{Client, HostClient, serve_client};
use pce_engine::Pce;
use srx_edge::{Files, HostFiles, HostSink, PourFault, Sink, pour};
use std::alloc::Global;
use std::process::ExitCode;
use std::{env, io};

/// The line that says how the program is called.
const USAGE: &[u8] = b"usage: srv6-pce\n";

/// Whether there are words after the program's name, which is the first of all words.
fn has_words(all: env::Args) -> bool
    ensures { result ≡ nat_lt 1 (length (into_iter_items all)) }
{
    let mut all = all;
    let _name = all.next();
    all.next().is_some()
}

/// Says how the program is called: the exit status is 2, 5 where that can't be written, and 6 where
/// memory is wanting for it.
fn refuse_words<E: Sink>(err: &mut E) -> ExitCode
    ensures { Refuses result (E.seen err.old) (E.seen err.new) }
{
    match pour(err, USAGE) {
        Ok(()) => ExitCode::from(2),
        Err(PourFault::Failed { .. }) => ExitCode::from(5),
        Err(PourFault::NoMemory { .. }) => ExitCode::from(6),
    }
}

/// Answers each line of the client, over these files, until it ends. The program takes no words.
fn run<F: Files + Drop, C: Client, E: Sink>(
    alloc: Global,
    all: env::Args,
    files: F,
    client: &mut C,
    err: &mut E,
) -> ExitCode
    ensures { Ends (into_iter_items all) result (F.seen files) (C.talk client.old)
        (C.talk client.new) (E.seen err.old) (E.seen err.new) }
{
    if has_words(all) {
        return refuse_words(err);
    }
    let mut engine = Pce::new(alloc, files);
    let status = serve_client(alloc, &mut engine, client);
    ExitCode::from(status.exit_number())
}

/// Answers standard input on standard output. Words that aren't texts are words.
fn main(rt: HostRuntime) -> ExitCode {
    match env::args(&rt) {
        Ok(all) => run(
            rt.alloc(),
            all,
            HostFiles::new(&rt),
            &mut HostClient::new(rt.stdin(), rt.stdout()),
            &mut HostSink::new(rt.stderr()),
        ),
        Err(error) if error.kind() == io::ErrorKind::OutOfMemory => ExitCode::from(6),
        Err(_) => refuse_words(&mut HostSink::new(rt.stderr())),
    }
}
