//! Each call of the outside failing in turn, in each command.

use crate::outside::{Faults, NONE, serve_words};
use srv6_cli::Status;
use std::alloc::{AllocError, Global};
use std::process::Abort;
use std::test::Fail;

/// So many calls of the files, the input, `out` and `err`.
fn calls(files: u64, input: u64, out: u64, err: u64) -> Faults {
    Faults {
        files,
        input,
        out,
        err,
    }
}

/// Each of so many calls as the only one that fails.
fn one_by_one(alloc: Global, calls: &Faults) -> Result<Vec<Faults>, AllocError> {
    let mut all = Vec::new(alloc);
    for n in 0..calls.files {
        all.push(Faults {
            files: n + 1,
            ..NONE
        })?;
    }
    for n in 0..calls.input {
        all.push(Faults {
            input: n + 1,
            ..NONE
        })?;
    }
    for n in 0..calls.out {
        all.push(Faults { out: n + 1, ..NONE })?;
    }
    for n in 0..calls.err {
        all.push(Faults { err: n + 1, ..NONE })?;
    }
    Ok(all)
}

/// The calls behind the last of so many.
fn beyond(calls: &Faults) -> Faults {
    Faults {
        files: calls.files.saturating_add(1),
        input: calls.input.saturating_add(1),
        out: calls.out.saturating_add(1),
        err: calls.err.saturating_add(1),
    }
}

/// A command that makes so many calls ends with this status. Where one of them fails it ends with
/// that, and what it wrote is a front of what it writes without; a fault behind them is none.
fn expect_fronts(
    rt: &impl Abort,
    alloc: Global,
    words: &[&str],
    calls: &Faults,
    status: Status,
) -> Result<(), Fail> {
    let whole = serve_words(alloc, words, &NONE)?;
    assert_eq!(rt; whole.status, status, "{words:?}");
    for fault in one_by_one(alloc, calls)?.iter() {
        let cut = serve_words(alloc, words, fault)?;
        assert_eq!(rt; cut.status, Status::OutsideFault, "{words:?}");
        assert!(rt; whole.out.starts_with(cut.out.as_slice()), "{words:?}");
        assert!(rt; whole.err.starts_with(cut.err.as_slice()), "{words:?}");
    }
    let same = serve_words(alloc, words, &beyond(calls))?;
    assert_eq!(rt; same.status, status, "{words:?}");
    assert_eq!(rt; same.out.as_slice(), whole.out.as_slice(), "{words:?}");
    assert_eq!(rt; same.err.as_slice(), whole.err.as_slice(), "{words:?}");
    Ok(())
}

/// Each file is read by one call. The input is read by one, and a second one finds its end; `gen`
/// and the commands that compile or judge alone don't read it, nor does `walk` without a list. What
/// is for a sink is written by one.
#[test]
fn each_call_of_each_command_fails(rt: HostRuntime) -> Result<(), Fail> {
    let cases: [(&[&str], Faults, Status); 10] = [
        (
            &["compile", "net.toml", "enough.toml"],
            calls(2, 0, 1, 0),
            Status::Done,
        ),
        (
            &["compile", "net.toml", "intent.toml"],
            calls(2, 0, 1, 1),
            Status::NoAnswer,
        ),
        (
            &["check", "net.toml", "intent.toml", "cert"],
            calls(3, 0, 1, 0),
            Status::Done,
        ),
        (
            &["walk", "net.toml", "enough.toml", "0"],
            calls(2, 2, 1, 1),
            Status::Done,
        ),
        (
            &["walk", "net.toml", "intent.toml"],
            calls(2, 0, 0, 1),
            Status::NoAnswer,
        ),
        (&["run", "net.toml", "A"], calls(1, 2, 1, 1), Status::Done),
        (&["trace", "net.toml", "A"], calls(1, 2, 1, 0), Status::Done),
        (
            &["replay", "net.toml", "none"],
            calls(2, 0, 1, 0),
            Status::Done,
        ),
        (&["show"], calls(0, 2, 1, 0), Status::Done),
        (&["gen", "2", "net"], calls(0, 0, 1, 0), Status::Done),
    ];
    for (words, calls, status) in &cases {
        expect_fronts(&rt, rt.alloc(), *words, calls, *status)?;
    }
    Ok(())
}
