//! `walk` through a tunnel over an input and sinks that never fail, and over those that move one
//! byte a call, with each of their calls failing in turn.

use crate::outside::{Faults, NONE, Ran, holding, served};
use crate::tunnel::{INTENT, LINE, PACKET, WALKED, row_of};
use srv6_cli::Status;
use srx_edge::{MemFiles, MemSink, MemSource, SlowSink, SlowSource, SureSink, SureSource};
use std::alloc::Global;
use std::process::Abort;
use std::test::Fail;

const WALK_ROW: &[&str] = &["walk", "row.toml", "intent.toml"];

/// The files, of which the read of this number fails.
fn files_of_row(alloc: Global, fails: u64) -> Result<MemFiles, Fail> {
    let row = row_of(alloc)?;
    let held = [("row.toml", row.as_str()), ("intent.toml", INTENT)];
    holding(alloc, fails, &held)
}

/// Runs it over an input and sinks that move one byte a call, where these calls fail.
fn walk_slowly(alloc: Global, faults: &Faults) -> Result<Ran, Fail> {
    let packet = hex::decode(alloc, PACKET)?;
    let mut input = SlowSource::new(MemSource::new(alloc, packet.as_slice(), &[faults.input])?);
    let mut out = SlowSink::new(MemSink::new(alloc, &[faults.out])?);
    let mut err = SlowSink::new(MemSink::new(alloc, &[faults.err])?);
    let files = files_of_row(alloc, faults.files)?;
    let status = served(alloc, WALK_ROW, files, &mut input, &mut out, &mut err)?;
    Ok(Ran {
        status,
        out: out.sink().held().to_vec(alloc)?,
        err: err.sink().held().to_vec(alloc)?,
    })
}

#[test]
fn walk_over_sure_ends(rt: HostRuntime) -> Result<(), Fail> {
    let alloc = rt.alloc();
    let packet = hex::decode(alloc, PACKET)?;
    let walked = hex::decode(alloc, WALKED)?;
    let mut input = SureSource::new(alloc, packet.as_slice())?;
    let mut out = SureSink::new(alloc);
    let mut err = SureSink::new(alloc);
    let files = files_of_row(alloc, 0)?;
    let status = served(alloc, WALK_ROW, files, &mut input, &mut out, &mut err)?;
    assert_eq!(rt; status, Status::Done);
    assert_eq!(rt; out.held(), walked.as_slice());
    assert_eq!(rt; err.held(), LINE);
    Ok(())
}

/// Where this call fails the walk ends with that, and wrote these bytes.
fn expect_cut(
    rt: &impl Abort,
    alloc: Global,
    fault: &Faults,
    out: &[u8],
    err: &[u8],
) -> Result<(), Fail> {
    let cut = walk_slowly(alloc, fault)?;
    assert_eq!(rt; cut.status, Status::OutsideFault);
    assert_eq!(rt; cut.out.as_slice(), out);
    assert_eq!(rt; cut.err.as_slice(), err);
    Ok(())
}

/// Two files, and 40 bytes and their end by 41 reads: nothing is written before all of them.
#[test]
fn each_slow_read_fails(rt: HostRuntime) -> Result<(), Fail> {
    for files in 1..3 {
        expect_cut(&rt, rt.alloc(), &Faults { files, ..NONE }, b"", b"")?;
    }
    for input in 1..42 {
        expect_cut(&rt, rt.alloc(), &Faults { input, ..NONE }, b"", b"")?;
    }
    Ok(())
}

/// 368 bytes for `out` and 18 for `err`, each by one write, and none after one that failed.
#[test]
fn each_slow_write_fails(rt: HostRuntime) -> Result<(), Fail> {
    let walked = hex::decode(rt.alloc(), WALKED)?;
    let walked = walked.as_slice();
    for (before, out) in (1..369).enumerate() {
        let front = walked.get(..before).ok_or("no such front")?;
        expect_cut(&rt, rt.alloc(), &Faults { out, ..NONE }, front, b"")?;
    }
    for (before, err) in (1..19).enumerate() {
        let front = LINE.get(..before).ok_or("no such front")?;
        expect_cut(&rt, rt.alloc(), &Faults { err, ..NONE }, walked, front)?;
    }
    Ok(())
}

/// A fault behind all of these calls is none, and what slow ends are given is what quick ones are.
#[test]
fn walk_over_slow_ends(rt: HostRuntime) -> Result<(), Fail> {
    let walked = hex::decode(rt.alloc(), WALKED)?;
    let beyond = Faults {
        files: 3,
        input: 42,
        out: 369,
        err: 19,
    };
    let whole = walk_slowly(rt.alloc(), &beyond)?;
    assert_eq!(rt; whole.status, Status::Done);
    assert_eq!(rt; whole.out.as_slice(), walked.as_slice());
    assert_eq!(rt; whole.err.as_slice(), LINE);
    Ok(())
}
