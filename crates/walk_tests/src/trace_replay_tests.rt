//! What is said of a trace's lines, by their grammar and by the walk that they tell of; whole
//! traces are rows of the program.

ghost use Rattle.trace_replay.specs.TraceReadingTerms.{IsTrace};

use net_model::{MAX_TEXT_BYTES, Net};
use net_reader::read_net;
use std::alloc::{AllocError, Global};
use std::process::Abort;
use std::str;
use std::test::Fail;
use test_networks::{NEXT_SIDS, ROW};
use trace_replay::{ReplayFault, Trace, TraceFault, print_stages, read_trace, replay};

/// The row of four nodes, with SIDs.
fn network(rt: &impl Abort, alloc: Global) -> Result<Net, AllocError> {
    let text = format!(in alloc; "{ROW}{NEXT_SIDS}")?;
    Ok(
        read_net(alloc, text.as_bytes())
            .ok()
            .expect(rt, "a network"),
    )
}

/// What is said of a trace that was read: `ok` with the packets and the lines, or `no` with the
/// line that is wrong and what should stand there.
fn verdict(alloc: Global, net: &Net, trace: &Trace) -> Result<String, AllocError>
    requires { IsTrace net.now trace.now }
{
    match replay(alloc, net, trace) {
        Ok(said) => format!(in alloc; "ok {} {}", said.packets, said.lines),
        Err(ReplayFault::Mismatch { line, expected }) => {
            let text = str::from_utf8(expected.as_slice()).unwrap_or("");
            format!(in alloc; "no {line} {text}")
        }
        Err(ReplayFault::NoMemory) => Err(AllocError),
    }
}

/// What is said of lines after the head: `bad` with the line that is none, or the verdict.
fn said(rt: &impl Abort, alloc: Global, net: &Net, lines: &str) -> Result<String, AllocError> {
    let text = format!(in alloc; "srv6 trace 1\n{lines}")?;
    assert!(rt; text.len() <= MAX_TEXT_BYTES);
    match read_trace(alloc, net, text.as_bytes()) {
        Ok(trace) => verdict(alloc, net, &trace),
        Err(TraceFault::BadTrace { line }) => format!(in alloc; "bad {line}"),
        Err(TraceFault::NoMemory) => Err(AllocError),
    }
}

/// Lines after the head, and what is said.
const LINES: &[(&str, &str)] = &[
    ("end\n", "ok 0 0"),
    ("end\n\n", "bad 3"),
    ("end\nx", "bad 3"),
    ("local\nend\n", "bad 2"),
    ("stages\nend\n", "bad 2"),
    ("srv6 trace 1\nend\n", "bad 2"),
    // a packet's number, family, node and bytes
    ("packet 4294967295 6 B -\ndrop Truncated -\nend\n", "ok 1 2"),
    ("packet 4294967296 6 B -\nend\n", "bad 2"),
    ("packet 01 6 B -\nend\n", "bad 2"),
    ("packet 1 5 B -\nend\n", "bad 2"),
    ("packet 1 6 Z -\nend\n", "bad 2"),
    ("packet 1 4 B 45\ndrop Truncated -\nend\n", "ok 1 2"),
    ("packet 1 6 B 4A\nend\n", "bad 2"),
    ("packet 1 6 B 4\nend\n", "bad 2"),
    ("packet 1 6 B  45\nend\n", "bad 2"),
    // a byte behind the packet's end
    (
        "packet 1 6 B 6000000000003b4020010db80000000000000000000000012001\
         0db800000000000000000000000200\nend\n",
        "bad 2",
    ),
    // what a stage's line may have
    ("packet 1 6 B -\ndrop NotThere -\nend\n", "bad 3"),
    ("packet 1 6 B -\nagain ::/48 table 65536 -\nend\n", "bad 3"),
    (
        "packet 1 6 B -\nagain ::/48 table 65535 -\nend\n",
        "no 3 drop Truncated -",
    ),
    (
        "packet 1 6 B -\nagain ::/48 through 00\nend\n",
        "no 3 drop Truncated -",
    ),
    (
        "packet 1 6 B -\nhand ::/48 table 1 4 00\nend\n",
        "no 3 drop Truncated -",
    ),
    (
        "packet 1 6 B -\nhand ::/48 through 6 00\nend\n",
        "no 3 drop Truncated -",
    ),
    ("packet 1 6 B -\nhand ::/48 through 5 00\nend\n", "bad 3"),
    (
        "packet 1 6 B -\nsend a_b 00\nend\n",
        "no 3 drop Truncated -",
    ),
    ("packet 1 6 B -\nsend a:b 00\nend\n", "bad 3"),
    // another line in the place of the drop, and one behind it
    ("packet 1 6 B -\nlocal\nend\n", "no 3 drop Truncated -"),
    ("packet 1 6 B -\nstages\nend\n", "no 3 drop Truncated -"),
    (
        "packet 1 6 B -\npacket 2 6 B -\nend\n",
        "no 3 drop Truncated -",
    ),
    (
        "packet 1 6 B -\ndrop Truncated -\nlocal\nend\n",
        "no 4 ended",
    ),
    (
        "packet 1 6 B -\ndrop Truncated -\nstages\nend\n",
        "no 4 ended",
    ),
    (
        "packet 1 6 B -\ndrop Truncated -\npacket 2 6 B -\nend\n",
        "no 5 drop Truncated -",
    ),
];

#[test]
fn lines_are_judged(rt: HostRuntime) -> Result<(), Fail> {
    let net = network(&rt, rt.alloc())?;
    for (lines, wanted) in LINES {
        let told = said(&rt, rt.alloc(), &net, lines)?;
        assert!(rt; told.as_str() == *wanted, "{lines}");
    }
    let mut out = Vec::new(rt.alloc());
    print_stages(rt.alloc(), &mut out)?;
    assert!(rt; out.as_slice() == b"stages\n".as_slice());
    Ok(())
}
