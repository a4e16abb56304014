//! Two packets of a capture in the turns of a schedule, which no row has.

use crate::outside::{NONE, Ran, files_of, serve_over};
use srv6_cli::Status;
use srx_edge::MemSource;
use std::alloc::Global;
use std::process::Abort;
use std::test::Fail;

/// A capture of two packets to the SID of C, with nothing after their headers: lowest byte first,
/// version 2.4, microseconds, raw IP; and twice a frame of 40 bytes, and in it a packet from
/// 2001:db8:1::1 with hop limit 64 and next header 59.
const CAPTURE: &str = "\
    d4c3b2a10200040000000000000000000000040065000000\
    00000000000000002800000028000000\
    6000000000003b4020010db8000100000000000000000001fcbbbb00f00100000000000000000000\
    00000000000000002800000028000000\
    6000000000003b4020010db8000100000000000000000001fcbbbb00f00100000000000000000000";

/// Runs a command over the two packets.
fn serve_two(alloc: Global, words: &[&str]) -> Result<Ran, Fail> {
    let capture = hex::decode(alloc, CAPTURE)?;
    let input = MemSource::new(alloc, capture.as_slice(), &[])?;
    serve_over(alloc, words, files_of(alloc, 0)?, input, &NONE)
}

/// A command is done, its lines are these, and these bytes stand at these places of a capture of so
/// many bytes.
fn expect_bytes(
    rt: &impl Abort,
    alloc: Global,
    words: &[&str],
    lines: &str,
    len: usize,
    bytes: &[(usize, u8)],
) -> Result<(), Fail> {
    let ran = serve_two(alloc, words)?;
    assert_eq!(rt; ran.status, Status::Done, "{words:?}");
    assert_eq!(rt; ran.err.as_slice(), lines.as_bytes(), "{words:?}");
    assert_eq!(rt; ran.out.len(), len, "{words:?}");
    for (at, byte) in bytes {
        assert_eq!(rt;
            ran.out.as_slice().get(*at),
            Some(byte),
            "{words:?} at {at}"
        );
    }
    Ok(())
}

/// Where the numbers of the frames stand that `walk` gives of two packets, and what they are: after
/// a head of 24 bytes and each frame before, of 96 bytes, or at last 56.
const WALKED_MIXED: [(usize, u8); 6] = [(24, 2), (120, 1), (216, 2), (312, 1), (408, 1), (464, 2)];

const WALKED_PAIRED: [(usize, u8); 4] = [(24, 1), (120, 1), (216, 2), (312, 2)];

/// An entry of no packet takes no turn: one packet after the other, each with two frames of 96
/// bytes and one of 56.
const WALKED_ABSENT: [(usize, u8); 6] = [(24, 1), (120, 1), (216, 1), (272, 2), (368, 2), (464, 2)];

/// Each of two packets is sent over two links with 40 bytes more, handed over at C and sent on.
#[test]
fn a_schedule_mixes_the_packets_of_walk(rt: HostRuntime) -> Result<(), Fail> {
    let lines = "packet 1: left out\npacket 2: left out\n";
    let cases: [(&str, &[(usize, u8)]); 3] = [
        ("2,1,2,1", &WALKED_MIXED),
        ("1,1,2,2", &WALKED_PAIRED),
        ("9", &WALKED_ABSENT),
    ];
    for (schedule, bytes) in cases {
        let words = ["walk", "net.toml", "enough.toml", "0", schedule];
        expect_bytes(&rt, rt.alloc(), &words, lines, 520, bytes)?;
    }
    Ok(())
}

/// Where the numbers and the microseconds of the frames stand that these two packets give, and what
/// they are: after a head of 24 bytes and each frame before, of 56 bytes, or 104 of an error.
const RUN_MIXED: [(usize, u8); 12] = [
    (24, 2),
    (28, 1),
    (80, 1),
    (84, 1),
    (136, 2),
    (140, 2),
    (192, 1),
    (196, 2),
    (248, 1),
    (252, 0),
    (352, 2),
    (356, 0),
];

/// The same where the second packet ends first.
const RUN_SECOND_FIRST: [(usize, u8); 12] = [
    (24, 2),
    (28, 1),
    (80, 2),
    (84, 2),
    (136, 2),
    (140, 0),
    (240, 1),
    (244, 1),
    (296, 1),
    (300, 2),
    (352, 1),
    (356, 0),
];

/// Each of two packets is sent over links 1 and 2 and dropped at C, which sends an error about it.
#[test]
fn a_schedule_mixes_the_packets_of_run(rt: HostRuntime) -> Result<(), Fail> {
    let one = "packet 1: dropped UpperLayer at C\n";
    let two = "packet 2: dropped UpperLayer at C\n";
    let cases: [(&str, &str, &str, &[(usize, u8)]); 2] = [
        ("2,1,2,1", one, two, &RUN_MIXED),
        ("2,2,2,1", two, one, &RUN_SECOND_FIRST),
    ];
    for (schedule, first, second, bytes) in cases {
        let words = ["run", "net.toml", "A", "0", schedule];
        let lines = format!(in rt.alloc(); "{first}{second}")?;
        expect_bytes(&rt, rt.alloc(), &words, lines.as_str(), 456, bytes)?;
    }
    Ok(())
}
