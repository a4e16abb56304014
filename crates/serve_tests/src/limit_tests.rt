//! `serve` at the limits: an input and a file as long as they may be, as many choices, segments and
//! packets in flight as there may be. A body that claims want of memory there keeps each contract,
//! so that it answers is seen here alone.

use crate::outside::{NET, NONE, Ran, holding, serve_over, serve_words};
use srv6_cli::Status;
use srx_edge::{MemFiles, MemSource};
use std::alloc::Global;
use std::process::Abort;
use std::test::Fail;

/// The most bytes of an input: 64 MiB.
const INPUT: usize = 67_108_864;

/// The most bytes of a file: 4 MiB.
const FILE: usize = 4_194_304;

/// The head of a capture: lowest byte first, version 2.4, microseconds, raw IP.
const HEAD: &str = "d4c3b2a10200040000000000000000000000040065000000";

/// A frame of 40 bytes, and in it a packet to the SID of C with nothing after its header.
const FRAME: &str = "\
    00000000000000002800000028000000\
    6000000000003b4020010db8000100000000000000000001fcbbbb00f00100000000000000000000";

/// A command ends with this status, and so many bytes stand on `out`, and this at the end of `err`.
fn expect_end(rt: &impl Abort, ran: &Ran, status: Status, out: usize, err: &[u8]) {
    assert_eq!(rt; ran.status, status);
    assert_eq!(rt; ran.out.len(), out);
    assert!(rt; ran.err.ends_with(err));
}

/// Runs a command over the description and an input.
fn serve_input(alloc: Global, words: &[&str], input: &[u8]) -> Result<Ran, Fail> {
    let files = holding(alloc, 0, &[("net.toml", NET)])?;
    serve_over(
        alloc,
        words,
        files,
        MemSource::new(alloc, input, &[])?,
        &NONE,
    )
}

/// Bytes as often as it takes to have so many of them.
fn repeated(alloc: Global, bytes: &[u8], times: usize) -> Result<Vec<u8>, Fail> {
    let mut all = Vec::new(alloc);
    for _ in 0..times {
        all.extend_from_slice(bytes)?;
    }
    Ok(all)
}

/// A packet and bytes behind its end, 64 MiB in all; one byte more is refused.
#[test]
fn an_input_of_64_mib_is_read(rt: HostRuntime) -> Result<(), Fail> {
    let alloc = rt.alloc();
    let frame = hex::decode(alloc, FRAME)?;
    let packet = frame.get(16..).ok_or("no packet")?;
    let mut input = Vec::new(alloc);
    input.extend_from_slice(packet)?;
    input.resize(INPUT, 0)?;
    let shown = serve_input(alloc, &["show"], input.as_slice())?;
    assert_eq!(&rt; shown.status, Status::Done);
    input.push(0)?;
    let refused = serve_input(alloc, &["show"], input.as_slice())?;
    expect_end(
        &rt,
        &refused,
        Status::Refused,
        0,
        b"refused 2 TooBig 67108864\n",
    );
    Ok(())
}

/// A description with a comment behind it.
fn files_of_size(alloc: Global, size: usize) -> Result<MemFiles, Fail> {
    let mut text = Vec::new(alloc);
    text.extend_from_slice(NET.as_bytes())?;
    text.push(b'#')?;
    text.resize(size, b'.')?;
    let mut files = MemFiles::new(alloc, &[])?;
    files.hold("net.toml", text.as_slice())?;
    Ok(files)
}

/// A description of 4 MiB is read; one of a byte more is refused.
#[test]
fn a_file_of_4_mib_is_read(rt: HostRuntime) -> Result<(), Fail> {
    let alloc = rt.alloc();
    let packet = hex::decode(alloc, FRAME)?;
    let packet = packet.get(16..).ok_or("no packet")?;
    let cases: [(usize, Status, usize, &[u8]); 2] = [
        (
            FILE,
            Status::Done,
            240,
            b"packet 1: dropped UpperLayer at C\n",
        ),
        (FILE + 1, Status::Refused, 0, b"refused 2 TooBig 4194304\n"),
    ];
    for (size, status, out, err) in cases {
        let files = files_of_size(alloc, size)?;
        let input = MemSource::new(alloc, packet, &[])?;
        let ran = serve_over(alloc, &["run", "net.toml", "A"], files, input, &NONE)?;
        expect_end(&rt, &ran, status, out, err);
    }
    Ok(())
}

/// So many zeros, joined by commas.
fn zeros(alloc: Global, count: usize) -> Result<String, Fail> {
    let mut text = String::from_str(alloc, "0")?;
    for _ in 1..count {
        text.push_str(",0")?;
    }
    Ok(text)
}

/// 4,096 choices are taken, one more is no word of the command.
#[test]
fn so_many_choices_are_taken(rt: HostRuntime) -> Result<(), Fail> {
    let alloc = rt.alloc();
    let most = zeros(alloc, 4_096)?;
    let ran = serve_words(alloc, &["run", "net.toml", "A", most.as_str()], &NONE)?;
    expect_end(
        &rt,
        &ran,
        Status::Done,
        240,
        b"packet 1: dropped UpperLayer at C\n",
    );
    let more = zeros(alloc, 4_097)?;
    let usage = serve_words(alloc, &["run", "net.toml", "A", more.as_str()], &NONE)?;
    expect_end(&rt, &usage, Status::Usage, 0, b"|show|gen|update\n");
    Ok(())
}

/// 65,536 packets are in flight at once, each sent over two links and dropped with an error.
#[test]
fn so_many_packets_are_in_flight(rt: HostRuntime) -> Result<(), Fail> {
    let alloc = rt.alloc();
    let frame = hex::decode(alloc, FRAME)?;
    let mut input = hex::decode(alloc, HEAD)?;
    input.extend_from_slice(repeated(alloc, frame.as_slice(), 65_536)?.as_slice())?;
    let ran = serve_input(
        alloc,
        &["run", "net.toml", "A", "0", "65536"],
        input.as_slice(),
    )?;
    let out = 24 + 65_536 * (56 + 56 + 104);
    expect_end(
        &rt,
        &ran,
        Status::Done,
        out,
        b"packet 65536: dropped UpperLayer at C\n",
    );
    Ok(())
}

/// A and B, and a SID of A that puts a header of 127 segments in front; its policy's segments stand
/// behind this text.
const POLICY_NET: &str = r#"
node = [
    { name = "A", address = "2001:db8::a" },
    { name = "B", address = "2001:db8::b" },
]
link = [{ name = "ab", from = "A", to = "B" }]
route = [{ node = "A", prefix = "2001:db8::c/128", via = ["ab"] }]
sid = [{ node = "A", prefix = "fc00:b6::/48", behaviour = "End.B6.Encaps", policy = "p" }]

[[policy]]
name = "p"
source = "2001:db8::a"
segments = ["2001:db8::c""#;

/// To that SID, with a segment routing header of two segments, one of them left, and nothing behind.
const TO_POLICY: &str = "\
    6000000000282b4020010db8000100000000000000000001fc0000b6000000000000000000000000\
    3b04040101000000fcbbbb00f00100000000000000000000fc0000b6000000000000000000000000";

/// The policy of the description has so many segments.
fn policy_net(alloc: Global, segments: usize) -> Result<String, Fail> {
    let mut text = String::from_str(alloc, POLICY_NET)?;
    for _ in 1..segments {
        text.push_str(", \"2001:db8::c\"")?;
    }
    text.push_str("]\n")?;
    Ok(text)
}

/// A header of 127 segments is put in front: 40 bytes and 2,040. B has no route, and its error quotes
/// as much as goes into 1,280 bytes. One segment more is refused.
#[test]
fn a_policy_of_127_segments_is_pushed(rt: HostRuntime) -> Result<(), Fail> {
    let alloc = rt.alloc();
    let packet = hex::decode(alloc, TO_POLICY)?;
    let pushed = 24 + (16 + 40 + 2_040 + 80) + (16 + 1_280);
    let cases: [(usize, Status, usize, &[u8]); 2] = [
        (
            127,
            Status::Done,
            pushed,
            b"packet 1: dropped NoRoute at B\n",
        ),
        (128, Status::Refused, 0, b"refused 32 Limit policy 1\n"),
    ];
    for (segments, status, out, err) in cases {
        let text = policy_net(alloc, segments)?;
        let files = holding(alloc, 0, &[("net.toml", text.as_str())])?;
        let input = MemSource::new(alloc, packet.as_slice(), &[])?;
        let ran = serve_over(alloc, &["run", "net.toml", "A"], files, input, &NONE)?;
        expect_end(&rt, &ran, status, out, err);
    }
    Ok(())
}
