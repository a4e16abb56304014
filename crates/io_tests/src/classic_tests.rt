//! A classic capture that is laid out by hand, in pieces of every size: the same frames come, and
//! the same end.

ghost use Rattle.std.specs.Prelude.{◌<◌};

use crate::shown::show;
use pcap_io::{CaptureFault, CaptureHead, FrameReader, LinkType, read_head};
use std::alloc::Global;
use std::test::Fail;

/// Of the highest byte first: Ethernet.
const HEAD: CaptureHead = CaptureHead {
    little: false,
    nanos: false,
    link: LinkType::Ethernet,
};

/// An IPv6 packet after an Ethernet header, with two bytes of padding; a frame of 2 bytes of which
/// 1 was captured; a frame of no bytes; an IPv4 packet; and a frame that is cut.
const FRAMES: [u8; 35 + 17 + 16 + 31 + 15] = [
    0, 0, 0, 1, 0, 0, 0, 0, 0, 0, 0, 19, 0, 0, 0, 19, //
    1, 2, 3, 4, 5, 6, 7, 8, 9, 10, 11, 12, 0x86, 0xdd, 0x60, 1, 2, 0, 0, //
    0, 0, 0, 1, 0, 0, 0, 0, 0, 0, 0, 1, 0, 0, 0, 2, 0x60, //
    0, 0, 0, 1, 0, 0, 0, 0, 0, 0, 0, 0, 0, 0, 0, 0, //
    0, 0, 0, 1, 0, 0, 0, 0, 0, 0, 0, 15, 0, 0, 0, 15, //
    1, 2, 3, 4, 5, 6, 7, 8, 9, 10, 11, 12, 0x08, 0x00, 0x45, //
    0, 0, 0, 1, 0, 0, 0, 0, 0, 0, 0, 9, 0, 0, 0, //
];

/// What the frames are; then 5, where frame 5 is cut.
const SHOWN: [u8; 13] = [1, 6, 5, 2, 1, 0, 3, 0, 0, 4, 4, 1, 5];

/// Tells the frames that a reader has.
fn show_all(shown: &mut Vec<u8>, reader: &mut FrameReader) -> Result<(), Fail> {
    for _ in 0..8 {
        match reader.take()? {
            Some(frame) => show(shown, &frame)?,
            None => return Ok(()),
        }
    }
    Ok(())
}

/// What frames come of the bytes in pieces of a size, and which is cut.
fn in_pieces(alloc: Global, size: usize) -> Result<Vec<u8>, Fail>
    requires { 0 < size }
{
    let mut reader = FrameReader::new(alloc, HEAD);
    let mut shown = Vec::new(alloc);
    for piece in FRAMES.as_slice().chunks(size) {
        reader.feed(piece)?;
        show_all(&mut shown, &mut reader)?;
    }
    if let None = reader.take()? {
        if let Err(cut) = reader.finish() {
            shown.push((cut.number % 256) as u8)?;
        }
    }
    Ok(shown)
}

#[test]
fn pieces_of_every_size(rt: HostRuntime) -> Result<(), Fail> {
    for size in 1..FRAMES.len() + 1 {
        let shown = in_pieces(rt.alloc(), size)?;
        assert_eq!(rt; shown.as_slice(), SHOWN.as_slice(), "at {size}");
    }
    Ok(())
}

/// The head's bytes: microseconds, version 2.4, time zone, accuracy, a snaplen of 262,144, link
/// type 1.
const HEAD_BYTES: [u8; 24] = [
    0xa1, 0xb2, 0xc3, 0xd4, 0, 2, 0, 4, 0, 0, 0, 0, 0, 0, 0, 0, 0, 4, 0, 0, 0, 0, 0, 1, //
];

/// One byte of the head is another one; with the same one there is no fault.
#[test]
fn each_fault_of_a_head(rt: HostRuntime) {
    for (at, byte, want) in [
        (0, 0xa1, Ok(HEAD)),
        (0, 0xa2, Err(CaptureFault::BadMagic)),
        (5, 3, Err(CaptureFault::BadVersion)),
        (7, 3, Err(CaptureFault::BadVersion)),
        (23, 113, Err(CaptureFault::BadLink { link: 113 })),
        (22, 1, Err(CaptureFault::BadLink { link: 257 })),
    ] {
        let mut head = HEAD_BYTES;
        head[at] = byte;
        assert_eq!(rt; read_head(&head), want, "at {at}");
    }
}
