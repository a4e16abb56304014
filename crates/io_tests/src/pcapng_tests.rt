//! A pcapng file that is laid out by hand, in three pieces that are cut anywhere: the same frames
//! come, and the same end.

ghost use Rattle.std.specs.Prelude.{◌≡◌, ◌+◌, ◌≤◌, length, OnOk};

use crate::shown::show;
use pcapng_io::NgReader;
use std::alloc::Global;
use std::test::Fail;

/// A section of the lowest byte first, an interface of raw IP with a snaplen of 262,144, and an
/// enhanced packet of 41 bytes, of which the last is not of the packet, with 3 bytes that fill it
/// up: its blocks end at bytes 28, 48 and 124.
const FILE: [u8; 28 + 20 + 76] = [
    0x0a, 0x0d, 0x0d, 0x0a, 28, 0, 0, 0, 0x4d, 0x3c, 0x2b, 0x1a, 1, 0, 0, 0, //
    0xff, 0xff, 0xff, 0xff, 0xff, 0xff, 0xff, 0xff, 28, 0, 0, 0, //
    1, 0, 0, 0, 20, 0, 0, 0, 101, 0, 0, 0, 0, 0, 4, 0, 20, 0, 0, 0, //
    6, 0, 0, 0, 76, 0, 0, 0, 0, 0, 0, 0, 0, 0, 0, 0, 0, 0, 0, 0, 41, 0, 0, 0, 41, 0, 0, 0, //
    0x60, 0, 0, 0, 0, 0, 59, 64, 1, 1, 1, 1, 1, 1, 1, 1, 1, 1, 1, 1, 1, 1, 1, 1, //
    2, 2, 2, 2, 2, 2, 2, 2, 2, 2, 2, 2, 2, 2, 2, 2, 9, 0, 0, 0, 76, 0, 0, 0, //
];

/// Feeds a piece, and tells the frame that comes.
fn step(shown: &mut Vec<u8>, reader: &mut NgReader, piece: &[u8]) -> Result<(), Fail>
    requires { reader.old.fed + length piece.now ≤ 1000 }
    ensures { OnOk result (reader.new.fed ≡ reader.old.fed + length piece.now) }
{
    reader.feed(piece)?;
    if let Some(frame) = reader.take()? {
        show(shown, &frame)?;
    }
    Ok(())
}

/// What comes of bytes in three pieces, the first up to one place, the second up to another; then
/// 53 and the block that is cut.
fn in_three(alloc: Global, bytes: &[u8], first: usize, second: usize) -> Result<Vec<u8>, Fail>
    requires few { length bytes.now ≤ 500 }
    requires first { first ≤ second }
    requires second { second ≤ length bytes.now }
{
    let mut reader = NgReader::new(alloc);
    let mut shown = Vec::new(alloc);
    let (front, last) = bytes.split_at(second);
    let (front, middle) = front.split_at(first);
    step(&mut shown, &mut reader, front)?;
    step(&mut shown, &mut reader, middle)?;
    step(&mut shown, &mut reader, last)?;
    if let None = reader.take()? {
        if let Err(cut) = reader.finish() {
            shown.extend_from_slice(&[53, (cut.block % 256) as u8])?;
        }
    }
    Ok(shown)
}

/// Whether the same comes of the bytes wherever they are cut.
fn comes(alloc: Global, bytes: &[u8], wanted: &[u8]) -> Result<bool, Fail>
    requires { length bytes.now ≤ 500 }
{
    for second in 0..bytes.len() + 1 {
        for first in 0..second + 1 {
            if in_three(alloc, bytes, first, second)?.as_slice() != wanted {
                return Ok(false);
            }
        }
    }
    Ok(true)
}

/// The whole file, and files that end in its last block, in its first, and between two.
#[test]
fn pieces_that_are_cut_anywhere(rt: HostRuntime) -> Result<(), Fail> {
    for (len, wanted) in [
        (124, [1, 6, 41].as_slice()),
        (100, &[53, 3]),
        (11, &[53, 1]),
        (28, &[]),
    ] {
        let bytes = FILE.split_at(len.min(124)).0;
        assert!(rt; comes(rt.alloc(), bytes, wanted)?, "of {len} bytes");
    }
    Ok(())
}
