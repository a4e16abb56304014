//! A pcapng file of the worked rows that is fed byte by byte: the same frames come as of all bytes at
//! once, and the same end, also where it is cut or a byte of it is another.

ghost use Rattle.std.specs.Prelude.{◌≡◌, ◌+◌, ◌≤◌, length, OnOk};

use crate::shown::show;
use pcap_io::{Body, Frame};
use pcapng_io::{NgEnd, NgFault, NgNext, NgPieces, NgReader};
use std::alloc::{AllocError, Global};
use std::test::Fail;

/// Two sections, the first of the lowest byte first, the second of the highest, each with an
/// interface of raw IP and an enhanced packet of 40 bytes.
const FILE: [u8; 240] = [
    0x0a, 0x0d, 0x0d, 0x0a, 0x1c, 0x00, 0x00, 0x00, 0x4d, 0x3c, 0x2b, 0x1a, 0x01, 0x00, 0x00, 0x00, //
    0xff, 0xff, 0xff, 0xff, 0xff, 0xff, 0xff, 0xff, 0x1c, 0x00, 0x00, 0x00, 0x01, 0x00, 0x00, 0x00, //
    0x14, 0x00, 0x00, 0x00, 0x65, 0x00, 0x00, 0x00, 0x00, 0x00, 0x00, 0x00, 0x14, 0x00, 0x00, 0x00, //
    0x06, 0x00, 0x00, 0x00, 0x48, 0x00, 0x00, 0x00, 0x00, 0x00, 0x00, 0x00, 0x00, 0x00, 0x00, 0x00, //
    0x00, 0x00, 0x00, 0x00, 0x28, 0x00, 0x00, 0x00, 0x28, 0x00, 0x00, 0x00, 0x60, 0x00, 0x00, 0x00, //
    0x00, 0x00, 0x3b, 0x40, 0x20, 0x01, 0x0d, 0xb8, 0x00, 0x01, 0x00, 0x00, 0x00, 0x00, 0x00, 0x00, //
    0x00, 0x00, 0x00, 0x01, 0x20, 0x01, 0x0d, 0xb8, 0x00, 0x02, 0x00, 0x00, 0x00, 0x00, 0x00, 0x00, //
    0x00, 0x00, 0x00, 0x01, 0x48, 0x00, 0x00, 0x00, 0x0a, 0x0d, 0x0d, 0x0a, 0x00, 0x00, 0x00, 0x1c, //
    0x1a, 0x2b, 0x3c, 0x4d, 0x00, 0x01, 0x00, 0x00, 0xff, 0xff, 0xff, 0xff, 0xff, 0xff, 0xff, 0xff, //
    0x00, 0x00, 0x00, 0x1c, 0x00, 0x00, 0x00, 0x01, 0x00, 0x00, 0x00, 0x14, 0x00, 0x65, 0x00, 0x00, //
    0x00, 0x00, 0x00, 0x00, 0x00, 0x00, 0x00, 0x14, 0x00, 0x00, 0x00, 0x06, 0x00, 0x00, 0x00, 0x48, //
    0x00, 0x00, 0x00, 0x00, 0x00, 0x00, 0x00, 0x00, 0x00, 0x00, 0x00, 0x00, 0x00, 0x00, 0x00, 0x28, //
    0x00, 0x00, 0x00, 0x28, 0x60, 0x00, 0x00, 0x00, 0x00, 0x00, 0x3b, 0x40, 0x20, 0x01, 0x0d, 0xb8, //
    0x00, 0x01, 0x00, 0x00, 0x00, 0x00, 0x00, 0x00, 0x00, 0x00, 0x00, 0x01, 0x20, 0x01, 0x0d, 0xb8, //
    0x00, 0x02, 0x00, 0x00, 0x00, 0x00, 0x00, 0x00, 0x00, 0x00, 0x00, 0x01, 0x00, 0x00, 0x00, 0x48, //
];

/// What comes of a file: its frames, told one behind another, and how it ends; `None` where it
/// doesn't.
#[derive(Debug, Drop, PartialEq, Eq)]
struct Coming {
    frames: Vec<u8>,
    end: Option<NgEnd>,
}

/// Tells a frame, with the bytes of its packet.
fn tell(frames: &mut Vec<u8>, frame: &Frame) -> Result<(), AllocError> {
    show(frames, frame)?;
    match &frame.body {
        Body::V6(bytes) => frames.extend_from_slice(bytes.as_slice()),
        Body::V4(bytes) => frames.extend_from_slice(bytes.as_slice()),
        Body::ShortFrame | Body::NotIp => Ok(()),
    }
}

/// What comes of all bytes at once.
fn of_all(alloc: Global, bytes: &[u8]) -> Result<Coming, Fail>
    requires { length bytes.now ≤ 1000 }
{
    let mut pieces = NgPieces::new(alloc, bytes);
    let mut frames = Vec::new(alloc);
    for _ in 0..bytes.len() + 1 {
        match pieces.next()? {
            NgNext::Frame(frame) => tell(&mut frames, &frame)?,
            NgNext::End(end) => {
                return Ok(Coming {
                    frames,
                    end: Some(end),
                });
            }
        }
    }
    Ok(Coming { frames, end: None })
}

/// Feeds a byte, and tells the frame that it ends; the fault where one comes.
fn step(frames: &mut Vec<u8>, reader: &mut NgReader, byte: u8) -> Result<Option<NgFault>, Fail>
    requires { reader.old.fed ≤ 1000 }
    ensures { OnOk result (reader.new.fed ≡ reader.old.fed + 1) }
{
    reader.feed(&[byte])?;
    match reader.take() {
        Ok(Some(frame)) => tell(frames, &frame)?,
        Ok(None) => {}
        Err(fault) => return Ok(Some(fault)),
    }
    Ok(None)
}

/// How a file ends of which all bytes were fed; `None` where a frame is left.
fn end_of(reader: &mut NgReader) -> Option<NgEnd> {
    match reader.take() {
        Ok(Some(_)) => None,
        Ok(None) => match reader.finish() {
            Ok(()) => Some(NgEnd::Whole),
            Err(cut) => Some(NgEnd::CutIn(cut.block)),
        },
        Err(fault) => Some(NgEnd::Faulty(fault)),
    }
}

/// What comes of the bytes one by one.
fn byte_by_byte(alloc: Global, bytes: &[u8]) -> Result<Coming, Fail>
    requires { length bytes.now ≤ 1000 }
{
    let mut reader = NgReader::new(alloc);
    let mut frames = Vec::new(alloc);
    for at in 0..bytes.len() {
        if let Some(fault) = step(&mut frames, &mut reader, bytes[at])? {
            return Ok(Coming {
                frames,
                end: Some(NgEnd::Faulty(fault)),
            });
        }
    }
    let end = end_of(&mut reader);
    Ok(Coming { frames, end })
}

/// Whether the same comes of bytes one by one as of all at once.
fn comes_alike(alloc: Global, bytes: &[u8]) -> Result<bool, Fail>
    requires { length bytes.now ≤ 1000 }
{
    let whole = of_all(alloc, bytes)?;
    Ok(whole.end.is_some() && byte_by_byte(alloc, bytes)? == whole)
}

/// The row's two frames and its end.
#[test]
fn a_file_of_the_rows_byte_by_byte(rt: HostRuntime) -> Result<(), Fail> {
    let came = byte_by_byte(rt.alloc(), &FILE)?;
    assert_eq!(rt; came.end, Some(NgEnd::Whole));
    assert_eq!(rt; came.frames.len(), 2 * (3 + 40));
    assert!(rt; came.frames.starts_with(&[1, 6, 40, 0x60]));
    assert!(rt; comes_alike(rt.alloc(), &FILE)?);
    Ok(())
}

#[test]
fn cut_files_byte_by_byte(rt: HostRuntime) -> Result<(), Fail> {
    for len in 0..FILE.len() {
        let bytes = FILE.split_at(len).0;
        assert!(rt; comes_alike(rt.alloc(), bytes)?, "of {len} bytes");
    }
    Ok(())
}

/// Each byte is another in turn, so that each fault of a block comes.
#[test]
fn damaged_files_byte_by_byte(rt: HostRuntime) -> Result<(), Fail> {
    for at in 0..FILE.len() {
        for byte in [0, 2, 3, 255] {
            let mut bytes = FILE;
            bytes[at] = byte;
            assert!(rt; comes_alike(rt.alloc(), &bytes)?, "with {byte} at {at}");
        }
    }
    Ok(())
}
