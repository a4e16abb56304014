//! The capture that is written.

ghost use Rattle.std.specs.Prelude.{◌≡◌, ◌+◌, ◌<◌, ◌++◌, ◌≤◌, true, length, OnOk, OnErr};
ghost use Rattle.std.specs.Vec.{vec_len, vec_capacity};
ghost use Rattle.pcap_io.specs.Capture.{written_head_bytes, written_frame_bytes};
ghost use Rattle.pcap_io.specs.Frames.{numbers_of_frame};

use crate::numbers::{HEAD_LEN, MAJOR, MICROS_MAGIC, MINOR, RAW_IP, SNAPLEN};
use base::NoMemory;
use byteorder::{ByteOrder, LittleEndian};
use srv6_rules::numbers::MAX_PACKET_LEN;

/// The head that is written.
#[tactic(auto, unfolding(crate::specs::Capture::written_head_bytes, crate::specs::Head::head_bytes, crate::specs::Numbers::number_bytes))]
fn head() -> [u8; HEAD_LEN]
    ensures { result ≡ written_head_bytes }
{
    let mut head = [0; HEAD_LEN];
    LittleEndian::write_u32(&mut head, MICROS_MAGIC);
    LittleEndian::write_u16(&mut head[4..], MAJOR);
    LittleEndian::write_u16(&mut head[6..], MINOR);
    LittleEndian::write_u32(&mut head[16..], SNAPLEN);
    LittleEndian::write_u32(&mut head[20..], RAW_IP);
    head
}

/// The four numbers of a frame that is written.
#[tactic(auto, unfolding(crate::specs::Frames::numbers_of_frame, crate::specs::Numbers::number_bytes))]
fn frame_head(number: u32, link: u32, len: u32) -> [u8; 16]
    ensures { result ≡ numbers_of_frame true number link len len }
{
    let mut head = [0; 16];
    LittleEndian::write_u32(&mut head, number);
    LittleEndian::write_u32(&mut head[4..], link);
    LittleEndian::write_u32(&mut head[8..], len);
    LittleEndian::write_u32(&mut head[12..], len);
    head
}

/// Writes the head of a capture at the end: little-endian, with microseconds, version 2.4, zone 0,
/// sigfigs 0, snaplen 262,144 and link type 101. After want of memory nothing is written.
pub fn write_head(out: &mut Vec<u8>) -> Result<(), NoMemory>
    ensures ok { OnOk result (out.new.items ≡ out.old.items ++ written_head_bytes) }
    ensures err { OnErr result (out.new.items ≡ out.old.items) }
{
    out.extend_from_slice(&head())?;
    Ok(())
}

/// Writes the frame of a packet at the end: the packet's number as seconds, `link` as
/// microseconds, the packet's length in bytes twice, and the packet. After want of memory nothing
/// is written; none is wanting where there is room for the frame, and no room is given back.
pub fn write_frame(out: &mut Vec<u8>, number: u32, link: u32, packet: &[u8]) -> Result<(), NoMemory>
    requires { length packet.now ≤ MAX_PACKET_LEN }
    ensures ok { OnOk result (out.new.items
        ≡ out.old.items ++ written_frame_bytes number link packet.now) }
    ensures err { OnErr result (out.new.items ≡ out.old.items) }
    ensures full { OnErr result
        (vec_capacity out.old < vec_len out.old + (16 + length packet.now)) }
    ensures room { vec_capacity out.old ≤ vec_capacity out.new }
{
    let before = out.len();
    out.extend_from_slice(&frame_head(number, link, packet.len() as u32))?;
    if out.extend_from_slice(packet).is_err() {
        out.truncate(before);
        return Err(NoMemory);
    }
    Ok(())
}
