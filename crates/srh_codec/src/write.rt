//! Segment routing headers written.

ghost use Rattle.std.specs.Prelude.{◌≡◌, ◌+◌, ◌*◌, ◌<◌, ◌≤◌, length, flat_map};
ghost use Rattle.srv6_rules.specs.Packet.{address_bytes};
ghost use Rattle.srv6_rules.specs.Srh.{srh_spelling};
ghost use Rattle.srh_codec.specs.Writing.{numbers_of, header_of_parts};

use byteorder::{BigEndian, ByteOrder};
use srv6_rules::numbers::{MAX_SEGMENTS, SEGMENT_LEN, SEGMENT_LIST_AT, SEGMENT_ROUTING};
use v6_addr::Addr;

/// What is said of a segment routing header that has no flags, no tag and no type-length-value
/// area (RFC 8754 section 2).
#[derive(Clone, Copy, Debug)]
pub struct SrhParts<'a> {
    /// The value that names what stands after the header.
    pub next_header: u8,
    /// Segments Left.
    pub segments_left: u8,
    /// The entries of the segment list from place 0 on, which begins with the last segment.
    pub entries: &'a [Addr],
}

/// Writes the entries of a segment list one after the other.
fn write_entries(out: &mut [u8], entries: &[Addr])
    requires { length out.old ≡ SEGMENT_LEN * length entries.now }
    ensures { out.new ≡ flat_map address_bytes (numbers_of entries.now) }
{
    let mut at = 0;
    for entry in entries {
        BigEndian::write_u128(&mut out[at..], entry.value);
        at += SEGMENT_LEN;
    }
}

/// Writes the header that an encapsulating node has for these entries, with any next header: Last
/// Entry is the last entry's place, and flags and tag are 0 (RFC 8754 sections 2 and 4.1).
pub fn write_srh(out: &mut [u8], parts: &SrhParts<'_>)
    requires some { 0 < length parts.now.entries.now }
    requires most { length parts.now.entries.now ≤ MAX_SEGMENTS }
    requires room { length out.old
        ≡ SEGMENT_LIST_AT + SEGMENT_LEN * length parts.now.entries.now }
    ensures { out.new ≡ srh_spelling (header_of_parts parts.now) }
{
    let count = parts.entries.len() as u8;
    let (head, list) = out.split_at_mut(SEGMENT_LIST_AT);
    let flags = 0;
    let tag = [0, 0];
    head.copy_from_slice(&[
        parts.next_header,
        2 * count,
        SEGMENT_ROUTING,
        parts.segments_left,
        count - 1,
        flags,
        tag[0],
        tag[1],
    ]);
    write_entries(list, parts.entries);
}
