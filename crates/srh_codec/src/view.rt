//! A segment routing header read in its bytes.

ghost use Rattle.std.specs.Prelude.{◌≡◌, ◌<◌, slice_set};
ghost use Rattle.srv6_rules.specs.Srh.{srh_spelling, entries_of, entry_of, tlv_bytes};
ghost use Rattle.srh_codec.specs.SrhReading.{IsRead};

use ip6_headers::{BadChain, Stands, address_at, stands_at, two_at};
use srv6_rules::numbers::{
    EXTENSION_LEN_AT, FLAGS_AT, LAST_ENTRY_AT, ROUTING, ROUTING_TYPE_AT, SEGMENT_LEN,
    SEGMENT_LIST_AT, SEGMENT_ROUTING, SEGMENTS_LEFT_AT, TAG_AT,
};
use std::marker::Model;
use v6_addr::Addr;

/// A whole segment routing header in bytes (RFC 8754 section 2).
#[derive(Debug, Drop)]
pub struct SrhView<'a> {
    // From the header's first byte to its last.
    bytes: &'a [u8],
}

impl<'a> Model for SrhView<'a> {
    ghost use Rattle.srv6_rules.specs.Srh.{Srh};

    ghost Value = { Srh };

    ghost use Rattle.srh_codec.specs.Viewing.{viewed, IsOneHeader};

    ghost view = { viewed };

    ghost invariant = { IsOneHeader };
}

impl<'a> SrhView<'a> {
    /// Reads the header that these bytes begin with; what stands after it is not looked at.
    /// `BadChain` comes exactly where fewer than 8 bytes are there, or fewer than the header's
    /// length says (RFC 8200 section 4). The routing type is not looked at: where it is 4 the
    /// header's bytes are the spelling of what is read.
    pub fn read(bytes: &'a [u8]) -> Result<SrhView<'a>, BadChain>
        ensures { IsRead bytes.now result }
    {
        let Stands::Header { len } = stands_at(ROUTING, bytes) else {
            return Err(BadChain);
        };
        Ok(SrhView {
            bytes: bytes.split_at(len).0,
        })
    }

    /// The value that names what stands after the header (RFC 8754 section 2).
    pub fn next_header(&self) -> u8
        ensures { result ≡ self.now.next_header }
    {
        self.bytes[0]
    }

    /// The header's length in units of 8 bytes after its first 8 (RFC 8754 section 2).
    pub fn extension_len(&self) -> u8
        ensures { result ≡ self.now.extension_len }
    {
        self.bytes[EXTENSION_LEN_AT]
    }

    /// Segments Left: how many segments are to be visited after the active one (RFC 8754 section
    /// 2).
    pub fn segments_left(&self) -> u8
        ensures { result ≡ self.now.segments_left }
    {
        self.bytes[SEGMENTS_LEFT_AT]
    }

    /// Last Entry: the place of the segment list's last entry, counted from 0 (RFC 8754 section 2).
    pub fn last_entry(&self) -> u8
        ensures { result ≡ self.now.last_entry }
    {
        self.bytes[LAST_ENTRY_AT]
    }

    /// The flags (RFC 8754 section 2).
    pub fn flags(&self) -> u8
        ensures { result ≡ self.now.flags }
    {
        self.bytes[FLAGS_AT]
    }

    /// The tag (RFC 8754 section 2).
    pub fn tag(&self) -> u16
        ensures { result ≡ self.now.tag }
    {
        two_at(self.bytes, TAG_AT)
    }

    /// How many entries of 16 bytes the header's length holds, whatever Last Entry says (RFC 8754
    /// section 2).
    pub fn entries(&self) -> usize
        ensures { result ≡ entries_of self.now }
    {
        usize::from(self.extension_len() / 2)
    }

    /// The segment list's entry at a place counted from 0; the list begins with the last segment
    /// (RFC 8754 section 2).
    pub fn entry(&self, i: usize) -> Addr
        requires { i < entries_of self.now }
        ensures { result.value ≡ entry_of self.now i }
    {
        address_at(self.bytes, SEGMENT_LIST_AT + SEGMENT_LEN * i)
    }

    /// The bytes of the type-length-value area: those between the entry at Last Entry, which is
    /// there, and the header's end (RFC 8754 sections 2 and 2.1).
    pub fn tlv_bytes(&self) -> &'a [u8]
        requires { self.now.last_entry < entries_of self.now }
        ensures { result.now ≡ tlv_bytes self.now }
    {
        let start = SEGMENT_LIST_AT + SEGMENT_LEN * (usize::from(self.last_entry()) + 1);
        self.bytes.split_at(start).1
    }

    /// The header's bytes: but for the routing type, the spelling of what was read (RFC 8754
    /// section 2).
    pub fn bytes(&self) -> &'a [u8]
        ensures { slice_set result.now ROUTING_TYPE_AT SEGMENT_ROUTING ≡ srh_spelling self.now }
    {
        self.bytes
    }
}
