//! Bytes read as a packet of a family, in place.

ghost use Rattle.std.specs.Prelude.{◌≡◌};
ghost use Rattle.srv6_rules.specs.declared.family.Family.TheVariants.{V4};
ghost use Rattle.srv6_rules.specs.Packet.{content_of, read_as, entered};
ghost use Rattle.node_stage.specs.Fronted.{fronted};

use crate::content_buf::ContentBuf;
use crate::ip4_packet::Packet4;
use crate::ip6_packet::Packet;
use ip6_headers::{read_fault, read_fault4};
use pkt_buf::PktBuf;
use srv6_rules::Family;
use srv6_rules::numbers::MAX_PACKET_LEN;

impl ContentBuf {
    /// How bytes read as IPv6, in place: what stands after the packet's end is cut (RFC 8200
    /// section 3).
    pub(crate) fn read(bytes: PktBuf) -> ContentBuf
        ensures { result ≡ fronted (content_of bytes.bytes) bytes.front }
    {
        match read_fault(bytes.view()) {
            Some(fault) => ContentBuf::unreadable(bytes, fault.reason()),
            None => ContentBuf::of(Packet::at_front(bytes)),
        }
    }

    /// How bytes read as IPv4, in place: what stands after the packet's end is cut (RFC 791 section
    /// 3.1).
    fn read4(bytes: PktBuf) -> ContentBuf
        ensures { result ≡ fronted (read_as V4 bytes.bytes) bytes.front }
    {
        match read_fault4(bytes.view()) {
            Some(fault) => ContentBuf::unreadable(bytes, fault.reason()),
            None => ContentBuf::of4(Packet4::at_front(bytes)),
        }
    }

    /// How bytes read as a packet of a family, in place.
    pub(crate) fn read_as(family: Family, bytes: PktBuf) -> ContentBuf
        ensures { result ≡ fronted (read_as family bytes.bytes) bytes.front }
    {
        match family {
            Family::V6 => ContentBuf::read(bytes),
            Family::V4 => ContentBuf::read4(bytes),
        }
    }

    /// What enters a node with the bytes of a buffer as a packet of a family, in place: of bytes
    /// that do not read at most 65,575 are kept, and as many are spare in front as were.
    pub fn enter_buf(family: Family, mut buf: PktBuf) -> ContentBuf
        ensures { result ≡ fronted (entered family buf.bytes) buf.front }
    {
        let len = MAX_PACKET_LEN.min(buf.len());
        buf.truncate(len);
        ContentBuf::read_as(family, buf)
    }
}
