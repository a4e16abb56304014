//! The numbers of headers. Lengths and places are in bytes, and a place is counted from its
//! header's first byte.

/// The length of an IPv6 header: 40 (RFC 8200 section 3).
pub const IPV6_HEADER_LEN: usize = 40;

/// The longest IPv6 packet: a header and a payload of 65,535 bytes, the greatest that its payload
/// length can state (RFC 8200 section 3).
pub const MAX_PACKET_LEN: usize = 65575;

/// The version in the first half byte of an IPv6 header: 6 (RFC 8200 section 3).
pub const IPV6_VERSION: u8 = 6;

/// The place of the payload length in an IPv6 header, two bytes: 4 (RFC 8200 section 3).
pub const PAYLOAD_LEN_AT: usize = 4;

/// The place of the next header in an IPv6 header: 6 (RFC 8200 section 3).
pub const NEXT_HEADER_AT: usize = 6;

/// The place of the hop limit in an IPv6 header: 7 (RFC 8200 section 3).
pub const HOP_LIMIT_AT: usize = 7;

/// The place of the source address in an IPv6 header, 16 bytes: 8 (RFC 8200 section 3).
pub const SOURCE_AT: usize = 8;

/// The place of the destination address in an IPv6 header, 16 bytes: 24 (RFC 8200 section 3).
pub const DESTINATION_AT: usize = 24;

/// The next header that names Hop-by-Hop Options: 0 (RFC 8200 section 4.3).
pub const HOP_BY_HOP: u8 = 0;

/// The next header that names an IPv6 packet inside a packet: 41 (RFC 8986 sections 4.4 and
/// 4.6).
pub const IPV6_INSIDE: u8 = 41;

/// The next header that names an IPv4 packet inside a packet: 4 (RFC 8986 sections 4.5 and 4.7).
pub const IPV4_INSIDE: u8 = 4;

/// The next header that names a Routing header: 43 (RFC 8200 section 4.4).
pub const ROUTING: u8 = 43;

/// The next header that names a Fragment header: 44 (RFC 8200 section 4.5).
pub const FRAGMENT: u8 = 44;

/// The next header that names Destination Options: 60 (RFC 8200 section 4.6).
pub const DESTINATION_OPTIONS: u8 = 60;

/// The unit in which an extension header states its length, and the least length of one: 8 (RFC
/// 8200 section 4).
pub const EXTENSION_UNIT: usize = 8;

/// The place of the length of an extension header, in 8-byte units after the first 8 bytes: 1 (RFC
/// 8200 section 4).
pub const EXTENSION_LEN_AT: usize = 1;

/// The routing type of a segment routing header: 4 (RFC 8754 section 2).
pub const SEGMENT_ROUTING: u8 = 4;

/// The place of the routing type in a Routing header: 2 (RFC 8200 section 4.4, RFC 8754 section 2).
pub const ROUTING_TYPE_AT: usize = 2;

/// The place of Segments Left in a Routing header: 3 (RFC 8200 section 4.4, RFC 8754 section 2).
pub const SEGMENTS_LEFT_AT: usize = 3;

/// The place of Last Entry in a segment routing header: 4 (RFC 8754 section 2).
pub const LAST_ENTRY_AT: usize = 4;

/// The place of the flags in a segment routing header: 5 (RFC 8754 section 2).
pub const FLAGS_AT: usize = 5;

/// The place of the tag in a segment routing header, two bytes: 6 (RFC 8754 section 2).
pub const TAG_AT: usize = 6;

/// The place of the segment list in a segment routing header: 8 (RFC 8754 section 2).
pub const SEGMENT_LIST_AT: usize = 8;

/// The length of an entry of the segment list, an address: 16 (RFC 8754 section 2).
pub const SEGMENT_LEN: usize = 16;

/// The most segments that are put in front of a packet: 127. Their entries take 254 units of 8
/// bytes, and those of 128 would not fit the header's length (RFC 8754 section 2; that the reduced
/// form has no more is an own rule).
pub const MAX_SEGMENTS: usize = 127;

/// The place of the options in a Hop-by-Hop or Destination Options header: 2 (RFC 8200 section
/// 4.2).
pub const OPTIONS_AT: usize = 2;

/// The type of Pad1, which has neither length nor data: 0 (RFC 8200 section 4.2, RFC 8754 section
/// 2.1.1.1).
pub const PAD1: u8 = 0;

/// The type of the option PadN: 1 (RFC 8200 section 4.2).
pub const PADN: u8 = 1;

/// The type of an HMAC in a segment routing header: 5 (RFC 8754 section 2.1.2).
pub const HMAC: u8 = 5;

/// The place of the fragment offset in a Fragment header, two bytes whose lowest 3 bits are not of
/// it: 2 (RFC 8200 section 4.5).
pub const FRAGMENT_OFFSET_AT: usize = 2;

/// The number of values of the 3 bits below a fragment offset: 8 (RFC 8200 section 4.5).
pub const FRAGMENT_OFFSET_UNIT: u16 = 8;

/// The least size of packets that every link carries, in bytes: 1,280 (RFC 8200 section 5).
pub const MIN_MTU: usize = 1280;

/// The next header that names ICMPv6: 58 (RFC 4443 section 2.1).
pub const ICMPV6: u8 = 58;

/// The length of an ICMPv6 error message in front of what it quotes: 8 (RFC 4443 section 3).
pub const ICMPV6_HEADER_LEN: usize = 8;

/// The most bytes that an ICMPv6 error quotes of a packet, so that the error goes over every link:
/// 1,232 (RFC 4443 section 2.4 (c)).
pub const MAX_QUOTE_LEN: usize = MIN_MTU - IPV6_HEADER_LEN - ICMPV6_HEADER_LEN;

/// The hop limit of an ICMPv6 error: 64.
pub const ICMPV6_HOP_LIMIT: u8 = 64;

/// The type of Destination Unreachable: 1 (RFC 4443 section 3.1).
pub const DESTINATION_UNREACHABLE: u8 = 1;

/// The type of Packet Too Big: 2 (RFC 4443 section 3.2).
pub const PACKET_TOO_BIG: u8 = 2;

/// The type of Time Exceeded: 3 (RFC 4443 section 3.3).
pub const TIME_EXCEEDED: u8 = 3;

/// The type of Parameter Problem: 4 (RFC 4443 section 3.4).
pub const PARAMETER_PROBLEM: u8 = 4;

/// The lowest type of an ICMPv6 message that is no error: 128 (RFC 4443 section 2.1).
pub const FIRST_INFORMATIONAL: u8 = 128;

/// The type of Redirect: 137 (RFC 4861 section 4.5).
pub const REDIRECT: u8 = 137;

/// The code of Parameter Problem for a field that is wrong: 0 (RFC 4443 section 3.4).
pub const WRONG_FIELD: u8 = 0;

/// The code of Parameter Problem for a next header that is wrong: 1 (RFC 4443 section 3.4).
pub const WRONG_NEXT_HEADER: u8 = 1;

/// The code of Parameter Problem for an unknown option: 2 (RFC 4443 section 3.4).
pub const UNKNOWN_OPTION: u8 = 2;

/// The code of Parameter Problem for an upper layer that a SID does not take: 4 (RFC 8986 section
/// 4.1.1).
pub const WRONG_UPPER_LAYER: u8 = 4;

/// The version in the first half byte of an IPv4 header: 4 (RFC 791 section 3.1).
pub const IPV4_VERSION: u8 = 4;

/// The least length of an IPv4 header, one without options: 20 (RFC 791 section 3.1).
pub const IPV4_HEADER_LEN: usize = 20;

/// The unit in which the second half byte of an IPv4 header states the header's length: 4 (RFC 791
/// section 3.1).
pub const IPV4_LEN_UNIT: usize = 4;

/// The place of the total length in an IPv4 header, two bytes: 2 (RFC 791 section 3.1).
pub const TOTAL_LEN_AT: usize = 2;

/// The place of the time to live in an IPv4 header: 8 (RFC 791 section 3.1).
pub const TTL_AT: usize = 8;

/// The place of the protocol in an IPv4 header: 9 (RFC 791 section 3.1).
pub const PROTOCOL_AT: usize = 9;

/// The place of the checksum in an IPv4 header, two bytes: 10 (RFC 791 section 3.1).
pub const CHECKSUM_AT: usize = 10;

/// The place of the source address in an IPv4 header, 4 bytes: 12 (RFC 791 section 3.1).
pub const IPV4_SOURCE_AT: usize = 12;

/// The place of the destination address in an IPv4 header, 4 bytes: 16 (RFC 791 section 3.1).
pub const IPV4_DESTINATION_AT: usize = 16;

/// What one of the time to live weighs in the sum of the header's words, as it is the high byte of
/// its word: 256 (RFC 791 section 3.1).
pub const TTL_WEIGHT: u16 = 256;

/// The least checksum that a time to live lower by 1 takes to 65,535 or past it: 65,279, which is
/// 65,535 less 256 (RFC 1624 section 3).
pub const CHECKSUM_WRAP: u16 = 65279;
