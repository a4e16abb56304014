//! The figures of the numbers that the definitions cite, each written out: the contract of a
//! function that does nothing.

ghost use Rattle.std.specs.Prelude.{◌≡◌};
ghost use Rattle.srv6_rules.specs.declared.numbers.TheConstants as n;

/// The numbers of headers: of IPv6 and its extension headers (RFC 8200 sections 3 and 4), of the
/// segment routing header (RFC 8754 section 2), of ICMPv6 (RFC 4443 sections 2 and 3, RFC 4861
/// section 4.5) and of IPv4 (RFC 791 section 3.1), and the own limit of 127 segments. A packet has
/// at most 65,575 bytes, a header and a payload of 65,535.
pub fn numbers_have_their_figures()
    ensures ipv6 { (n.IPV6_HEADER_LEN ≡ 40) × (n.MAX_PACKET_LEN ≡ 65575) × (n.IPV6_VERSION ≡ 6)
        × (n.PAYLOAD_LEN_AT ≡ 4) × (n.NEXT_HEADER_AT ≡ 6) × (n.HOP_LIMIT_AT ≡ 7)
        × (n.SOURCE_AT ≡ 8) × (n.DESTINATION_AT ≡ 24) × (n.MIN_MTU ≡ 1280) }
    ensures extensions { (n.HOP_BY_HOP ≡ 0) × (n.ROUTING ≡ 43) × (n.FRAGMENT ≡ 44)
        × (n.DESTINATION_OPTIONS ≡ 60) × (n.EXTENSION_UNIT ≡ 8) × (n.EXTENSION_LEN_AT ≡ 1)
        × (n.OPTIONS_AT ≡ 2) × (n.PAD1 ≡ 0) × (n.PADN ≡ 1) × (n.FRAGMENT_OFFSET_AT ≡ 2)
        × (n.FRAGMENT_OFFSET_UNIT ≡ 8) }
    ensures inside { (n.IPV6_INSIDE ≡ 41) × (n.IPV4_INSIDE ≡ 4) }
    ensures routing { (n.SEGMENT_ROUTING ≡ 4) × (n.ROUTING_TYPE_AT ≡ 2)
        × (n.SEGMENTS_LEFT_AT ≡ 3) × (n.LAST_ENTRY_AT ≡ 4) × (n.FLAGS_AT ≡ 5) × (n.TAG_AT ≡ 6)
        × (n.SEGMENT_LIST_AT ≡ 8) × (n.SEGMENT_LEN ≡ 16) × (n.MAX_SEGMENTS ≡ 127)
        × (n.HMAC ≡ 5) }
    ensures icmp { (n.ICMPV6 ≡ 58) × (n.ICMPV6_HEADER_LEN ≡ 8) × (n.MAX_QUOTE_LEN ≡ 1232)
        × (n.ICMPV6_HOP_LIMIT ≡ 64) × (n.DESTINATION_UNREACHABLE ≡ 1) × (n.PACKET_TOO_BIG ≡ 2)
        × (n.TIME_EXCEEDED ≡ 3) × (n.PARAMETER_PROBLEM ≡ 4) × (n.FIRST_INFORMATIONAL ≡ 128)
        × (n.REDIRECT ≡ 137) × (n.WRONG_FIELD ≡ 0) × (n.WRONG_NEXT_HEADER ≡ 1)
        × (n.UNKNOWN_OPTION ≡ 2) × (n.WRONG_UPPER_LAYER ≡ 4) }
    ensures ipv4 { (n.IPV4_VERSION ≡ 4) × (n.IPV4_HEADER_LEN ≡ 20) × (n.IPV4_LEN_UNIT ≡ 4)
        × (n.TOTAL_LEN_AT ≡ 2) × (n.TTL_AT ≡ 8) × (n.PROTOCOL_AT ≡ 9) × (n.CHECKSUM_AT ≡ 10)
        × (n.IPV4_SOURCE_AT ≡ 12) × (n.IPV4_DESTINATION_AT ≡ 16) × (n.TTL_WEIGHT ≡ 256)
        × (n.CHECKSUM_WRAP ≡ 65279) }
{}
