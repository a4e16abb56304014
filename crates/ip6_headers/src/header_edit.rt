//! Edits of a packet's header in its bytes (RFC 8200 section 3).

ghost use Rattle.std.specs.Prelude.{◌≡◌, ◌+◌, ◌≤◌, ◌++◌, length, take, drop, slice_set};
ghost use Rattle.srv6_rules.specs.Packet.{header_len, two_bytes, address_bytes};

use crate::numbers::{put_address, put_two};
use srv6_rules::numbers::{
    DESTINATION_AT, HOP_LIMIT_AT, IPV6_HEADER_LEN, NEXT_HEADER_AT, PAYLOAD_LEN_AT,
};
use v6_addr::Addr;

/// An edit of the IPv6 header that bytes begin with. What it writes stands in these bytes, each
/// field's in its place, and no other byte changes (RFC 8200 section 3).
#[derive(Drop)]
pub struct Ip6Edit<'a> {
    bytes: &'a mut [u8],
    ghost long: { header_len ≤ length bytes.now },
}

impl<'a> Ip6Edit<'a> {
    ghost use Rattle.ip6_headers.specs.Editing.{edited, lent_as};

    /// An edit over bytes, of which a header's 40 are there (RFC 8200 section 3).
    pub fn over(bytes: &'a mut [u8]) -> Ip6Edit<'a>
        requires { header_len ≤ length bytes.old }
        ensures same_reference { lent_as result ≡ bytes.entry.ghost_name }
        ensures bytes { edited result ≡ bytes.old }
    {
        Ip6Edit { bytes }
    }

    /// Writes the payload length, in bytes: how many after the header are the packet's (RFC 8200
    /// section 3).
    pub fn set_payload_len(&mut self, len: u16)
        ensures same_reference { lent_as self.new ≡ lent_as self.old }
        ensures bytes { edited self.new
            ≡ take PAYLOAD_LEN_AT (edited self.old)
            ++ (two_bytes len ++ drop NEXT_HEADER_AT (edited self.old)) }
    {
        put_two(self.bytes, PAYLOAD_LEN_AT, len);
    }

    /// Writes the value that names what stands after the header (RFC 8200 section 3).
    pub fn set_next_header(&mut self, next_header: u8)
        ensures same_reference { lent_as self.new ≡ lent_as self.old }
        ensures bytes { edited self.new ≡ slice_set (edited self.old) NEXT_HEADER_AT next_header }
    {
        self.bytes[NEXT_HEADER_AT] = next_header;
    }

    /// Writes the hop limit (RFC 8200 section 3).
    pub fn set_hop_limit(&mut self, hop_limit: u8)
        ensures same_reference { lent_as self.new ≡ lent_as self.old }
        ensures bytes { edited self.new ≡ slice_set (edited self.old) HOP_LIMIT_AT hop_limit }
    {
        self.bytes[HOP_LIMIT_AT] = hop_limit;
    }

    /// Writes the destination address (RFC 8200 section 3).
    pub fn set_destination(&mut self, destination: Addr)
        ensures same_reference { lent_as self.new ≡ lent_as self.old }
        ensures bytes { edited self.new
            ≡ take DESTINATION_AT (edited self.old)
            ++ (address_bytes destination.value ++ drop header_len (edited self.old)) }
    {
        put_address(self.bytes, DESTINATION_AT, destination);
    }
}
