//! The chain of extension headers after an IPv6 header (RFC 8200 section 4), header by header.

ghost use Rattle.std.specs.Prelude.{◌≡◌, ◌+◌, ◌≤◌, length, drop};
ghost use Rattle.srv6_rules.specs.Packet.{Packet, header_len};
ghost use Rattle.srv6_rules.specs.Chain.{is_extension, is_whole, extension_bytes, start_of};
ghost use Rattle.srv6_rules.specs.ChainTerms.{place_behind, chain_at};
ghost use Rattle.ip6_headers.specs.ChainStepping.{IsStanding, IsStep, begun, first_place, place_view, header_at};

use crate::view::Ip6View;
use srv6_rules::numbers::{
    DESTINATION_OPTIONS, EXTENSION_LEN_AT, EXTENSION_UNIT, FRAGMENT, HOP_BY_HOP, IPV6_HEADER_LEN,
    NEXT_HEADER_AT, ROUTING,
};

/// Where a chain has come to: a place, the next-header value that names what stands there, and the
/// place of the field that held that value. Places are in bytes from the packet's first (RFC 8200
/// section 4).
#[derive(Clone, Copy, Debug, PartialEq, Eq)]
pub struct ChainPlace {
    /// The place.
    pub at: usize,
    /// The value that names what stands there.
    pub kind: u8,
    /// The place of the field that held that value.
    pub named_at: usize,
}

impl ChainPlace {
    /// Where the chain of a packet starts: after its IPv6 header, which names what stands there
    /// (RFC 8200 section 4).
    pub fn first(next_header: u8) -> ChainPlace
        ensures { place_view result ≡ first_place next_header }
    {
        ChainPlace {
            at: IPV6_HEADER_LEN,
            kind: next_header,
            named_at: NEXT_HEADER_AT,
        }
    }

    /// Where the chain goes on after the header of these bytes that stands here: its first byte
    /// names what stands there (RFC 8200 section 4).
    pub fn behind(self, header: &[u8]) -> ChainPlace
        requires least { EXTENSION_UNIT ≤ length header.now }
        requires fits { self.at + length header.now ≤ usize.MAX }
        ensures { place_view result ≡ place_behind (header_at self header.now) }
    {
        ChainPlace {
            at: self.at + header.len(),
            kind: header[0],
            named_at: self.at,
        }
    }
}

/// What bytes begin with that a next-header value names (RFC 8200 section 4).
#[derive(Clone, Copy, Debug, PartialEq, Eq)]
pub enum Stands {
    /// A whole extension header.
    Header {
        /// Its length in bytes.
        len: usize,
    },
    /// An upper layer.
    Upper,
    /// An extension header that is cut.
    Cut,
}

/// A step along a chain (RFC 8200 section 4).
#[derive(Clone, Copy, Debug, PartialEq, Eq)]
pub enum ChainStep {
    /// A whole extension header stands at the place.
    Header {
        /// Its length in bytes.
        len: usize,
        /// Where the chain goes on after it.
        next: ChainPlace,
    },
    /// An upper layer stands at the place, and the chain ends.
    Upper,
}

/// The extension header at a place is cut (RFC 8200 section 4).
#[derive(Clone, Copy, Debug, PartialEq, Eq)]
pub struct BadChain;

/// The value names an extension header.
fn is_extension(kind: u8) -> bool
    ensures { result ≡ is_extension kind }
{
    kind == HOP_BY_HOP || kind == ROUTING || kind == FRAGMENT || kind == DESTINATION_OPTIONS
}

/// The length in bytes of the header that these bytes begin with; a Fragment header states none.
fn extension_len(kind: u8, bytes: &[u8]) -> usize
    requires { EXTENSION_UNIT ≤ length bytes.now }
    ensures { result ≡ extension_bytes kind bytes.now }
{
    if kind == FRAGMENT {
        EXTENSION_UNIT
    } else {
        EXTENSION_UNIT * (usize::from(bytes[EXTENSION_LEN_AT]) + 1)
    }
}

/// The whole header is there.
fn is_whole(kind: u8, bytes: &[u8]) -> bool
    ensures { result ≡ is_whole kind bytes.now }
{
    bytes.len() >= EXTENSION_UNIT && bytes.len() >= extension_len(kind, bytes)
}

/// What these bytes, which a next-header value names, begin with: 0, 43, 44 and 60 name extension
/// headers, of which fewer than 8 bytes or fewer than their length are cut, and every other value
/// names an upper layer, 50 and 51 among them (RFC 8200 section 4; own rule). The length of a
/// Fragment header is 8 bytes whatever its second byte; that of the others is 8 bytes and so many
/// times 8 as its second byte says.
pub fn stands_at(kind: u8, bytes: &[u8]) -> Stands
    ensures { IsStanding kind bytes.now result }
{
    if !is_extension(kind) {
        return Stands::Upper;
    }
    if !is_whole(kind, bytes) {
        return Stands::Cut;
    }
    Stands::Header {
        len: extension_len(kind, bytes),
    }
}

/// Where the chain of a packet starts: after its IPv6 header, which names what stands there (RFC
/// 8200 section 4).
pub fn chain_start(packet: &Ip6View<'_>) -> ChainPlace
    ensures { place_view result ≡ start_of packet.now }
{
    ChainPlace::first(packet.next_header())
}

/// The step of a packet's chain from a place on, over the packet's bytes: the whole extension
/// header that stands there and the place after it, or an upper layer. `BadChain` comes exactly
/// where the place's kind names an extension header of which bytes are missing, before the kind is
/// judged otherwise (RFC 8200 section 4; own rule). From `chain_start` on the steps give the
/// packet's chain, header by header.
pub fn chain_step(bytes: &[u8], place: ChainPlace) -> Result<ChainStep, BadChain>
    requires { place.at ≤ length bytes.now }
    ensures step { IsStep (place_view place) (drop place.at bytes.now) result }
    ensures chain { (p : Packet) → header_len ≤ place.at → drop header_len bytes.now ≡ p.payload
        → chain_at p (place_view place) ≡ begun p (place_view place) result }
{
    let rest = bytes.split_at(place.at).1;
    match stands_at(place.kind, rest) {
        Stands::Header { len } => Ok(ChainStep::Header {
            len,
            next: place.behind(rest.split_at(len).0),
        }),
        Stands::Upper => Ok(ChainStep::Upper),
        Stands::Cut => Err(BadChain),
    }
}
