//! The segment routing headers that a SID takes out of one packet.

ghost use Rattle.std.specs.Prelude.{◌≡◌, ◌+◌, ◌<◌, ◌^◌};
ghost use Rattle.ip6_headers.specs.ChainStepping.{place_view};
ghost use Rattle.end_behaviours.specs.LastHeaders.{last_place};

use arrayvec::ArrayVec;
use ip6_headers::ChainPlace;
use srv6_rules::numbers::ROUTING;

/// So many extension headers have room in a packet at most, each of at least 8 bytes.
const MAX_HEADERS: usize = 8191;

/// A segment routing header that is taken out: its place, the place of the field that names it and
/// its length, in bytes.
#[derive(Clone, Copy, Debug, Default)]
pub(crate) struct LastHeader {
    at: u32,
    named_at: u32,
    len: u32,
}

/// The headers that are taken out of a packet, in its order.
pub(crate) type LastHeaders = ArrayVec<LastHeader, MAX_HEADERS>;

impl LastHeader {
    /// The segment routing header of so many bytes at a place.
    pub(crate) fn new(place: ChainPlace, len: usize) -> LastHeader
        requires routing { place.kind ≡ ROUTING }
        requires named { place.named_at < place.at }
        requires fits { place.at + len < 2 ^ 32 }
        ensures place { last_place result ≡ place_view place }
        ensures len { result.len ≡ len }
    {
        LastHeader {
            at: place.at as u32,
            named_at: place.named_at as u32,
            len: len as u32,
        }
    }

    /// Where it stands.
    pub(crate) fn place(self) -> ChainPlace
        ensures { place_view result ≡ last_place self }
    {
        ChainPlace {
            at: self.at as usize,
            kind: ROUTING,
            named_at: self.named_at as usize,
        }
    }

    /// Its length in bytes.
    pub(crate) fn len(self) -> usize
        ensures { result ≡ self.len }
    {
        self.len as usize
    }
}
