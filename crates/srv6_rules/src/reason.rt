//! The reasons for which a node drops a packet.

ghost use Rattle.std.specs.Prelude.{Some};
ghost use Rattle.srv6_rules.specs.Reasons.{reason_name};

use std::fmt;
use std::fmt::{Display, Formatter};

/// Why a node dropped a packet.
#[derive(Clone, Copy, Debug, PartialEq, Eq)]
pub enum Reason {
    /// Fewer bytes than the header and the lengths in it say, or IPv4 lengths that do not fit one
    /// another.
    Truncated,
    /// The first half byte is not the family's version.
    BadVersion,
    /// The destination is multicast.
    Multicast,
    /// Nothing in the table holds the destination.
    NoRoute,
    /// The hop limit is at most 1 and would have to be lowered.
    HopLimit,
    /// An extension header is cut, or an option passes its header's end.
    BadChain,
    /// A Hop-by-Hop Options header that the IPv6 header does not name.
    LateHopByHop,
    /// An option of an unknown type whose two highest bits are 01.
    OptionDiscard,
    /// An option of an unknown type whose highest bit is 1.
    OptionUnknown,
    /// A Fragment header that would have to be processed.
    Fragment,
    /// Segments Left or Last Entry is out of range, or a segment is left at a SID that
    /// decapsulates.
    BadSegments,
    /// An HMAC in a segment routing header.
    HmacTlv,
    /// An item of a segment routing header's type-length-value area passes the area's end.
    BadTlv,
    /// A routing header with segments left that the node does not know; at its own address it knows
    /// none.
    UnknownRouting,
    /// An upper layer that the node does not allow at a SID.
    UpperLayer,
    /// The TTL of an IPv4 packet is at most 1 and would have to be lowered.
    Ttl,
    /// With another header in front the packet would be longer than its payload length can state.
    TooBig,
    /// The hop limit or TTL of a packet that is to be encapsulated is at most 1.
    InnerHop,
    /// The packet is longer than the MTU of the link that was taken.
    MtuExceeded,
}

impl Display for Reason {
    ghost output = { λ reason. Some (reason_name reason) };

    #[tactic(auto, unfolding(crate::specs::Reasons::reason_name))]
    fn fmt<W: fmt::Write>(&self, f: &mut Formatter<W>) -> fmt::Result {
        f.write_str(match self {
            Reason::Truncated => "Truncated",
            Reason::BadVersion => "BadVersion",
            Reason::Multicast => "Multicast",
            Reason::NoRoute => "NoRoute",
            Reason::HopLimit => "HopLimit",
            Reason::BadChain => "BadChain",
            Reason::LateHopByHop => "LateHopByHop",
            Reason::OptionDiscard => "OptionDiscard",
            Reason::OptionUnknown => "OptionUnknown",
            Reason::Fragment => "Fragment",
            Reason::BadSegments => "BadSegments",
            Reason::HmacTlv => "HmacTlv",
            Reason::BadTlv => "BadTlv",
            Reason::UnknownRouting => "UnknownRouting",
            Reason::UpperLayer => "UpperLayer",
            Reason::Ttl => "Ttl",
            Reason::TooBig => "TooBig",
            Reason::InnerHop => "InnerHop",
            Reason::MtuExceeded => "MtuExceeded",
        })
    }
}
