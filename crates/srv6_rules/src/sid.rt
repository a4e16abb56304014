//! SIDs and their behaviours, and sets of links.

ghost use Rattle.std.specs.Prelude.{◌≡◌};
ghost use Rattle.srv6_rules.specs.Behaviours.{behaviour_goes_on, behaviour_exposes, behaviour_takes_links, behaviour_table, behaviour_policy, behaviour_reduces, behaviour_takes_flavours, goes_on, exposes};
ghost use Rattle.srv6_rules.specs.CompressedSteps.{compression_of};

use crate::compression::Compression;
use crate::numbers::{IPV4_INSIDE, IPV6_INSIDE};
use base::Seq;
use v6_addr::Prefix;

/// How a SID's part of a segment list is compressed (RFC 9800 sections 4.1 and 4.2).
#[derive(Clone, Copy, Debug, PartialEq, Eq)]
pub enum Csid {
    /// Not at all: the SID is a whole segment.
    Plain,
    /// NEXT-CSID: the segments after it stand in the argument of its address.
    Next,
    /// REPLACE-CSID: the segments after it stand packed in an entry of the segment list.
    Replace,
}

/// What a SID does with a packet (RFC 8986 section 4).
#[derive(Clone, Copy, Debug, PartialEq, Eq)]
pub enum Behaviour {
    /// End: the next segment, looked up in table 0 (RFC 8986 section 4.1).
    End,
    /// End.X: the next segment, over the SID's own links (RFC 8986 section 4.2).
    EndX,
    /// End.T: the next segment, looked up in a table (RFC 8986 section 4.3).
    EndT {
        /// The table's number.
        table: u32,
    },
    /// End.DX6: decapsulation of an IPv6 packet, which goes over the SID's own links (RFC 8986
    /// section 4.4).
    Dx6,
    /// End.DX4: decapsulation of an IPv4 packet, which goes over the SID's own links (RFC 8986
    /// section 4.5).
    Dx4,
    /// End.DT6: decapsulation, and a look-up of the inner packet in a table (RFC 8986 section 4.6).
    Dt6 {
        /// The table's number.
        table: u32,
    },
    /// End.DT4: the same of an inner IPv4 packet (RFC 8986 section 4.7).
    Dt4 {
        /// The table's number.
        table: u32,
    },
    /// End.DT46: the same of an inner packet of either family (RFC 8986 section 4.8).
    Dt46 {
        /// The table's number.
        table: u32,
    },
    /// End.B6.Encaps: the next segment, and a policy's header in front, in the full form (RFC 8986
    /// section 4.13).
    B6 {
        /// The policy's number.
        policy: u32,
    },
    /// End.B6.Encaps.Red: the same in the reduced form (RFC 8986 section 4.14).
    B6Red {
        /// The policy's number.
        policy: u32,
    },
}

/// A set of equal next hops, as numbers of links in the order of the description.
pub type LinkSet = Seq<u32>;

/// A SID: a prefix that a node has, and what is done with packets that come to it (RFC 8986
/// sections 3 and 4).
#[derive(Debug, Drop)]
pub struct SidEntry {
    /// The node's number.
    pub node: u32,
    /// The SID: packets to addresses in it come to it.
    pub prefix: Prefix,
    /// What it does.
    pub behaviour: Behaviour,
    /// How its part of a segment list is compressed.
    pub csid: Csid,
    /// The length in bits of the block that the prefix lies strictly inside, 0 where it lies in
    /// none (RFC 9800 section 3).
    pub block_len: u8,
    /// It takes the segment routing header out where Segments Left becomes 0: PSP (RFC 8986 section
    /// 4.16.1).
    pub psp: bool,
    /// It takes the segment routing header out where it passes it over: USP (RFC 8986 section
    /// 4.16.2).
    pub usp: bool,
    /// It exposes a packet inside as the upper layer: USD (RFC 8986 section 4.16.3).
    pub usd: bool,
    /// The number of its title; a SID with a title is a function.
    pub title: Option<u32>,
    /// The links of an End.X, an End.DX6 or an End.DX4, none of others.
    pub links: LinkSet,
}

impl Behaviour {
    /// It makes the next segment the destination: End, End.X, End.T, End.B6.Encaps and its reduced
    /// form (RFC 8986 sections 4.1 to 4.3, 4.13 and 4.14).
    pub fn goes_on(&self) -> bool
        ensures { result ≡ behaviour_goes_on self.now }
    {
        match self {
            Behaviour::End
            | Behaviour::EndX
            | Behaviour::EndT { .. }
            | Behaviour::B6 { .. }
            | Behaviour::B6Red { .. } => true,
            Behaviour::Dx6
            | Behaviour::Dx4
            | Behaviour::Dt6 { .. }
            | Behaviour::Dt4 { .. }
            | Behaviour::Dt46 { .. } => false,
        }
    }

    /// It exposes the packet inside, an upper layer of this kind: End.DX6 and End.DT6 of IPv6,
    /// End.DX4 and End.DT4 of IPv4, End.DT46 of both (RFC 8986 sections 4.4 to 4.8).
    pub fn exposes(&self, kind: u8) -> bool
        ensures { result ≡ behaviour_exposes self.now kind }
    {
        match self {
            Behaviour::End
            | Behaviour::EndX
            | Behaviour::EndT { .. }
            | Behaviour::B6 { .. }
            | Behaviour::B6Red { .. } => false,
            Behaviour::Dx6 | Behaviour::Dt6 { .. } => kind == IPV6_INSIDE,
            Behaviour::Dx4 | Behaviour::Dt4 { .. } => kind == IPV4_INSIDE,
            Behaviour::Dt46 { .. } => kind == IPV6_INSIDE || kind == IPV4_INSIDE,
        }
    }

    /// It sends over links of its own: End.X, End.DX6 and End.DX4 (RFC 8986 sections 4.2, 4.4 and
    /// 4.5).
    pub fn takes_links(&self) -> bool
        ensures { result ≡ behaviour_takes_links self.now }
    {
        match self {
            Behaviour::EndX | Behaviour::Dx6 | Behaviour::Dx4 => true,
            Behaviour::End
            | Behaviour::EndT { .. }
            | Behaviour::Dt6 { .. }
            | Behaviour::Dt4 { .. }
            | Behaviour::Dt46 { .. }
            | Behaviour::B6 { .. }
            | Behaviour::B6Red { .. } => false,
        }
    }

    /// The number of the table of its own that it looks a packet up in: the packet itself, of
    /// End.T, or the packet inside, of End.DT6, End.DT4 and End.DT46 (RFC 8986 sections 4.3 and 4.6
    /// to 4.8).
    pub fn table(&self) -> Option<u32>
        ensures { result ≡ behaviour_table self.now }
    {
        match self {
            Behaviour::EndT { table }
            | Behaviour::Dt6 { table }
            | Behaviour::Dt4 { table }
            | Behaviour::Dt46 { table } => Some(*table),
            Behaviour::End
            | Behaviour::EndX
            | Behaviour::Dx6
            | Behaviour::Dx4
            | Behaviour::B6 { .. }
            | Behaviour::B6Red { .. } => None,
        }
    }

    /// The number of the policy whose header it puts in front: End.B6.Encaps's and that of its
    /// reduced form (RFC 8986 sections 4.13 and 4.14).
    pub fn policy(&self) -> Option<u32>
        ensures { result ≡ behaviour_policy self.now }
    {
        match self {
            Behaviour::B6 { policy } | Behaviour::B6Red { policy } => Some(*policy),
            Behaviour::End
            | Behaviour::EndX
            | Behaviour::EndT { .. }
            | Behaviour::Dx6
            | Behaviour::Dx4
            | Behaviour::Dt6 { .. }
            | Behaviour::Dt4 { .. }
            | Behaviour::Dt46 { .. } => None,
        }
    }

    /// It puts a policy's header in front in the reduced form: End.B6.Encaps.Red (RFC 8986 section
    /// 4.14).
    pub fn reduces(&self) -> bool
        ensures { result ≡ behaviour_reduces self.now }
    {
        match self {
            Behaviour::B6Red { .. } => true,
            Behaviour::End
            | Behaviour::EndX
            | Behaviour::EndT { .. }
            | Behaviour::Dx6
            | Behaviour::Dx4
            | Behaviour::Dt6 { .. }
            | Behaviour::Dt4 { .. }
            | Behaviour::Dt46 { .. }
            | Behaviour::B6 { .. } => false,
        }
    }

    /// It takes flavours: End, End.X and End.T (RFC 8986 section 4.16).
    pub fn takes_flavours(&self) -> bool
        ensures { result ≡ behaviour_takes_flavours self.now }
    {
        match self {
            Behaviour::End | Behaviour::EndX | Behaviour::EndT { .. } => true,
            Behaviour::Dx6
            | Behaviour::Dx4
            | Behaviour::Dt6 { .. }
            | Behaviour::Dt4 { .. }
            | Behaviour::Dt46 { .. }
            | Behaviour::B6 { .. }
            | Behaviour::B6Red { .. } => false,
        }
    }
}

impl SidEntry {
    /// It makes the next segment the destination (RFC 8986 section 4).
    pub fn goes_on(&self) -> bool
        ensures { result ≡ goes_on self.now }
    {
        self.behaviour.goes_on()
    }

    /// It exposes the packet inside, an upper layer of this kind: by its behaviour, or with USD an
    /// IPv6 or IPv4 packet (RFC 8986 sections 4.4 to 4.8 and 4.16.3).
    pub fn exposes(&self, kind: u8) -> bool
        ensures { result ≡ exposes self.now kind }
    {
        self.behaviour.exposes(kind) || (self.usd && (kind == IPV6_INSIDE || kind == IPV4_INSIDE))
    }

    /// How its part of a segment list is compressed, with the lengths that tell (RFC 9800 section
    /// 3).
    pub fn compression(&self) -> Compression
        ensures { result ≡ compression_of self.now }
    {
        Compression {
            kind: self.csid,
            prefix_len: self.prefix.len(),
            block_len: self.block_len,
        }
    }
}
