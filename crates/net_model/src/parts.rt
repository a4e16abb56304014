//! The parts of a network, as a description lists them.

ghost use Rattle.std.specs.Prelude.{◌≡◌};

use base::Seq;
use srv6_rules::{Family, LinkSet, Policy, SidEntry};
use std::fmt;
use std::marker::Model;
use v6_addr::{Addr, Prefix};

/// A node's, a link's, a policy's or a title's name. Contracts see its bytes, which are
/// UTF-8.
#[derive(Debug, Drop)]
pub struct Name {
    text: String,
}

impl Model for Name {
    ghost use Rattle.std.specs.Prelude.{List, ℕ, string_bytes};

    ghost Value = { List ℕ };

    ghost view = { λ n. string_bytes n.text };
}

impl Name {
    ghost use Rattle.std.specs.Prelude.{string_bytes};

    /// The name that a text writes.
    pub fn new(text: String) -> Name
        ensures { result ≡ string_bytes text }
    {
        Name { text }
    }

    /// The text.
    pub fn as_str(&self) -> &str
        ensures { result.now ≡ self.now }
    {
        self.text.as_str()
    }

    /// The bytes of the text.
    pub fn as_bytes(&self) -> &[u8]
        ensures { result.now ≡ self.now }
    {
        self.text.as_bytes()
    }
}

/// The text of a name as it stands.
impl fmt::Display for Name {
    ghost use Rattle.std.specs.Prelude.{Some};

    ghost output = { λ n. Some n };

    fn fmt<W: fmt::Write>(&self, f: &mut fmt::Formatter<W>) -> fmt::Result {
        f.pad(self.as_str())
    }
}

/// The upper layers that a node takes at its SIDs, as next-header values (RFC 8986 section 4.1.1).
pub type TypeList = Seq<u8>;

/// How SIDs of a block are compressed (RFC 9800 section 4).
#[derive(Clone, Copy, Debug, PartialEq, Eq)]
pub enum BlockKind {
    /// NEXT-CSID (RFC 9800 section 4.1).
    Next,
    /// REPLACE-CSID (RFC 9800 section 4.2).
    Replace,
}

/// A block of compressed SIDs (RFC 9800 section 3).
#[derive(Clone, Copy, Debug)]
pub struct Block {
    /// The bits that its SIDs share, a multiple of 16 of them from 16 to 64.
    pub prefix: Prefix,
    /// How its SIDs are compressed.
    pub kind: BlockKind,
    /// The bits of its compressed SIDs after the block's, 16 or 32.
    pub csid: u8,
}

/// A node.
#[derive(Debug, Drop)]
pub struct Node {
    /// Its name.
    pub name: Name,
    /// Its own address.
    pub address: Addr,
    /// The upper layers that it takes at its SIDs.
    pub allow: TypeList,
}

/// A link from a node to a node, or out of the network.
#[derive(Debug, Drop)]
pub struct Link {
    /// Its name.
    pub name: Name,
    /// The number of the node where it starts.
    pub from: u32,
    /// The number of the node where it ends; with none the link leaves the network.
    pub to: Option<u32>,
    /// The bytes of the longest packet that it carries, from 1,280 to 65,575 (RFC 8200 section 5).
    pub mtu: u32,
}

/// A route of one of a node's tables.
#[derive(Debug, Drop)]
pub struct Route {
    /// The number of its node.
    pub node: u32,
    /// The number of its table.
    pub table: u32,
    /// The family of the packets that it takes.
    pub family: Family,
    /// Its prefix; that of an IPv4 route stands in the first 32 bits.
    pub prefix: Prefix,
    /// The equal next hops.
    pub via: LinkSet,
}

/// A policy with its name.
#[derive(Debug, Drop)]
pub struct NamedPolicy {
    /// Its name.
    pub name: Name,
    /// What it puts in front of a packet.
    pub policy: Policy,
}

/// The parts of a network; an item's number is its place in its list, counted from 0.
#[derive(Debug, Drop)]
pub struct NetParts {
    /// The blocks of compressed SIDs.
    pub blocks: Vec<Block>,
    /// The nodes.
    pub nodes: Vec<Node>,
    /// The links.
    pub links: Vec<Link>,
    /// The routes.
    pub routes: Vec<Route>,
    /// The policies.
    pub policies: Vec<NamedPolicy>,
    /// The titles of SIDs.
    pub titles: Vec<Name>,
    /// The SIDs.
    pub sids: Vec<SidEntry>,
}
