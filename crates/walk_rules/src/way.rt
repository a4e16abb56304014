//! Where a packet to a destination goes from a place.

ghost use Rattle.std.specs.Prelude.{◌≡◌, true, false, ◌<◌, length};
ghost use Rattle.walk_rules.specs.Relation.{IsHow, IsPlace};
ghost use Rattle.walk_rules.specs.Way.{is_multicast_of, way_by, way_by_hit, way_by_table, way_of};
ghost use Rattle.walk_rules.specs.WayTerms.{IsNumbered, IsWayFrom, way_in};

use crate::place::{How, Place};
use net_model::{Hit, Net, NodeTable};
use srv6_rules::{Family, Reason};
use v6_addr::Addr;

/// Where a packet goes from a place.
#[derive(Clone, Copy, Debug)]
pub enum Way<'a> {
    /// NoWay, for a reason.
    NoWay {
        /// Why.
        reason: Reason,
    },
    /// Over one of a set of equal next hops.
    Over {
        /// The links' numbers, at least one.
        links: &'a [u32],
        /// Whether the hop limit is lowered.
        lower: bool,
    },
    /// To the node's own address.
    Own,
    /// Into a SID.
    Into {
        /// The SID's number.
        sid: u32,
    },
}

/// The way that a hit gives; only a route lowers the hop limit.
fn way_by_hit(net: &Net, lower: bool, hit: Hit) -> Way<'_>
    requires { IsNumbered net.now hit }
    ensures { way_in result ≡ way_by_hit net.now lower hit }
{
    match hit {
        Hit::Sid(sid) => Way::Into { sid },
        Hit::Address => Way::Own,
        Hit::Route(n) => Way::Over {
            links: net.route(n).via.as_slice(),
            lower,
        },
        Hit::Nothing => Way::NoWay {
            reason: Reason::NoRoute,
        },
    }
}

/// Whether a destination of a family is multicast; those of IPv4 are not told apart.
fn is_multicast_of(family: Family, destination: Addr) -> bool
    ensures { result ≡ is_multicast_of family destination.value }
{
    match family {
        Family::V6 => destination.is_multicast(),
        Family::V4 => false,
    }
}

/// The way by a look-up in a table for packets of a family.
fn way_by_table(
    net: &Net,
    node: u32,
    table: u32,
    family: Family,
    lower: bool,
    destination: Addr,
) -> Way<'_>
    requires { node < length net.now.nodes }
    ensures { way_in result ≡ way_by_table net.now node table family lower destination.value }
{
    if is_multicast_of(family, destination) {
        return Way::NoWay {
            reason: Reason::Multicast,
        };
    }
    way_by_hit(net, lower, net.lookup(node, table, family, destination))
}

/// The way of a packet to a destination by a look-up in a node's table; over a route's links its
/// hop limit is lowered or not as it says.
pub fn way_in_table<'a>(table: &NodeTable<'a>, lower: bool, destination: Addr) -> Way<'a>
    ensures { way_in result ≡ way_by_table table.now.net table.now.node table.now.table
        table.now.family lower destination.value }
{
    if is_multicast_of(table.family(), destination) {
        return Way::NoWay {
            reason: Reason::Multicast,
        };
    }
    way_by_hit(table.net(), lower, table.lookup(destination))
}

/// The way by how a packet came to be treated: one that has arrived has its hop limit lowered over
/// a route's links, one that the node has made or updated has not.
fn way_by<'a>(net: &'a Net, node: u32, how: &How, family: Family, destination: Addr) -> Way<'a>
    requires node { node < length net.now.nodes }
    requires how { IsHow net.now node how.now }
    ensures { way_in result ≡ way_by net.now node how.now family destination.value }
{
    match *how {
        How::Arrived { table } => way_by_table(net, node, table, family, true, destination),
        How::Submitted { table } => way_by_table(net, node, table, family, false, destination),
        How::Through { sid, lower } => Way::Over {
            links: net.sid(sid).links.as_slice(),
            lower,
        },
    }
}

/// Where a packet to a destination goes from a place of the network: away where an IPv6
/// destination is multicast or nothing in the table holds it, else by what a look-up finds; through
/// a SID over its links without a look-up (own rule; RFC 8200 section 3, RFC 8986 section 4).
#[tactic(auto, unfolding(crate::specs::Way::way_of))]
pub fn way_of<'a>(net: &'a Net, place: &Place, destination: Addr) -> Way<'a>
    requires { IsPlace net.now place.now }
    ensures value { way_in result ≡ way_of net.now place.now destination.value }

    // The links are a set of the node's, and the SID stands at the node.
    ensures leads { IsWayFrom net.now place.now.node (way_in result) }
{
    net.keeps_rules();
    way_by(net, place.node, &place.how, place.family, destination)
}
