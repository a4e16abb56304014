//! How a packet goes on from a SID, where it stands after a stage, and how a walk ended.

ghost use Rattle.std.specs.Prelude.{◌≡◌, slice_get};
ghost use Rattle.walk_rules.specs.Treatment.{exposed_from, mtu_at, onward_from};
ghost use Rattle.walk_rules.specs.Walk.{end_by, far_end, next_place};

use crate::place::{Ended, How, Outcome, Place};
use net_model::Net;
use srv6_rules::{Behaviour, Family};

/// How a packet that goes on itself does so from a SID with a number: from End.X over the SID's
/// links without another lowering of the hop limit, from End.T submitted to its table, and from End
/// and a binding SID to table 0 (RFC 8986 sections 4.1 to 4.3, 4.13 and 4.14).
pub fn onward_from(sid: u32, behaviour: &Behaviour) -> How
    ensures { result ≡ onward_from sid behaviour.now }
{
    if behaviour.takes_links() {
        return How::Through { sid, lower: false };
    }
    let table = behaviour.table().unwrap_or(0);
    How::Submitted { table }
}

/// How what a SID with a number exposed goes on: from End.DX6, End.DX4 and End.X with USD over the
/// SID's links with a lowering of the hop limit or TTL; else it arrives, from End.DT6, End.DT4,
/// End.DT46 and End.T with USD in the SID's table, and from End with USD in table 0 (RFC 8986
/// sections 4.4 to 4.8 and 4.16.3).
pub fn exposed_from(sid: u32, behaviour: &Behaviour) -> How
    ensures { result ≡ exposed_from sid behaviour.now }
{
    if behaviour.takes_links() {
        return How::Through { sid, lower: true };
    }
    let table = behaviour.table().unwrap_or(0);
    How::Arrived { table }
}

/// The number of the node where a link ends: `None` where it leaves the network, and for a number
/// that no link has.
pub fn far_end(net: &Net, link: u32) -> Option<u32>
    ensures { result ≡ far_end (slice_get net.now.links link) }
{
    if link < net.links() {
        net.link(link).to
    } else {
        None
    }
}

/// The MTU of a link in bytes: 0 for a number that no link has (RFC 8200 section 5).
pub fn mtu_at(net: &Net, link: u32) -> u32
    ensures { result ≡ mtu_at net.now link }
{
    if link < net.links() {
        net.link(link).mtu
    } else {
        0
    }
}

/// Where a packet that comes over a link to a node stands: it has arrived, and is looked up in
/// table 0.
pub fn arrival(node: u32, family: Family) -> Place
    ensures { result ≡ record { node = node; how = How.Arrived 0; family = family } }
{
    Place {
        node,
        how: How::Arrived { table: 0 },
        family,
    }
}

/// Where the packet stands after an outcome, if the walk goes on: at the same node after an
/// execution, and at the far end of a link, arrived, after a Send.
pub fn next_place(net: &Net, place: &Place, outcome: &Outcome) -> Option<Place>
    ensures { result ≡ next_place net.now place.now outcome.now }
{
    match outcome {
        Outcome::Again { how, .. } => Some(Place {
            how: *how,
            ..*place
        }),
        Outcome::Hand { how, family, .. } => Some(Place {
            node: place.node,
            how: *how,
            family: *family,
        }),
        Outcome::Send { link } => match far_end(net, *link) {
            Some(node) => Some(arrival(node, place.family)),
            None => None,
        },
        Outcome::Local | Outcome::Drop { .. } => None,
    }
}

/// How a walk ended whose last stage had this outcome at this place; where the packet could go on,
/// it used all its stages.
pub fn ended_by(net: &Net, place: &Place, outcome: &Outcome) -> Ended
    ensures { result ≡ end_by net.now place.now outcome.now }
{
    match outcome {
        Outcome::Again { .. } | Outcome::Hand { .. } => Ended::Stages,
        Outcome::Send { link } => match far_end(net, *link) {
            Some(_) => Ended::Stages,
            None => Ended::Left { link: *link },
        },
        Outcome::Local => Ended::Delivered { node: place.node },
        Outcome::Drop { reason, .. } => Ended::Dropped {
            node: place.node,
            reason: *reason,
        },
    }
}
