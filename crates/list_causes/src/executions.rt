//! Where a packet stands, and the execution of a SID there.

ghost use Rattle.std.specs.Prelude.{◌≡◌, true};
ghost use Rattle.walk_rules.specs.Relation.{IsHow, IsPlace};

use base::NoMemory;
use icmp6_errors::IcmpSlot;
use ip6_headers::Ip6View;
use net_model::Net;
use node_stage::{Content, stage};
use srv6_rules::Family;
use srv6_rules::numbers::HOP_LIMIT_AT;
use std::alloc::Global;
use v6_addr::Addr;
use walk_rules::{How, Outcome, Place, next_place};

/// Where a packet stands on its way.
#[derive(Debug, Drop)]
pub(crate) struct At {
    /// The place.
    pub place: Place,
    /// The packet.
    pub content: Content,
    /// How many steps of the intent are finished.
    pub done: usize,
    /// How many headers of binding SIDs are in front of it.
    pub depth: usize,
    /// Whether the packet inside was exposed, with no such header in front.
    pub handed: bool,
}

/// The execution of a SID.
#[derive(Debug, Drop)]
pub(crate) struct Executed {
    /// The SID's number.
    pub sid: u32,
    /// Whether the packet inside was exposed.
    pub hands: bool,
    /// Where the packet stands then.
    pub place: Place,
    /// The packet then.
    pub content: Content,
}

/// The destination of an IPv6 packet
pub(crate) fn destination_of(content: &Content) -> Option<Addr> {
    match Ip6View::read(content.bytes()) {
        Ok(view) => Some(view.destination()),
        Err(_) => None,
    }
}

/// The hop limit of an IPv6 packet
pub(crate) fn hop_limit_of(content: &Content) -> u8 {
    match Ip6View::read(content.bytes()) {
        Ok(view) => view.hop_limit(),
        Err(_) => 0,
    }
}

/// An IPv6 packet with another hop limit
pub(crate) fn with_hop_limit(content: Content, hop_limit: u8) -> Content {
    let mut bytes = content.into_bytes();
    if HOP_LIMIT_AT < bytes.len() {
        bytes.set(HOP_LIMIT_AT, hop_limit);
    }
    Content::enter_buf(Family::V6, bytes)
}

/// Whether a place is one of the network
pub(crate) fn is_place(net: &Net, place: &Place) -> bool
    ensures { result ≡ true → IsPlace net.now place.now }
{
    place.node < net.nodes() && stands_at(net, place)
}

/// Whether a packet can have come there
fn stands_at(net: &Net, place: &Place) -> bool
    ensures { result ≡ true → IsHow net.now place.now.node place.now.how }
{
    match place.how {
        How::Arrived { .. } | How::Submitted { .. } => true,
        How::Through { sid, .. } => {
            sid < net.sids()
                && net.sid(sid).node == place.node
                && !net.sid(sid).links.as_slice().is_empty()
        }
    }
}

/// The execution of a SID at a place; none where the packet is dropped or delivered there
pub(crate) fn execute(
    alloc: Global,
    net: &Net,
    place: &Place,
    content: &Content,
) -> Result<Option<Executed>, NoMemory>
    requires { IsPlace net.now place.now }
{
    let mut content = content.copy(alloc)?;
    let outcome = stage(alloc, net, place, &mut content, 0, &mut IcmpSlot::new())?;
    let Some(next) = next_place(net, place, &outcome) else {
        return Ok(None);
    };
    let (sid, hands) = match outcome {
        Outcome::Again { sid, .. } => (sid, false),
        Outcome::Hand { sid, .. } => (sid, true),
        Outcome::Send { .. } | Outcome::Local | Outcome::Drop { .. } => return Ok(None),
    };
    Ok(Some(Executed {
        sid,
        hands,
        place: next,
        content,
    }))
}
