//! The set of equal next hops of a stage.

ghost use Rattle.std.specs.Prelude.{◌≡◌, ℕ, ◌<◌, length, Contains};
ghost use Rattle.walk_rules.specs.WalkLaws.{hops_at, set_of};
ghost use Rattle.walk_rules.specs.Relation.{IsPlace};
ghost use Rattle.walk_rules.specs.WayTerms.{IsWayFrom, way_in};

use crate::content::Content;
use crate::content_buf::{ContentBuf, Held};
use net_model::Net;
use walk_rules::{Place, Way, way_of};

/// The links that a way from a node goes over; none where it goes over no links.
fn links_of<'a>(way: Way<'a>) -> &'a [u32]
    ensures { result.now ≡ set_of (way_in way.entry) }
{
    match way {
        Way::Over { links, .. } => links,
        Way::NoWay { .. } | Way::Own | Way::Into { .. } => &[],
    }
}

/// The same of what is held in a buffer.
fn next_hops_of<'a>(net: &'a Net, place: &Place, content: &ContentBuf) -> &'a [u32]
    requires { IsPlace net.now place.now }
    ensures { result.now ≡ hops_at net.now place.now content.now.content }
{
    match &content.held {
        Held::V6(packet) => links_of(way_of(net, place, packet.destination())),
        Held::V4(packet) => links_of(way_of(net, place, packet.destination())),
        Held::Unreadable(_, _) => &[],
    }
}

/// The numbers of the links over which what stands at a place may be sent: the equal next hops of
/// its way, and none where it goes over no links.
pub fn next_hops<'a>(net: &'a Net, place: &Place, content: &Content) -> &'a [u32]
    requires { IsPlace net.now place.now }
    ensures { result.now ≡ hops_at net.now place.now content.now }
{
    next_hops_of(net, place, &content.buf)
}
