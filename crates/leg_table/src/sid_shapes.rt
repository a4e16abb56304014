//! What a SID is to a search for lists.

ghost use Rattle.std.specs.Prelude.{◌≡◌, ◌<◌, length};
ghost use Rattle.list_pack.specs.SidLists.{block_at};
ghost use Rattle.leg_table.specs.PositionSids as sids;
ghost use Rattle.leg_table.specs.StrictTable.{shape_of};

use list_pack::Shape;
use net_model::Net;
use srv6_rules::SidEntry;
use v6_addr::Prefix;

/// The number of the block that a prefix lies strictly inside
#[tactic(auto, using(crate::proofs::StrictSearches::searching))]
fn block_at(net: &Net, prefix: &Prefix) -> Option<u32>
    ensures { result ≡ block_at net.now.blocks prefix.now }
{
    for n in 0..net.blocks() {
        if prefix.inside(&net.block(n).prefix) {
            return Some(n);
        }
    }
    None
}

/// The packet goes on from the SID to a next segment, after no further header.
pub fn takes_step(sid: &SidEntry) -> bool
    ensures { result ≡ sids.takes_step sid.now }
{
    sid.goes_on() && sid.behaviour.policy().is_none()
}

/// What a SID is to the search: its prefix, its block, its compression, and whether it is middle.
pub fn shape_of(net: &Net, n: u32) -> Shape
    requires { n < length net.now.sids }
    ensures { result ≡ shape_of net.now n }
{
    let sid = net.sid(n);
    Shape {
        prefix: sid.prefix,
        block: block_at(net, &sid.prefix),
        lbl: sid.block_len,
        csid: sid.csid,
        middle: takes_step(sid),
    }
}
