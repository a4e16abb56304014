//! Which container has to follow.

ghost use Rattle.std.specs.Prelude.{◌≡◌, map, IfSome};
ghost use Rattle.std.specs.Option.{option_map};
ghost use Rattle.v6_addr.specs.Address.{PrefixValue};
ghost use Rattle.srv6_rules.specs.Compressed.{csid_count};
ghost use Rattle.net_model.specs.NetworkRules as rules;
ghost use Rattle.sid_list_spec.specs.SegmentLists as lists;
ghost use Rattle.list_pack.specs.SidLists.{list_sid, sid_block};
ghost use Rattle.list_pack.specs.PathLists as paths;
ghost use Rattle.segment_reading.specs.Readings as readings;
ghost use Rattle.segment_reading.specs.Readings.{IsSized};

use list_pack::{Container, flavour_of};
use net_model::{Block, Net};
use srv6_rules::Csid;
use v6_addr::Prefix;

/// The block that a prefix lies strictly inside
pub(crate) fn block_of(net: &Net, prefix: &Prefix) -> Option<Block>
    ensures value { result ≡ rules.block_of net.now.blocks prefix.now }
    ensures sized { IfSome result IsSized }
{
    net.keeps_rules();
    for n in 0..net.blocks() {
        let block = net.block(n);
        if prefix.inside(&block.prefix) {
            return Some(*block);
        }
    }
    None
}

/// How many CSIDs of a block a REPLACE container holds
pub(crate) fn csids_of(block: &Block) -> u8
    requires { IsSized block.now }
    ensures { result ≡ csid_count block.now.csid }
{
    128 / block.csid
}

/// The block whose REPLACE container has to follow after a SID, if one has to
fn asked_behind_sid(net: &Net, last: &Prefix) -> Option<Block>
    ensures value { option_map sid_block result ≡ lists.asked_behind (list_sid net.now last.now) }
    ensures sized { IfSome result IsSized }
{
    match flavour_of(net, last) {
        Csid::Replace => block_of(net, last),
        Csid::Plain | Csid::Next => None,
    }
}

/// The last prefix of a container
fn last_of(first: &Prefix, more: &[Prefix]) -> Prefix
    ensures { (sid_on : PrefixValue → lists.ListSid) →
        lists.last_of (sid_on first.now) (map sid_on more.now) ≡ sid_on result }
{
    match more.last() {
        None => *first,
        Some(last) => *last,
    }
}

/// The block whose REPLACE container has to follow SIDs of a container, if one has to
fn asked_after(net: &Net, asked: &Option<Block>, first: &Prefix, more: &[Prefix]) -> Option<Block>
    requires sized { IfSome asked.now IsSized }
    ensures value { option_map sid_block result
        ≡ paths.asked_after (option_map sid_block asked.now) (list_sid net.now first.now)
        (map (list_sid net.now) more.now) }
    ensures sized { IfSome result IsSized }
{
    let last = last_of(first, more);
    match asked {
        None => asked_behind_sid(net, &last),
        Some(block) => {
            if more.len() + 1 == usize::from(csids_of(block)) {
                asked_behind_sid(net, &last)
            } else {
                None
            }
        }
    }
}

/// The block whose REPLACE container has to follow a container, if one has to
pub(crate) fn asked_behind(net: &Net, asked: &Option<Block>, container: &Container) -> Option<Block>
    requires sized { IfSome asked.now IsSized }
    ensures value { option_map sid_block result
        ≡ readings.asked_behind net.now (option_map sid_block asked.now) container.now }
    ensures sized { IfSome result IsSized }
{
    match container {
        Container::Full(first, more) => asked_after(net, asked, first, more.as_slice()),
        Container::Packed(first, more) => asked_after(net, asked, first, more.as_slice()),
    }
}
