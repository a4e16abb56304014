//! The rules of lists, as tests.

ghost use Rattle.std.specs.Prelude.{◌≡◌, ◌+◌, ◌<◌, ◌≤◌, ◌&&◌, ◌↔◌, nat_le, Option, None, map, IsTrue, IfSome};
ghost use Rattle.std.specs.Option.{option_map};
ghost use Rattle.std.specs.List.{list_all, list_any};
ghost use Rattle.net_model.specs.Network.{Network};
ghost use Rattle.net_model.specs.NetworkRules as net_rules;
ghost use Rattle.list_pack.specs.SidLists.{IsLegalList, kind_csid, list_sid, sid_block, prefixes_of, prefixes_in};
ghost use Rattle.list_pack.specs.SidListsTerms.{is_named};
ghost use Rattle.list_pack.specs.PathLists as paths;
ghost use Rattle.list_pack.specs.OpenContainers as rules;

use crate::flavours::{block_of, flavour_of, same_prefix};
use crate::lists::{asked_after, csids_of};
use crate::nest_units::all_keep_nests;
use crate::types::{Container, SidList};
use net_model::{Block, BlockKind, Net};
use srv6_rules::Csid;
use v6_addr::Prefix;

/// Both flavours are one
fn same_csid(a: Csid, b: Csid) -> bool
    ensures { result ≡ rules.same_csid a b }
{
    match (a, b) {
        (Csid::Plain, Csid::Plain) | (Csid::Next, Csid::Next) | (Csid::Replace, Csid::Replace) => {
            true
        }
        (Csid::Plain, Csid::Next | Csid::Replace)
        | (Csid::Next, Csid::Plain | Csid::Replace)
        | (Csid::Replace, Csid::Plain | Csid::Next) => false,
    }
}

/// The flavour of the SIDs of a block
fn flavour_in(kind: BlockKind) -> Csid
    ensures { result ≡ kind_csid kind }
{
    match kind {
        BlockKind::Next => Csid::Next,
        BlockKind::Replace => Csid::Replace,
    }
}

/// Both blocks are one, or none is there
fn same_block(a: &Option<Block>, b: &Option<Block>) -> bool
    ensures { result ≡ rules.same_sid_block (option_map sid_block a.now)
        (option_map sid_block b.now) }
{
    match (a, b) {
        (None, None) => true,
        (Some(x), Some(y)) => {
            same_prefix(&x.prefix, &y.prefix)
                && same_csid(flavour_in(x.kind), flavour_in(y.kind))
                && x.csid == y.csid
        }
        (None, Some(_)) | (Some(_), None) => false,
    }
}

/// The flavour that SIDs with others after them have in an open container
fn flavour(asked: &Option<Block>) -> Csid
    ensures { result ≡ rules.flavour (option_map sid_block asked.now) }
{
    match asked {
        None => Csid::Next,
        Some(_) => Csid::Replace,
    }
}

/// How much there is in an open container
fn limit(asked: &Option<Block>) -> u32
    requires { IfSome asked.now (λ b. 0 < b.csid) }
    ensures value { result ≡ rules.limit (option_map sid_block asked.now) }
    ensures few { result ≤ 128 }
{
    match asked {
        None => 128,
        Some(block) => u32::from(csids_of(block)),
    }
}

/// The bits of a SID after its block
fn csid_bits(net: &Net, sid: &Prefix) -> u32
    ensures value { result ≡ rules.taken None (list_sid net.now sid.now) }
    ensures few { result ≤ 128 }
{
    match block_of(net, sid) {
        None => u32::from(sid.len()),
        Some(block) => u32::from(sid.len().saturating_sub(block.prefix.len())),
    }
}

/// How much is taken with one more SID
fn taken_with(net: &Net, asked: &Option<Block>, used: u32, sid: &Prefix) -> u32
    requires { used ≤ 128 }
    ensures { result ≡ used + rules.taken (option_map sid_block asked.now)
        (list_sid net.now sid.now) }
{
    match asked {
        None => used + csid_bits(net, sid),
        Some(_) => used + 1,
    }
}

/// How much the first SID of a container takes
fn first_taken(asked: &Option<Block>, sid: &Prefix) -> u32
    ensures value { (net : Network) → result
        ≡ rules.first_taken (option_map sid_block asked.now) (list_sid net sid.now) }
    ensures few { result ≤ 128 }
{
    match asked {
        None => u32::from(sid.len()),
        Some(_) => 1,
    }
}

/// A SID may stand in an open container after another, with so much taken with it
fn stays_in(net: &Net, asked: &Option<Block>, taken: u32, last: &Prefix, sid: &Prefix) -> bool
    requires { IfSome asked.now (λ b. 0 < b.csid) }
    ensures { result ≡ (rules.same_csid (list_sid net.now last.now).csid
        (rules.flavour (option_map sid_block asked.now))
        && (rules.same_sid_block (list_sid net.now sid.now).block (list_sid net.now last.now).block
        && nat_le taken (rules.limit (option_map sid_block asked.now)))) }
{
    same_csid(flavour_of(net, last), flavour(asked))
        && same_block(&block_of(net, sid), &block_of(net, last))
        && taken <= limit(asked)
}

/// A SID may be the first of a container
fn opens(net: &Net, asked: &Option<Block>, sid: &Prefix) -> bool
    requires { IfSome asked.now (λ b. 0 < b.csid) }
    ensures { result ≡ rules.opens_test (option_map sid_block asked.now)
        (list_sid net.now sid.now) }
{
    match asked {
        None => sid.len() <= 128,
        Some(block) => same_block(&block_of(net, sid), asked) && 1 <= csids_of(block),
    }
}

/// A container keeps the rules by itself
fn keeps(net: &Net, asked: &Option<Block>, first: &Prefix, more: &[Prefix]) -> bool
    requires { IfSome asked.now (λ b. 0 < b.csid) }
    ensures { result ≡ rules.keeps_test (option_map sid_block asked.now)
        (list_sid net.now first.now) (map (list_sid net.now) more.now) }
{
    if !opens(net, asked, first) {
        return false;
    }
    let mut last = first;
    let mut used = first_taken(asked, first);
    for sid in more {
        let taken = taken_with(net, asked, used, sid);
        if taken > 128 || !stays_in(net, asked, taken, last, sid) {
            return false;
        }
        used = taken;
        last = sid;
    }
    true
}

/// A container is of the kind that has to come
fn is_due(asked: &Option<Block>, container: &Container) -> bool
    ensures { result ≡ rules.is_due (option_map sid_block asked.now) container.now }
{
    match (asked, container) {
        (None, Container::Full(_, _)) | (Some(_), Container::Packed(_, _)) => true,
        (None, Container::Packed(_, _)) | (Some(_), Container::Full(_, _)) => false,
    }
}

/// The first prefix of a container
fn first_in(container: &Container) -> &Prefix
    ensures { result.now ≡ rules.first_in container.now }
{
    match container {
        Container::Full(first, _) | Container::Packed(first, _) => first,
    }
}

/// The prefixes after it
fn more_in(container: &Container) -> &[Prefix]
    ensures { result.now ≡ rules.more_in container.now }
{
    match container {
        Container::Full(_, more) | Container::Packed(_, more) => more.as_slice(),
    }
}

/// Containers keep the rules, one after the other
fn follow(net: &Net, list: &[Container]) -> bool
    ensures { result ≡ rules.follow_test (list_sid net.now) None list.now }
{
    let mut asked: Option<Block> = None;
    for container in list {
        let first = first_in(container);
        let more = more_in(container);
        if !is_due(&asked, container) || !keeps(net, &asked, first, more) {
            return false;
        }
        asked = asked_after(net, &asked, first, more);
    }
    true
}

/// A SID of the network has the prefix
fn is_named(net: &Net, prefix: &Prefix) -> bool
    ensures { result ≡ is_named net.now prefix.now }
{
    for n in 0..net.sids() {
        if same_prefix(&net.sid(n).prefix, prefix) {
            return true;
        }
    }
    false
}

/// SIDs of the network have all of the prefixes
fn are_named(net: &Net, prefixes: &[Prefix]) -> bool
    ensures { result ≡ list_all (is_named net.now) prefixes.now }
{
    for prefix in prefixes {
        if !is_named(net, prefix) {
            return false;
        }
    }
    true
}

/// SIDs of the network have all of the prefixes of containers
fn all_named(net: &Net, list: &[Container]) -> bool
    ensures { result ≡ list_all (is_named net.now) (prefixes_in list.now) }
{
    for container in list {
        if !is_named(net, first_in(container)) || !are_named(net, more_in(container)) {
            return false;
        }
    }
    true
}

/// Whether a list is legal in a network: its containers keep the rules of lists, its prefixes are
/// those of SIDs, and in a full container nothing comes directly after a SID that would make the
/// address that of a SID nested in it (own profile of RFC 9800 sections 6.2 to 6.4).
pub fn is_legal(net: &Net, list: &SidList) -> bool
    ensures { IsTrue result ↔ IsLegalList net.now list.now }
{
    let containers = list.as_slice();
    if containers.is_empty() {
        return false;
    }
    if !follow(net, containers) {
        return false;
    }
    if !all_named(net, containers) {
        return false;
    }
    all_keep_nests(net, containers)
}
