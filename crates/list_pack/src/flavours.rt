//! Prefixes of a network as lists know them: their flavours and their blocks.

ghost use Rattle.std.specs.Prelude.{◌≡◌, ◌<◌, ◌==◌, ◌&&◌, not, length, IfSome};
ghost use Rattle.srv6_rules.specs.Behaviours.{goes_on};
ghost use Rattle.net_model.specs.NetworkRules as rules;
ghost use Rattle.list_pack.specs.LegsValueTerms.{is_compressed};
ghost use Rattle.list_pack.specs.SidLists.{csid_among, on_prefix, going_on, prefix_csid};

use net_model::{Block, Net};
use srv6_rules::{Csid, SidEntry};
use v6_addr::Prefix;

/// Both are one prefix
pub(crate) fn same_prefix(a: &Prefix, b: &Prefix) -> bool
    ensures { result ≡ rules.same_prefix a.now b.now }
{
    a.value().value == b.value().value && a.len() == b.len()
}

/// Whether a flavour is one of compressed SIDs
fn is_compressed(csid: Csid) -> bool
    ensures { result ≡ is_compressed csid }
{
    match csid {
        Csid::Plain => false,
        Csid::Next | Csid::Replace => true,
    }
}

/// Whether a SID stands on a prefix, and a packet goes on from it
fn goes_on_at(s: &SidEntry, prefix: &Prefix) -> bool
    ensures { result ≡ (rules.same_prefix s.now.prefix prefix.now && goes_on s.now) }
{
    same_prefix(&s.prefix, prefix) && s.goes_on()
}

/// Whether it also has a flavour
fn flavours_going_on(s: &SidEntry, prefix: &Prefix) -> bool
    ensures { result ≡ (rules.same_prefix s.now.prefix prefix.now
        && (goes_on s.now && is_compressed s.now.csid)) }
{
    same_prefix(&s.prefix, prefix) && s.goes_on() && is_compressed(s.csid)
}

/// Whether a SID stands on a prefix and has a flavour
fn flavours(s: &SidEntry, prefix: &Prefix) -> bool
    ensures { result ≡ (rules.same_prefix s.now.prefix prefix.now && is_compressed s.now.csid) }
{
    same_prefix(&s.prefix, prefix) && is_compressed(s.csid)
}

/// Whether a packet goes on to a next segment from some SID on a prefix
fn one_goes_on(net: &Net, prefix: &Prefix) -> bool
    ensures { result ≡ not (length (going_on (on_prefix net.now.sids prefix.now)) == 0) }
{
    for n in 0..net.sids() {
        let s = net.sid(n);
        if goes_on_at(s, prefix) {
            return true;
        }
    }
    false
}

/// The first flavour of a SID on a prefix from which packets go on
fn flavour_going_on(net: &Net, prefix: &Prefix) -> Csid
    ensures { result ≡ csid_among (going_on (on_prefix net.now.sids prefix.now)) }
{
    for n in 0..net.sids() {
        let s = net.sid(n);
        if flavours_going_on(s, prefix) {
            return s.csid;
        }
    }
    Csid::Plain
}

/// The first flavour of a SID on a prefix
fn flavour_of_any(net: &Net, prefix: &Prefix) -> Csid
    ensures { result ≡ csid_among (on_prefix net.now.sids prefix.now) }
{
    for n in 0..net.sids() {
        let s = net.sid(n);
        if flavours(s, prefix) {
            return s.csid;
        }
    }
    Csid::Plain
}

/// How the SIDs on a prefix are compressed: those from which a packet goes on to a next segment;
/// where there is none, those that decapsulate (RFC 9800 section 4, and own rule).
pub fn flavour_of(net: &Net, prefix: &Prefix) -> Csid
    ensures { result ≡ prefix_csid net.now prefix.now }
{
    if one_goes_on(net, prefix) {
        flavour_going_on(net, prefix)
    } else {
        flavour_of_any(net, prefix)
    }
}

/// The block that a prefix lies strictly inside
pub(crate) fn block_of(net: &Net, prefix: &Prefix) -> Option<Block>
    ensures value { result ≡ rules.block_of net.now.blocks prefix.now }
    ensures sized { IfSome result (λ b. 0 < b.csid) }
{
    net.keeps_rules();
    for n in 0..net.blocks() {
        let block = net.block(n);
        if prefix.inside(&block.prefix) {
            return Some(*block);
        }
    }
    None
}
