//! The rule on nested SIDs in containers, as tests.

ghost use Rattle.std.specs.Prelude.{◌↔◌, IsTrue, All};
ghost use Rattle.net_flatness.specs.Nests.{MayFollow};
ghost use Rattle.list_pack.specs.SidLists.{FollowOn, KeepsNests};
ghost use Rattle.list_pack.specs.Barred as barred;

use crate::flavours::same_prefix;
use crate::types::Container;
use net_flatness::are_nest;
use net_model::Net;
use srv6_rules::SidEntry;
use v6_addr::{Prefix, field};

/// A SID is nested in the outer one, and has after it the bits that the next prefix has after the
/// block
fn bars(net: &Net, outer: &SidEntry, inner: &SidEntry, next: &Prefix) -> bool
    ensures { IsTrue result ↔ barred.Bars net.now next.now outer.now inner.now }
{
    if !are_nest(net, outer, inner) {
        return false;
    }
    let at = inner.prefix.len() - 16;
    field(next.value(), at - 16, 16) == field(inner.prefix.value(), at, 16)
}

/// Some SID nested in the outer one has the bits
fn some_bars(net: &Net, outer: &SidEntry, next: &Prefix) -> bool
    ensures { IsTrue result ↔ barred.SomeBars net.now next.now outer.now }
{
    for n in 0..net.sids() {
        if bars(net, outer, net.sid(n), next) {
            return true;
        }
    }
    false
}

/// The outer one stands on a prefix, and some SID nested in it has the bits
fn bars_after(net: &Net, prefix: &Prefix, outer: &SidEntry, next: &Prefix) -> bool
    ensures { IsTrue result ↔ barred.BarsAfter net.now prefix.now next.now outer.now }
{
    if !same_prefix(&outer.prefix, prefix) {
        return false;
    }
    some_bars(net, outer, next)
}

/// A prefix may come directly after another in a full container
fn may_follow(net: &Net, prefix: &Prefix, next: &Prefix) -> bool
    ensures { IsTrue result ↔ MayFollow net.now prefix.now next.now }
{
    for n in 0..net.sids() {
        if bars_after(net, prefix, net.sid(n), next) {
            return false;
        }
    }
    true
}

/// Prefixes may come one after the other
fn follow_on(net: &Net, first: &Prefix, more: &[Prefix]) -> bool
    ensures { IsTrue result ↔ FollowOn (MayFollow net.now) first.now more.now }
{
    let mut last = first;
    for next in more {
        if !may_follow(net, last, next) {
            return false;
        }
        last = next;
    }
    true
}

/// A container keeps the rule on nested SIDs
fn keeps_nests(net: &Net, container: &Container) -> bool
    ensures { IsTrue result ↔ KeepsNests net.now container.now }
{
    match container {
        Container::Full(first, more) => follow_on(net, first, more.as_slice()),
        Container::Packed(_, _) => true,
    }
}

/// All containers keep the rule on nested SIDs
pub(crate) fn all_keep_nests(net: &Net, list: &[Container]) -> bool
    ensures { IsTrue result ↔ All (KeepsNests net.now) list.now }
{
    for container in list {
        if !keeps_nests(net, container) {
            return false;
        }
    }
    true
}
