//! The parts of the network that has the entries of both descriptions.

ghost use Rattle.std.specs.Prelude.{◌≡◌, ℕ, ◌+◌, ◌-◌, ◌≤◌, ◌<◌, ◌^◌, ◌++◌, true, not, List, length, option_map, OnOk, IfOk};
ghost use Rattle.std.specs.List.{list_any, filter, filter_map, cons_option};
ghost use Rattle.srv6_rules.specs.declared.sid.SidEntry.{SidEntry};
ghost use Rattle.net_model.specs.NetworkTerms.{network_of};
ghost use Rattle.net_model.specs.NetworkRules.{are_distinct, same_route};
ghost use Rattle.net_model.specs.NetworkJudging.{title_text};
ghost use Rattle.update_spec.specs.Equal.{equal_route};
ghost use Rattle.update_spec.specs.Joined.{is_new_sid, numbered_beside, numbered, joined_of};
ghost use Rattle.update_joined.specs.RouteKeys.{AreNumbered};
ghost use Rattle.update_joined.specs.JoinedEntries.{AreFew};

use crate::equal::{is_in_both, text_of};
use crate::known_routes::{RouteNumbers, has_equal, number_routes};
use base::Seq;
use net_model::{Name, NetParts, Route};
use srv6_rules::{LinkSet, SidEntry};
use std::alloc::{AllocError, Global};

fn copy_links(alloc: Global, links: &LinkSet) -> Result<LinkSet, AllocError>
    ensures { IfOk result (λ copy. copy ≡ links.now) }
{
    let mut items = Vec::new(alloc);
    items.extend_from_slice(links.as_slice())?;
    Ok(Seq::new(items))
}

fn copy_route(alloc: Global, r: &Route) -> Result<Route, AllocError>
    ensures { IfOk result (λ copy. copy ≡ r.now) }
{
    let via = copy_links(alloc, &r.via)?;
    Ok(Route {
        node: r.node,
        table: r.table,
        family: r.family,
        prefix: r.prefix,
        via,
    })
}

/// A copy of a SID, with another number of a title.
fn copy_sid(alloc: Global, s: &SidEntry, title: Option<u32>) -> Result<SidEntry, AllocError>
    ensures { IfOk result (λ copy. copy ≡ record s.now { title = title }) }
{
    let links = copy_links(alloc, &s.links)?;
    Ok(SidEntry {
        node: s.node,
        prefix: s.prefix,
        behaviour: s.behaviour,
        csid: s.csid,
        block_len: s.block_len,
        psp: s.psp,
        usp: s.usp,
        usd: s.usd,
        links,
        title,
    })
}

fn copy_name(alloc: Global, name: &Name) -> Result<Name, AllocError>
    ensures { IfOk result (λ copy. copy ≡ name.now) }
{
    Ok(Name::new(name.as_str().to_string(alloc)?))
}

/// The routes that the old ones lack, in their order.
#[tactic(auto, using(crate::proofs::Meant::pushed_one))]
pub(crate) fn added_routes(
    alloc: Global,
    numbers: &RouteNumbers,
    olds: &[Route],
    news: &[Route],
) -> Result<Vec<Route>, AllocError>
    requires numbers { AreNumbered numbers.now olds.now }
    requires distinct { are_distinct same_route olds.now ≡ true }
    ensures { IfOk result (λ added. added.items
        ≡ filter (λ r. not (list_any (equal_route r) olds.now)) news.now) }
{
    let mut added = Vec::new(alloc);
    let mut rest = news;
    while let [r, more @ ..] = rest {
        if !has_equal(numbers, olds, r) {
            let copy = copy_route(alloc, r)?;
            added.push(copy)?;
        }
        rest = more;
    }
    Ok(added)
}

/// SIDs that are added, and their titles.
#[derive(Drop)]
pub(crate) struct AddedSids {
    /// The SIDs, whose titles have the numbers after those of the old description.
    pub sids: Vec<SidEntry>,
    /// The titles.
    pub titles: Vec<Name>,
}

/// A SID is put behind the others with the next title's number, where it has a title's text; gives
/// the number after that.
fn put_sid(
    alloc: Global,
    added: &mut AddedSids,
    next: u32,
    text: Option<&Name>,
    s: &SidEntry,
) -> Result<u32, AllocError>
    requires { next < 2 ^ 32 - 1 }
    ensures sids { (rest : ℕ → List SidEntry) → IfOk result (λ after. added.new.sids.items ++ rest after
        ≡ added.old.sids.items
        ++ numbered_beside (option_map (λ name. name.now) text.entry) next s.now rest) }
    ensures titles { (texts : List (List ℕ)) → OnOk result (added.new.titles.items ++ texts
        ≡ added.old.titles.items ++ cons_option (option_map (λ name. name.now) text.entry) texts) }
    ensures next { IfOk result (λ after. after ≤ next + 1) }
{
    match text {
        None => {
            let copy = copy_sid(alloc, s, None)?;
            added.sids.push(copy)?;
            Ok(next)
        }
        Some(text) => {
            let copy = copy_sid(alloc, s, Some(next))?;
            let title = copy_name(alloc, text)?;
            added.sids.push(copy)?;
            added.titles.push(title)?;
            Ok(next + 1)
        }
    }
}

/// The SIDs that the old description lacks, in their order, and their titles.
pub(crate) fn added_sids(
    alloc: Global,
    old: &NetParts,
    new: &NetParts,
) -> Result<AddedSids, AllocError>
    requires { length (network_of old.now).titles + length (network_of new.now).sids < 2 ^ 32 - 1 }
    ensures sids { IfOk result (λ added. added.sids.items
        ≡ numbered (network_of new.now).titles (length (network_of old.now).titles)
        (filter (λ t. not (is_new_sid (network_of new.now) (network_of old.now) t))
        (network_of new.now).sids)) }
    ensures titles { IfOk result (λ added. added.titles.items
        ≡ filter_map (title_text (network_of new.now).titles)
        (filter (λ t. not (is_new_sid (network_of new.now) (network_of old.now) t))
        (network_of new.now).sids)) }
{
    let mut added = AddedSids {
        sids: Vec::new(alloc),
        titles: Vec::new(alloc),
    };
    let mut next = old.titles.len() as u32;
    let mut rest = new.sids.as_slice();
    while let [s, more @ ..] = rest {
        if !is_in_both(new, old, s) {
            let text = text_of(&new.titles, s.title);
            next = put_sid(alloc, &mut added, next, text, s)?;
        }
        rest = more;
    }
    Ok(added)
}

/// The parts of the joined network: the old ones, and those that the new description adds.
pub(crate) fn join(alloc: Global, old: NetParts, new: &NetParts) -> Result<NetParts, AllocError>
    requires few { AreFew (network_of old) }
    requires titles { length (network_of old).titles + length (network_of new.now).sids < 2 ^ 32 - 1 }
    requires distinct { are_distinct same_route (network_of old).routes ≡ true }
    ensures { IfOk result (λ parts. network_of parts
        ≡ joined_of (network_of old) (network_of new.now)) }
{
    let numbers = number_routes(alloc, old.routes.as_slice())?;
    let mut routes = added_routes(
        alloc,
        &numbers,
        old.routes.as_slice(),
        new.routes.as_slice(),
    )?;
    let mut added = added_sids(alloc, &old, new)?;
    let mut parts = old;
    parts.routes.append(&mut routes)?;
    parts.titles.append(&mut added.titles)?;
    parts.sids.append(&mut added.sids)?;
    Ok(parts)
}
