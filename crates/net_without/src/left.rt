//! The routes and SIDs that stay.

ghost use Rattle.std.specs.Prelude.{◌≡◌, ◌+◌, ◌-◌, ◌≤◌, ◌<◌, ◌^◌, ◌++◌, ℕ, List, length, option_map, OnOk, IfOk};
ghost use Rattle.std.specs.List.{filter, filter_map, cons_option};
ghost use Rattle.srv6_rules.specs.declared.sid.SidEntry.{SidEntry};
ghost use Rattle.net_model.specs.NetworkJudging.{title_text};
ghost use Rattle.update_spec.specs.Joined.{numbered_beside, numbered};
ghost use Rattle.net_without.specs.Without.{cut_route, cut_sid, left_routes, left_sids};
ghost use Rattle.net_without.specs.WithoutTerms.{flag_at, titled_text};

use crate::up::{is_left, is_up};
use base::Seq;
use net_model::{Name, Route};
use srv6_rules::SidEntry;
use std::alloc::{AllocError, Global};

/// Those of the links that are up, in their order.
#[tactic(auto, using(crate::proofs::Cuts::pushed_one))]
fn links_left(alloc: Global, up: &[bool], set: &[u32]) -> Result<Vec<u32>, AllocError>
    ensures { IfOk result (λ left. left.items ≡ filter (flag_at up.now) set.now) }
{
    let mut left = Vec::new(alloc);
    let mut rest = set;
    while let [n, more @ ..] = rest {
        if is_up(up, *n) {
            left.push(*n)?;
        }
        rest = more;
    }
    Ok(left)
}

/// A route with those of its links that are up.
fn cut_route(alloc: Global, up: &[bool], r: &Route) -> Result<Route, AllocError>
    ensures { IfOk result (λ route. route ≡ cut_route (flag_at up.now) r.now) }
{
    let via = links_left(alloc, up, r.via.as_slice())?;
    Ok(Route {
        node: r.node,
        table: r.table,
        family: r.family,
        prefix: r.prefix,
        via: Seq::new(via),
    })
}

/// A SID with those of its links that are up.
fn cut_sid(alloc: Global, up: &[bool], s: &SidEntry) -> Result<SidEntry, AllocError>
    ensures { IfOk result (λ sid. sid ≡ cut_sid (flag_at up.now) s.now) }
{
    let links = links_left(alloc, up, s.links.as_slice())?;
    Ok(SidEntry {
        node: s.node,
        prefix: s.prefix,
        behaviour: s.behaviour,
        csid: s.csid,
        block_len: s.block_len,
        psp: s.psp,
        usp: s.usp,
        usd: s.usd,
        title: s.title,
        links: Seq::new(links),
    })
}

/// The routes that stay.
#[tactic(auto, using(crate::proofs::Cuts::pushed_one))]
pub(crate) fn routes_left(
    alloc: Global,
    up: &[bool],
    routes: &[Route],
) -> Result<Vec<Route>, AllocError>
    ensures { IfOk result (λ left. left.items ≡ left_routes (flag_at up.now) routes.now) }
{
    let mut left = Vec::new(alloc);
    let mut rest = routes;
    while let [r, more @ ..] = rest {
        if is_left(up, r.via.as_slice()) {
            let cut = cut_route(alloc, up, r)?;
            left.push(cut)?;
        }
        rest = more;
    }
    Ok(left)
}

/// SIDs that stay, and their titles.
#[derive(Drop)]
pub(crate) struct LeftSids {
    /// The SIDs, whose titles are numbered in their order.
    pub sids: Vec<SidEntry>,
    /// The titles.
    pub titles: Vec<Name>,
}

/// The text of the title with a number.
fn text_of<'a>(titles: &'a [Name], title: Option<u32>) -> Option<&'a Name>
    ensures { option_map (λ name. name.now) result ≡ titled_text titles.now title }
{
    match title {
        None => None,
        Some(n) => titles.get(n as usize),
    }
}

/// Puts a SID behind the others with the next title's number, where it has a title's text; gives
/// the number behind that.
fn put_sid(
    alloc: Global,
    left: &mut LeftSids,
    next: u32,
    text: Option<&Name>,
    sid: SidEntry,
) -> Result<u32, AllocError>
    requires { next < 2 ^ 32 - 1 }
    ensures sids { (rest : ℕ → List SidEntry) → IfOk result (λ after. left.new.sids.items ++ rest after
        ≡ left.old.sids.items
        ++ numbered_beside (option_map (λ name. name.now) text.entry) next sid rest) }
    ensures titles { (texts : List (List ℕ)) → OnOk result (left.new.titles.items ++ texts
        ≡ left.old.titles.items ++ cons_option (option_map (λ name. name.now) text.entry) texts) }
    ensures next { IfOk result (λ after. after ≤ next + 1) }
{
    let mut sid = sid;
    match text {
        None => {
            sid.title = None;
            left.sids.push(sid)?;
            Ok(next)
        }
        Some(text) => {
            sid.title = Some(next);
            let title = Name::new(text.as_str().to_string(alloc)?);
            left.sids.push(sid)?;
            left.titles.push(title)?;
            Ok(next + 1)
        }
    }
}

/// The SIDs that stay, and their titles.
pub(crate) fn sids_left(
    alloc: Global,
    up: &[bool],
    titles: &[Name],
    sids: &[SidEntry],
) -> Result<LeftSids, AllocError>
    requires { length sids.now < 2 ^ 32 - 1 }
    ensures sids { IfOk result (λ left. left.sids.items
        ≡ numbered titles.now 0 (left_sids (flag_at up.now) sids.now)) }
    ensures titles { IfOk result (λ left. left.titles.items
        ≡ filter_map (title_text titles.now) (left_sids (flag_at up.now) sids.now)) }
{
    let mut left = LeftSids {
        sids: Vec::new(alloc),
        titles: Vec::new(alloc),
    };
    let mut next = 0;
    let mut rest = sids;
    while let [s, more @ ..] = rest {
        if is_left(up, s.links.as_slice()) {
            let cut = cut_sid(alloc, up, s)?;
            let text = text_of(titles, cut.title);
            next = put_sid(alloc, &mut left, next, text, cut)?;
        }
        rest = more;
    }
    Ok(left)
}
