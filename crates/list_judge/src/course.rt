//! Courses: legs and a finish along the SIDs of a list.

ghost use Rattle.std.specs.Prelude.{◌≡◌, ◌+◌, ◌<◌, true, false, Some, length, IfOk};
ghost use Rattle.list_pack.specs.LegsValueTerms.{KeepsLaws, comes_to};
ghost use Rattle.list_pack.specs.Meaning.{AreSidsOf};
ghost use Rattle.leg_table.specs.PositionSids.{prefix_at};
ghost use Rattle.list_judge_theory.specs.ListCourses as courses;
ghost use Rattle.list_judge_theory.specs.ListCourses.{NextOn};
ghost use Rattle.list_judge.specs.CourseTurns.{CourseNeeds, FinishesAt, TurnsOn};

use base::NoMemory;
use list_pack::{Leg, Legs};
use net_model::{Net, same_prefix};
use srv6_rules::{Csid, SidEntry};
use v6_addr::Prefix;

/// Where a course stands.
#[derive(Clone, Copy, Debug)]
pub(crate) struct Standing {
    /// How many steps of the intent are done.
    pub position: u32,
    /// The SID that was executed last.
    pub via: Option<u32>,
    /// How often the hop limit was lowered.
    pub hops: u64,
}

/// What comes of a course at a SID of a list.
#[derive(Clone, Copy, Debug)]
pub(crate) enum Turn {
    /// It ends there, with so many lowerings on the way.
    Ends(u32),
    /// It goes on from this SID, along a leg.
    Goes(u32, Leg),
    /// It doesn't come there, or neither ends nor goes on.
    Stops,
}

/// A packet comes to a SID next
fn comes_to<L: Legs>(legs: &L, position: u32, via: Option<u32>, next: u32) -> bool
    ensures { result ≡ comes_to (L.seen legs.now) position via next }
{
    legs.leg(position, via, next).is_some() || legs.finish(position, via, next).is_some()
}

/// A SID stands on a prefix, and a packet comes to it next
fn is_next_on<L: Legs>(
    net: &Net,
    legs: &L,
    position: u32,
    via: Option<u32>,
    prefix: &Prefix,
    sid: u32,
) -> bool
    requires { sid < length net.now.sids }
    ensures on { result ≡ true → (prefix_at net.now sid ≡ prefix.now)
        × (comes_to (L.seen legs.now) position via sid ≡ true) }
    ensures off { result ≡ false → prefix_at net.now sid ≡ prefix.now
        → comes_to (L.seen legs.now) position via sid ≡ false }
{
    if !same_prefix(&net.sid(sid).prefix, prefix) {
        return false;
    }
    comes_to(legs, position, via, sid)
}

/// The SID on a prefix that a packet comes to next
fn next_on<L: Legs>(
    net: &Net,
    legs: &L,
    position: u32,
    via: Option<u32>,
    prefix: &Prefix,
) -> Option<u32>
    ensures { NextOn (L.seen legs.now) net.now position via prefix.now result }
{
    for n in 0..net.sids() {
        if is_next_on(net, legs, position, via, prefix, n) {
            return Some(n);
        }
    }
    None
}

/// A SID takes what is inside wherever it stands in the last container: one that isn't compressed,
/// and from which no packet goes on (RFC 8986 sections 4.4 to 4.8)
fn takes_early(sid: &SidEntry) -> bool
    ensures { result ≡ courses.takes_early sid.now }
{
    match sid.csid {
        Csid::Plain => !sid.goes_on(),
        Csid::Next | Csid::Replace => false,
    }
}

/// A list may end at a SID, with which so many are left, of the last ones of the list, so many
fn may_end(net: &Net, tail: usize, sid: u32, left: usize) -> bool
    requires { sid < length net.now.sids }
    ensures { result ≡ courses.may_end net.now tail sid left }
{
    left == 1 || (left <= tail && takes_early(net.sid(sid)))
}

/// How often the hop limit is lowered on the way to a SID where the list ends there; none where it
/// may not, or no packet comes there so
fn finish_at<L: Legs>(
    net: &Net,
    legs: &L,
    tail: usize,
    left: usize,
    at: &Standing,
    sid: u32,
) -> Option<u32>
    requires { sid < length net.now.sids }
    ensures { FinishesAt (L.seen legs.now) net.now tail at.now.position at.now.via left sid result }
{
    if may_end(net, tail, sid, left) {
        legs.finish(at.position, at.via, sid)
    } else {
        None
    }
}

/// What comes of a course where it comes to a SID
fn turn_at<L: Legs>(
    net: &Net,
    legs: &L,
    tail: usize,
    left: usize,
    at: &Standing,
    prefix: &Prefix,
    sid: u32,
) -> Turn
    requires laws { KeepsLaws (L.seen legs.now) }
    requires sids { AreSidsOf (L.seen legs.now) net.now }
    requires next { NextOn (L.seen legs.now) net.now at.now.position at.now.via prefix.now (Some sid) }
    ensures { TurnsOn (L.seen legs.now) net.now tail at.now.position at.now.via prefix.now left result }
{
    let finish = finish_at(net, legs, tail, left, at, sid);
    let leg = legs.leg(at.position, at.via, sid);
    match (finish, leg) {
        (Some(hops), _) => Turn::Ends(hops),
        (None, Some(leg)) => Turn::Goes(sid, leg),
        (None, None) => Turn::Stops,
    }
}

/// What comes of a course at the next SID
fn turn_on<L: Legs>(
    net: &Net,
    legs: &L,
    tail: usize,
    left: usize,
    at: &Standing,
    prefix: &Prefix,
) -> Turn
    requires sids { AreSidsOf (L.seen legs.now) net.now }
    ensures { TurnsOn (L.seen legs.now) net.now tail at.now.position at.now.via prefix.now left result }
{
    // That the legs keep the laws of legs, for the proof.
    legs.steps();
    match next_on(net, legs, at.position, at.via, prefix) {
        Some(sid) => turn_at(net, legs, tail, left, at, prefix, sid),
        None => Turn::Stops,
    }
}

/// More lowerings; want of memory where no number has them, since no memory has so many SIDs
fn more(hops: u64, by: u32) -> Result<u64, NoMemory>
    ensures { IfOk result (λ sum. sum ≡ hops + by) }
{
    match hops.checked_add(u64::from(by)) {
        Some(sum) => Ok(sum),
        None => Err(NoMemory),
    }
}

/// How often the hop limit is lowered on the course along prefixes; none where there is no course
pub(crate) fn need_along<L: Legs>(
    net: &Net,
    legs: &L,
    tail: usize,
    prefixes: &[Prefix],
) -> Result<Option<u64>, NoMemory>
    requires sids { AreSidsOf (L.seen legs.now) net.now }
    ensures { IfOk result (CourseNeeds (L.seen legs.now) net.now tail prefixes.now) }
{
    let mut at = Standing {
        position: 0,
        via: None,
        hops: 0,
    };
    for (i, prefix) in prefixes.iter().enumerate() {
        match turn_on(net, legs, tail, prefixes.len() - i, &at, prefix) {
            Turn::Ends(hops) => return Ok(Some(more(at.hops, hops)?)),
            Turn::Goes(sid, leg) => {
                at = Standing {
                    position: leg.to,
                    via: Some(sid),
                    hops: more(at.hops, leg.hops)?,
                };
            }
            Turn::Stops => return Ok(None),
        }
    }
    Ok(None)
}
