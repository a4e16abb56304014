//! The way from the execution of a SID, or from the headend, to that of the next, under all choices.

ghost use Rattle.walk_rules.specs.Relation.{IsPlace};

use crate::cause::Cause;
use crate::crossings::{Crossing, binds, cross, done_after};
use crate::executions::{At, destination_of, execute, is_place, with_hop_limit};
use crate::headend::HIGHEST;
use crate::marks::{Mark, Marks, key_of};
use crate::tunnels::through_tunnel;
use base::NoMemory;
use intent_reader::{Step, has_reach};
use net_model::Net;
use node_stage::Content;
use srv6_rules::Family;
use std::alloc::Global;
use v6_addr::Addr;
use walk_rules::{Place, Way, arrival, way_of};

/// The most turns of a search: four for each node, number of finished steps and link
const MOST_TURNS: u32 = 1 << 26;

/// What happens under some choice.
#[derive(Debug, Drop)]
pub(crate) struct Met {
    /// The packet is lost.
    pub lost: bool,
    /// It leaves the steps.
    pub astray: bool,
    /// The next SID is executed at another node or after another number of finished steps than
    /// under another choice.
    pub apart: bool,
    /// The next SID is executed at this node, and the packet stands so behind it.
    pub executed: Option<(u32, At)>,
}

/// What comes of the way.
#[derive(Debug, Drop)]
pub(crate) enum Gap {
    /// The next SID is executed for all choices alike.
    Executed(At),
    /// It isn't.
    Fails(Cause),
}

/// Where the search stands: at a place after so many finished steps, with the next member of the
/// equal next hops; and the place of its mark.
#[derive(Clone, Copy, Debug)]
struct Visit {
    place: Place,
    done: usize,
    member: usize,
    key: Option<usize>,
}

/// What is searched.
#[derive(Drop)]
struct Search<'a> {
    net: &'a Net,
    steps: &'a [Step],
    content: Content,
    destination: Addr,
    marks: Marks,
    stack: Vec<Visit>,
    met: Met,
}

/// A SID that is executed with no header in front
fn meet_execution(alloc: Global, search: &mut Search<'_>, visit: &Visit) -> Result<(), NoMemory>
    requires { IsPlace search.old.net.now visit.now.place }
{
    let net = search.net;
    let Some(executed) = execute(alloc, net, &visit.place, &search.content)? else {
        search.met.lost = true;
        return Ok(());
    };
    let binding = binds(net, executed.sid);
    let done = done_after(net, search.steps, visit.done, executed.sid);
    if binding && has_reach(search.steps) {
        search.met.astray = true;
        return Ok(());
    }
    let Some(done) = done else {
        search.met.astray = true;
        return Ok(());
    };
    let at = At {
        place: executed.place,
        content: executed.content,
        done,
        depth: if binding && !executed.hands { 1 } else { 0 },
        handed: executed.hands,
    };
    let is_first = search.met.executed.is_none();
    if is_first {
        search.met.executed = Some((visit.place.node, at));
    } else if let Some((node, first)) = &search.met.executed {
        if *node != visit.place.node || first.done != done {
            search.met.apart = true;
        }
    }
    Ok(())
}

/// A link that a packet may be sent on
fn meet_link(search: &mut Search<'_>, visit: &Visit, link: u32) -> Result<(), NoMemory> {
    match cross(search.net, search.steps, visit.done, link) {
        Crossing::Lost => search.met.lost = true,
        Crossing::Astray => search.met.astray = true,
        Crossing::On { node, done } => {
            let key = key_of(node, done);
            match search.marks.at(key) {
                Mark::OnTheWay => search.met.lost = true,
                Mark::Done => {}
                Mark::New => {
                    search.marks.set(key, Mark::OnTheWay);
                    search.stack.push(Visit {
                        place: arrival(node, Family::V6),
                        done,
                        member: 0,
                        key: Some(key),
                    })?;
                }
            }
        }
    }
    Ok(())
}

/// All ways from a place were followed
fn leave(search: &mut Search<'_>, visit: &Visit) {
    if let Some(key) = visit.key {
        search.marks.set(key, Mark::Done);
    }
}

/// One turn of the search
fn turn(alloc: Global, search: &mut Search<'_>, visit: Visit) -> Result<(), NoMemory> {
    if !is_place(search.net, &visit.place) {
        search.met.lost = true;
        return Ok(());
    }
    match way_of(search.net, &visit.place, search.destination) {
        Way::Over { links, .. } => match links.get(visit.member) {
            None => leave(search, &visit),
            Some(link) => {
                search.stack.push(Visit {
                    member: visit.member + 1,
                    ..visit
                })?;
                meet_link(search, &visit, *link)?;
            }
        },
        Way::Into { .. } => {
            meet_execution(alloc, search, &visit)?;
            leave(search, &visit);
        }
        Way::NoWay { .. } | Way::Own => {
            search.met.lost = true;
            leave(search, &visit);
        }
    }
    Ok(())
}

/// Follows all choices from a place
fn follow(alloc: Global, search: &mut Search<'_>) -> Result<(), NoMemory> {
    for _ in 0..MOST_TURNS {
        let Some(visit) = search.stack.pop() else {
            return Ok(());
        };
        turn(alloc, search, visit)?;
    }
    search.met.lost = true;
    Ok(())
}

/// The first cause that was met, or where the packet stands behind the next SID
fn gap_of(met: Met) -> Gap {
    if met.lost {
        return Gap::Fails(Cause::Lost);
    }
    if met.astray {
        return Gap::Fails(Cause::Astray);
    }
    if met.apart {
        return Gap::Fails(Cause::Apart);
    }
    match met.executed {
        Some((_, at)) => Gap::Executed(at),
        None => Gap::Fails(Cause::Lost),
    }
}

/// What comes of the way to the next SID
pub(crate) fn gap_behind<'x>(
    alloc: Global,
    net: &'x Net,
    steps: &'x [Step],
    at: At,
) -> Result<Gap, NoMemory> {
    let mut met = Met {
        lost: false,
        astray: false,
        apart: false,
        executed: None,
    };
    let Some(at) = through_tunnel(alloc, net, steps, at, &mut met)? else {
        return Ok(gap_of(met));
    };
    let content = with_hop_limit(at.content, HIGHEST);
    let Some(destination) = destination_of(&content) else {
        return Ok(Gap::Fails(Cause::Lost));
    };
    let mut search = Search {
        net,
        steps,
        content,
        destination,
        marks: Marks::new(alloc, net.nodes())?,
        stack: Vec::new(alloc),
        met,
    };
    search.stack.push(Visit {
        place: at.place,
        done: at.done,
        member: 0,
        key: None,
    })?;
    follow(alloc, &mut search)?;
    Ok(gap_of(search.met))
}
