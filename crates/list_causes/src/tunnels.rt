//! The way of a header that a binding SID pushes, up to where the packet below it is exposed.

use crate::crossings::{Crossing, binds, cross, done_after};
use crate::executions::{
    At, Executed, destination_of, execute, hop_limit_of, is_place, with_hop_limit,
};
use crate::gaps::Met;
use base::NoMemory;
use intent_reader::Step;
use net_model::Net;
use srv6_rules::Family;
use std::alloc::Global;
use walk_rules::{Way, arrival, way_of};

/// The most stages behind a binding SID up to where the last header in front is taken off: with the
/// execution of the binding SID they are 1,000 (own rule)
const MOST_STAGES: u32 = 999;

/// Over links: what each comes to; the packet goes on where one is the steps' next. All links of a
/// step end at one node.
fn over(
    net: &Net,
    steps: &[Step],
    at: At,
    links: &[u32],
    lower: bool,
    met: &mut Met,
) -> Option<At> {
    let hop_limit = hop_limit_of(&at.content);
    if lower && hop_limit <= 1 {
        met.lost = true;
        return None;
    }
    let mut next = None;
    for link in links {
        match cross(net, steps, at.done, *link) {
            Crossing::On { node, done } => next = Some((node, done)),
            Crossing::Astray => met.astray = true,
            Crossing::Lost => met.lost = true,
        }
    }
    let (node, done) = next?;
    let content = if lower {
        with_hop_limit(at.content, hop_limit - 1)
    } else {
        at.content
    };
    Some(At {
        place: arrival(node, Family::V6),
        content,
        done,
        depth: at.depth,
        handed: false,
    })
}

/// Behind the execution of a SID by a header in front
fn behind(net: &Net, depth: usize, done: usize, executed: Executed) -> At {
    let depth = if executed.hands {
        depth.saturating_sub(1)
    } else if binds(net, executed.sid) {
        depth.saturating_add(1)
    } else {
        depth
    };
    At {
        place: executed.place,
        content: executed.content,
        done,
        depth,
        handed: false,
    }
}

/// One stage of a header in front
fn tunnel_stage(
    alloc: Global,
    net: &Net,
    steps: &[Step],
    at: At,
    met: &mut Met,
) -> Result<Option<At>, NoMemory> {
    let Some(destination) = destination_of(&at.content) else {
        met.lost = true;
        return Ok(None);
    };
    if !is_place(net, &at.place) {
        met.lost = true;
        return Ok(None);
    }
    match way_of(net, &at.place, destination) {
        Way::Over { links, lower } => Ok(over(net, steps, at, links, lower, met)),
        Way::Into { .. } => {
            let Some(executed) = execute(alloc, net, &at.place, &at.content)? else {
                met.lost = true;
                return Ok(None);
            };
            match done_after(net, steps, at.done, executed.sid) {
                Some(done) => Ok(Some(behind(net, at.depth, done, executed))),
                None => {
                    met.astray = true;
                    Ok(None)
                }
            }
        }
        Way::NoWay { .. } | Way::Own => {
            met.lost = true;
            Ok(None)
        }
    }
}

/// From behind a binding SID to where no header is in front of the packet; none where the packet
/// doesn't come there by the steps
pub(crate) fn through_tunnel(
    alloc: Global,
    net: &Net,
    steps: &[Step],
    at: At,
    met: &mut Met,
) -> Result<Option<At>, NoMemory> {
    let mut at = at;
    for _ in 0..MOST_STAGES {
        if at.depth == 0 {
            return Ok(Some(at));
        }
        let Some(next) = tunnel_stage(alloc, net, steps, at, met)? else {
            return Ok(None);
        };
        at = next;
    }
    if at.depth == 0 {
        return Ok(Some(at));
    }
    met.lost = true;
    Ok(None)
}
