//! One stage of the walk of a pushed header, whatever is below it.

ghost use Rattle.std.specs.Prelude.{◌≡◌, ◌<◌, ◌≤◌, ℕ, [], length, drop, reverse, IfOk, IfSome};
ghost use Rattle.std.specs.List.{list_all};
ghost use Rattle.std.specs.Option.{option_map};
ghost use Rattle.srv6_rules.specs.Behaviours.{behaviour_policy};
ghost use Rattle.net_model.specs.NetworkKeeps.{IsLinkSet};
ghost use Rattle.walk_rules.specs.Relation.{IsPlace};
ghost use Rattle.walk_rules.specs.Treatment.{onward_from};
ghost use Rattle.walk_rules.specs.Way.{Into, Over};
ghost use Rattle.walk_rules.specs.WayTerms.{StandsAt};
ghost use Rattle.walk_rules.specs.declared.place.Place.{Place as PlaceValue};
ghost use Rattle.leg_table.specs.Transits.{all_in_step};
ghost use Rattle.leg_table.specs.StepMatching.{has_link};
ghost use Rattle.leg_table.specs.WalkTrace.{executed};
ghost use Rattle.binding_spec.specs.TunnelPackets.{inside_by, inside_move};
ghost use Rattle.binding_spec.specs.Machines.{Go, end_by, left_by};
ghost use Rattle.binding_spec.specs.NetworkWorld.{at_how, look_onward, step_events};
ghost use Rattle.policy_walks.specs.HeaderWalks.{IsTakenOff, StandsThere, Walking, end_stage, inside_of, place_over, way_move, world_of};

use crate::top_header::{Came, Head};
use base::NoMemory;
use intent_reader::Step;
use net_model::Net;
use srv6_rules::SidEntry;
use std::alloc::Global;
use walk_rules::{Place, Way, arrival, exposed_from, far_end, onward_from, way_of};

/// Headers in front of a packet, at a place, along steps; the packet itself is left out.
#[derive(Debug, Drop)]
pub(crate) struct Headers {
    /// Where the header on top stands.
    pub place: Place,
    /// The header on top.
    pub top: Head,
    /// Those below it, the lowest first.
    pub below: Vec<Head>,
}

/// What a stage comes to.
#[derive(Debug, Drop)]
pub(crate) enum Stage {
    /// A header is on top, and so many steps are done.
    On {
        /// The headers then.
        headers: Headers,
        /// How many of the steps are done.
        done: u32,
    },
    /// The last header is taken off.
    Off {
        /// Where the packet below it stands.
        place: Place,
        /// How many of the steps are done.
        done: u32,
    },
    /// The header on top is lost, or leaves the steps.
    Lost,
}

/// How many steps are done after the execution of a SID, which is the function of the next step
/// where the SID has a title.
fn done_after(net: &Net, sid: u32, steps: &[Step], done: u32) -> Option<u32>
    requires is_there { sid < length net.now.sids }
    requires few { length steps.now ≤ 48 }
    requires within { done ≤ length steps.now }
    ensures value { option_map (λ d. drop d steps.now) result
        ≡ left_by step_events (drop done steps.now) (executed net.now sid) }
    ensures few { IfSome result (λ d. d ≤ length steps.now) }
{
    if net.sid(sid).title.is_none() {
        return Some(done);
    }
    match steps.get(done as usize) {
        Some(Step::Function(n)) if *n == sid => Some(done + 1),
        Some(Step::Function(_) | Step::Links(_) | Step::Reach(_)) | None => None,
    }
}

/// Whether links all lie in a step.
fn lie_in(links: &[u32], step: &Step) -> bool
    ensures { result ≡ all_in_step step.now links.now }
{
    match step {
        Step::Links(set) => are_among(links, set.as_slice()),
        Step::Function(_) | Step::Reach(_) => false,
    }
}

fn are_among(links: &[u32], set: &[u32]) -> bool
    ensures { result ≡ list_all (has_link set.now) links.now }
{
    links.iter().all(|link| set.contains(link))
}

/// The place where links lead that all lie in the next step.
fn place_over(net: &Net, place: &Place, links: &[u32], steps: &[Step], done: u32) -> Option<Place>
    requires links { IsLinkSet net.now.links place.now.node links.now }
    ensures value { result ≡ place_over net.now place.now links.now (drop done steps.now) }
    ensures is_place { IfSome result (IsPlace net.now) }
    ensures within { IfSome result (λ _. done < length steps.now) }
{
    net.keeps_rules();
    let step = steps.get(done as usize)?;
    if !lie_in(links, step) {
        return None;
    }
    let node = far_end(net, links[0])?;
    Some(arrival(node, place.family))
}

/// A stage over one of a set of links.
fn crossed(
    net: &Net,
    links: &[u32],
    lower: bool,
    headers: Headers,
    steps: &[Step],
    done: u32,
) -> Stage
    requires links { IsLinkSet net.now.links headers.place.node links.now }
    requires few { length steps.now ≤ 48 }
    ensures value { (go : Walking) →
        end_by step_events go (way_move net.now headers (Over links.now lower)) (drop done steps.now)
        ≡ end_stage go steps.now result }
    ensures there { StandsThere net.now steps.now result }
{
    if headers.top.runs_out(lower) {
        return Stage::Lost;
    }
    let Some(place) = place_over(net, &headers.place, links, steps, done) else {
        return Stage::Lost;
    };
    Stage::On {
        headers: Headers {
            place,
            top: headers.top.lowered(lower),
            below: headers.below,
        },
        done: done + 1,
    }
}

/// What comes of headers of which the one on top was taken off, at the place behind it.
fn taken_off(place: Place, mut below: Vec<Head>, done: u32) -> Stage
    ensures { IsTakenOff place (reverse below.items) done result }
{
    match below.pop() {
        Some(top) => Stage::On {
            headers: Headers { place, top, below },
            done,
        },
        None => Stage::Off { place, done },
    }
}

/// Behind a SID from which the header on top goes on: the header of the policy that the SID binds
/// is put in front, if it binds one (RFC 8986 sections 4.13 and 4.14).
fn behind_sid(
    alloc: Global,
    net: &Net,
    sid: &SidEntry,
    headers: Headers,
) -> Result<Headers, NoMemory>
    requires policy { IfSome (behaviour_policy sid.now.behaviour) (λ n. n < length net.now.policies) }
    ensures place { IfOk result (λ next. next.place ≡ headers.place) }
    ensures value { IfOk result (λ next. (n : ℕ) (from : PlaceValue) →
        at_how from (onward_from n sid.now.behaviour) ≡ headers.place →
        inside_by (world_of net.now) (reverse headers.below.items)
        (look_onward net.now from n sid.now.behaviour headers.top
        (behaviour_policy sid.now.behaviour))
        ≡ Go (executed net.now n) [] (inside_of next)) }
{
    match sid.behaviour.policy() {
        None => Ok(headers),
        Some(policy) => {
            let Headers {
                place,
                top,
                mut below,
            } = headers;
            let pushed = Head::of(alloc, net, policy, sid.behaviour.reduces())?;
            below.push(top)?;
            Ok(Headers {
                place,
                top: pushed,
                below,
            })
        }
    }
}

/// A stage into a SID of the node.
fn into_sid(
    alloc: Global,
    net: &Net,
    sid: u32,
    headers: Headers,
    steps: &[Step],
    done: u32,
) -> Result<Stage, NoMemory>
    requires place { IsPlace net.now headers.place }
    requires stands { StandsAt net.now headers.place.node sid }
    requires few { length steps.now ≤ 48 }
    requires within { done ≤ length steps.now }
    ensures value { IfOk result (λ s. (go : Walking) →
        end_by step_events go (way_move net.now headers (Into sid)) (drop done steps.now)
        ≡ end_stage go steps.now s) }
    ensures there { IfOk result (StandsThere net.now steps.now) }
{
    net.keeps_rules();
    let Some(done) = done_after(net, sid, steps, done) else {
        return Ok(Stage::Lost);
    };
    let entry = net.sid(sid);
    let Headers { place, top, below } = headers;
    let allow = net.node(place.node).allow.as_slice();
    match top.come_to(entry, allow) {
        Came::On { head } => {
            let place = Place {
                how: onward_from(sid, &entry.behaviour),
                ..place
            };
            let headers = Headers {
                place,
                top: head,
                below,
            };
            let headers = behind_sid(alloc, net, entry, headers)?;
            Ok(Stage::On { headers, done })
        }
        Came::Off { family } => {
            let place = Place {
                node: place.node,
                how: exposed_from(sid, &entry.behaviour),
                family,
            };
            Ok(taken_off(place, below, done))
        }
        Came::Lost => Ok(Stage::Lost),
    }
}

/// One stage of headers along steps of which so many are done: over links that all lie in the next
/// step, or into a SID, whose function the next step is where it has a title (RFC 8200 section 3,
/// RFC 8986 section 4).
pub(crate) fn take_stage(
    alloc: Global,
    net: &Net,
    headers: Headers,
    steps: &[Step],
    done: u32,
) -> Result<Stage, NoMemory>
    requires place { IsPlace net.now headers.place }
    requires few { length steps.now ≤ 48 }
    requires within { done ≤ length steps.now }
    ensures value { IfOk result (λ s. (go : Walking) →
        end_by step_events go (inside_move (world_of net.now) (inside_of headers))
        (drop done steps.now)
        ≡ end_stage go steps.now s) }
    ensures there { IfOk result (StandsThere net.now steps.now) }
{
    match way_of(net, &headers.place, headers.top.destination()) {
        Way::NoWay { .. } | Way::Own => Ok(Stage::Lost),
        Way::Over { links, lower } => Ok(crossed(net, links, lower, headers, steps, done)),
        Way::Into { sid } => into_sid(alloc, net, sid, headers, steps, done),
    }
}
