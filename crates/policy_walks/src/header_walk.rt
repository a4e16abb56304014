//! The walk of a pushed header, and from where a packet goes on behind a SID.

ghost use Rattle.std.specs.Prelude.{◌≡◌, ◌-◌, ◌≤◌, true, length, drop, slice_get, IfOk, IfSome};
ghost use Rattle.std.specs.Option.{option_map};
ghost use Rattle.walk_rules.specs.Relation.{IsPlace};
ghost use Rattle.intent_reader.specs.IntentRulesTerms.{IsIntent};
ghost use Rattle.leg_table.specs.PositionSids.{is_sid_at};
ghost use Rattle.binding_spec.specs.OwnHands.{most_stages};
ghost use Rattle.binding_spec.specs.Origins as origins;
ghost use Rattle.policy_walks.specs.HeaderWalks.{end_at, inside_end, inside_of};

use crate::header_stage::{Headers, Stage, take_stage};
use crate::top_header::Head;
use base::NoMemory;
use binding_spec::Origin;
use intent_reader::{Intent, Step};
use net_model::Net;
use srv6_rules::Family;
use std::alloc::Global;
use walk_rules::{Place, onward_from};

/// The most stages from a binding SID that a packet executes to the stage that takes off the last
/// header in front of it, both counted.
pub const MOST_STAGES: u32 = 1000;

/// Where headers come to, along steps of which so many are done, within the stages behind a binding
/// SID.
fn walked(
    alloc: Global,
    net: &Net,
    mut headers: Headers,
    steps: &[Step],
    mut done: u32,
) -> Result<Option<Origin>, NoMemory>
    requires place { IsPlace net.now headers.place }
    requires few { length steps.now ≤ 48 }
    requires within { done ≤ length steps.now }
    ensures value { IfOk result (λ origin. option_map (end_at steps.now) origin
        ≡ inside_end net.now (most_stages - 1) (drop done steps.now) (inside_of headers)) }
    ensures within { IfOk result (λ origin. IfSome origin (λ s. s.done ≤ length steps.now)) }
{
    for _ in 1..MOST_STAGES {
        match take_stage(alloc, net, headers, steps, done)? {
            Stage::On {
                headers: next,
                done: more,
            } => {
                headers = next;
                done = more;
            }
            Stage::Off { place, done } => return Ok(Some(Origin { place, done })),
            Stage::Lost => return Ok(None),
        }
    }
    Ok(None)
}

/// From where a packet goes on behind a SID of a position that it executed last there: right behind
/// the SID, or, where it is a binding SID, from where the policy's header walks to, as it does
/// whichever of equal next hops are taken. None where the SID takes no packet on to a next segment,
/// or that header leaves the steps behind the position, is lost, or isn't taken off within 1,000
/// stages, the SID's own among them (RFC 8986 sections 4.13, 4.14 and 4.16.3; own rule).
pub fn origin_behind(
    alloc: Global,
    net: &Net,
    intent: &Intent,
    position: u32,
    sid: u32,
) -> Result<Option<Origin>, NoMemory>
    requires is_intent { IsIntent net.now intent.now }
    requires within { position ≤ length intent.now.steps }
    requires at { is_sid_at net.now intent.now position sid ≡ true }
    ensures { IfOk result (λ origin. origin
        ≡ origins.origin_behind net.now intent.now position sid (slice_get net.now.sids sid)) }
{
    net.keeps_rules();
    let entry = net.sid(sid);
    if !entry.goes_on() {
        return Ok(None);
    }
    let place = Place {
        node: entry.node,
        how: onward_from(sid, &entry.behaviour),
        family: Family::V6,
    };
    match entry.behaviour.policy() {
        None => Ok(Some(Origin {
            place,
            done: position,
        })),
        Some(policy) => {
            let top = Head::of(alloc, net, policy, entry.behaviour.reduces())?;
            let headers = Headers {
                place,
                top,
                below: Vec::new(alloc),
            };
            walked(alloc, net, headers, intent.steps.as_slice(), position)
        }
    }
}
