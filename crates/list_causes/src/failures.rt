//! Where a list fails, and why.

ghost use Rattle.std.specs.Prelude.{◌≡◌, ◌≤◌, IfOk, IfSome};
ghost use Rattle.intent_reader.specs.IntentRulesTerms.{IsIntent};

use crate::cause::{Cause, Failure};
use crate::gaps::{Gap, gap_behind};
use crate::headend::entering;
use base::NoMemory;
use intent_reader::{Intent, Step, has_reach};
use net_model::Net;
use std::alloc::Global;
use v6_addr::Addr;

/// What is wrong where the packet inside was handed over before a SID
fn failure_behind_hand(steps: &[Step], done: usize, sid: usize) -> Option<Failure>
    ensures { IfSome result (λ failure. failure.sid ≡ sid) }
{
    if done < steps.len() {
        return Some(Failure {
            sid,
            cause: Cause::Early,
        });
    }
    if has_reach(steps) {
        return Some(Failure {
            sid,
            cause: Cause::Unexecuted,
        });
    }
    None
}

/// The first SID of a list, of which there are so many, that isn't executed for all choices alike,
/// and why, by the packets that nodes make of one that is encapsulated for the list, whatever the
/// outer hop limit; nothing where the steps are kept up to where the packet inside is handed over,
/// and, where a step is to reach a node, all SIDs are executed. No header has room for more than 127
/// segments (RFC 8754 section 2): such a list is lost on the way to its first SID (own rule).
pub fn failure_of(
    alloc: Global,
    net: &Net,
    intent: &Intent,
    segments: Vec<Addr>,
    sids: usize,
) -> Result<Option<Failure>, NoMemory>
    requires { IsIntent net.now intent.now }
    ensures { IfOk result (λ found. IfSome found (λ failure. failure.sid ≤ sids)) }
{
    let steps = intent.steps.as_slice();
    let Some(mut at) = entering(alloc, intent, segments)? else {
        return Ok(Some(Failure {
            sid: if sids == 0 { 0 } else { 1 },
            cause: Cause::Lost,
        }));
    };
    for before in 0..sids {
        if at.handed {
            return Ok(failure_behind_hand(steps, at.done, before + 1));
        }
        match gap_behind(alloc, net, steps, at)? {
            Gap::Executed(next) => at = next,
            Gap::Fails(cause) => {
                return Ok(Some(Failure {
                    sid: before + 1,
                    cause,
                }));
            }
        }
    }
    if at.handed && at.done == steps.len() {
        return Ok(None);
    }
    Ok(Some(Failure {
        sid: 0,
        cause: Cause::Early,
    }))
}
