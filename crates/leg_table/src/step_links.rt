//! The links of a step, where they end, and what is left of the steps after an execution; the leg
//! and the finish that end there.

ghost use Rattle.std.specs.Prelude.{◌≡◌, ◌≤◌, ◌<◌, length, IfSome};
ghost use Rattle.std.specs.List.{list_all};
ghost use Rattle.net_model.specs.NetworkKeeps.{IsLinkSet};
ghost use Rattle.intent_reader.specs.IntentRules as rules;
ghost use Rattle.leg_table.specs.StrictLegs as legs;
ghost use Rattle.leg_table.specs.StepMatching as tasks;
ghost use Rattle.leg_table.specs.Transits as transits;

use intent_reader::Step;
use list_pack::Leg;
use net_model::Net;
use walk_rules::far_end;

/// A step has all links of a set.
pub fn all_in_step(step: &Step, set: &[u32]) -> bool
    ensures { result ≡ transits.all_in_step step.now set.now }
{
    match step {
        Step::Links(links) => all_among(links.as_slice(), set),
        Step::Function(_) | Step::Reach(_) => false,
    }
}

fn all_among(links: &[u32], set: &[u32]) -> bool
    ensures { result ≡ list_all (tasks.has_link links.now) set.now }
{
    set.iter().all(|link| links.contains(link))
}

/// The node where the first link of a set ends, if it ends at one.
pub fn first_end(net: &Net, set: &[u32], node: u32) -> Option<u32>
    requires { IsLinkSet net.now.links node set.now }
    ensures value { result ≡ rules.first_end net.now set.now }
    ensures is_there { IfSome result (λ to. to < length net.now.nodes) }
{
    net.keeps_rules();
    far_end(net, set[0])
}

/// What is after the execution of a SID at the end of a transit.
#[derive(Clone, Copy, Debug)]
pub struct Behind {
    /// How many steps are left.
    pub left: u32,
    /// How often the hop limit was lowered before the execution.
    pub lowered: u32,
}

/// How many steps are left after the execution of a SID.
pub fn left_after(net: &Net, n: u32, steps: &[Step]) -> Option<u32>
    requires is_there { n < length net.now.sids }
    requires few { length steps.now ≤ 48 }
    ensures value { result ≡ tasks.left_after net.now n steps.now }
    ensures few { IfSome result (λ left. left ≤ length steps.now) }
{
    if net.sid(n).title.is_none() {
        return Some(steps.len() as u32);
    }
    match steps {
        [Step::Function(sid), rest @ ..] if *sid == n => Some(rest.len() as u32),
        _ => None,
    }
}

/// The leg of so many steps in all that leaves some of them: the hop limit is lowered so often
/// before the execution at its end, and once there.
pub fn leg_with(count: u32, lowered: u32, left: u32) -> Leg
    requires within { left ≤ count }
    requires few { lowered ≤ 256 }
    ensures { result ≡ legs.leg_with count lowered left }
{
    Leg {
        to: count - left,
        hops: lowered + 1,
    }
}

/// How often the hop limit was lowered, where no step is left.
pub fn if_none_left(lowered: u32, left: u32) -> Option<u32>
    ensures { result ≡ legs.if_none_left lowered left }
{
    if left == 0 { Some(lowered) } else { None }
}
