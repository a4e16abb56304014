//! What links and functions are to the steps of an intent.

use intent_reader::Step;
use net_model::Net;
use walk_rules::far_end;

/// What crossing a link comes to.
#[derive(Clone, Copy, Debug)]
pub(crate) enum Crossing {
    /// It is what the steps ask: the packet comes to a node, and so many steps are finished.
    On {
        /// The node's number.
        node: u32,
        /// How many steps are finished.
        done: usize,
    },
    /// It isn't the steps' next.
    Astray,
    /// It leads out of the network.
    Lost,
}

/// What a link is where so many steps are finished
pub(crate) fn cross(net: &Net, steps: &[Step], done: usize, link: u32) -> Crossing {
    let Some(node) = far_end(net, link) else {
        return Crossing::Lost;
    };
    match steps.get(done) {
        Some(Step::Links(set)) => {
            if set.as_slice().contains(&link) {
                Crossing::On {
                    node,
                    done: done + 1,
                }
            } else {
                Crossing::Astray
            }
        }
        Some(Step::Reach(goal)) => {
            let done = if node == *goal { done + 1 } else { done };
            Crossing::On { node, done }
        }
        Some(Step::Function(_)) | None => Crossing::Astray,
    }
}

/// How many steps are finished after the execution of a SID: one with a title has to be the steps'
/// next function
pub(crate) fn done_after(net: &Net, steps: &[Step], done: usize, sid: u32) -> Option<usize> {
    if sid >= net.sids() || net.sid(sid).title.is_none() {
        return Some(done);
    }
    match steps.get(done) {
        Some(Step::Function(n)) if *n == sid => Some(done + 1),
        Some(Step::Function(_) | Step::Links(_) | Step::Reach(_)) | None => None,
    }
}

/// A SID binds a policy
pub(crate) fn binds(net: &Net, sid: u32) -> bool {
    sid < net.sids() && net.sid(sid).behaviour.policy().is_some()
}
