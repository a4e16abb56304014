//! Steps, and how many of them are left behind a link.

ghost use Rattle.std.specs.Prelude.{◌≡◌};
ghost use Rattle.intent_traces.specs.Traces.{Crossed, Ends, count_left, has_link, left_behind};

use base::Seq;

/// A step of a walk that may reach a node over any links.
#[derive(Debug, Drop)]
pub enum TraceStep {
    /// One of these links is crossed, by their numbers.
    Links(Seq<u32>),
    /// The function with this number is executed.
    Function(u32),
    /// The node with this number is reached: over one link or more, of which the last is the first
    /// that leads to it.
    Reach(u32),
}

/// Whether a set has a link.
fn has(set: &[u32], link: u32) -> bool
    ensures { result ≡ has_link set.now link }
{
    set.contains(&link)
}

/// How many steps are left behind a link that ends at a node, or leads out of the network: none
/// where the link doesn't keep to the first step.
pub fn left_behind_link(steps: &[TraceStep], link: u32, end: Option<u32>) -> Option<usize>
    ensures { (to : Ends) → to link ≡ end
        → result ≡ count_left (left_behind to steps.now (Crossed link)) }
{
    let (step, rest) = steps.split_first()?;
    match step {
        TraceStep::Links(set) => {
            if !has(set.as_slice(), link) {
                return None;
            }
            Some(rest.len())
        }
        TraceStep::Function(_) => None,
        TraceStep::Reach(node) => {
            if end? != *node {
                return Some(steps.len());
            }
            Some(rest.len())
        }
    }
}
