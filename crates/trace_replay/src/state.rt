//! What there is of a packet between two lines of a trace.

use node_stage::Content;
use walk_rules::Place;

/// What there is of a packet between two lines of a trace.
#[derive(Debug, Drop)]
pub(crate) enum ReplayState {
    /// It has ended, or no packet came yet.
    Ended,
    /// It has a stage still to come.
    Going {
        /// Where it stands.
        place: Place,
        /// What stands there.
        content: Content,
        /// How many stages it may have after the next.
        left: usize,
    },
    /// It used all its stages without an end, and the line that says so is still to come.
    Stopped,
}
