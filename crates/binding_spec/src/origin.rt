//! Where a packet goes on from to its next SID.

use walk_rules::Place;

/// From where a packet goes on to its next SID, and how many of the intent's steps are done then:
/// behind the headend or a SID that it executed itself, after the whole walk of the header that the
/// SID pushed, if it pushed one.
#[derive(Clone, Copy, Debug)]
pub struct Origin {
    /// Where the packet stands.
    pub place: Place,
    /// How many of the intent's steps are done.
    pub done: u32,
}
