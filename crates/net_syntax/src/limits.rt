//! Limits of intents. The definitions cite these, and so does the code.

use srv6_rules::numbers::MAX_SEGMENTS;

/// Steps of an intent; it has at least one.
pub const MAX_STEPS: usize = 48;

/// The most SIDs that a description has for an intent with a loose step.
pub const MAX_LOOSE_SIDS: u32 = 128;

/// The most that an intent may give as the most containers of its list; the least is 1.
pub const MAX_CONTAINERS: u32 = MAX_SEGMENTS as u32;

/// The most containers of a list for which none is given.
pub const DEFAULT_CONTAINERS: u32 = 10;
