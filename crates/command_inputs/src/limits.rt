//! The limits, each of which the definitions cite.

/// The most choices that the words give.
pub const MAX_CHOICES: usize = 4_096;

/// The most entries of a schedule, and the most events of an update, that the words give.
pub const MAX_SCHEDULE: usize = 65_536;
