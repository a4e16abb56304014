//! The limit of walks.

/// The most stages of a packet's walk: 10,000.
pub const MAX_STAGES: usize = 10_000;
