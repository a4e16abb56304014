//! Limits of what is held and read.

/// The most networks that are held.
pub const MAX_NETWORKS: usize = 1024;

/// The most bytes of a text that a request has or names: 64 MiB.
pub const MAX_TEXT: usize = 67_108_864;
