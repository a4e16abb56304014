//! Limits of requests.

/// The most bytes of an id, as a reply has it.
pub const MAX_ID_BYTES: usize = 256;

/// The most choices of a trace.
pub const MAX_CHOICES: usize = 4096;
