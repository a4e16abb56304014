//! Limits of the input and of what waits. The definitions cite them, and so does the code.

/// The most bytes of the input: 64 MiB.
pub const MAX_INPUT_BYTES: usize = 67_108_864;

/// The most bytes that wait for each sink: 65,591, those of a longest frame of the capture that is
/// written.
pub const MOST_WAITING: usize = 65_591;
