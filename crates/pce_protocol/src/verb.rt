//! What a request asks to be done.

/// What a request asks to be done.
#[derive(Clone, Copy, Debug, PartialEq, Eq)]
pub enum Verb {
    /// To tell the program and the version of the protocol.
    Version,
    /// To hold a network that is described.
    Load,
    /// To hold a network without some of its parts.
    Without,
    /// To hold a network no longer.
    Drop,
    /// To compile an intent.
    Compile,
    /// To judge a list.
    Judge,
    /// To trace a packet.
    Trace,
}
