//! How a call of `serve` ended.

/// How a call of `serve` ended; its number is the program's exit status.
#[derive(Clone, Copy, Debug, PartialEq, Eq)]
pub enum Status {
    /// The command's output was written whole, and what it reads from the input was read to its
    /// end.
    Done = 0,
    /// A file, the input, a node's name, a certificate or a trace is outside its grammar or limit;
    /// a network isn't flat for `compile`, `check`, `walk`, `update` or `gen N sum`; or for
    /// `update` there is no plan.
    Refused = 1,
    /// The words are no command.
    Usage = 2,
    /// No list for `compile`, `walk`, `update` or `gen N sum`, or one outside the intent's limits.
    NoAnswer = 3,
    /// `check` finds a bad line, or `replay` a wrong one.
    SaysNo = 4,
    /// A fault of the files, the input or a sink.
    OutsideFault = 5,
    /// Want of memory.
    NoMemory = 6,
}
