//! What a command has to say at its end.

ghost use Rattle.std.specs.Prelude.{◌≡◌};

use crate::status::Status;

/// Text that the program has, or that it made.
#[derive(Drop)]
pub enum Text {
    /// Text that the program has.
    Fixed(&'static [u8]),
    /// Text that was made.
    Made(String),
    /// Text that was made as bytes.
    Bytes(Vec<u8>),
}

impl Text {
    ghost use Rattle.command_output.specs.OutputLinesTerms.{bytes_of_text};

    /// The text's bytes.
    pub fn as_bytes(&self) -> &[u8]
        ensures { result.now ≡ bytes_of_text self.now }
    {
        match self {
            Text::Fixed(bytes) => bytes,
            Text::Made(text) => text.as_bytes(),
            Text::Bytes(bytes) => bytes.as_slice(),
        }
    }
}

/// What a command has to write of what it judged: a line for `out`, with its line feed, and its
/// status.
#[derive(Drop)]
pub struct Judgement {
    /// The line.
    pub line: Text,
    /// The status.
    pub status: Status,
}

/// What a command has to say at its end: a line for `err`, with its line feed, or nothing, and its
/// status.
#[derive(Drop)]
pub struct Conclusion {
    /// The line.
    pub line: Text,
    /// The status.
    pub status: Status,
}
