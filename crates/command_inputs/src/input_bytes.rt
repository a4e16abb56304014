//! The bytes of an input that is a capture.

ghost use Rattle.std.specs.Prelude.{◌≡◌};

use std::alloc::Global;
use std::marker::Model;

/// All bytes of a capture, seen as the list of them.
#[derive(Debug, Drop)]
pub struct InputBytes {
    bytes: Vec<u8>,
}

impl Model for InputBytes {
    ghost use Rattle.std.specs.Prelude.{List, ℕ};

    ghost Value = { List ℕ };

    ghost view = { λ input. input.bytes.items };
}

impl InputBytes {
    /// The input of these bytes.
    pub(crate) fn new(bytes: Vec<u8>) -> InputBytes
        ensures { result ≡ bytes.items }
    {
        InputBytes { bytes }
    }

    /// The bytes, in order.
    pub(crate) fn as_slice(&self) -> &[u8]
        ensures { result.now ≡ self.now }
    {
        self.bytes.as_slice()
    }

    /// Where memory comes from: as the bytes did.
    pub(crate) fn alloc(&self) -> Global {
        *self.bytes.allocator()
    }
}
