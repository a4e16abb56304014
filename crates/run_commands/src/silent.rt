//! The other sink of commands that write `out` alone.

ghost use Rattle.run_commands.specs.Silent.{silent_seen};

use srx_edge::{Sink, SinkFault};

/// A sink that takes all bytes and tells of none; what is written for `out` alone never comes to
/// it.
#[derive(Clone, Copy, Debug, Drop)]
pub struct Silent;

impl Sink for Silent {
    ghost seen = { λ _. silent_seen };

    fn write(&mut self, piece: &[u8]) -> Result<usize, SinkFault> {
        Ok(piece.len())
    }
}
