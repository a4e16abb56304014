//! How a pcapng file ends.

ghost use Rattle.std.specs.Prelude.{◌≡◌};
ghost use Rattle.pcapng_io.specs.NgReading.{end_at_start, start, step};

use crate::fault::NgFault;
use crate::ng_block::block_at;

/// How a file ends. Blocks are numbered from 1 on over all sections.
#[derive(Debug, Clone, Copy, PartialEq, Eq)]
pub enum NgEnd {
    /// With its last block, or before any.
    Whole,
    /// Within the block of a number, of which bytes are missing.
    CutIn(u32),
    /// At the first fault.
    Faulty(NgFault),
}

/// How a file ends whose first block is cut or faulty; `None` where that block is whole. No memory
/// is taken.
#[tactic(auto, unfolding(crate::specs::NgReading::step))]
pub fn end_at_start(bytes: &[u8]) -> Option<NgEnd>
    ensures { result ≡ end_at_start bytes.now }
{
    match block_at(false, &[], bytes) {
        Ok(Some(_)) => None,
        Ok(None) => Some(if bytes.is_empty() {
            NgEnd::Whole
        } else {
            NgEnd::CutIn(1)
        }),
        Err(fault) => Some(NgEnd::Faulty(fault.of_block(1))),
    }
}
