//! Captures in the format pcapng (draft-ietf-opsawg-pcapng), read.
//!
//! `NgReader` takes the frames of a file one by one, over any sections in either byte order and
//! their interfaces. It is fed in pieces, and its answers don't depend on where they are cut. The
//! frames are those of classic captures. `NgPieces` gives those of a file that stands in memory
//! whole.
#![tactic(auto)]

mod cursor;
mod end;
mod fault;
mod laws;
mod ng_block;
mod ng_pieces;
mod numbers;
mod reader;

pub use end::{NgEnd, end_at_start};
pub use fault::{NgCut, NgFault};
pub use laws::{blocks_have_their_figures, frames_do_not_depend_on_pieces, spelled_files_are_read};
pub use ng_pieces::{NgNext, NgPieces};
pub use numbers::MAX_INPUT;
pub use reader::NgReader;
