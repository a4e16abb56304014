//! Classic captures in and out (the file format that libpcap calls savefile).
//!
//! `read_head` reads the 24 bytes of the head, `FrameReader` is fed what follows in pieces and
//! lends or takes its frames one by one, and `CapturePieces` feeds it a capture that stands in
//! memory whole. `write_head` and `write_frame` write one. The laws about the definitions are the
//! contracts of empty functions.
#![tactic(auto)]

mod capture_head;
mod fault;
mod frame;
mod laws;
mod lent;
mod numbers;
mod pieces;
mod reader;
mod write;

pub use capture_head::{CaptureHead, LinkType, link_of, read_head};
pub use fault::{CaptureFault, CutFrame, FrameLimit, TakeFault};
pub use frame::{Body, Frame, packet_in};
pub use laws::{
    captures_have_their_figures, frames_are_spelled, frames_do_not_depend_on_pieces,
    heads_are_spelled, no_frame_is_spelled_there, spelled_frames_are_read, spelled_heads_are_read,
    written_captures_are_read,
};
pub use lent::{LentBody, LentFrame};
pub use numbers::{HEAD_LEN, MAX_FRAMES, SNAPLEN, four_at, two_at};
pub use pieces::{CaptureEnd, CapturePieces, FrameNext};
pub use reader::FrameReader;
pub use write::{write_frame, write_head};
