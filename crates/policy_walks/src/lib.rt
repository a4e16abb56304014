//! The walk of a header that a binding SID pushes, up to where the packet below it is exposed.
//!
//! `origin_behind` runs that header as nodes treat it, and gives from where the packet goes on: the
//! headers in front of the packet are a stack of headers round no bytes, since what a header is
//! round makes no difference to what comes of it. What an origin is stands in `binding_spec`;
//! `specs/HeaderWalks.antt` has the code's view of the machine that walks a header alone.
#![tactic(auto)]

mod header_stage;
mod header_walk;
mod top_header;

pub use header_walk::{MOST_STAGES, origin_behind};
