//! A grammar of pcapng files (draft-ietf-opsawg-pcapng), apart from how they are read.
//!
//! `specs/NgBlocks.antt` has the blocks and the bytes that spell them, `specs/NgEndings.antt` how bytes
//! end that are no further block, and `specs/NgFiles.antt` whole files: sections, their interfaces and
//! packets, and the frames that come of these. The functions do nothing: their contracts are the laws
//! that join the grammar to the reading of `pcapng_io`, both ways.
#![tactic(auto)]

mod laws;

pub use laws::{
    each_file_is_spelled, files_are_spelled_in_one_way, files_begin_with_a_section,
    refusals_are_those_of_the_grammar, spelled_files_are_read,
};
