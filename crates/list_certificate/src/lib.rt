//! Certificates for least lists of SIDs, over any legs.
//!
//! A certificate lists states with their potentials and a path from the start to the end, or says
//! that there is none. `check` tests it against legs, without memory: a potential falls along no
//! edge by more than the edge costs, no edge leads from a state that is not listed to a listed one
//! or to the end, and the path goes along edges and costs the start's potential. What passes shows
//! the least cost of a path, wherever the certificate comes from. `print` spells the certificate of
//! a solution, and `read` reads a text for the legs of a network. A text has one of two forms, by
//! whether SIDs cost something by the legs.
//!
//! `specs/Certs.antt` has what lines say of states, `specs/Verdicts.antt` the tests and verdicts in
//! their order, `specs/CertificateLaws.antt` what a verdict shows, `specs/Spelling.antt` the text of a
//! solution, and `specs/CertificateReading.antt` what a text says, line by line. The functions of `laws` do
//! nothing: their contracts are the laws of verdicts, and that what is printed is read back.
#![tactic(auto)]

mod all_pass;
mod certificate_judge;
mod certificate_types;
mod draft;
mod firsts;
mod good;
mod item;
mod laws;
mod line_words;
mod path_lines;
mod potential_cells;
mod reader;
mod search;
mod spelling;

pub use certificate_judge::check;
pub use certificate_types::{Cert, CertFault, PathLine, PotentialLine, Verdict, Why};
pub use laws::{
    a_certificate_has_one_verdict, a_certificate_that_is_least_is_least, a_solution_is_good,
    what_is_printed_is_read_back,
};
pub use reader::read;
pub use spelling::{append_state, print};
