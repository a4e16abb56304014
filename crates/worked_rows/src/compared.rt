//! What a row gives, beside what must come.

use crate::row::{Row, row_of, text_of};
use crate::served::served;
use crate::trouble::Trouble;
use srv6_cli::Status;
use srx_edge::Files;
use std::alloc::Global;

/// What of a row is another than what must come.
#[derive(Clone, Copy)]
pub(crate) struct Difference {
    /// The bytes on `out`.
    pub(crate) out: bool,
    /// The bytes on `err`.
    pub(crate) err: bool,
    /// The status.
    pub(crate) status: bool,
}

impl Difference {
    /// Whether nothing differs.
    pub(crate) fn is_none(&self) -> bool {
        !self.out && !self.err && !self.status
    }
}

/// Whether a text is a status's number, with or without the end of a line after it.
fn is_number_of(text: &str, status: Status) -> bool {
    match text.trim_end().parse::<u8>() {
        Ok(number) => number == status as u8,
        Err(_) => false,
    }
}

/// Runs a row over memory, and compares what comes with what must come.
fn run(alloc: Global, row: Row) -> Result<Difference, Trouble> {
    let mut row = row;
    let came = served(
        alloc,
        row.words.as_slice(),
        &mut row.files,
        row.input.as_slice(),
    )?;
    let wanted = text_of(row.status.as_slice(), "status")?;
    Ok(Difference {
        out: came.out.held() != row.out.as_slice(),
        err: came.err.held() != row.err.as_slice(),
        status: !is_number_of(wanted, came.status),
    })
}

/// Runs the row of a name, and compares what comes with what must come.
pub(crate) fn compare<F: Files>(
    alloc: Global,
    files: &mut F,
    name: &str,
) -> Result<Difference, Trouble> {
    run(alloc, row_of(alloc, files, name)?)
}
