//! Why a row was not run.

use srx_edge::NoMemory;
use std::alloc::{AllocError, AllocFailed};

/// Why a row was not run; the text says which of its files is meant.
#[derive(Debug, Drop)]
pub(crate) enum Trouble {
    /// The file is missing, or a read of it failed.
    Unread(&'static str),
    /// The file's bytes are no UTF-8.
    NotText(&'static str),
    /// A line of the file is none that it may have.
    NotALine(&'static str),
    /// The file has more bytes than a row's file may have.
    TooBig(&'static str),
    /// Want of memory.
    NoMemory,
}

impl From<AllocError> for Trouble {
    fn from(_: AllocError) -> Trouble {
        Trouble::NoMemory
    }
}

impl From<NoMemory> for Trouble {
    fn from(_: NoMemory) -> Trouble {
        Trouble::NoMemory
    }
}

impl<T: Drop> From<AllocFailed<T>> for Trouble {
    fn from(_: AllocFailed<T>) -> Trouble {
        Trouble::NoMemory
    }
}
