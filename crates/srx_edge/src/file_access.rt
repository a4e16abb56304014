//! Files that are read whole, by name.
ghost use Rattle.srx_edge.specs.FilesRead.{FilesSeen, ReadsFile};

use std::alloc::Global;

/// Why a file was not read.
#[derive(Clone, Copy, Debug, PartialEq, Eq)]
pub enum FileFault {
    /// The read failed; a file that is missing is a failure too.
    Failed,
    /// The file has more than `limit` bytes.
    TooBig {
        /// The limit, in bytes.
        limit: usize,
    },
    /// Want of memory.
    NoMemory,
}

/// Files that are read whole, by name.
pub trait Files {
    /// What is seen of them: the files and the names asked for, where they are told, the faults,
    /// and whether they are stopped.
    ghost seen: { Self → FilesSeen };

    /// The bytes of the file of this name, at most `limit` of them. Where files are told, TooBig
    /// comes exactly where the file has more and the answer isn't another fault. Failed comes only
    /// where the count of faults rose, by one; it stops the files until a read passes. A call that
    /// answers NoMemory isn't counted among those that asked, and changes nothing.
    fn read(&mut self, alloc: Global, name: &str, limit: usize) -> Result<Vec<u8>, FileFault>
        ensures { ReadsFile name.now limit result (seen self.old) (seen self.new) };
}
