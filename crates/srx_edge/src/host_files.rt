//! Files that are opened by name, and those of the system.
ghost use Rattle.std.specs.Prelude.{◌≡◌, false, None};
ghost use Rattle.srx_edge.specs.Host.{host_files_seen, opener_of, Fetched};

use crate::file_access::{FileFault, Files};
use crate::input::{DrawFault, Failed};
use crate::opening::{Opens, read_whole};
use std::alloc::Global;
use std::fs;

/// What opens the files of the system. It tells nothing of them.
#[derive(Drop)]
pub struct HostOpener<'a, R> {
    rt: &'a R,
}

impl<R: fs::Files> Opens for HostOpener<'_, R> {
    type Reader = R::File;

    ghost told = { λ _. None };

    fn open(&self, name: &str) -> Result<R::File, Failed> {
        fs::open(self.rt, name).map_err(|_| Failed)
    }
}

/// Files that are opened by name and read to their end, with a count of the reads that failed. They
/// tell what their opener tells: a file that it tells to be missing is a failure, and of one that
/// is opened all bytes are given.
#[derive(Drop)]
pub struct HostFiles<O> {
    opener: O,
    faults: u64,
    stopped: bool,
}

impl<'a, R> HostFiles<HostOpener<'a, R>> {
    /// The files of the system. No read has failed yet.
    pub fn new(rt: &'a R) -> HostFiles<HostOpener<'a, R>>
        ensures { host_files_seen (λ _. None) result
            ≡ record { told = None; asked = None; faults = 0; stopped = false; sure = false } }
    {
        HostFiles::over(HostOpener { rt })
    }
}

impl<O> HostFiles<O> {
    /// The files that are opened so. No read has failed yet.
    pub fn over(opener: O) -> HostFiles<O>
        ensures opener { opener_of result ≡ opener }
        ensures seen { host_files_seen (λ _. None) result
            ≡ record { told = None; asked = None; faults = 0; stopped = false; sure = false } }
    {
        HostFiles {
            opener,
            faults: 0,
            stopped: false,
        }
    }
}

impl<O: Opens> HostFiles<O> {
    /// The answer to a read, before it is counted: all bytes of the file of this name.
    #[tactic(auto, using(crate::proofs::Known::whole_files))]
    fn fetch(&self, alloc: Global, name: &str, limit: usize) -> Result<Vec<u8>, FileFault>
        ensures { Fetched name.now limit (O.told (opener_of self.now)) result }
    {
        let mut reader = match self.opener.open(name) {
            Ok(reader) => reader,
            Err(Failed) => return Err(FileFault::Failed),
        };
        match read_whole(alloc, &mut reader, limit) {
            Ok(bytes) => Ok(bytes),
            Err(DrawFault::Failed) => Err(FileFault::Failed),
            Err(DrawFault::TooBig { limit }) => Err(FileFault::TooBig { limit }),
            Err(DrawFault::NoMemory) => Err(FileFault::NoMemory),
        }
    }
}

impl<O: Opens> Files for HostFiles<O> {
    ghost seen = { host_files_seen O.told };

    fn read(&mut self, alloc: Global, name: &str, limit: usize) -> Result<Vec<u8>, FileFault> {
        let answer = self.fetch(alloc, name, limit);
        match answer {
            Err(FileFault::Failed) => {
                self.faults = self.faults.saturating_add(1);
                self.stopped = true;
            }
            Err(FileFault::NoMemory) => {}
            Ok(_) | Err(FileFault::TooBig { .. }) => self.stopped = false,
        }
        answer
    }
}
