//! Files in memory whose reads fail where they are told to.
ghost use Rattle.std.specs.Prelude.{◌≡◌, ◌↔◌, ◌++◌, ◌∷◌, [], false, None, IfOk, OnOk, OnErr, IsTrue, IsSome};
ghost use Rattle.std.specs.Option.{option_map};
ghost use Rattle.srx_edge.specs.Edge.{file_named};
ghost use Rattle.srx_edge.specs.FilesFake.{Answers, Leaves, after_read, files_seen};

use crate::file_access::{FileFault, Files};
use base::{NoMemory, Seq};
use std::alloc::Global;
use std::marker::Model;

/// A name with the bytes of its file.
#[derive(Drop)]
struct Held {
    name: Seq<u8>,
    bytes: Seq<u8>,
}

impl Model for Held {
    ghost use Rattle.std.specs.Prelude.{List, ℕ};

    ghost Value = { List ℕ × List ℕ };

    ghost view = { λ h. (h.name, h.bytes) };
}

/// Files in memory. The reads of the given numbers fail, counted from 1 among those that don't
/// answer NoMemory, and so does each read of a name that isn't held.
#[derive(Drop)]
pub struct MemFiles {
    alloc: Global,
    files: Vec<Held>,
    asked: Vec<Seq<u8>>,
    fails: Vec<u64>,
    faults: u64,
    stopped: bool,
}

impl Model for MemFiles {
    ghost use Rattle.srx_edge.specs.Fakes.{FilesState};

    ghost Value = { FilesState };

    ghost view = { λ f. record {
      files = f.files.items;
      asked = f.asked.items;
      fails = f.fails.items;
      faults = f.faults;
      stopped = f.stopped;
    } };
}

/// The bytes of the file of this name.
fn find<'a>(files: &'a [Held], name: &str) -> Option<&'a [u8]>
    ensures { option_map (λ bytes. bytes.now) result ≡ file_named files.now name.now }
{
    for file in files {
        if file.name.as_slice() == name.as_bytes() {
            return Some(file.bytes.as_slice());
        }
    }
    None
}

impl MemFiles {
    /// No file is held, and no name was asked for. `fails` has the numbers of the reads that fail,
    /// counted from 1.
    pub fn new(alloc: Global, fails: &[u64]) -> Result<MemFiles, NoMemory>
        ensures { IfOk result (λ files. files
            ≡ record {
              files = [];
              asked = [];
              fails = fails.now;
              faults = 0;
              stopped = false;
            }) }
    {
        Ok(MemFiles {
            alloc,
            files: Vec::new(alloc),
            asked: Vec::new(alloc),
            fails: Vec::from_slice(alloc, fails)?,
            faults: 0,
            stopped: false,
        })
    }

    /// Whether a file of this name is held.
    pub fn holds(&self, name: &str) -> bool
        ensures { IsTrue result ↔ IsSome (file_named self.now.files name.now) }
    {
        find(&self.files, name).is_some()
    }

    /// Adds a file, of a name that isn't held.
    pub fn hold(&mut self, name: &str, bytes: &[u8]) -> Result<(), NoMemory>
        requires { file_named self.old.files name.now ≡ None }
        ensures ok { OnOk result (self.new
            ≡ record self.old { files = self.old.files ++ (name.now, bytes.now) ∷ [] }) }
        ensures err { OnErr result (self.new ≡ self.old) }
    {
        let held = Held {
            name: Seq::new(Vec::from_slice(self.alloc, name.as_bytes())?),
            bytes: Seq::new(Vec::from_slice(self.alloc, bytes)?),
        };
        self.files.push(held)?;
        Ok(())
    }

    /// The answer to a read, before it is counted.
    fn answer(&self, alloc: Global, name: &str, limit: usize) -> Result<Vec<u8>, FileFault>
        ensures { Answers name.now limit result self.now }
    {
        let number = self.asked.len() as u64 + 1;
        if self.fails.contains(&number) {
            return Err(FileFault::Failed);
        }
        match find(&self.files, name) {
            None => Err(FileFault::Failed),
            Some(bytes) if bytes.len() > limit => Err(FileFault::TooBig { limit }),
            Some(bytes) => Vec::from_slice(alloc, bytes).map_err(|_| FileFault::NoMemory),
        }
    }

    /// Counts a read of this name.
    fn ask(&mut self, name: &str) -> Result<(), NoMemory>
        ensures ok { OnOk result (self.new ≡ after_read name.now self.old) }
        ensures err { OnErr result (self.new ≡ self.old) }
    {
        let asked = Seq::new(Vec::from_slice(self.alloc, name.as_bytes())?);
        self.asked.push(asked)?;
        self.stopped = false;
        Ok(())
    }
}

impl Files for MemFiles {
    ghost seen = { files_seen };

    fn read(&mut self, alloc: Global, name: &str, limit: usize) -> Result<Vec<u8>, FileFault>
        ensures answers { Answers name.now limit result self.old }
        ensures leaves { Leaves name.now result self.old self.new }
    {
        let answer = self.answer(alloc, name, limit);
        if let Err(FileFault::NoMemory) = answer {
            return Err(FileFault::NoMemory);
        }
        if self.ask(name).is_err() {
            return Err(FileFault::NoMemory);
        }
        if let Err(FileFault::Failed) = answer {
            self.faults = self.faults.saturating_add(1);
            self.stopped = true;
        }
        answer
    }
}
