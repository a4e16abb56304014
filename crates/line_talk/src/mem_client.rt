//! A client in memory.
ghost use Rattle.std.specs.Prelude.{◌≡◌, ◌<◌, length, min, take};
ghost use Rattle.line_talk.specs.Talk.{begun, Hears, Says};
ghost use Rattle.line_talk.specs.MemTalk.{told, given, BeginsRead, MemHears, MemSays};

use crate::client::Client;
use srx_edge::Failed;
use std::alloc::Global;
use std::marker::Model;

/// How many bytes a client had given and taken when a read came.
#[derive(Clone, Copy, Debug, PartialEq, Eq)]
pub(crate) struct Asked {
    given: usize,
    taken: usize,
}

/// A client in memory, which tells all. It gives the bytes that it is made with, and takes any.
#[derive(Drop)]
pub struct MemClient {
    bytes: Vec<u8>,
    given: usize,
    taken: Vec<u8>,
    asks: Vec<Asked>,
    most: usize,
    passes: u64,
    ended: bool,
    read_failed: bool,
    write_failed: bool,
}

impl Model for MemClient {
    ghost use Rattle.std.specs.Prelude.{◌<◌, ◌≤◌, vec_len};
    ghost use Rattle.line_talk.specs.MemTalk.{MemTalk};
    ghost use Rattle.line_talk.specs.MemAsks.{seen_of, AreWithin};

    ghost Value = { MemTalk };

    ghost view = { λ c. seen_of c.bytes.items c.given c.taken.items c.asks.items c.most c.passes
        c.ended c.read_failed c.write_failed };

    ghost invariant = { λ c. (c.given ≤ vec_len c.bytes) × (0 < c.most) × AreWithin (vec_len c.taken) c.asks.items };
}

impl MemClient {
    /// A client that gives these bytes. A call gives or takes at most `most` of them. So many calls
    /// pass, and those behind them fail; so does a read for which memory is wanting to tell of it,
    /// and a write for which it is wanting to keep the bytes.
    pub fn new(alloc: Global, bytes: Vec<u8>, most: usize, passes: u64) -> MemClient
        requires { 0 < most }
        ensures { result ≡ record { talk = begun; left = bytes.items; most = most; passes = passes } }
    {
        MemClient {
            bytes,
            given: 0,
            taken: Vec::new(alloc),
            asks: Vec::new(alloc),
            most,
            passes,
            ended: false,
            read_failed: false,
            write_failed: false,
        }
    }

    /// The bytes that the client took.
    pub fn taken(&self) -> &[u8]
        ensures { result.now ≡ self.now.talk.said }
    {
        self.taken.as_slice()
    }

    /// Counts a read and keeps what was given and taken before it, where it may pass.
    fn begin_read(&mut self) -> bool
        ensures { BeginsRead result self.old self.new }
    {
        if self.passes == 0 {
            return false;
        }
        self.passes -= 1;
        let asked = Asked {
            given: self.given,
            taken: self.taken.len(),
        };
        self.asks.push(asked).is_ok()
    }

    /// Gives the next bytes, as many as there are, fit and may go at once.
    fn give(&mut self, into: &mut [u8]) -> usize
        ensures count { result ≡ min (min (length into.old) (length self.old.left)) self.old.most }
        ensures filled { take result into.new ≡ take result self.old.left }
        ensures given { self.new ≡ given result self.old }
    {
        let left = self.bytes.split_at(self.given).1;
        let count = into.len().min(left.len()).min(self.most);
        into[..count].copy_from_slice(left.split_at(count).0);
        self.given += count;
        self.ended = count == 0;
        count
    }
}

impl Client for MemClient {
    ghost talk = { told };

    fn hear(&mut self, into: &mut [u8]) -> Result<usize, Failed>
        ensures talk { Hears into.new result (told self.old) (told self.new) }
        ensures hears { MemHears (length into.old) into.new result self.old self.new }
    {
        if self.begin_read() {
            return Ok(self.give(into));
        }
        self.read_failed = true;
        Err(Failed)
    }

    fn say(&mut self, piece: &[u8]) -> Result<usize, Failed>
        requires { 0 < length piece.now }
        ensures talk { Says piece.now result (told self.old) (told self.new) }
        ensures says { MemSays piece.now result self.old self.new }
    {
        if self.passes == 0 {
            self.write_failed = true;
            return Err(Failed);
        }
        self.passes -= 1;
        let count = piece.len().min(self.most);
        if self
            .taken
            .extend_from_slice(piece.split_at(count).0)
            .is_err()
        {
            self.write_failed = true;
            return Err(Failed);
        }
        Ok(count)
    }
}
