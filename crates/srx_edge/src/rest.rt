//! What is left of bytes in memory.
ghost use Rattle.std.specs.Prelude.{◌≡◌, ◌++◌, take, drop, length, min, IfOk};

use std::alloc::{AllocError, Global};
use std::marker::Model;

/// What is left of bytes in memory.
#[derive(Drop)]
pub struct Rest {
    bytes: Vec<u8>,
    at: usize,
}

impl Model for Rest {
    ghost use Rattle.std.specs.Prelude.{List, ℕ, drop, ◌≤◌, vec_len};

    ghost Value = { List ℕ };

    ghost view = { λ r. drop r.at r.bytes.items };

    ghost invariant = { λ r. r.at ≤ vec_len r.bytes };
}

impl Rest {
    /// All the bytes are left.
    pub fn new(alloc: Global, bytes: &[u8]) -> Result<Rest, AllocError>
        ensures { IfOk result (λ rest. rest ≡ bytes.now) }
    {
        Ok(Rest {
            bytes: Vec::from_slice(alloc, bytes)?,
            at: 0,
        })
    }

    /// Takes as many bytes as there are and fit, and says how many they are.
    pub fn take_into(&mut self, into: &mut [u8]) -> usize
        ensures count { result ≡ min (length into.old) (length self.old) }
        ensures filled { into.new ≡ take result self.old ++ drop result into.old }
        ensures rest { self.new ≡ drop result self.old }
    {
        let left = &self.bytes[self.at..];
        let count = into.len().min(left.len());
        into[..count].copy_from_slice(&left[..count]);
        self.at += count;
        count
    }
}
