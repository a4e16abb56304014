//! A packet's bytes with spare room in front of them.

ghost use Rattle.std.specs.Prelude.{◌≡◌, ◌+◌, ◌-◌, ◌<◌, ◌≤◌, ◌++◌, [], length, max, take, drop, replicate, slice_set, IfOk, OnOk, OnErr};

use base::NoMemory;
use srv6_rules::numbers::MAX_PACKET_LEN;
use std::alloc::Global;
use std::marker::Model;

/// A packet's bytes with spare bytes in front of them, so that a header in front of the packet
/// takes no memory.
#[derive(Debug, Drop)]
pub struct PktBuf {
    held: Vec<u8>,
    front: usize,
}

impl Model for PktBuf {
    ghost use Rattle.std.specs.Prelude.{◌≤◌, drop, vec_len};
    ghost use Rattle.pkt_buf.specs.BufferView.{Buffer};

    ghost Value = { Buffer };

    ghost view = { λ b. record { bytes = drop b.front b.held.items; front = b.front } };

    ghost invariant = { λ b. b.front ≤ vec_len b.held };
}

impl PktBuf {
    ghost use Rattle.std.specs.Borrow.{sem};
    ghost use Rattle.pkt_buf.specs.BufferLending.{LendsBytes};

    /// Bytes with so many spare ones in front.
    pub fn new(alloc: Global, front: usize, bytes: &[u8]) -> Result<PktBuf, NoMemory>
        requires { length bytes.now ≤ MAX_PACKET_LEN }
        ensures { IfOk result (λ b. b ≡ record { bytes = bytes.now; front = front }) }
    {
        let mut held = Vec::new(alloc);
        held.resize(front, 0)?;
        held.extend_from_slice(bytes)?;
        Ok(PktBuf { held, front })
    }

    /// Bytes with none spare in front, in place; takes no memory.
    pub fn of(bytes: Vec<u8>) -> PktBuf
        ensures { result ≡ record { bytes = bytes.items; front = 0 } }
    {
        PktBuf {
            held: bytes,
            front: 0,
        }
    }

    /// No bytes, of this buffer's allocator; takes no memory.
    pub fn no_bytes(&self) -> PktBuf
        ensures { result ≡ record { bytes = []; front = 0 } }
    {
        PktBuf::of(Vec::new(*self.held.allocator()))
    }

    /// The packet's bytes.
    pub fn view(&self) -> &[u8]
        ensures { result.now ≡ self.now.bytes }
    {
        self.held.as_slice().split_at(self.front).1
    }

    /// The packet's bytes, to be changed in their places.
    pub fn view_mut(&mut self) -> &mut [u8]
        ensures* writes_back { sem 𝓛 (LendsBytes self.entry result) }
        ensures value { result.now ≡ self.old.bytes }
    {
        self.held.slice_mut(self.front..)
    }

    /// How many the packet's bytes are.
    pub fn len(&self) -> usize
        ensures { result ≡ length self.now.bytes }
    {
        self.view().len()
    }

    /// Writes the packet's byte at a place, counted from 0.
    pub fn set(&mut self, at: usize, byte: u8)
        requires { at < length self.old.bytes }
        ensures { self.new ≡ record {
          bytes = slice_set self.old.bytes at byte;
          front = self.old.front;
        } }
    {
        self.held[self.front + at] = byte;
    }

    /// How many bytes are spare in front.
    pub fn front(&self) -> usize
        ensures { result ≡ self.now.front }
    {
        self.front
    }

    /// Puts so many bytes of 0 in front of the packet's, in place of spare ones.
    pub fn open_front(&mut self, n: usize)
        requires { n ≤ self.old.front }
        ensures { self.new ≡ record {
          bytes = replicate n 0 ++ self.old.bytes;
          front = self.old.front - n;
        } }
    {
        let front = self.front - n;
        self.held[front..self.front].fill(0);
        self.front = front;
    }

    /// Puts bytes in front of the packet's, in place of as many spare ones.
    pub fn put_front(&mut self, bytes: &[u8])
        requires { length bytes.now ≤ self.old.front }
        ensures { self.new ≡ record {
          bytes = bytes.now ++ self.old.bytes;
          front = self.old.front - length bytes.now;
        } }
    {
        let front = self.front - bytes.len();
        self.held[front..self.front].copy_from_slice(bytes);
        self.front = front;
    }

    /// Gives at least so many spare bytes in front, and no more where fewer are spare; the packet's
    /// bytes stay. Where as many are spare nothing changes and no memory is taken. With want of
    /// memory nothing changes either.
    pub fn reserve_front(&mut self, n: usize) -> Result<(), NoMemory>
        ensures room { OnOk result (n ≤ self.new.front) }
        ensures front { OnOk result (self.new.front ≡ max n self.old.front) }
        ensures bytes { self.new.bytes ≡ self.old.bytes }
        ensures enough { n ≤ self.old.front → self.new ≡ self.old }
        ensures err { OnErr result (self.new ≡ self.old) }
        ensures want { OnErr result (self.old.front < n) }
    {
        if n <= self.front {
            return Ok(());
        }
        let mut held = Vec::new(*self.held.allocator());
        held.resize(n, 0)?;
        held.extend_from_slice(self.held.as_slice().split_at(self.front).1)?;
        self.held = held;
        self.front = n;
        Ok(())
    }

    /// Takes n bytes from a place on out of the packet's; the spare ones stay.
    pub fn cut(&mut self, at: usize, n: usize)
        requires { at + n ≤ length self.old.bytes }
        ensures { self.new ≡ record {
          bytes = take at self.old.bytes ++ drop (at + n) self.old.bytes;
          front = self.old.front;
        } }
    {
        let start = self.front + at;
        self.held.drain(start..start + n);
    }

    /// Takes the packet's first n bytes out, which become spare.
    pub fn drop_front(&mut self, n: usize)
        requires { n ≤ length self.old.bytes }
        ensures { self.new ≡ record {
          bytes = drop n self.old.bytes;
          front = self.old.front + n;
        } }
    {
        self.front += n;
    }

    /// Keeps the packet's first bytes, as many as a length; the spare ones stay.
    pub fn truncate(&mut self, len: usize)
        requires { len ≤ length self.old.bytes }
        ensures { self.new ≡ record {
          bytes = take len self.old.bytes;
          front = self.old.front;
        } }
    {
        self.held.truncate(self.front + len);
    }
}
