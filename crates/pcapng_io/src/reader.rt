//! The frames of a pcapng file, one by one.

use crate::cursor::{NgCursor, next_frame};
use crate::fault::{NgCut, NgFault};
use crate::ng_block::Interface;
use base::NoMemory;
use pcap_io::Frame;
use std::alloc::Global;
use std::marker::Model;

/// Takes the frames of a pcapng file one by one, which is fed in pieces. It is seen as
/// the number of bytes fed, those of them that no block has taken, what the blocks before say to
/// those after (byte order and interfaces of the section, numbers of blocks and packets), and the
/// fault that was met. A file begins with a section; a block before one is read with the highest
/// byte first.
#[derive(Drop)]
pub struct NgReader {
    alloc: Global,
    gone: usize,
    input: Vec<u8>,
    described: Vec<Interface>,
    cursor: NgCursor,
    fault: Option<NgFault>,
}

impl Model for NgReader {
    ghost use Rattle.std.specs.Prelude.{◌≤◌, ◌+◌, ◌*◌, length, drop};
    ghost use Rattle.pcapng_io.specs.Taking.{NgSeen};
    ghost use Rattle.pcapng_io.specs.Passing.{place_of, Lies};
    ghost use Rattle.pcapng_io.specs.declared.numbers.TheConstants.{MAX_INPUT};

    ghost Value = { NgSeen };

    ghost view = { λ r. record {
      fed = r.gone + length r.input.items;
      rest = drop r.cursor.at r.input.items;
      place = place_of r.cursor r.described.items;
      fault = r.fault;
    } };

    ghost invariant = { λ r. Lies r.cursor r.described.items r.input.items
        × (12 * r.cursor.blocks ≤ r.gone + r.cursor.at) × (r.gone + length r.input.items ≤ MAX_INPUT) };
}

impl NgReader {
    ghost use Rattle.std.specs.Prelude.{◌≡◌, ◌+◌, ◌<◌, ◌≤◌, length, IfOk, OnOk, OnErr, MatchResult};
    ghost use Rattle.pcap_io.specs.declared.numbers.TheConstants.{MAX_FRAMES};
    ghost use Rattle.pcapng_io.specs.declared.numbers.TheConstants.{MAX_INPUT};
    ghost use Rattle.pcapng_io.specs.Taking.{fresh, after_feed, Takes, IsDone};

    /// A reader that was fed nothing.
    pub fn new(alloc: Global) -> NgReader
        ensures { result ≡ fresh }
    {
        NgReader {
            alloc,
            gone: 0,
            input: Vec::new(alloc),
            described: Vec::new(alloc),
            cursor: NgCursor {
                at: 0,
                little: false,
                first: 0,
                blocks: 0,
                packets: 0,
            },
            fault: None,
        }
    }

    /// Lets go of the bytes that blocks have taken, where they are more than those left: so each
    /// byte is moved once at most, on the average.
    fn let_go(&mut self)
        ensures { self.new ≡ self.old }
    {
        let at = self.cursor.at;
        if at > self.input.len() - at {
            self.input.drain(..at);
            self.gone += at;
            self.cursor.at = 0;
        }
    }

    /// Feeds the bytes that follow those fed so far. After want of memory the reader is as it was.
    pub fn feed(&mut self, piece: &[u8]) -> Result<(), NoMemory>
        requires { self.old.fed + length piece.now ≤ MAX_INPUT }
        ensures ok { OnOk result (self.new ≡ after_feed self.old piece.now) }
        ensures err { OnErr result (self.new ≡ self.old) }
    {
        self.let_go();
        self.input.extend_from_slice(piece)?;
        Ok(())
    }

    /// The next frame; its number is the number of frames taken before and 1. `None` comes exactly
    /// where the bytes fed hold no further whole packet block and no fault; whole blocks before are
    /// skipped. A fault comes exactly where the first block that is faulty follows, with its
    /// number, and again from each call after. Whatever is fed later, the frames and faults are
    /// those of all bytes at once. After want of memory the reader is as it was.
    pub fn take(&mut self) -> Result<Option<Frame>, NgFault>
        ensures takes { Takes self.old self.new result }
        ensures fed { self.new.fed ≡ self.old.fed }
        ensures few { self.new.place.packets ≤ MAX_FRAMES }
    {
        if let Some(fault) = self.fault {
            return Err(fault);
        }
        let described = self.described.len();
        let mut cursor = self.cursor;
        let taken = next_frame(
            self.alloc,
            &mut cursor,
            &mut self.described,
            self.input.as_slice(),
        );
        match taken {
            Ok(frame) => {
                self.cursor = cursor;
                Ok(frame)
            }
            Err(fault) => {
                if fault.is_want() {
                    self.described.truncate(described);
                    return Err(fault);
                }
                self.cursor = cursor;
                self.fault = Some(fault);
                Err(fault)
            }
        }
    }

    /// That no byte is left over, where `take` gave `None`. `NgCut` comes exactly where a byte is
    /// left over, with the number of the block that is cut.
    pub fn finish(&self) -> Result<(), NgCut>
        requires { IsDone self.now }
        ensures { MatchResult result (λ _. length self.now.rest ≡ 0)
            (λ e. (0 < length self.now.rest) × (e.block ≡ self.now.place.blocks + 1)) }
    {
        if self.cursor.at == self.input.len() {
            Ok(())
        } else {
            Err(NgCut {
                block: self.cursor.blocks + 1,
            })
        }
    }
}
