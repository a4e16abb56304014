//! The frames of a file that stands in memory whole, fed in pieces.

ghost use Rattle.std.specs.Prelude.{◌≡◌};
ghost use Rattle.pcapng_io.specs.Taking.{IsDone};
ghost use Rattle.pcapng_io.specs.NgReading.{end_at};
ghost use Rattle.pcapng_io.specs.NgPieces.{EndsAt};

use crate::end::NgEnd;
use crate::fault::NgFault;
use crate::numbers::PIECE;
use crate::reader::NgReader;
use base::NoMemory;
use pcap_io::Frame;
use std::alloc::Global;
use std::marker::Model;

/// What `NgPieces::next` finds.
#[derive(Debug, Drop)]
pub enum NgNext {
    /// A frame.
    Frame(Frame),
    /// None is left: how the file ends.
    End(NgEnd),
}

/// The end at a fault, but want of memory is none.
fn end_at_fault(fault: NgFault) -> Result<NgNext, NoMemory>
    ensures { EndsAt fault result }
{
    if fault.is_want() {
        Err(NoMemory)
    } else {
        Ok(NgNext::End(NgEnd::Faulty(fault)))
    }
}

/// A reader, and the bytes that it wasn't fed yet.
#[derive(Drop)]
pub(crate) struct Feeding<'a> {
    pub(crate) reader: NgReader,
    pub(crate) more: &'a [u8],
}

/// How a file ends of which all bytes were fed.
fn end_of(reader: &NgReader) -> NgEnd
    requires { IsDone reader.now }
    ensures { result ≡ end_at reader.now.place reader.now.rest }
{
    match reader.finish() {
        Ok(()) => NgEnd::Whole,
        Err(cut) => NgEnd::CutIn(cut.block),
    }
}

impl Feeding<'_> {
    ghost use Rattle.std.specs.Prelude.{◌≡◌, ◌≤◌, ◌<◌, length, OnOk};
    ghost use Rattle.pcapng_io.specs.NgPieces.{Feeds, IsWithin, NextOf, coming_of};

    /// Feeds the next piece.
    fn feed(&mut self) -> Result<(), NoMemory>
        requires { IsWithin self.old }
        ensures fed { OnOk result (Feeds self.old self.new) }
        ensures within { IsWithin self.new }
    {
        let (piece, more) = self.more.split_at(PIECE.min(self.more.len()));
        self.reader.feed(piece)?;
        self.more = more;
        Ok(())
    }

    /// The next frame, for which pieces are fed until it is whole.
    fn next(&mut self) -> Result<NgNext, NoMemory>
        requires { IsWithin self.old }
        ensures next { NextOf (coming_of self.old.reader self.old.more.now) result
            (coming_of self.new.reader self.new.more.now) }
        ensures within { IsWithin self.new }
    {
        'pieces: loop {
            match self.reader.take() {
                Ok(Some(frame)) => return Ok(NgNext::Frame(frame)),
                Ok(None) => {}
                Err(fault) => return end_at_fault(fault),
            }
            if self.more.is_empty() {
                return Ok(NgNext::End(end_of(&self.reader)));
            }
            self.feed()?;
        }
    }
}

/// Gives the frames of a file one by one, whose bytes it feeds to a reader in pieces of 65,536
///. It is seen as the frames that will come, how they end, and how many came.
#[derive(Drop)]
pub struct NgPieces<'a> {
    feeding: Feeding<'a>,
}

impl<'a> Model for NgPieces<'a> {
    ghost use Rattle.pcapng_io.specs.NgPieces.{IsWithin, NgComing, coming_of};

    ghost Value = { NgComing };

    ghost view = { λ p. coming_of p.feeding.reader p.feeding.more.now };

    ghost invariant = { λ p. IsWithin p.feeding };
}

impl<'a> NgPieces<'a> {
    ghost use Rattle.std.specs.Prelude.{◌≡◌, ◌≤◌, length};
    ghost use Rattle.pcapng_io.specs.declared.numbers.TheConstants.{MAX_INPUT};
    ghost use Rattle.pcapng_io.specs.NgPieces.{all_of, NextOf};
    ghost use Rattle.pcapng_io.specs.NgReading.{ng_capture_of};

    /// The frames of all bytes of a file.
    pub fn new(alloc: Global, bytes: &'a [u8]) -> NgPieces<'a>
        requires { length bytes.now ≤ MAX_INPUT }
        ensures { result ≡ all_of (ng_capture_of bytes.now) }
    {
        NgPieces {
            feeding: Feeding {
                reader: NgReader::new(alloc),
                more: bytes,
            },
        }
    }

    /// The next frame; its number is the number of frames given before and 1. The end comes exactly
    /// where no frame is left. After want of memory nothing is said of the frames.
    pub fn next(&mut self) -> Result<NgNext, NoMemory>
        ensures { NextOf self.old result self.new }
    {
        self.feeding.next()
    }
}
