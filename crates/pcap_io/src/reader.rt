//! The frames of a capture that is fed in pieces, one by one.

use crate::capture_head::CaptureHead;
use crate::fault::{CutFrame, FrameLimit, TakeFault};
use crate::frame::{Frame, captured_len, first_body};
use crate::lent::{LentFrame, lent_body};
use crate::numbers::MAX_FRAMES;
use base::NoMemory;
use std::alloc::Global;
use std::marker::Model;

/// Takes the frames of a capture one by one, whose bytes after the head are fed in pieces; the
/// frames don't depend on where they are cut. It is seen as the head, the number of
/// frames taken, and the bytes fed that no frame has taken.
#[derive(Drop)]
pub struct FrameReader {
    alloc: Global,
    head: CaptureHead,
    input: Vec<u8>,
    at: usize,
    taken: u32,
}

impl Model for FrameReader {
    ghost use Rattle.std.specs.Prelude.{◌≤◌, length, drop};
    ghost use Rattle.pcap_io.specs.CaptureTerms.{Reader};
    ghost use Rattle.pcap_io.specs.declared.numbers.TheConstants.{MAX_FRAMES};

    ghost Value = { Reader };

    ghost view = { λ r. record { head = r.head; taken = r.taken; rest = drop r.at r.input.items } };

    ghost invariant = { λ r. (r.at ≤ length r.input.items) × (r.taken ≤ MAX_FRAMES) };
}

impl FrameReader {
    ghost use Rattle.std.specs.Prelude.{◌≡◌, ◌+◌, ◌<◌, ◌≤◌, length, MatchResult, OnErr, OnOk};
    ghost use Rattle.pcap_io.specs.CaptureTerms.{HasFrame, IsDone, Takes, after_frame};
    ghost use Rattle.pcap_io.specs.FedPieces.{Peeks, fed, fresh_reader};

    /// A reader that was fed nothing of what follows the 24 bytes of a capture's head.
    pub fn new(alloc: Global, head: CaptureHead) -> FrameReader
        ensures { result ≡ fresh_reader head }
    {
        FrameReader {
            alloc,
            head,
            input: Vec::new(alloc),
            at: 0,
            taken: 0,
        }
    }

    /// Lets go of the bytes that frames have taken, where they are more than those left: so each
    /// byte is moved once at most, on the average.
    fn let_go(&mut self)
        ensures { self.new ≡ self.old }
    {
        let at = self.at;
        if at > self.input.len() - at {
            self.input.drain(..at);
            self.at = 0;
        }
    }

    /// Feeds the bytes that follow those fed so far. After want of memory the reader is as it was.
    pub fn feed(&mut self, piece: &[u8]) -> Result<(), NoMemory>
        ensures ok { OnOk result (self.new ≡ fed self.old piece.now) }
        ensures err { OnErr result (self.new ≡ self.old) }
    {
        self.let_go();
        self.input.extend_from_slice(piece)?;
        Ok(())
    }

    /// The next frame, lent; its number is the number of frames taken before and 1. `FrameLimit`
    /// comes exactly where 65,536 frames were taken and a further byte is there; else `None` comes
    /// exactly where the bytes fed hold no further whole frame.
    #[tactic(auto, unfolding(crate::specs::Frames::frame_len))]
    pub fn peek(&self) -> Result<Option<LentFrame<'_>>, FrameLimit>
        ensures { Peeks self.now result }
    {
        let rest = self.input.as_slice().split_at(self.at).1;
        if self.taken == MAX_FRAMES {
            if rest.is_empty() {
                return Ok(None);
            }
            return Err(FrameLimit);
        }
        let Some(len) = captured_len(self.head.little, rest) else {
            return Ok(None);
        };
        let body = lent_body(self.head.little, self.head.link, rest, len);
        Ok(Some(LentFrame::new(self.taken + 1, body)))
    }

    /// Takes the next frame, which `peek` lends.
    #[tactic(auto, unfolding(crate::specs::Frames::frame_len))]
    pub fn pass(&mut self)
        requires { HasFrame self.old }
        ensures { self.new ≡ after_frame self.old }
    {
        let rest = self.input.as_slice().split_at(self.at).1;
        if let Some(len) = captured_len(self.head.little, rest) {
            self.at += len + 16;
            self.taken += 1;
        }
    }

    /// The next frame, which is taken; as `peek` has it. Where no frame is given, the reader stays
    /// as it was.
    #[tactic(auto, unfolding(crate::specs::Frames::frame_len))]
    pub fn take(&mut self) -> Result<Option<Frame>, TakeFault>
        ensures { Takes self.old self.new result }
    {
        let rest = self.input.as_slice().split_at(self.at).1;
        if self.taken == MAX_FRAMES {
            if rest.is_empty() {
                return Ok(None);
            }
            return Err(TakeFault::FrameLimit);
        }
        let Some(len) = captured_len(self.head.little, rest) else {
            return Ok(None);
        };
        let body = first_body(self.alloc, self.head.little, self.head.link, rest, len)?;
        self.at += len + 16;
        self.taken += 1;
        Ok(Some(Frame {
            number: self.taken,
            body,
        }))
    }

    /// That no byte is left over, where `take` would give `None`. `CutFrame` comes exactly where a
    /// byte is left over, with the number of the frame that is cut.
    pub fn finish(&self) -> Result<(), CutFrame>
        requires { IsDone self.now }
        ensures { MatchResult result (λ _. length self.now.rest ≡ 0)
            (λ e. (0 < length self.now.rest) × (e.number ≡ self.now.taken + 1)) }
    {
        if self.at == self.input.len() {
            Ok(())
        } else {
            Err(CutFrame {
                number: self.taken + 1,
            })
        }
    }
}
