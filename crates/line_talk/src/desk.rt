//! The line that is read, and the replies that wait to be said.
ghost use Rattle.std.specs.Prelude.{◌≡◌, ◌∷◌, ◌++◌, ◌+◌, ◌<◌, drop, length, ℕ, List, [], OnOk};
ghost use Rattle.line_talk.specs.Lines.{line_unless_empty, whole_lines_from, last_line_from};
ghost use Rattle.line_talk.specs.TalkTerms.{IsLineEnd, Keeps, Steps, Turned};

use crate::client::Client;
use crate::engine::Engine;
use crate::line::Line;
use crate::stop::Stop;
use crate::waiting::Waiting;
use srx_edge::Failed;
use std::alloc::Global;

const LINE_FEED: u8 = 10;

/// How a turn ended.
#[derive(Clone, Copy, Debug, PartialEq, Eq)]
pub(crate) enum Turn {
    /// More may come.
    More,
    /// The client is at its end.
    End,
    /// A read failed.
    ReadFailed,
    /// Not all is answered and said.
    Stopped(Stop),
}

/// The line that is read, and the replies that wait to be said.
#[derive(Drop)]
pub(crate) struct Desk {
    line: Line,
    waiting: Waiting,
}

/// Where the first line ends that ends in these bytes.
fn line_end(bytes: &[u8]) -> Option<usize>
    ensures { IsLineEnd bytes.now result }
{
    bytes.iter().position(|byte| *byte == LINE_FEED)
}

/// What stands behind a place.
fn behind(bytes: &[u8], at: usize) -> &[u8]
    requires { at < length bytes.now }
    ensures { result.now ≡ drop (at + 1) bytes.now }
{
    bytes.split_at(at).1.split_at(1).1
}

impl Desk {
    /// Nothing came, and nothing waits.
    pub(crate) fn new(alloc: Global) -> Desk
        ensures line { Keeps [] result.line }
        ensures waiting { result.waiting ≡ [] }
    {
        Desk {
            line: Line::new(alloc),
            waiting: Waiting::new(alloc),
        }
    }

    /// Answers the line.
    fn answer<E: Engine, C: Client>(
        &mut self,
        alloc: Global,
        engine: &mut E,
        client: &mut C,
    ) -> Result<(), Stop>
        ensures steps { (line : List ℕ) → Keeps line self.old.line
            → Steps E.rules result (line ∷ []) (E.seen engine.old) (E.seen engine.new)
            self.old.waiting self.new.waiting (C.talk client.old) (C.talk client.new) }
        ensures line { OnOk result (Keeps [] self.new.line) }
    {
        let reply = self.line.reply(alloc, engine)?;
        self.waiting.give(reply.as_slice(), client)?;
        self.waiting.give(&[LINE_FEED], client)?;
        self.line.clear(alloc);
        Ok(())
    }

    /// Adds the last bytes of the line, and answers it.
    fn end_line<E: Engine, C: Client>(
        &mut self,
        alloc: Global,
        engine: &mut E,
        part: &[u8],
        client: &mut C,
    ) -> Result<(), Stop>
        ensures steps { (line : List ℕ) → Keeps line self.old.line
            → Steps E.rules result ((line ++ part.now) ∷ []) (E.seen engine.old) (E.seen engine.new)
            self.old.waiting self.new.waiting (C.talk client.old) (C.talk client.new) }
        ensures line { OnOk result (Keeps [] self.new.line) }
    {
        self.line.keep(part)?;
        self.answer(alloc, engine, client)
    }

    /// Takes a piece of the input, and answers the lines that end in it.
    fn feed<E: Engine, C: Client>(
        &mut self,
        alloc: Global,
        engine: &mut E,
        piece: &[u8],
        client: &mut C,
    ) -> Result<(), Stop>
        ensures steps { (line : List ℕ) → Keeps line self.old.line
            → Steps E.rules result (whole_lines_from line piece.now)
            (E.seen engine.old) (E.seen engine.new)
            self.old.waiting self.new.waiting (C.talk client.old) (C.talk client.new) }
        ensures line { (line : List ℕ) → Keeps line self.old.line
            → OnOk result (Keeps (last_line_from line piece.now) self.new.line) }
    {
        let mut rest = piece;
        while let Some(at) = line_end(rest) {
            self.end_line(alloc, engine, rest.split_at(at).0, client)?;
            rest = behind(rest, at);
        }
        self.line.keep(rest)?;
        Ok(())
    }

    /// Takes a piece of the input, answers the lines that end in it, and says all.
    fn answer_piece<E: Engine, C: Client>(
        &mut self,
        alloc: Global,
        engine: &mut E,
        piece: &[u8],
        client: &mut C,
    ) -> Result<(), Stop>
        ensures steps { (line : List ℕ) → Keeps line self.old.line
            → Steps E.rules result (whole_lines_from line piece.now)
            (E.seen engine.old) (E.seen engine.new)
            self.old.waiting self.new.waiting (C.talk client.old) (C.talk client.new) }
        ensures line { (line : List ℕ) → Keeps line self.old.line
            → OnOk result (Keeps (last_line_from line piece.now) self.new.line) }
        ensures all { OnOk result (self.new.waiting ≡ []) }
    {
        self.feed(alloc, engine, piece, client)?;
        self.waiting.pour(client)
    }

    /// Takes what one read gives, answers the lines that end in it, and says all.
    pub(crate) fn take_turn<E: Engine, C: Client>(
        &mut self,
        alloc: Global,
        engine: &mut E,
        room: &mut [u8],
        client: &mut C,
    ) -> Turn
        requires { 0 < length room.old }
        ensures { (line : List ℕ) → Keeps line self.old.line → self.old.waiting ≡ []
            → Turned E.rules result line self.new.line (E.seen engine.old) (E.seen engine.new)
            self.new.waiting (C.talk client.old) (C.talk client.new) }
    {
        match client.hear(room) {
            Ok(0) => Turn::End,
            Ok(count) => match self.answer_piece(alloc, engine, room.split_at(count).0, client) {
                Ok(()) => Turn::More,
                Err(stop) => Turn::Stopped(stop),
            },
            Err(Failed) => Turn::ReadFailed,
        }
    }

    /// Answers what stands behind the last line feed, where that isn't empty.
    fn answer_last<E: Engine, C: Client>(
        &mut self,
        alloc: Global,
        engine: &mut E,
        client: &mut C,
    ) -> Result<(), Stop>
        ensures { (line : List ℕ) → Keeps line self.old.line
            → Steps E.rules result (line_unless_empty line) (E.seen engine.old) (E.seen engine.new)
            self.old.waiting self.new.waiting (C.talk client.old) (C.talk client.new) }
    {
        if self.line.is_empty() {
            return Ok(());
        }
        self.answer(alloc, engine, client)
    }

    /// Answers what stands behind the last line feed, where that isn't empty, and says all.
    pub(crate) fn finish<E: Engine, C: Client>(
        &mut self,
        alloc: Global,
        engine: &mut E,
        client: &mut C,
    ) -> Result<(), Stop>
        ensures steps { (line : List ℕ) → Keeps line self.old.line
            → Steps E.rules result (line_unless_empty line) (E.seen engine.old) (E.seen engine.new)
            self.old.waiting self.new.waiting (C.talk client.old) (C.talk client.new) }
        ensures all { OnOk result (self.new.waiting ≡ []) }
    {
        self.answer_last(alloc, engine, client)?;
        self.waiting.pour(client)
    }
}
