//! The line that is read.
ghost use Rattle.std.specs.Prelude.{◌≡◌, ◌↔◌, ◌++◌, ℕ, List, [], OnOk, IsTrue};
ghost use Rattle.line_talk.specs.TalkTerms.{Keeps, RepliesOr};

use crate::buffer::empty;
use crate::engine::{Engine, MAX_LINE};
use base::NoMemory;
use std::alloc::Global;
use std::marker::Model;

/// A line as far as it came: its bytes, or nothing once they are more than `MAX_LINE`.
#[derive(Drop)]
pub(crate) struct Line {
    kept: Option<Vec<u8>>,
}

impl Model for Line {
    ghost use Rattle.std.specs.Prelude.{ℕ, ◌≤◌, List, Option, option_map, IfSome, vec_len};
    ghost use Rattle.line_talk.specs.declared.engine.TheConstants.{MAX_LINE};

    ghost Value = { Option (List ℕ) };

    ghost view = { λ l. option_map (λ v. v.items) l.kept };

    ghost invariant = { λ l. IfSome l.kept (λ v. vec_len v ≤ MAX_LINE) };
}

impl Line {
    /// Nothing came.
    pub(crate) fn new(alloc: Global) -> Line
        ensures { Keeps [] result }
    {
        Line {
            kept: Some(Vec::new(alloc)),
        }
    }

    /// Adds the bytes that come next.
    pub(crate) fn keep(&mut self, part: &[u8]) -> Result<(), NoMemory>
        ensures { (line : List ℕ) → Keeps line self.old
            → OnOk result (Keeps (line ++ part.now) self.new) }
    {
        let Some(kept) = &mut self.kept else {
            return Ok(());
        };
        if part.len() > MAX_LINE - kept.len() {
            self.kept = None;
            return Ok(());
        }
        if kept.extend_from_slice(part).is_err() {
            return Err(NoMemory);
        }
        Ok(())
    }

    /// Goes on to the next line, of which nothing came.
    pub(crate) fn clear(&mut self, alloc: Global)
        ensures { Keeps [] self.new }
    {
        match &mut self.kept {
            Some(kept) => empty(kept),
            None => self.kept = Some(Vec::new(alloc)),
        }
    }

    /// Whether nothing came.
    pub(crate) fn is_empty(&self) -> bool
        ensures { (line : List ℕ) → Keeps line self.now → IsTrue result ↔ line ≡ [] }
    {
        match &self.kept {
            Some(kept) => kept.is_empty(),
            None => false,
        }
    }

    /// The reply to the line, without a line feed.
    pub(crate) fn reply<E: Engine>(
        &self,
        alloc: Global,
        engine: &mut E,
    ) -> Result<Vec<u8>, NoMemory>
        ensures { (line : List ℕ) → Keeps line self.now
            → RepliesOr E.rules (E.seen engine.old) line result (E.seen engine.new) }
    {
        match &self.kept {
            Some(kept) => engine.answer(alloc, kept.as_slice()),
            None => engine.too_big(alloc),
        }
    }
}
