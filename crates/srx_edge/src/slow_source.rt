//! A source that gives one byte at a time.
ghost use Rattle.std.specs.Prelude.{◌≡◌, ◌≤◌, IfOk};
ghost use Rattle.srx_edge.specs.Slow.{source_of};
ghost use Rattle.srx_edge.specs.Sources.{Reads};

use crate::input::{Failed, Source};

/// A source that gives what another one gives, at most one byte a call. It tells what the other one
/// tells, and fails where that one does: over `SureSource` never.
#[derive(Drop)]
pub struct SlowSource<S> {
    source: S,
}

impl<S> SlowSource<S> {
    /// Slows a source.
    pub fn new(source: S) -> SlowSource<S>
        ensures { source_of result ≡ source }
    {
        SlowSource { source }
    }
}

impl<S: Source> Source for SlowSource<S> {
    ghost seen = { λ slow. S.seen (source_of slow) };

    fn read(&mut self, into: &mut [u8]) -> Result<usize, Failed>
        ensures reads { Reads into.old into.new result
            (S.seen (source_of self.old)) (S.seen (source_of self.new)) }
        ensures slow { IfOk result (λ count. count ≤ 1) }
    {
        let most = into.len().min(1);
        self.source.read(&mut into[..most])
    }
}
