//! An engine that counts lines.
ghost use Rattle.std.specs.Prelude.{◌≡◌, ℕ};
ghost use Rattle.line_talk.specs.Talk.{begun};
ghost use Rattle.line_talk.specs.Talked.{Talked};
ghost use Rattle.line_tests.specs.Counting.{counting};

use base::NoMemory;
use line_talk::{Engine, MemClient, Status, serve_client};
use std::alloc::Global;

/// Counts lines: its reply to a line is the last digit of its number, counted from 1, and `!` to a
/// line that is too big, which isn't counted.
#[derive(Drop)]
pub struct LineCounter {
    pub count: u64,
}

impl Engine for LineCounter {
    ghost use Rattle.std.specs.Prelude.{ℕ};
    ghost use Rattle.line_tests.specs.Counting.{counting};

    ghost State = { ℕ };

    ghost seen = { λ counter. counter.count };

    ghost rules = { counting };

    fn answer(&mut self, alloc: Global, _line: &[u8]) -> Result<Vec<u8>, NoMemory> {
        let count = self.count.saturating_add(1);
        let mut reply = Vec::new(alloc);
        reply.push(b'0' + (count % 10) as u8)?;
        self.count = count;
        Ok(reply)
    }

    fn too_big(&self, alloc: Global) -> Result<Vec<u8>, NoMemory> {
        let mut reply = Vec::new(alloc);
        reply.push(b'!')?;
        Ok(reply)
    }
}

/// Counts the lines of a client in memory, which tells all of the talk.
pub fn count_lines(alloc: Global, counter: &mut LineCounter, client: &mut MemClient) -> Status
    ensures { client.old.talk ≡ begun
        → Talked counting counter.old.count result client.new.talk counter.new.count }
{
    serve_client(alloc, counter, client)
}
