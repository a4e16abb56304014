//! What answers lines.
ghost use Rattle.std.specs.Prelude.{◌≡◌, ◌≤◌, ℕ, List, length, IfOk};
ghost use Rattle.line_talk.specs.EngineAnswers.{Answers};
ghost use Rattle.line_talk.specs.Replies.{Rules};

use base::NoMemory;
use std::alloc::Global;

/// The most bytes of a line that is read: 64 MiB. A longer one is answered as too big.
pub const MAX_LINE: usize = 67_108_864;

/// What answers lines, one after another. What it answers may go by the lines before.
pub trait Engine {
    /// What replies go by.
    ghost State: { Type 0 };

    /// The state as it is.
    ghost seen: { Self → State };

    /// Which replies a line may have in each state, and which states they may leave.
    ghost rules: { Rules State };

    /// The reply to a line, without a line feed. Want of memory is a reply of its own where there
    /// is memory for that one; NoMemory is answered where there is none even for it, and leaves
    /// what the rules spare.
    fn answer(&mut self, alloc: Global, line: &[u8]) -> Result<Vec<u8>, NoMemory>
        requires { length line.now ≤ MAX_LINE }
        ensures { Answers rules (seen self.old) line.now result (seen self.new) };

    /// The reply to a line of more than `MAX_LINE` bytes, without a line feed.
    fn too_big(&self, alloc: Global) -> Result<Vec<u8>, NoMemory>
        ensures { IfOk result (λ text. rules.IsTooBig text.items) };
}
