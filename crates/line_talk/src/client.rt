//! The one that a program talks with.
ghost use Rattle.std.specs.Prelude.{Option, ◌<◌, length};
ghost use Rattle.line_talk.specs.Talk.{Talk, Hears, Says};

use srx_edge::Failed;

/// What gives bytes and takes bytes, one call after another.
pub trait Client {
    /// What was said so far, where it is told.
    ghost talk: { Self → Option Talk };

    /// Takes the next bytes that the client gives, puts them at the front of the slice, and says
    /// how many they are; 0 is the end.
    fn hear(&mut self, into: &mut [u8]) -> Result<usize, Failed>
        requires { 0 < length into.old }
        ensures { Hears into.new result (talk self.old) (talk self.new) };

    /// Gives the client the first bytes of the piece, at least one, and says how many they are.
    fn say(&mut self, piece: &[u8]) -> Result<usize, Failed>
        requires { 0 < length piece.now }
        ensures { Says piece.now result (talk self.old) (talk self.new) };
}
