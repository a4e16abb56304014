//! Why a packet is not read.

use std::fmt;

/// Why the packet of a frame is not read.
#[derive(Clone, Copy, Debug)]
pub enum Unread {
    /// Bytes of the frame were left out of the capture.
    ShortFrame,
    /// It holds no IP packet.
    NotIp,
    /// It holds a packet of another family than the intent's.
    WrongVersion,
}

/// The cause's name.
impl fmt::Display for Unread {
    ghost use Rattle.std.specs.Prelude.{Some};
    ghost use Rattle.command_output.specs.OutputLines.{unread_name};

    ghost output = { λ unread. Some (unread_name unread) };

    #[tactic(auto, unfolding(crate::specs::OutputLines::unread_name))]
    fn fmt<W: fmt::Write>(&self, f: &mut fmt::Formatter<W>) -> fmt::Result {
        f.write_str(match self {
            Unread::ShortFrame => "ShortFrame",
            Unread::NotIp => "NotIp",
            Unread::WrongVersion => "WrongVersion",
        })
    }
}
