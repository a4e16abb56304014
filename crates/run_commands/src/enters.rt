//! What becomes of the packets of frames before their first stages.

ghost use Rattle.std.specs.Prelude.{◌≡◌, IfOk};
ghost use Rattle.pcap_io.specs.declared.frame.Body.{Body as BodyValue};
ghost use Rattle.run_commands.specs.Admission.{Admission, entrant_of, early_end_of};

use base::NoMemory;
use command_output::Unread;
use node_stage::Content;
use pcap_io::LentFrame;
use pkt_buf::PktBuf;
use walk_rules::{Ended, Place};

/// How a frame's packet ends before its first stage.
#[derive(Debug, Drop)]
pub enum EarlyEnd {
    /// It is not read.
    NotRead(Unread),
    /// It ends so where it was to enter.
    Ends(Ended),
}

/// A packet that enters the network, and where.
#[derive(Debug, Drop)]
pub struct Entrant {
    /// Where it stands.
    pub place: Place,
    /// The packet, or what doesn't read as one.
    pub content: Content,
}

/// What enters the network of a frame.
pub trait Enters {
    /// What holds of those that may be asked.
    ghost ready: { Self → Type 0 };

    /// What becomes of a frame's packet before its first stage, by what the frame holds.
    ghost entry: { Self → BodyValue → Admission };

    /// How a frame's packet stays, if it does; takes no memory.
    fn stays(&self, frame: &LentFrame<'_>) -> Option<EarlyEnd>
        requires { ready self.now }
        ensures { result ≡ early_end_of (entry self.now frame.now.body) };

    /// A frame's packet as it enters, if it does: a copy of the frame's bytes in a buffer, in place
    /// of those that it held, with room in front for the longest header of a policy; a buffer
    /// without bytes is left in its place. Memory is taken only where the buffer has fewer bytes in
    /// all.
    fn enter(&self, frame: &LentFrame<'_>, buf: &mut PktBuf) -> Result<Option<Entrant>, NoMemory>
        requires { ready self.now }
        ensures { IfOk result (λ comes. comes ≡ entrant_of (entry self.now frame.now.body)) };
}
