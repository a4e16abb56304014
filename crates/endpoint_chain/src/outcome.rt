//! What comes of a packet at a SID, in its bytes.

ghost use Rattle.std.specs.Prelude.{◌≡◌, ◌<◌, ◌^◌};
ghost use Rattle.endpoint_chain.specs.Outcomes.{dropped_for};
ghost use Rattle.ip6_headers.specs.Items.{fault_of};

use ip6_headers::Fault;
use srv6_rules::{Family, Reason};

/// What came of a packet at a SID, where the packet's bytes are changed in their places (RFC 8986
/// section 4).
#[derive(Clone, Copy, Debug, PartialEq, Eq)]
pub enum EndOutcome {
    /// The SID was executed and the packet goes on, with another destination.
    On,
    /// The SID exposed the packet inside: the bytes are those from there on.
    Hand {
        /// The family of the packet inside, by its kind as an upper layer.
        family: Family,
    },
    /// The upper layer takes the packet.
    Local,
    /// The packet is dropped, and its bytes are as they were.
    Drop {
        /// Why.
        reason: Reason,
        /// The place of the fault in bytes from the packet's first, 0 where the reason has none.
        at: u32,
    },
}

impl EndOutcome {
    /// The packet is dropped for a fault at a place of it.
    pub fn dropped(fault: Fault) -> EndOutcome
        requires { fault.at < 2 ^ 32 }
        ensures { result ≡ dropped_for (fault_of fault) }
    {
        EndOutcome::Drop {
            reason: fault.reason,
            at: fault.at as u32,
        }
    }
}
