//! Why no header was put in front of a packet.

ghost use Rattle.std.specs.Prelude.{◌≡◌};
ghost use Rattle.policy_encap.specs.declared.faults.PushFault.TheVariants as pushing;
ghost use Rattle.policy_encap.specs.declared.faults.EncapFault.TheVariants as encapsulating;

use base::NoMemory;

/// Why a policy's header was not put in front of a packet (RFC 8200 section 3, RFC 8986 sections
/// 4.13 and 4.14). The buffer is as it was.
#[derive(Clone, Copy, Debug, PartialEq, Eq)]
pub enum PushFault {
    /// The outer packet's payload would be longer than 65,535 bytes (RFC 8200 section 3).
    TooBig {
        /// The length in bytes that the payload would have.
        length: u32,
    },
    /// Want of memory, where fewer bytes are spare than the header has.
    NoMemory,
}

impl From<NoMemory> for PushFault {
    ghost from_gives = { λ _ fault. fault ≡ pushing.NoMemory };

    fn from(_: NoMemory) -> PushFault {
        PushFault::NoMemory
    }
}

/// Why a packet was not encapsulated (RFC 8200 section 3, RFC 8986 section 5.1). The buffer is as
/// it was.
#[derive(Clone, Copy, Debug, PartialEq, Eq)]
pub enum EncapFault {
    /// The packet's hop limit or TTL is at most 1, so that it cannot be lowered.
    InnerHop,
    /// The outer packet's payload would be longer than 65,535 bytes (RFC 8200 section 3).
    TooBig {
        /// The length in bytes that the payload would have.
        length: u32,
    },
    /// Want of memory, where fewer bytes are spare than the header has.
    NoMemory,
}

impl From<NoMemory> for EncapFault {
    ghost from_gives = { λ _ fault. fault ≡ encapsulating.NoMemory };

    fn from(_: NoMemory) -> EncapFault {
        EncapFault::NoMemory
    }
}
