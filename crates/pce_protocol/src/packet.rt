//! Packets that are traced.

ghost use Rattle.std.specs.Prelude.{◌≡◌};
ghost use Rattle.pce_protocol.specs.Kinds.{packet_of, is_packet};

use crate::kind::Kind;
use hex::FromHexError;
use serde_json::Value;
use std::alloc::{AllocError, Global};
use std::marker::Model;

/// A packet of IPv6 or IPv4: some bytes, of which the first has the version in its high four bits
/// (RFC 8200 section 3, RFC 791 section 3.1).
#[derive(Debug, Drop)]
pub struct Packet {
    bytes: Vec<u8>,
}

impl Model for Packet {
    ghost use Rattle.std.specs.Prelude.{◌≡◌, true, List, ℕ};
    ghost use Rattle.pce_protocol.specs.Kinds.{is_packet as has_version};

    ghost Value = { List ℕ };

    ghost view = { λ p. p.bytes.items };

    ghost invariant = { λ p. has_version p.bytes.items ≡ true };
}

impl Packet {
    ghost use Rattle.std.specs.Prelude.{true};

    /// The bytes.
    pub fn as_bytes(&self) -> &[u8]
        ensures value { result.now ≡ self.now }
        ensures version { is_packet self.now ≡ true }
    {
        self.bytes.as_slice()
    }
}

/// Whether bytes have a version of IP.
fn is_packet(bytes: &[u8]) -> bool
    ensures { result ≡ is_packet bytes.now }
{
    match bytes {
        [] => false,
        [first, ..] => *first / 16 == 6 || *first / 16 == 4,
    }
}

/// A packet in hexadecimal digits of either case.
impl Kind for Packet {
    ghost kind = { packet_of };

    fn of(alloc: Global, value: &Value) -> Result<Option<Packet>, AllocError> {
        let Some(text) = value.as_str() else {
            return Ok(None);
        };
        match hex::decode(alloc, text) {
            Ok(bytes) => {
                if !is_packet(bytes.as_slice()) {
                    return Ok(None);
                }
                Ok(Some(Packet { bytes }))
            }
            Err(FromHexError::OutOfMemory) => Err(AllocError),
            Err(
                FromHexError::InvalidHexCharacter { .. }
                | FromHexError::OddLength
                | FromHexError::InvalidStringLength,
            ) => Ok(None),
        }
    }
}
