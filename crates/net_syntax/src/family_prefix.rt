//! Prefixes of either family.

ghost use Rattle.std.specs.Prelude.{◌≡◌};
ghost use Rattle.v6_addr.specs.Scan4.{prefix4_of_text};
ghost use Rattle.net_syntax.specs.Prefixes.{family_prefix_of, family_prefix_in};

use srv6_rules::Family;
use std::alloc::Global;
use text_faults::{FaultKind, FaultPlace, Key, NetFault, OrNoMemory};
use toml::Value;
use toml_reader::{Kind, text_in};
use v6_addr::{Prefix, parse_prefix, parse_prefix4};

/// A prefix of either family. An IPv4 prefix holds addresses whose top 32 bits are the IPv4
/// address, and its length is at most 32.
#[derive(Clone, Copy, Debug, PartialEq, Eq)]
pub struct FamilyPrefix {
    /// The family of its addresses.
    pub family: Family,
    /// The prefix.
    pub prefix: Prefix,
}

/// The IPv4 prefix that a text writes.
fn prefix4_of(text: &[u8]) -> Option<Prefix>
    ensures { result ≡ prefix4_of_text text.now }
{
    match parse_prefix4(text) {
        Ok(prefix) => Some(prefix),
        Err(_) => None,
    }
}

/// The prefix that a text writes, of the one family or of the other.
fn family_prefix_of(text: &[u8]) -> Option<FamilyPrefix>
    ensures { result ≡ family_prefix_of text.now }
{
    match parse_prefix(text) {
        Ok(prefix) => Some(FamilyPrefix {
            family: Family::V6,
            prefix,
        }),
        Err(_) => match prefix4_of(text) {
            Some(prefix) => Some(FamilyPrefix {
                family: Family::V4,
                prefix,
            }),
            None => None,
        },
    }
}

/// A prefix of either family: `WrongKind` where the value is no text, `BadAddress` where it is a
/// text that writes no prefix.
impl Kind for FamilyPrefix {
    ghost kind = { family_prefix_in };

    fn of(
        _alloc: Global,
        value: &Value,
        place: FaultPlace,
        _key: Key,
    ) -> Result<FamilyPrefix, NetFault> {
        let text = text_in(value, place)?;
        match family_prefix_of(text.as_bytes()) {
            Some(prefix) => Ok(prefix),
            None => Err(OrNoMemory::Fault(place.fault(FaultKind::BadAddress))),
        }
    }
}
