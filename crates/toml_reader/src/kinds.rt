//! What a value may be read as.

ghost use Rattle.std.specs.Prelude.{◌≡◌, Result};
ghost use Rattle.toml.specs.Data.{Data};
ghost use Rattle.toml.specs.View.{view};
ghost use Rattle.text_faults.specs.declared.text_place.FaultPlace.{FaultPlace};
ghost use Rattle.text_faults.specs.declared.text_place.Key.{Key};
ghost use Rattle.text_faults.specs.declared.fault.TextFault.{TextFault};
ghost use Rattle.text_faults.specs.TextFaults.{fault_at};
ghost use Rattle.text_faults.specs.TextReading.{Gives};
ghost use Rattle.toml_reader.specs.TomlReading.{or_fault};
ghost use Rattle.toml_reader.specs.Tree.{name_in, addr_in, prefix_in, number_in, given};

use crate::tree::{number_in, text_in};
use net_model::{LAST_OCTET, Name, is_name};
use std::alloc::Global;
use text_faults::{FaultKind, FaultPlace, Key, NetFault, OrNoMemory, TextFault};
use toml::Value;
use v6_addr::{Addr, Prefix, parse_addr, parse_prefix};

/// What a value may be read as.
pub trait Kind: Sized {
    /// What a value gives at a place and under a key.
    ghost kind: { FaultPlace → Key → Data → Result Self TextFault };

    /// The value, or its first fault.
    fn of(alloc: Global, value: &Value, place: FaultPlace, key: Key) -> Result<Self, NetFault>
        ensures { Gives (λ x. x) result (kind place key (view value.now)) };
}

/// A name: `WrongKind` where the value is no text, `BadName` where it is a text that is no name.
impl Kind for Name {
    ghost kind = { name_in };

    fn of(alloc: Global, value: &Value, place: FaultPlace, _key: Key) -> Result<Name, NetFault> {
        let text = text_in(value, place)?;
        if !is_name(text.as_bytes()) {
            return Err(OrNoMemory::Fault(place.fault(FaultKind::BadName)));
        }
        Ok(Name::new(text.to_string(alloc)?))
    }
}

/// An IPv6 address: `WrongKind` where the value is no text, `BadAddress` where it is another text.
impl Kind for Addr {
    ghost kind = { addr_in };

    fn of(_alloc: Global, value: &Value, place: FaultPlace, _key: Key) -> Result<Addr, NetFault> {
        let text = text_in(value, place)?;
        match parse_addr(text.as_bytes()) {
            Ok(address) => Ok(address),
            Err(_) => Err(OrNoMemory::Fault(place.fault(FaultKind::BadAddress))),
        }
    }
}

/// An IPv6 prefix: `WrongKind` where the value is no text, `BadAddress` where it is another text.
impl Kind for Prefix {
    ghost kind = { prefix_in };

    fn of(_alloc: Global, value: &Value, place: FaultPlace, _key: Key) -> Result<Prefix, NetFault> {
        let text = text_in(value, place)?;
        match parse_prefix(text.as_bytes()) {
            Ok(prefix) => Ok(prefix),
            Err(_) => Err(OrNoMemory::Fault(place.fault(FaultKind::BadAddress))),
        }
    }
}

/// A number from 0 to 255: `WrongKind` where the value is no integer, `Limit` where it is another.
impl Kind for u8 {
    ghost use Rattle.net_model.specs.declared.limits.TheConstants.{LAST_OCTET};

    ghost kind = { number_in 0 LAST_OCTET };

    fn of(_alloc: Global, value: &Value, place: FaultPlace, key: Key) -> Result<u8, NetFault> {
        let number = number_in(value, 0, LAST_OCTET, place, key)?;
        Ok(number as u8)
    }
}

/// What may be absent, where it is there.
impl<X: Kind> Kind for Option<X> {
    ghost kind = { given X.kind };

    fn of(
        alloc: Global,
        value: &Value,
        place: FaultPlace,
        key: Key,
    ) -> Result<Option<X>, NetFault> {
        let given = X::of(alloc, value, place, key)?;
        Ok(Some(given))
    }
}

/// What a word stands for; `BadFlavour` exactly where it stands for nothing.
pub fn meant<X>(meaning: Option<X>, place: FaultPlace) -> Result<X, TextFault>
    ensures { result ≡ or_fault (fault_at place FaultKind.BadFlavour) meaning }
{
    match meaning {
        Some(meaning) => Ok(meaning),
        None => Err(place.fault(FaultKind::BadFlavour)),
    }
}
