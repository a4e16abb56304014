//! What a value of a plan may be read as.

ghost use Rattle.std.specs.Prelude.{◌≡◌, Result};
ghost use Rattle.toml.specs.Data.{Data};
ghost use Rattle.toml.specs.View.{view};
ghost use Rattle.text_faults.specs.declared.fault.TextFault.{TextFault};
ghost use Rattle.text_faults.specs.TextReading.{Gives};
ghost use Rattle.plan_syntax.specs.declared.plan_places.PlanKey.{PlanKey};
ghost use Rattle.plan_syntax.specs.declared.plan_places.PlanPlace.{PlanPlace};
ghost use Rattle.plan_syntax.specs.declared.plan_faults.PlanFault.{PlanFault};
ghost use Rattle.plan_syntax.specs.PlanTree.{told_at, name_in, prefix_in, number_in, flag_in};

use crate::plan_faults::{PlanError, PlanFault, PlanFaultKind, kind_told};
use crate::plan_places::{PlanKey, PlanPlace};
use net_model::Name;
use net_syntax::FamilyPrefix;
use std::alloc::Global;
use text_faults::{FaultPlace, Key, NetFault, OrNoMemory, TableKind};
use toml::Value;
use toml_reader::Kind;

/// What a value of a plan may be read as.
pub trait PlanValue: Sized {
    /// What a value gives at a place and under a key.
    ghost kind: { PlanPlace → PlanKey → Data → Result Self PlanFault };

    /// The value, or its first fault.
    fn of(alloc: Global, value: &Value, place: PlanPlace, key: PlanKey) -> Result<Self, PlanError>
        ensures { Gives (λ x. x) result (kind place key (view value.now)) };
}

/// What is read of a value, its fault told at a place of a plan and under its key.
fn told_at<X>(place: PlanPlace, key: PlanKey, read: Result<X, NetFault>) -> Result<X, PlanError>
    ensures { (wanted : Result X TextFault) → Gives (λ x. x) read wanted
        → Gives (λ x. x) result (told_at place key wanted) }
{
    match read {
        Ok(value) => Ok(value),
        Err(OrNoMemory::NoMemory) => Err(OrNoMemory::NoMemory),
        Err(OrNoMemory::Fault(fault)) => {
            Err(OrNoMemory::Fault(place.fault(kind_told(key, fault.kind))))
        }
    }
}

/// A name: `WrongKind` where the value is no text, `BadName` where it is a text that is no name.
impl PlanValue for Name {
    ghost kind = { name_in };

    fn of(alloc: Global, value: &Value, place: PlanPlace, key: PlanKey) -> Result<Name, PlanError> {
        let any = FaultPlace::whole(TableKind::Net);
        told_at::<Name>(place, key, <Name as Kind>::of(alloc, value, any, Key::Name))
    }
}

/// A prefix of either family: `WrongKind` where the value is no text, `BadAddress` where it is a
/// text that writes no prefix.
impl PlanValue for FamilyPrefix {
    ghost kind = { prefix_in };

    fn of(
        alloc: Global,
        value: &Value,
        place: PlanPlace,
        key: PlanKey,
    ) -> Result<FamilyPrefix, PlanError> {
        let any = FaultPlace::whole(TableKind::Net);
        let read = <FamilyPrefix as Kind>::of(alloc, value, any, Key::Name);
        told_at::<FamilyPrefix>(place, key, read)
    }
}

/// The number that a value is: `WrongKind` exactly where it is no integer, and `Limit` where it is
/// one that is not from the least to the most.
pub(crate) fn number_in(
    value: &Value,
    range: (u32, u32),
    place: PlanPlace,
    key: PlanKey,
) -> Result<u32, PlanFault>
    ensures { result ≡ number_in range.0 range.1 place key (view value.now) }
{
    let any = FaultPlace::whole(TableKind::Net);
    match toml_reader::number_in(value, range.0, range.1, any, Key::Name) {
        Ok(number) => Ok(number),
        Err(fault) => Err(place.fault(kind_told(key, fault.kind))),
    }
}

/// Whether a value is true; `WrongKind` exactly where it is no boolean.
pub(crate) fn flag_in(value: &Value, place: PlanPlace, key: PlanKey) -> Result<bool, PlanFault>
    ensures { result ≡ flag_in place key (view value.now) }
{
    // each kind of value is asked with its key, whether its faults name it or not
    let _ = key;
    match value.as_bool() {
        Some(flag) => Ok(flag),
        None => Err(place.fault(PlanFaultKind::WrongKind)),
    }
}
