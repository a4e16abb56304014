//! The first fault of a plan.

ghost use Rattle.std.specs.Prelude.{◌≡◌};
ghost use Rattle.plan_syntax.specs.PlanFaults.{kind_told};

use crate::plan_places::{PlanKey, PlanPlace};
use text_faults::{FaultKind, OrNoMemory};

/// What is wrong with a plan.
#[derive(Clone, Copy, Debug, PartialEq, Eq)]
pub enum PlanFaultKind {
    /// The whole is not TOML.
    NotToml,
    /// A key that is needed is absent.
    MissingKey {
        /// The key.
        key: PlanKey,
    },
    /// A value is of another kind of TOML than the key takes.
    WrongKind,
    /// A key that the table does not have.
    UnknownKey,
    /// A text that is no name, or the name that is made for a link of a cable where it is none.
    BadName,
    /// A name that nothing has.
    UnknownName,
    /// A name that a link with other ends has.
    DoubleName,
    /// A text that is no prefix.
    BadAddress,
    /// Two names of a list that are the same.
    BadStructure,
    /// A number or a list's length that is out of range.
    Limit {
        /// The key of the number or of the list, or of the table that is counted.
        what: PlanKey,
        /// The number or the length.
        value: i64,
    },
}

/// A fault of a plan: what is wrong, and where.
#[derive(Clone, Copy, Debug, PartialEq, Eq)]
pub struct PlanFault {
    /// Where.
    pub place: PlanPlace,
    /// What.
    pub kind: PlanFaultKind,
}

/// Why a text gives no plan.
pub type PlanError = OrNoMemory<PlanFault>;

impl From<PlanFault> for OrNoMemory<PlanFault> {
    ghost use Rattle.text_faults.specs.declared.fault.OrNoMemory.TheVariants.{Fault};

    ghost from_gives = { λ fault why. why ≡ Fault fault };

    fn from(fault: PlanFault) -> OrNoMemory<PlanFault> {
        OrNoMemory::Fault(fault)
    }
}

/// What is wrong with a value, as it is told of a plan, with the plan's key.
pub(crate) fn kind_told(key: PlanKey, kind: FaultKind) -> PlanFaultKind
    ensures { result ≡ kind_told key kind }
{
    match kind {
        FaultKind::NotToml => PlanFaultKind::NotToml,
        FaultKind::MissingKey { .. } => PlanFaultKind::MissingKey { key },
        FaultKind::WrongKind => PlanFaultKind::WrongKind,
        FaultKind::UnknownKey => PlanFaultKind::UnknownKey,
        FaultKind::BadName => PlanFaultKind::BadName,
        FaultKind::UnknownName => PlanFaultKind::UnknownName,
        FaultKind::DoubleName => PlanFaultKind::DoubleName,
        FaultKind::BadAddress => PlanFaultKind::BadAddress,
        FaultKind::BadFlavour | FaultKind::BadStructure | FaultKind::DoublePrefix => {
            PlanFaultKind::BadStructure
        }
        FaultKind::Limit { value, .. } => PlanFaultKind::Limit { what: key, value },
    }
}
