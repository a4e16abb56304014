//! The first fault of a text.

ghost use Rattle.std.specs.Prelude.{◌≡◌};

use crate::fault_kind::FaultKind;
use crate::text_place::FaultPlace;
use std::alloc::{AllocError, AllocFailed};

/// A fault of a text: what is wrong, and where.
#[derive(Clone, Copy, Debug, PartialEq, Eq)]
pub struct TextFault {
    /// Where.
    pub place: FaultPlace,
    /// What.
    pub kind: FaultKind,
}

/// Why reading a text gives nothing.
#[derive(Clone, Copy, Debug, PartialEq, Eq)]
pub enum OrNoMemory<F> {
    /// The first fault of the text.
    Fault(F),
    /// Memory ran out, which says nothing about the text.
    NoMemory,
}

/// Why a text gives no network, or says no intent.
pub type NetFault = OrNoMemory<TextFault>;

impl From<TextFault> for OrNoMemory<TextFault> {
    ghost use Rattle.text_faults.specs.declared.fault.OrNoMemory.TheVariants.{Fault};

    ghost from_gives = { λ fault why. why ≡ Fault fault };

    fn from(fault: TextFault) -> OrNoMemory<TextFault> {
        OrNoMemory::Fault(fault)
    }
}

impl<F> From<AllocError> for OrNoMemory<F> {
    ghost use Rattle.text_faults.specs.declared.fault.OrNoMemory.TheVariants.{NoMemory};

    ghost from_gives = { λ _ why. why ≡ NoMemory };

    fn from(_: AllocError) -> OrNoMemory<F> {
        OrNoMemory::NoMemory
    }
}

impl<T: Drop, F> From<AllocFailed<T>> for OrNoMemory<F> {
    ghost use Rattle.text_faults.specs.declared.fault.OrNoMemory.TheVariants.{NoMemory};

    ghost from_gives = { λ _ why. why ≡ NoMemory };

    fn from(_: AllocFailed<T>) -> OrNoMemory<F> {
        OrNoMemory::NoMemory
    }
}
