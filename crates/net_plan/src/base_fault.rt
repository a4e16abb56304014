//! Why a description and a plan give no network.

ghost use Rattle.std.specs.Prelude.{◌≡◌, Some, Result};
ghost use Rattle.text_faults.specs.TextReading.{Gives};
ghost use Rattle.text_faults.specs.declared.fault.TextFault.{TextFault};
ghost use Rattle.plan_syntax.specs.declared.plan_faults.PlanFault.{PlanFault};
ghost use Rattle.net_plan.specs.BaseNetwork.{of_plan, of_net, base_fault_number, base_fault_text};

use plan_syntax::{PlanError, PlanFault};
use std::fmt;
use std::fmt::{Display, Formatter};
use text_faults::{NetFault, OrNoMemory, TextFault};

/// The first fault of a description and a plan.
#[derive(Clone, Copy, Debug, PartialEq, Eq)]
pub enum BaseFault {
    /// A fault of the plan.
    Plan(PlanFault),
    /// A fault of the description, or of the parts that come of both.
    Net(TextFault),
}

impl BaseFault {
    /// The number of the fault's refusal.
    pub fn number(self) -> u8
        ensures { result ≡ base_fault_number self }
    {
        match self {
            BaseFault::Plan(_) => 55,
            BaseFault::Net(fault) => fault.kind.number(),
        }
    }
}

/// The fault as a text's, of a plan with the word `Plan` in front.
impl Display for BaseFault {
    ghost output = { λ fault. Some (base_fault_text fault) };

    #[tactic(auto, unfolding(crate::specs::BaseNetwork::base_fault_text))]
    fn fmt<W: fmt::Write>(&self, f: &mut Formatter<W>) -> fmt::Result {
        match self {
            BaseFault::Plan(fault) => write!(f, "Plan {fault}"),
            BaseFault::Net(fault) => write!(f, "{fault}"),
        }
    }
}

impl From<BaseFault> for OrNoMemory<BaseFault> {
    ghost use Rattle.text_faults.specs.declared.fault.OrNoMemory.TheVariants.{Fault};

    ghost from_gives = { λ fault why. why ≡ Fault fault };

    fn from(fault: BaseFault) -> OrNoMemory<BaseFault> {
        OrNoMemory::Fault(fault)
    }
}

/// What reading a plan gives, as the plan's.
pub(crate) fn of_plan<X: Drop>(read: Result<X, PlanError>) -> Result<X, OrNoMemory<BaseFault>>
    ensures { (wanted : Result X PlanFault) → Gives (λ x. x) read wanted
        → Gives (λ x. x) result (of_plan wanted) }
{
    match read {
        Ok(value) => Ok(value),
        Err(OrNoMemory::Fault(fault)) => Err(OrNoMemory::Fault(BaseFault::Plan(fault))),
        Err(OrNoMemory::NoMemory) => Err(OrNoMemory::NoMemory),
    }
}

/// What reading a description gives, as the description's.
pub(crate) fn of_net<X: Drop>(read: Result<X, NetFault>) -> Result<X, OrNoMemory<BaseFault>>
    ensures { (wanted : Result X TextFault) → Gives (λ x. x) read wanted
        → Gives (λ x. x) result (of_net wanted) }
{
    match read {
        Ok(value) => Ok(value),
        Err(OrNoMemory::Fault(fault)) => Err(OrNoMemory::Fault(BaseFault::Net(fault))),
        Err(OrNoMemory::NoMemory) => Err(OrNoMemory::NoMemory),
    }
}
