//! Why a text gives no intent in a network.

ghost use Rattle.std.specs.Prelude.{◌≡◌, Some};
ghost use Rattle.intent_reader.specs.IntentFaults.{step_fault_number, step_fault_name, intent_fault_number, intent_fault_text};

use net_syntax::MAX_LOOSE_SIDS;
use std::fmt;
use std::fmt::{Display, Formatter};
use text_faults::{OrNoMemory, TextFault};

/// What is wrong with a step.
#[derive(Clone, Copy, Debug, PartialEq, Eq)]
pub enum StepFault {
    /// No node has the name of the headend or of the node to be reached, or no link has a name of
    /// the step.
    UnknownName,
    /// Its links do not start where the step stands, end apart, or leave the network; or the step
    /// stands already at the node to be reached.
    Broken,
    /// No SID has its title, or the SID is not at the node where the step stands.
    NoFunction,
    /// A link stands twice in it.
    DoubleLink,
}

/// The first fault of a text that gives no intent in a network.
#[derive(Clone, Copy, Debug, PartialEq, Eq)]
pub enum IntentFault {
    /// The text is not TOML, or does not say an intent.
    Text(TextFault),
    /// A fault of a step.
    AtStep {
        /// The step's number in the order of the file, counted from 1; the headend counts as 0.
        step: u32,
        /// What is wrong with it.
        kind: StepFault,
    },
    /// The last step is no function.
    NotFunctionLast,
    /// A step is to reach a node, and the network has more than 128 SIDs.
    LooseLimit,
}

impl StepFault {
    /// The fault of the step with a number.
    pub fn at(self, step: u32) -> IntentFault
        ensures { result ≡ IntentFault.AtStep step self }
    {
        IntentFault::AtStep { step, kind: self }
    }

    /// The number of the fault's refusal.
    pub fn number(self) -> u8
        ensures { result ≡ step_fault_number self }
    {
        match self {
            StepFault::UnknownName => 34,
            StepFault::Broken => 35,
            StepFault::NoFunction => 36,
            StepFault::DoubleLink => 38,
        }
    }

    /// The fault's name.
    #[tactic(auto, unfolding(crate::specs::IntentFaults::step_fault_name))]
    pub fn name(self) -> &'static str
        ensures { result.now ≡ step_fault_name self }
    {
        match self {
            StepFault::UnknownName => "UnknownName",
            StepFault::Broken => "Broken",
            StepFault::NoFunction => "NoFunction",
            StepFault::DoubleLink => "DoubleLink",
        }
    }
}

impl IntentFault {
    /// The number of the fault's refusal.
    pub fn number(self) -> u8
        ensures { result ≡ intent_fault_number self }
    {
        match self {
            IntentFault::Text(_) => 33,
            IntentFault::AtStep { kind, .. } => kind.number(),
            IntentFault::NotFunctionLast => 37,
            IntentFault::LooseLimit => 46,
        }
    }
}

/// The fault's name, and the text's fault, the step, or the limit.
impl Display for IntentFault {
    ghost output = { λ fault. Some (intent_fault_text fault) };

    #[tactic(auto, unfolding(crate::specs::IntentFaults::intent_fault_text))]
    fn fmt<W: fmt::Write>(&self, f: &mut Formatter<W>) -> fmt::Result {
        match self {
            IntentFault::Text(fault) => write!(f, "Text {fault}"),
            IntentFault::AtStep { step, kind } => {
                let name = kind.name();
                write!(f, "{name} {step}")
            }
            IntentFault::NotFunctionLast => write!(f, "NotFunctionLast"),
            IntentFault::LooseLimit => write!(f, "LooseLimit {MAX_LOOSE_SIDS}"),
        }
    }
}

impl From<IntentFault> for OrNoMemory<IntentFault> {
    ghost use Rattle.text_faults.specs.declared.fault.OrNoMemory.TheVariants.{Fault};

    ghost from_gives = { λ fault why. why ≡ Fault fault };

    fn from(fault: IntentFault) -> OrNoMemory<IntentFault> {
        OrNoMemory::Fault(fault)
    }
}
