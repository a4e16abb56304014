//! What a plan says, in its ranges.

ghost use Rattle.std.specs.Prelude.{◌≡◌};
ghost use Rattle.text_faults.specs.TextReading.{Gives};
ghost use Rattle.plan_syntax.specs.PlanText.{plan_in};

use plan_syntax::{DescribedPlan, PlanError, read_plan_words};
use std::alloc::Global;
use std::marker::Model;

/// What a plan says; its numbers and prefixes are in their ranges, and its lists have no more items
/// than they may.
#[derive(Debug, Drop)]
pub struct Plan {
    said: DescribedPlan,
}

impl Model for Plan {
    ghost use Rattle.plan_syntax.specs.declared.plan_table.DescribedPlan.{DescribedPlan};
    ghost use Rattle.net_plan.specs.PlanRanges.{IsPlan};

    ghost Value = { DescribedPlan };

    ghost view = { λ p. p.said };

    ghost invariant = { λ p. IsPlan p.said };
}

impl Plan {
    ghost use Rattle.std.specs.Prelude.{◌≡◌};
    ghost use Rattle.net_plan.specs.PlanRanges.{IsPlan};

    /// What it says, item by item.
    pub fn said(&self) -> &DescribedPlan
        ensures value { result.now ≡ self.now }
        ensures ranges { IsPlan self.now }
    {
        &self.said
    }
}

/// The plan of a text, or its first fault, as `plan_syntax::read_plan_words` has it. `NoMemory` may
/// come at any time.
pub fn read_plan(alloc: Global, text: &[u8]) -> Result<Plan, PlanError>
    ensures { Gives (λ p. p) result (plan_in text.now) }
{
    let said = read_plan_words(alloc, text)?;
    Ok(Plan { said })
}
