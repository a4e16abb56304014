//! Laws about the definitions, each the contract of a function that does nothing.

ghost use Rattle.intent_reader.specs.IntentRulesTerms.{IsIntent};
ghost use Rattle.intent_reader.specs.declared.intent.Intent.{Intent};
ghost use Rattle.loose_legs.specs.IntentSteps.{trace_steps};
ghost use Rattle.loose_legs_theory.specs.LooseStepsTerms.{AreSteps};
ghost use Rattle.net_model.specs.Network.{Network};

/// The steps of an intent that keeps the rules are steps as loose legs ask for them: at most 48,
/// each of which starts where the one before it ended, the first at the headend.
pub fn steps_of_an_intent_are_steps()
    ensures { (net : Network) (intent : Intent) → IsIntent net intent
        → AreSteps net intent (trace_steps intent) }
{}
