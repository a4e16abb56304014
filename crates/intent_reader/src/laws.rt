//! Laws of the definitions: each is the contract of an empty function.

ghost use Rattle.std.specs.Prelude.{◌≡◌, ◌↔◌, ◌<◌, ℕ, List, length, Some, Ok};
ghost use Rattle.net_model.specs.Network.{Network};
ghost use Rattle.net_model.specs.NetworkKeeps.{Keeps};
ghost use Rattle.net_syntax.specs.declared.intent_table.DescribedIntent.{DescribedIntent};
ghost use Rattle.intent_reader.specs.declared.intent.Step.{Step};
ghost use Rattle.intent_reader.specs.declared.intent.Intent.{Intent};
ghost use Rattle.intent_reader.specs.IntentRules.{node_after, stand_after};
ghost use Rattle.intent_reader.specs.IntentRulesTerms.{IsIntent};
ghost use Rattle.intent_reader.specs.IntentKeeps.{Steps, KeepsIntent};
ghost use Rattle.intent_reader.specs.Described.{InRange, intent_by_names};
ghost use Rattle.intent_reader.specs.IntentJudging.{judged};

/// What a text says gives an intent in a network, without a fault, exactly where all its names are
/// known and the intent over their numbers keeps the rules.
pub fn no_fault_is_keeping_the_rules()
    ensures { (net : Network) (d : DescribedIntent) (i : Intent) → InRange d
        → (judged net d ≡ Ok i) ↔ ((intent_by_names net d ≡ Some i) × IsIntent net i) }
{}

/// An intent that keeps the rules in a network has its headend there, its numbers in their ranges,
/// and 1 to 48 steps; the walk stands at a node before and after each of them, the last is a
/// function, and where a step is loose the network has at most 128 SIDs.
pub fn intents_have_walks()
    ensures { (net : Network) (i : Intent) → IsIntent net i → KeepsIntent net i }
{}

/// A step that leads from a node to a node crosses links all of which lead from the one to the
/// other, is a function at the node, where the walk stays, or is to reach the other.
pub fn steps_lead_on()
    ensures { (net : Network) (node : ℕ) (s : Step) (next : ℕ) → node_after net node s ≡ Some next
        → Steps net node s next }
{}

/// A walk over steps that begins at a node of a network that keeps the rules ends at a node of it
pub fn walks_stay_at_nodes()
    ensures { (net : Network) (node : ℕ) (steps : List Step) (end : ℕ) → Keeps net
        → node < length net.nodes
        → stand_after net node steps ≡ Some end → end < length net.nodes }
{}
