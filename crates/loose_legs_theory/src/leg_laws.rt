//! Laws about the definitions, each the contract of a function that does nothing.

ghost use Rattle.std.specs.Prelude.{◌≡◌, ◌≤◌, ◌↔◌, List, Some, length};
ghost use Rattle.net_flatness.specs.Flat.{IsFlat};
ghost use Rattle.intent_reader.specs.declared.intent.Intent.{Intent};
ghost use Rattle.list_pack.specs.LegsValueTerms.{KeepsLaws};
ghost use Rattle.loose_legs_theory.specs.StopLinks.{IsBehindLinks};
ghost use Rattle.loose_spec.specs.LooseLegsValue.{loose_legs_value};
ghost use Rattle.loose_legs_theory.specs.LooseStepsTerms.{AreSteps};
ghost use Rattle.loose_walks.specs.WalkStops.{ends_in};
ghost use Rattle.loose_walks.specs.WalkStopsTerms.{Stop, first_stop};
ghost use Rattle.net_model.specs.Network.{Network};
ghost use Rattle.net_model.specs.NetworkRulesTerms.{IsNetwork};
ghost use Rattle.intent_traces.specs.declared.trace_steps.TraceStep.{TraceStep};
ghost use Rattle.walk_rules.specs.Walk.{Stage};

/// In a flat network of at most 128 SIDs the legs and finishes along steps of which some may be to
/// reach a node keep the laws of legs: each leads on from a SID of its position to one of the
/// position where it ends, in the order of the SIDs, one for each prefix, by few lowerings.
pub fn loose_legs_keep_the_laws()
    ensures { (net : Network) (intent : Intent) (steps : List TraceStep) → IsNetwork net → IsFlat net →
        AreSteps net intent steps → length net.sids ≤ 128 →
        KeepsLaws (loose_legs_value net intent steps) }
{}

/// The first stage that sends nothing, by which the sentences on legs and finishes say where a SID
/// is executed, is the one behind links whose trace splits into the parts of the steps that are
/// finished and, where the next one is to reach a node, links that all lead to another node.
pub fn a_stop_is_behind_links_that_leave_the_steps()
    ensures { (net : Network) (ts : List TraceStep) (ss : List Stage) (stop : Stop) →
        (first_stop (ends_in net) ts ss ≡ Some stop) ↔ IsBehindLinks net ts ss stop }
{}
