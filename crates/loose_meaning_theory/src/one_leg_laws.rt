//! Laws about the definitions, each the contract of a function that does nothing.

ghost use Rattle.std.specs.Prelude.{◌≡◌, List};
ghost use Rattle.net_flatness.specs.Flat.{IsFlat};
ghost use Rattle.intent_reader.specs.declared.intent.Intent.{Intent};
ghost use Rattle.leg_table.specs.OneLegLaws.{LegLaws};
ghost use Rattle.sid_list_theory.specs.ListPlaces.{Tunnel};
ghost use Rattle.loose_meaning_theory.specs.LooseKind.{loose_kind};
ghost use Rattle.loose_meaning_theory.specs.LongestWays.{Longest};
ghost use Rattle.loose_legs_theory.specs.LooseStepsTerms.{AreSteps};
ghost use Rattle.net_model.specs.Network.{Network};
ghost use Rattle.net_model.specs.NetworkRulesTerms.{IsNetwork};
ghost use Rattle.intent_traces.specs.declared.trace_steps.TraceStep.{TraceStep};

/// What becomes of a packet on its way along a list, from one SID to the next, along steps of
/// which some may be to reach a node: where there is a leg and the hop limit is above its hops,
/// every row of choices takes the packet to the list's next place, along the leg's steps and by at
/// most so many hops; what is handed over of it is handed over from there, on a longest way just
/// so many hops lower. And where it is handed over under every row with the same SIDs executed,
/// each after as many steps, the first of them is one for all rows: there is a leg or a finish to
/// it, and behind a leg the packet of a longest way is handed over under every row.
pub fn loose_legs_keep_the_laws_of_one_leg()
    ensures { (net : Network) (intent : Intent) (steps : List TraceStep) → IsNetwork net →
        IsFlat net → AreSteps net intent steps → (t : Tunnel) → t.inner ≡ intent.inner →
        LegLaws (loose_kind net intent steps) (Longest net intent) t }
{}
