//! Laws of the definitions: each is the contract of an empty function.

ghost use Rattle.std.specs.Prelude.{◌≡◌, ◌<◌, List, ℕ, Some, length, map};
ghost use Rattle.srv6_rules.specs.Packet.{Content};
ghost use Rattle.net_model.specs.Network.{Network};
ghost use Rattle.net_model.specs.NetworkRulesTerms.{IsNetwork};
ghost use Rattle.net_flatness.specs.Flat.{IsFlat};
ghost use Rattle.intent_reader.specs.IntentRulesTerms.{IsIntent};
ghost use Rattle.intent_reader.specs.declared.intent.Intent.{Intent};
ghost use Rattle.sid_list_theory.specs.ListPlaces.{Tunnel};
ghost use Rattle.list_pack.specs.Costs.{Move, cost_of, start};
ghost use Rattle.list_pack.specs.Least.{step_of};
ghost use Rattle.list_pack.specs.Meaning.{Means};
ghost use Rattle.list_pack.specs.PathLists.{list_of};
ghost use Rattle.list_pack.specs.SidLists.{list_values};
ghost use Rattle.list_pack.specs.LegsValueTerms.{KeepsLaws};
ghost use Rattle.list_pack.specs.declared.types.Cost.{Cost};
ghost use Rattle.leg_table.specs.OneLegLaws.{LegLaws};
ghost use Rattle.leg_table.specs.Realizes.{IsInner};
ghost use Rattle.leg_table.specs.StrictLegsValue.{AnyWay};
ghost use Rattle.binding_spec.specs.BindingSmall.{IsSmall};
ghost use Rattle.tunnel_stages_theory.specs.BindingSmallTerms.{KeepsTo};
ghost use Rattle.binding_spec.specs.BindingRealizes.{OwnListExecutes, OwnListRealizes};
ghost use Rattle.binding_spec.specs.BindingLegsValue.{binding_legs_value};
ghost use Rattle.binding_spec.specs.BindingHands.{OwnListHands};
ghost use Rattle.binding_legs_theory.specs.BindingKind.{binding_kind};

/// What becomes of a packet on its way along a list whose SIDs may be binding SIDs, from one SID to
/// the next: where there is a leg and the hop limit is above its hops, every row of choices takes
/// the packet to the list's next place along the leg's steps; what is handed over of it is handed
/// over from there; and what is handed over along the steps under every row of choices has a leg,
/// or a finish. Behind a binding SID the way begins with the whole walk of the header that it
/// pushes (RFC 8986 sections 4.13, 4.14 and 4.16.3; own rule).
pub fn legs_through_binding_sids_keep_the_laws_of_one_leg()
    ensures { (net : Network) (intent : Intent) → IsNetwork net → IsFlat net → IsIntent net intent →
        (t : Tunnel) → t.inner ≡ intent.inner → LegLaws (binding_kind net intent) AnyWay t }
{}

/// Legs through binding SIDs that keep the laws of legs mean the lists that realize the intent:
/// each path is a legal list that realizes it, with the path's hops as its need, and each legal
/// list that realizes it is such a path, of as many containers and no more hops.
pub fn legs_through_binding_sids_mean_lists()
    ensures { (net : Network) (intent : Intent) → IsNetwork net → IsFlat net → IsIntent net intent →
        KeepsLaws (binding_legs_value net intent) →
        Means (binding_legs_value net intent) net (OwnListRealizes net intent)
        (OwnListExecutes net intent) (OwnListHands net intent) }
{}

/// Where legs through binding SIDs keep the laws of legs, every packet on a path of theirs that is
/// enough and small keeps to the intent: at an outer hop limit above the path's hops, where bytes
/// spell it, the payload of each header that is pushed fits, each packet fits the links that it is
/// sent on, and there are fewer stages than a walk may have, the walk of its bytes crosses exactly
/// the intent's steps up to its own hand-over, and hands over the inner packet lowered by one (RFC
/// 8986 sections 4.13, 4.14 and 4.16.3; own rule).
pub fn what_a_path_carries_keeps_to_the_intent()
    ensures { (net : Network) (intent : Intent) → IsNetwork net → IsFlat net → IsIntent net intent →
        KeepsLaws (binding_legs_value net intent) → (moves : List Move) (c : Cost) →
        cost_of (binding_legs_value net intent) start moves ≡ Some c →
        (inner : Content) → IsInner intent.inner inner → (hop : ℕ) → c.hops < hop →
        let path = map (step_of (binding_legs_value net intent)) moves in
        let segments = list_values net (list_of net path) in
        IsSmall net intent segments inner hop →
        (choices : List ℕ) → 0 < length choices →
        KeepsTo net intent segments inner hop choices }
{}
