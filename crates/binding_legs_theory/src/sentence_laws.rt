//! Laws of the definitions: each is the contract of an empty function.

ghost use Rattle.std.specs.Prelude.{◌≡◌, ◌↔◌, ℕ, Option, Some};
ghost use Rattle.net_model.specs.Network.{Network};
ghost use Rattle.net_model.specs.NetworkRulesTerms.{IsNetwork};
ghost use Rattle.net_flatness.specs.Flat.{IsFlat};
ghost use Rattle.intent_reader.specs.IntentRulesTerms.{IsIntent};
ghost use Rattle.intent_reader.specs.declared.intent.Intent.{Intent};
ghost use Rattle.list_pack.specs.declared.types.Leg.{Leg};
ghost use Rattle.leg_table.specs.StrictLegsTerms.{IsAddressOf, IsLastAddressOf};
ghost use Rattle.binding_spec.specs.BindingLegsValue.{binding_finish, binding_leg};
ghost use Rattle.binding_legs_theory.specs.BindingSentences.{IsBindingFinish, IsBindingLeg};

/// A leg through binding SIDs is there exactly where for all choices a packet to the next SID, from
/// behind the whole walk of the header that the SID before pushed, if it pushed one, is executed
/// there first with no header in front, along exactly the steps up to the leg's end: a packet with
/// a next segment, to any address of the SID's own that is multicast exactly where the first one
/// is. The hops count the lowerings of the packet's own hop limit with that execution, and no
/// lowering of a header in front; from a binding SID to the hand-over that takes off the last
/// header in front there are at most 1,000 stages, both counted (RFC 8986 sections 4.13, 4.14 and
/// 4.16.3; own rule).
pub fn a_leg_through_binding_sids_is_for_all_choices()
    ensures { (net : Network) (intent : Intent) (position : ℕ) (via : Option ℕ) (next : ℕ) →
        (address : ℕ) (leg : Leg) → IsNetwork net → IsFlat net → IsIntent net intent →
        IsAddressOf net next address →
        (binding_leg net intent position via next ≡ Some leg)
        ↔ IsBindingLeg net intent address position via next leg }
{}

/// A finish through binding SIDs is there exactly where for all choices a packet to the last SID,
/// from behind the whole walk of the header that the SID before pushed, if it pushed one, comes to
/// its own hand-over there after exactly the steps that are left: a packet to any address of the
/// SID's own that is multicast exactly where the first one is and has no further SID after it. Its
/// number is that of the lowerings of the packet's own hop limit, and no lowering of a header in
/// front counts (RFC 8986 sections 4.13, 4.14 and 4.16.3; own rule).
pub fn a_finish_through_binding_sids_is_for_all_choices()
    ensures { (net : Network) (intent : Intent) (position : ℕ) (via : Option ℕ) (next : ℕ) →
        (address lowered : ℕ) → IsNetwork net → IsFlat net → IsIntent net intent →
        IsLastAddressOf net next address →
        (binding_finish net intent position via next ≡ Some lowered)
        ↔ IsBindingFinish net intent address position via next lowered }
{}
