//! Laws about the definitions, each the contract of a function that does nothing.

ghost use Rattle.std.specs.Prelude.{◌≡◌, ℕ, Option, Some, false};
ghost use Rattle.net_model.specs.Network.{Network};
ghost use Rattle.net_model.specs.NetworkKeeps.{Keeps};
ghost use Rattle.net_model.specs.NetworkRulesTerms.{IsNetwork};
ghost use Rattle.net_flatness.specs.Flat.{IsFlat};
ghost use Rattle.intent_reader.specs.IntentRulesTerms.{IsIntent};
ghost use Rattle.intent_reader.specs.declared.intent.Intent.{Intent};
ghost use Rattle.list_pack.specs.LegsValueTerms.{KeepsLaws};
ghost use Rattle.leg_table.specs.StrictLegsTerms.{finish_of, leg_of};
ghost use Rattle.leg_table.specs.PositionSids.{is_binding};
ghost use Rattle.leg_table.specs.StrictTable.{shape_of};
ghost use Rattle.binding_spec.specs.declared.origin.Origin.{Origin};
ghost use Rattle.binding_spec.specs.Origins.{binding_origin};
ghost use Rattle.binding_legs_theory.specs.OriginFacts.{OriginsFrom};
ghost use Rattle.binding_spec.specs.BindingLegsValue.{binding_finish, binding_leg, binding_legs_value, binding_shape};

/// A packet goes on to its next SID from a place of the network where the walk stands after the
/// steps that are done, and these are no fewer than those of the position; so it is behind the
/// whole walk of a header that a binding SID pushes too.
pub fn an_origin_is_where_the_walk_stands()
    ensures { (net : Network) (intent : Intent) (position : ℕ) (via : Option ℕ) (origin : Origin) →
        Keeps net → IsIntent net intent → binding_origin net intent position via ≡ Some origin →
        OriginsFrom net intent position origin }
{}

/// The legs of an intent through binding SIDs keep the laws of legs.
pub fn legs_through_binding_sids_keep_the_laws()
    ensures { (net : Network) (intent : Intent) → IsNetwork net → IsFlat net →
        IsIntent net intent → KeepsLaws (binding_legs_value net intent) }
{}

/// Where there is no binding SID they are the strict legs: the same legs and finishes, and the same
/// SIDs are middle.
pub fn without_binding_sids_legs_are_strict()
    ensures leg { (net : Network) (intent : Intent) (position : ℕ) (via : Option ℕ) (next : ℕ) →
        ((n : ℕ) → is_binding net n ≡ false) →
        binding_leg net intent position via next ≡ leg_of net intent position via next }
    ensures finish { (net : Network) (intent : Intent) (position : ℕ) (via : Option ℕ) (next : ℕ) →
        ((n : ℕ) → is_binding net n ≡ false) →
        binding_finish net intent position via next ≡ finish_of net intent position via next }
    ensures shape { (net : Network) (sid : ℕ) → ((n : ℕ) → is_binding net n ≡ false) →
        binding_shape net sid ≡ shape_of net sid }
{}
