//! Laws of spellings, each the contract of a function that does nothing.

ghost use Rattle.std.specs.Prelude.{◌≡◌, List};
ghost use Rattle.net_model.specs.Network.{Network};
ghost use Rattle.net_model.specs.NetworkRulesTerms.{IsNetwork};
ghost use Rattle.net_flatness.specs.Flat.{IsFlat};
ghost use Rattle.list_pack.specs.declared.types.Container.{Container};
ghost use Rattle.list_pack.specs.SidLists.{IsLegalList, list_values};

/// In a flat network no two legal lists are spelled alike: with the same values, in order, they have
/// the same containers and SIDs (RFC 9800 sections 4.1 and 4.2, and own rules).
pub fn segments_spell_one_list()
    ensures { (net : Network) (a b : List Container) → IsNetwork net → IsFlat net
        → IsLegalList net a → IsLegalList net b → list_values net a ≡ list_values net b → a ≡ b }
{}
