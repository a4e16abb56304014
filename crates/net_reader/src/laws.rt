//! Laws about the definitions, each the contract of a function that does nothing.

ghost use Rattle.std.specs.Prelude.{◌≡◌, ◌↔◌, ℕ, List, Ok, option_map, option_and_then, slice_get};
ghost use Rattle.toml.specs.Data.{Members};
ghost use Rattle.net_model.specs.Network.{Network};
ghost use Rattle.net_model.specs.NetworkRulesTerms.{IsNetwork};
ghost use Rattle.net_model.specs.NetworkJudgingTerms.{InRange};
ghost use Rattle.net_syntax.specs.declared.description.Description.{Description};
ghost use Rattle.net_syntax.specs.DescriptionText.{description_of, description_in};
ghost use Rattle.net_reader.specs.Joining.{joined, title_in};
ghost use Rattle.net_reader.specs.StandingsTerms.{HaveTheirKeys};
ghost use Rattle.net_reader.specs.NetworkReading.{net_in};

/// The parts of what a tree describes are in the ranges that judging takes for granted.
pub fn described_parts_are_in_range()
    ensures { (root : Members) (said : Description) → description_of root ≡ Ok said
        → InRange (joined said) }
{}

/// A text gives a network exactly where it is TOML that describes something, whose parts with
/// numbers in place of names keep the rules of networks, and whose SIDs have the keys that their
/// behaviours take and no flavour twice; these parts are the network.
pub fn networks_keep_the_rules()
    ensures { (text : List ℕ) (net : Network) → (net_in text ≡ Ok net)
        ↔ ((said : Description) × (description_in text ≡ Ok said) × (joined said ≡ net)
        × IsNetwork net × HaveTheirKeys said) }
{}

/// The title that a SID's number leads to is its own, and a SID without a title has no number
/// (own rule: titles are numbered from 0 in the order of the description's SIDs).
#[tactic(auto, using(crate::proofs::ReaderTitleLemmas::titles))]
pub fn titles_have_their_numbers()
    ensures { (said : Description) (i : ℕ)
        → option_map (λ e. option_and_then (slice_get (joined said).titles) e.title)
        (slice_get (joined said).sids i)
        ≡ option_map title_in (slice_get said.sids i) }
{}
