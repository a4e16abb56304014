//! Laws of lists, each the contract of a function that does nothing.

ghost use Rattle.std.specs.Prelude.{◌≡◌, ◌↔◌, ℕ, List, None};
ghost use Rattle.net_model.specs.Network.{Network};
ghost use Rattle.net_model.specs.NetworkRulesTerms.{IsNetwork};
ghost use Rattle.net_flatness.specs.Flat.{IsFlat};
ghost use Rattle.intent_reader.specs.IntentRules.{has_reach};
ghost use Rattle.intent_reader.specs.IntentRulesTerms.{IsIntent};
ghost use Rattle.intent_reader.specs.declared.intent.Intent.{Intent};
ghost use Rattle.list_pack.specs.declared.types.Container.{Container};
ghost use Rattle.list_pack.specs.SidLists.{IsLegalList, prefixes_in};
ghost use Rattle.intent_compiler.specs.IntentLegs.{ListRealizesFor, intent_legs_value};
ghost use Rattle.list_judge_theory.specs.ListCourses.{Course, tail_of};

/// A legal list of a flat network realizes an intent, with a need, exactly where there is a course
/// along its SIDs with as many hops: legs of the intent from SID to SID and a finish. The finish is
/// at the list's last SID; where no step is to reach a node it may also be at another SID of the last
/// container that takes what is inside wherever it stands there: one that isn't compressed, and from
/// which no packet goes on (RFC 8986 sections 4.4 to 4.8). So lists of which not all SIDs are
/// executed are told too.
pub fn a_list_realizes_exactly_along_a_course()
    ensures { (net : Network) (intent : Intent) (list : List Container) (need : ℕ)
        → IsNetwork net → IsFlat net → IsIntent net intent → IsLegalList net list
        → ListRealizesFor net intent list need
        ↔ Course (intent_legs_value net intent) net (tail_of (has_reach intent.steps) list) 0 None
        (prefixes_in list) need }
{}

/// A list realizes an intent with one need.
pub fn a_list_has_one_need()
    ensures { (net : Network) (intent : Intent) (list : List Container) (a b : ℕ)
        → ListRealizesFor net intent list a → ListRealizesFor net intent list b → a ≡ b }
{}
