//! Laws of what an intent is compiled to, and of certificates, each the contract of a function that
//! does nothing.

ghost use Rattle.std.specs.Prelude.{◌≡◌, ◌≢◌, ◌↔◌, ℕ, All, Bool, IsTrue, true, List, [], Result, Err};
ghost use Rattle.net_model.specs.Network.{Network};
ghost use Rattle.net_model.specs.NetworkRulesTerms.{IsNetwork};
ghost use Rattle.net_flatness.specs.Flat.{IsFlat};
ghost use Rattle.intent_reader.specs.IntentRules.{has_reach};
ghost use Rattle.intent_reader.specs.IntentRulesTerms.{IsIntent};
ghost use Rattle.intent_reader.specs.declared.intent.Intent.{Intent};
ghost use Rattle.intent_reader.specs.Preferences.{sid_cost_of};
ghost use Rattle.list_pack.specs.declared.types.Container.{Container};
ghost use Rattle.list_pack.specs.declared.types.Solution.{Solution};
ghost use Rattle.list_pack.specs.Least.{IsSolution};
ghost use Rattle.list_pack.specs.Meaning.{Means};
ghost use Rattle.list_pack.specs.LegsValueTerms.{KeepsLaws};
ghost use Rattle.list_certificate.specs.declared.certificate_types.Verdict.{Verdict};
ghost use Rattle.list_certificate.specs.declared.certificate_types.Verdict.TheVariants.{NoList};
ghost use Rattle.list_certificate.specs.CertificateReadingTerms.{IsNetworkOf};
ghost use Rattle.leg_table.specs.Realizes.{ListRealizes};
ghost use Rattle.leg_table.specs.RealizesTerms.{ListExecutes, ListHands};
ghost use Rattle.leg_table.specs.StepMatching.{matches};
ghost use Rattle.leg_table.specs.WalkTrace.{TraceEvent};
ghost use Rattle.leg_table.specs.StrictLegsValue.{legs_value};
ghost use Rattle.binding_spec.specs.BindingRealizes.{OwnListExecutes, OwnListRealizes};
ghost use Rattle.binding_spec.specs.BindingHands.{OwnListHands};
ghost use Rattle.binding_spec.specs.BindingLegsValue.{binding_legs_value};
ghost use Rattle.loose_spec.specs.LooseRealizes.{LooseListExecutes, LooseListHands, LooseListRealizes};
ghost use Rattle.loose_spec.specs.LooseLegsValue.{loose_legs_value};
ghost use Rattle.loose_legs.specs.IntentSteps.{trace_steps};
ghost use Rattle.path_compiler.specs.declared.compiled.Compiled.{Compiled};
ghost use Rattle.path_compiler.specs.declared.compiled.CompileFault.{CompileFault};
ghost use Rattle.path_compiler.specs.declared.compiled.CompileFault.TheVariants as faults;
ghost use Rattle.path_compiler.specs.Checked.{Says, SaysOver};
ghost use Rattle.path_compiler.specs.CheckedTerms.{SaysOfHanding, least_of};
ghost use Rattle.path_compiler.specs.Compiled.{AnswersOver, IsFound, NoneLessOver};
ghost use Rattle.path_compiler.specs.CompiledTerms.{CompileAnswers, NoLessHandsOver};
ghost use Rattle.intent_compiler.specs.CompilerAnswers.{IntentAnswers, NoneLessFor};
ghost use Rattle.intent_compiler.specs.LegKinds.{BindsNothing};
ghost use Rattle.intent_compiler.specs.LegKindsTerms.{ReachesNothing};
ghost use Rattle.intent_compiler.specs.IntentLegs.{ListExecutesFor, ListHandsFor, ListRealizesFor, intent_legs_value};
ghost use Rattle.intent_compiler.specs.KeptSteps.{KeepsToSteps};
ghost use Rattle.intent_compiler.specs.KeptStepsTerms.{IsOfSteps};
ghost use Rattle.intent_compiler.specs.IntentVerdicts.{SaysFor, SaysOfHandingFor};
ghost use Rattle.intent_compiler.specs.IntentVerdictsTerms.{CertifiesAnswerFor, CertifiesFor};
ghost use Rattle.intent_compiler.specs.OtherPreferences.{DifferInPreference, TellsNoList};

/// In a flat network the legs of an intent keep the laws of legs, their SIDs are SIDs of the
/// network, and they mean the legal lists that realize the intent. A SID costs what the intent
/// prefers.
pub fn the_legs_of_an_intent_mean_its_lists()
    ensures laws { (net : Network) (intent : Intent)
        → IsNetwork net → IsFlat net → IsIntent net intent
        → KeepsLaws (intent_legs_value net intent) }
    ensures means { (net : Network) (intent : Intent)
        → IsNetwork net → IsFlat net → IsIntent net intent
        → Means (intent_legs_value net intent) net (ListRealizesFor net intent)
        (ListExecutesFor net intent) (ListHandsFor net intent) }
    ensures sids { (net : Network) (intent : Intent)
        → IsNetwork net → IsFlat net → IsIntent net intent
        → IsNetworkOf net (intent_legs_value net intent) }
    ensures sid_cost { (net : Network) (intent : Intent)
        → (intent_legs_value net intent).sid_cost ≡ sid_cost_of intent.prefer }
{}

/// In a flat network the certificate of what the search found over the legs of an intent, wherever
/// its head stands, is judged `Least` with exactly the chosen list's containers, SIDs and need, in
/// either form of the header, and `NoList` where no path was found. So it is for each answer of `compile`,
/// also where the least list is too long or its need not below the hop limit.
pub fn a_certificate_tells_what_was_compiled()
    ensures found { (net : Network) (intent : Intent) (reduced : Bool) (c : Compiled)
        → IsNetwork net → IsFlat net → IsIntent net intent
        → IsFound (intent_legs_value net intent) net (ListRealizesFor net intent)
        (ListExecutesFor net intent) reduced c
        → CertifiesFor net intent c.solution
        (least_of (intent_legs_value net intent) c) }
    ensures none { (net : Network) (intent : Intent) (s : Solution)
        → IsNetwork net → IsFlat net → IsIntent net intent
        → IsSolution (intent_legs_value net intent) s → s.path ≡ []
        → CertifiesFor net intent s NoList }
    ensures answers { (net : Network) (intent : Intent) (answer : Result Compiled CompileFault)
        → IsNetwork net → IsIntent net intent → IntentAnswers net intent answer
        → CertifiesAnswerFor net intent answer }
{}

/// But for want of memory an intent has one answer of `compile` in a network: one refusal, or one
/// list with its numbers; and what the search found is one too.
pub fn an_intent_has_one_answer()
    ensures { (net : Network) (intent : Intent) (a b : Result Compiled CompileFault)
        → IntentAnswers net intent a → IntentAnswers net intent b
        → a ≢ Err faults.NoMemory → b ≢ Err faults.NoMemory → a ≡ b }
{}

/// Two intents that differ in nothing but what they prefer are realized by the same lists with the
/// same needs, as many SIDs of a list are executed, and the same lists hand over even one packet at
/// the same hop limits; so there is no list for the one exactly where there is none for the other.
pub fn no_list_whichever_is_preferred()
    ensures realizes { (net : Network) (intent other : Intent) (list : List Container) (need : ℕ)
        → DifferInPreference intent other
        → ListRealizesFor net intent list need ↔ ListRealizesFor net other list need }
    ensures executes { (net : Network) (intent other : Intent) (list : List Container) (count : ℕ)
        → DifferInPreference intent other
        → ListExecutesFor net intent list count ↔ ListExecutesFor net other list count }
    ensures hands { (net : Network) (intent other : Intent) (list : List Container) (hop : ℕ)
        → DifferInPreference intent other
        → ListHandsFor net intent list hop ↔ ListHandsFor net other list hop }
    ensures none { (net : Network) (intent other : Intent) (a b : Result Compiled CompileFault)
        → DifferInPreference intent other
        → IntentAnswers net intent a → IntentAnswers net other b
        → a ≢ Err faults.NoMemory → b ≢ Err faults.NoMemory
        → TellsNoList a ↔ TellsNoList b }
{}

/// What a verdict says of the legal lists that realize an intent holds in a flat network of those
/// too that hand over even one inner packet at one hop limit: `Least` gives the least cost of
/// these, with a hop limit in the place of a need one higher, and with `NoList` there are none.
pub fn a_verdict_speaks_of_lists_that_hand_over()
    ensures { (net : Network) (intent : Intent) (verdict : Verdict)
        → IsNetwork net → IsFlat net → IsIntent net intent → SaysFor net intent verdict
        → SaysOfHandingFor net intent verdict }
{}

/// A trace whose events meet the steps of an intent, one each, keeps to them; where no step is to
/// reach a node, no other does. Each link that a trace which keeps to the steps crosses is one that
/// a step may cross: a link of its set, or on the way to a node one that leads to a node.
pub fn traces_that_keep_to_steps_cross_their_links()
    ensures met { (net : Network) (intent : Intent) (trace : List TraceEvent)
        → IsTrue (matches intent.steps trace) → KeepsToSteps net intent trace }
    ensures strict { (net : Network) (intent : Intent) (trace : List TraceEvent)
        → ReachesNothing intent → KeepsToSteps net intent trace
        → IsTrue (matches intent.steps trace) }
    ensures links { (net : Network) (intent : Intent) (trace : List TraceEvent)
        → KeepsToSteps net intent trace → All (IsOfSteps net intent.steps) trace }
{}

/// Where no step of an intent is to reach a node, all of this is as over the legs through binding
/// SIDs: the legs are those, a list realizes the intent where it does so by a packet's own
/// hand-over, with the same need, as many of its SIDs are executed, and it hands over even one
/// packet at the same hop limits; so the intent has the same answers, and a verdict says the same.
pub fn without_a_reach_answers_are_of_own_hand_overs()
    ensures legs { (net : Network) (intent : Intent) → ReachesNothing intent
        → intent_legs_value net intent ≡ binding_legs_value net intent }
    ensures realizes { (net : Network) (intent : Intent) (list : List Container) (need : ℕ)
        → ReachesNothing intent
        → ListRealizesFor net intent list need ↔ OwnListRealizes net intent list need }
    ensures executes { (net : Network) (intent : Intent) (list : List Container) (count : ℕ)
        → ReachesNothing intent
        → ListExecutesFor net intent list count ↔ OwnListExecutes net intent list count }
    ensures hands { (net : Network) (intent : Intent) (list : List Container) (hop : ℕ)
        → ReachesNothing intent
        → ListHandsFor net intent list hop ↔ OwnListHands net intent list hop }
    ensures answers { (net : Network) (intent : Intent) (answer : Result Compiled CompileFault)
        → ReachesNothing intent
        → IntentAnswers net intent answer
        ↔ AnswersOver (binding_legs_value net intent) net (OwnListRealizes net intent)
        (OwnListExecutes net intent) intent answer }
    ensures none_less { (net : Network) (intent : Intent) (answer : Result Compiled CompileFault)
        → ReachesNothing intent
        → NoneLessFor net intent answer
        ↔ NoneLessOver (sid_cost_of intent.prefer) net (OwnListHands net intent) intent.reduced answer }
    ensures says { (net : Network) (intent : Intent) (verdict : Verdict) → ReachesNothing intent
        → SaysFor net intent verdict
        ↔ Says (sid_cost_of intent.prefer) net (OwnListRealizes net intent) (OwnListExecutes net intent) verdict }
    ensures handing { (net : Network) (intent : Intent) (verdict : Verdict)
        → ReachesNothing intent
        → SaysOfHandingFor net intent verdict
        ↔ SaysOver (sid_cost_of intent.prefer) net (OwnListHands net intent) verdict }
{}

/// Where a step of an intent is loose, all of this is over the legs along such steps and
/// the lists that realize them: those each of whose SIDs is executed at one node and after one
/// number of finished steps for all choices, and none of whose SIDs is a binding SID.
pub fn with_a_reach_answers_are_loose()
    ensures legs { (net : Network) (intent : Intent) → has_reach intent.steps ≡ true
        → intent_legs_value net intent ≡ loose_legs_value net intent (trace_steps intent) }
    ensures answers { (net : Network) (intent : Intent) (answer : Result Compiled CompileFault)
        → has_reach intent.steps ≡ true
        → IntentAnswers net intent answer
        ↔ AnswersOver (loose_legs_value net intent (trace_steps intent)) net
        (LooseListRealizes net intent (trace_steps intent))
        (LooseListExecutes net intent (trace_steps intent)) intent answer }
    ensures none_less { (net : Network) (intent : Intent) (answer : Result Compiled CompileFault)
        → has_reach intent.steps ≡ true
        → NoneLessFor net intent answer
        ↔ NoneLessOver (sid_cost_of intent.prefer) net (LooseListHands net intent (trace_steps intent)) intent.reduced answer }
    ensures says { (net : Network) (intent : Intent) (verdict : Verdict)
        → has_reach intent.steps ≡ true
        → SaysFor net intent verdict
        ↔ Says (sid_cost_of intent.prefer) net (LooseListRealizes net intent (trace_steps intent))
        (LooseListExecutes net intent (trace_steps intent)) verdict }
    ensures handing { (net : Network) (intent : Intent) (verdict : Verdict)
        → has_reach intent.steps ≡ true
        → SaysOfHandingFor net intent verdict
        ↔ SaysOver (sid_cost_of intent.prefer) net (LooseListHands net intent (trace_steps intent)) verdict }
{}

/// Where no step of an intent is to reach a node and the network has no binding SID, all of
/// this is as over strict steps: the legs are the same, a list realizes the intent with the same
/// need, as many of its SIDs are executed, and it hands over even one packet at the same hop
/// limits; so the intent has the same answers, and a verdict says the same.
pub fn without_binding_sids_answers_are_strict()
    ensures legs { (net : Network) (intent : Intent) → ReachesNothing intent → BindsNothing net
        → intent_legs_value net intent ≡ legs_value net intent }
    ensures realizes { (net : Network) (intent : Intent) (list : List Container) (need : ℕ)
        → ReachesNothing intent → BindsNothing net
        → ListRealizesFor net intent list need ↔ ListRealizes net intent list need }
    ensures executes { (net : Network) (intent : Intent) (list : List Container) (count : ℕ)
        → ReachesNothing intent → BindsNothing net
        → ListExecutesFor net intent list count ↔ ListExecutes net intent list count }
    ensures hands { (net : Network) (intent : Intent) (list : List Container) (hop : ℕ)
        → ReachesNothing intent → BindsNothing net
        → ListHandsFor net intent list hop ↔ ListHands net intent list hop }
    ensures answers { (net : Network) (intent : Intent) (answer : Result Compiled CompileFault)
        → ReachesNothing intent → BindsNothing net
        → IntentAnswers net intent answer ↔ CompileAnswers net intent answer }
    ensures none_less { (net : Network) (intent : Intent) (answer : Result Compiled CompileFault)
        → ReachesNothing intent → BindsNothing net
        → NoneLessFor net intent answer ↔ NoLessHandsOver net intent answer }
    ensures says { (net : Network) (intent : Intent) (verdict : Verdict)
        → ReachesNothing intent → BindsNothing net
        → SaysFor net intent verdict
        ↔ Says (sid_cost_of intent.prefer) net (ListRealizes net intent) (ListExecutes net intent) verdict }
    ensures handing { (net : Network) (intent : Intent) (verdict : Verdict)
        → ReachesNothing intent → BindsNothing net
        → SaysOfHandingFor net intent verdict ↔ SaysOfHanding net intent verdict }
{}
