//! Laws of what is said of lists, each the contract of a function that does nothing.

ghost use Rattle.std.specs.Prelude.{◌≡◌, true, false, Ok, Err};
ghost use Rattle.net_model.specs.Network.{Network};
ghost use Rattle.intent_reader.specs.declared.intent.Intent.{Intent};
ghost use Rattle.path_compiler.specs.declared.compiled.Compiled.{Compiled};
ghost use Rattle.path_compiler.specs.declared.compiled.CompileFault.TheVariants as faults;
ghost use Rattle.intent_compiler.specs.CompilerAnswers.{IntentAnswers};
ghost use Rattle.list_judge.specs.declared.judgement.Judgement.{Judgement};
ghost use Rattle.list_judge.specs.declared.judgement.Judgement.TheVariants.{Realizes};
ghost use Rattle.list_judge.specs.Judgements.{Judges};

/// What is said of a list that `compile` answers for an intent: it realizes the intent, with the
/// numbers that `compile` gave, and is least; and it is within the intent's bounds, but where
/// `compile` refuses it as too long or for the hop limit.
pub fn what_is_compiled_is_judged_least()
    ensures kept { (net : Network) (intent : Intent) (c : Compiled) (judgement : Judgement)
        → IntentAnswers net intent (Ok c) → Judges net intent c.list judgement
        → judgement ≡ Realizes c.need c.containers c.sids true true }
    ensures too_long { (net : Network) (intent : Intent) (c : Compiled) (judgement : Judgement)
        → IntentAnswers net intent (Err (faults.TooLong c)) → Judges net intent c.list judgement
        → judgement ≡ Realizes c.need c.containers c.sids true false }
    ensures hop_limit { (net : Network) (intent : Intent) (c : Compiled) (judgement : Judgement)
        → IntentAnswers net intent (Err (faults.HopLimit c)) → Judges net intent c.list judgement
        → judgement ≡ Realizes c.need c.containers c.sids true false }
{}
