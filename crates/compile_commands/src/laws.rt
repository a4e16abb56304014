//! What `check` says of what `compile` printed, and that this is one.

ghost use Rattle.std.specs.Prelude.{◌≡◌, ◌↔◌, ℕ, List, Option};
ghost use Rattle.net_model.specs.Network.{Network};
ghost use Rattle.net_flatness.specs.Flat.{flatness_of};
ghost use Rattle.intent_reader.specs.declared.intent.Intent.{Intent};
ghost use Rattle.intent_compiler.specs.LegKinds.{BindsNothing};
ghost use Rattle.intent_compiler.specs.LegKindsTerms.{ReachesNothing};
ghost use Rattle.command_output.specs.OutputPieces.{Output};
ghost use Rattle.command_output.specs.CommandSpec.{Held};
ghost use Rattle.compile_commands.specs.CheckCommand.{FlatWants};
ghost use Rattle.compile_commands.specs.CompileCommand.{AnswerWants, CompiledWants, compile_spec};
ghost use Rattle.compile_commands.specs.Printed.{CheckConfirmsCompile};
ghost use Rattle.compile_commands.specs.Strict.{StrictlyCompiled, StrictlyJudged};

use net_reader::networks_keep_the_rules;

/// What `compile` writes to `out`, where it has no more bytes than a file may have, is a
/// certificate that `check` confirms, given the same description and intent: it tells `least` with
/// exactly the report's containers and need, and its SIDs where it has them, also of a list that is
/// too long or needs too high a hop limit, or `none` where there is no list. What `compile` refuses
/// `check` refuses with the same line, where the certificate's file is there and holds what
/// `compile` wrote, which is nothing.
pub fn check_confirms_what_compile_prints()
    ensures { CheckConfirmsCompile }
{
    networks_keep_the_rules();
}

/// With one description and one intent `compile` has one output, whatever the input is: one list,
/// the least among all legal lists that realize the intent, its numbers and one certificate, or one
/// refusal.
pub fn compile_has_one_output()
    ensures { (file intent : List ℕ) (held : Held) (input other : List ℕ) (a b : Output)
        → (compile_spec file intent).wants held input a
        → (compile_spec file intent).wants held other b → a ≡ b }
{}

/// Where no step of an intent is to reach a node and a network has no binding SID, `compile`
/// and `check` have the outputs that answers and verdicts over the strict steps of the intent give,
/// and no others.
pub fn without_binding_sids_outputs_are_strict()
    ensures compile { (net : Network) (intent : Intent) (output : Output)
        → ReachesNothing intent → BindsNothing net
        → CompiledWants AnswerWants net intent output ↔ StrictlyCompiled net intent output }
    ensures check { (net : Network) (intent : Intent) (cert : Option (List ℕ)) (output : Output)
        → ReachesNothing intent → BindsNothing net
        → FlatWants net intent (flatness_of net) cert output
        ↔ StrictlyJudged net intent (flatness_of net) cert output }
{}
