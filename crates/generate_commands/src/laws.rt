//! A law of the definitions: the contract of a function that does nothing.

ghost use Rattle.std.specs.Prelude.{◌≡◌, ℕ, List};
ghost use Rattle.command_output.specs.OutputPieces.{Output};
ghost use Rattle.command_output.specs.CommandSpec.{Held};
ghost use Rattle.generate_commands.specs.declared.gen_command.Made.{Made};
ghost use Rattle.generate_commands.specs.GenCommand.{gen_spec};

/// Of one size `gen` has one output for each thing that it generates.
pub fn gen_has_one_output()
    ensures { (n : ℕ) (made : Made) (held : Held) (input : List ℕ) (a b : Output)
        → (gen_spec n made).wants held input a → (gen_spec n made).wants held input b → a ≡ b }
{}
