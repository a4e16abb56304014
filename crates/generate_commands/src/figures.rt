//! The figure of the number that the definitions cite, written out: the contract of a function that
//! does nothing.

ghost use Rattle.std.specs.Prelude.{◌≡◌};
ghost use Rattle.generate_commands.specs.declared.gen_command.TheConstants.{PACKETS};

/// The summary that is generated is of 1,000 packets.
pub fn numbers_have_their_figures()
    ensures { PACKETS ≡ 1000 }
{}
