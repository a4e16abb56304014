//! The figures of the limits that the definitions cite, each written out: the contract of a
//! function that does nothing.

ghost use Rattle.std.specs.Prelude.{◌≡◌};
ghost use Rattle.command_output.specs.declared.limits.TheConstants.{MAX_INPUT_BYTES, MOST_WAITING};

/// The input has at most 64 MiB, and at most 65,591 bytes wait for a sink: a longest packet and the
/// 16 bytes before it.
pub fn limits_have_their_figures()
    ensures { (MAX_INPUT_BYTES ≡ 67108864) × (MOST_WAITING ≡ 65591) }
{}
