//! The figures of the limits that the definitions cite, each written out: the contract of a
//! function that does nothing.

ghost use Rattle.std.specs.Prelude.{◌≡◌};
ghost use Rattle.command_inputs.specs.declared.limits.TheConstants.{MAX_CHOICES, MAX_SCHEDULE};

/// Words give at most 4,096 choices, a schedule of at most 65,536 entries, and as many events of an
/// update.
pub fn limits_have_their_figures()
    ensures { (MAX_CHOICES ≡ 4096) × (MAX_SCHEDULE ≡ 65536) }
{}
