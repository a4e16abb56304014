//! The figures of the limits that the definitions cite, each written out: the contract of a
//! function that does nothing.

ghost use Rattle.std.specs.Prelude.{◌≡◌};
ghost use Rattle.pce_protocol.specs.declared.limits.TheConstants.{MAX_ID_BYTES, MAX_CHOICES};

/// An id has at most 256 bytes where a reply has it, and a trace at most 4,096 choices.
pub fn limits_have_their_figures()
    ensures { (MAX_ID_BYTES ≡ 256) × (MAX_CHOICES ≡ 4096) }
{}
