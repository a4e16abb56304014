//! The figures of the limits that the definitions cite, each written out: the contract of a
//! function that does nothing.

ghost use Rattle.std.specs.Prelude.{◌≡◌};
ghost use Rattle.pce_engine.specs.declared.limits.TheConstants.{MAX_NETWORKS, MAX_TEXT};

/// At most 1,024 networks are held, and a text that a request has or names has at most 64 MiB.
pub fn limits_have_their_figures()
    ensures { (MAX_NETWORKS ≡ 1024) × (MAX_TEXT ≡ 67108864) }
{}
