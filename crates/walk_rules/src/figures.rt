//! The figure of the limit that the definitions cite, written out: the contract of a function that
//! does nothing.

ghost use Rattle.std.specs.Prelude.{◌≡◌};
ghost use Rattle.walk_rules.specs.declared.limits.TheConstants.{MAX_STAGES};

/// A walk has at most 10,000 stages.
pub fn limits_have_their_figures()
    ensures { MAX_STAGES ≡ 10000 }
{}
