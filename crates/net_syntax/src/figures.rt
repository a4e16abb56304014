//! The figures of the limits that the definitions cite, each written out: the contract of a
//! function that does nothing.

ghost use Rattle.std.specs.Prelude.{◌≡◌};
ghost use Rattle.net_syntax.specs.declared.limits.TheConstants.{MAX_STEPS, MAX_CONTAINERS, MAX_LOOSE_SIDS, DEFAULT_CONTAINERS};

/// An intent has at most 48 steps, and its list at most 127 containers, or 10 where it gives no
/// other number; with a loose step it is for at most 128 SIDs.
pub fn limits_have_their_figures()
    ensures { (MAX_STEPS ≡ 48) × (MAX_CONTAINERS ≡ 127) × (DEFAULT_CONTAINERS ≡ 10)
        × (MAX_LOOSE_SIDS ≡ 128) }
{}
