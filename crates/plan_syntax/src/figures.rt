//! The figures of the limits that the definitions cite, each written out: the contract of a
//! function that does nothing.

ghost use Rattle.std.specs.Prelude.{◌≡◌};
ghost use Rattle.plan_syntax.specs.declared.limits.TheConstants.{MAX_CABLES, MAX_METRICS, MAX_LOCATORS, MAX_SITES, MAX_SITE_PREFIXES, MAX_METRIC, DEFAULT_METRIC};

/// A plan has at most 4,096 cables, links, locators and sites each, and a site 65,536 prefixes. A
/// metric has 32 bits, and is 10 where a plan says nothing.
pub fn plan_limits_have_their_figures()
    ensures counts { (MAX_CABLES ≡ 4096) × (MAX_METRICS ≡ 4096) × (MAX_LOCATORS ≡ 4096)
        × (MAX_SITES ≡ 4096) × (MAX_SITE_PREFIXES ≡ 65536) }
    ensures metrics { (MAX_METRIC ≡ 4294967295) × (DEFAULT_METRIC ≡ 10) }
{}
