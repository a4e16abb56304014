//! Limits of plans. The definitions cite these, and so does the code.

/// Cables of a plan.
pub const MAX_CABLES: usize = 4096;

/// Links of which a plan says the metric by their names.
pub const MAX_METRICS: usize = 4096;

/// Locators of a plan.
pub const MAX_LOCATORS: usize = 4096;

/// Sites of a plan.
pub const MAX_SITES: usize = 4096;

/// Prefixes of a site.
pub const MAX_SITE_PREFIXES: usize = 65536;

/// The largest metric of a link; the least is 1.
pub const MAX_METRIC: u32 = 4_294_967_295;

/// The metric of a link of which a plan says nothing.
pub const DEFAULT_METRIC: u32 = 10;
