//! What a plan says, or its first fault of shape.
//!
//! A plan has the cables, metrics, locators and sites from which links and routes of a network come.
//! `read_plan_words` reads its text by the reader of descriptions: first as TOML, and then its tree,
//! table by table, item by item and key by key, in one written order. What it gives holds names as
//! texts: whether a name is known is judged later, beside a description. `specs/PlanText.antt` has
//! the same order as functions on the tree. Values are read as in descriptions (`toml_reader`,
//! `net_syntax`), and their faults are told at the plan's own tables and keys. Areas, summaries and discard routes aren't among the
//! keys: they need routes to nowhere, which descriptions don't have.
#![tactic(auto)]

mod both_ways;
mod cable_table;
pub mod figures;
mod limits;
mod locator_table;
mod metric_table;
mod plan_faults;
mod plan_items;
mod plan_keys;
mod plan_places;
mod plan_table;
mod plan_values;
mod plan_words;
mod site_table;
mod two_names;

pub use both_ways::BothWays;
pub use cable_table::DescribedCable;
pub use limits::{
    DEFAULT_METRIC, MAX_CABLES, MAX_LOCATORS, MAX_METRIC, MAX_METRICS, MAX_SITE_PREFIXES, MAX_SITES,
};
pub use locator_table::DescribedLocator;
pub use metric_table::DescribedMetric;
pub use plan_faults::{PlanError, PlanFault, PlanFaultKind};
pub use plan_places::{PlanKey, PlanPlace, PlanTable};
pub use plan_table::{DescribedPlan, describe_plan, read_plan_words};
pub use site_table::DescribedSite;
pub use two_names::TwoNames;
