//! What a description and an intent say, or their first fault of shape.
//!
//! `read_description` and `read_intent_words` read a text: first as TOML, and then its tree, table
//! by table, item by item and key by key, in one written order. What they give holds names as
//! texts: whether a name is known, and whether parts fit one another, is judged later. `specs/` has
//! the same order as functions on the tree, and each call here gives exactly what they give.
#![tactic(auto)]

mod block_table;
mod description;
mod family_prefix;
pub mod figures;
mod intent_table;
mod limits;
mod link_table;
mod node_table;
mod numbers;
mod policy_table;
mod route_table;
mod sid_table;
mod step_table;
mod words;

pub use block_table::DescribedBlock;
pub use description::{Description, describe, read_description};
pub use family_prefix::FamilyPrefix;
pub use intent_table::{DescribedIntent, Mode, Prefer, describe_intent, read_intent_words};
pub use limits::{DEFAULT_CONTAINERS, MAX_CONTAINERS, MAX_LOOSE_SIDS, MAX_STEPS};
pub use link_table::DescribedLink;
pub use node_table::DescribedNode;
pub use policy_table::DescribedPolicy;
pub use route_table::DescribedRoute;
pub use sid_table::{BehaviourWord, DescribedSid, Flavour};
pub use step_table::DescribedStep;
