//! Generated networks: the texts of a description and of an intent that grow with a size, and the
//! packets that are sent through them.
//!
//! `write_net` and `write_intent` append the texts, and `write_packet` a packet's bytes.
//! `specs/Networks.antt`, `specs/Intents.antt` and `specs/GeneratedPackets.antt` say what is written, byte
//! by byte.
#![tactic(auto)]

mod generated_intent;
mod generated_net;
mod generated_packet;
mod generated_routes;
mod generated_sids;
mod size;

pub use generated_intent::write_intent;
pub use generated_net::write_net;
pub use generated_packet::write_packet;
pub use size::{MAX_NODES, MIN_NODES, Size};
