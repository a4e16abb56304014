//! What lists and legs through binding SIDs are, as definitions.
//!
//! A binding SID puts a policy's header in front of a packet (RFC 8986 sections 4.13 and 4.14), and
//! the nodes up to the SID that takes it off look at that header alone.
//!
//! - `specs/TunnelStages.antt` has one node's treatment of such a header and the packets below it,
//!   in a network where no link has an MTU; `specs/TunnelWalks.antt` the walk, and how deep a packet
//!   is in headers; `specs/TunnelLayers.antt` the packets below as bytes.
//! - `specs/OwnHands.antt` says which hand-over is the packet's own: the first without a header in
//!   front. `specs/OwnHandCounting.antt` says it of a walk over bytes. `specs/BindingRealizes.antt`
//!   has the lists that realize an intent by it, `specs/BindingHands.antt` those that hand over even
//!   one packet, and `specs/BindingSmall.antt` the packets that fit headers and links on the way.
//! - `specs/Machines.antt`, `specs/TunnelPackets.antt` and `specs/NetworkWorld.antt` have the walk of
//!   a pushed header by itself; `specs/Origins.antt` from where a packet goes on behind a SID, and
//!   `specs/BindingLegsValue.antt` what the legs through binding SIDs are to a search.
//!
//! The laws stand in `tunnel_stages_theory`, `tunnel_walks_theory`, `tunnel_network_theory` and
//! `binding_legs_theory`.
#![tactic(auto)]

mod origin;

pub use origin::Origin;
