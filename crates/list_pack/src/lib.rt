//! What a search for the least list of SIDs goes by: legs between SIDs, the room that is left in a
//! container, states, edges and costs.
//!
//! A list of SIDs is a path of states. A state says how many steps of an intent are done, which SID
//! was executed last, and how much room is left in its container. An edge executes one more SID, in
//! the same container or in a new one; it costs one container where it opens one, what the legs say
//! that a SID costs, and as many hops as its leg lowers the hop limit. The last edge is a finish,
//! which exposes the packet inside. Costs are compared by containers first, then by SIDs, then by
//! hops.
//!
//! A path of states is a legal list of containers, and the other way round: `list_of` makes the
//! list of a path, `values` the segments of a legal list over SIDs of a flat network, `is_legal`
//! tells whether a list is legal in a network, `flavour_of` how the SIDs on a prefix are
//! compressed, and `header_bytes` how many bytes of headers a list takes.
//!
//! `specs/LegsValue.antt` has legs and their laws, `specs/Meaning.antt` what it is that legs mean
//! lists, `specs/Rooms.antt` the rooms of containers (RFC 9800 sections 4.1 and 4.2),
//! `specs/Costs.antt` edges and costs, `specs/ListOrder.antt` the order of lists of numbers,
//! `specs/Least.antt` what a least cost, a good potential, the first least path and a whole
//! solution are. `specs/SidLists.antt` has the lists of a network's prefixes and which are legal,
//! `specs/PathLists.antt` the list of a path, `specs/Paths.antt` a path's cost by rooms and legs
//! apart; `specs/OpenContainers.antt`, `specs/Barred.antt` and `specs/SegmentValues.antt` are what
//! the code of `is_legal` and of `values` goes by. The functions of `laws` do nothing: their
//! contracts are the laws by which certificates are judged, and that paths are legal lists.
#![tactic(auto)]

mod costs;
mod flavours;
mod laws;
mod legs;
mod lists;
mod nest_units;
mod rooms;
mod search_rules;
mod segments;
mod types;

pub use costs::{is_below, move_cost, plus, step_before};
pub use flavours::flavour_of;
pub use laws::{
    a_cost_is_containers_sids_and_hops, a_legal_list_is_a_path,
    a_legal_list_is_the_list_of_its_steps, a_path_is_a_legal_list, a_path_of_tight_edges_is_least,
    a_search_has_one_solution, least_costs_are_good, sids_of_a_flat_network_suit_lists,
    unlisted_states_have_no_path,
};
pub use legs::{Legs, ListLegs};
pub use lists::{header_bytes, list_of};
pub use rooms::{full_room, room_behind, top_room};
pub use search_rules::is_legal;
pub use segments::values;
pub use types::{
    Container, Cost, Leg, PathStep, Potential, Prefixes, Shape, SidList, Solution, State,
};
