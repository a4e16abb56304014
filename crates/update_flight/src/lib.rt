//! Packets in flight while the tables of their network pass from an old description to a new one.
//!
//! `Transition` has the packets and the edits of the tables, in their order: what is added, the
//! switch, after which packets enter by the new description, and what is removed, which waits for the
//! packets from before the switch. `specs/MomentTables.antt` says when tables keep a description's own
//! matches, `specs/Transition.antt` what an edit and a packet that enters leave,
//! `specs/Interleaving.antt` what any sequence of them gives each packet, and `specs/Planned.antt` which
//! tables the edits of a plan leave. The functions of `laws` do nothing: their contracts are the laws
//! of those definitions.
#![tactic(auto)]

mod laws;
mod table_edit;
mod transition;

pub use laws::{
    a_packet_takes_the_walk_of_its_description, a_removal_waits_for_the_first_early_packet,
    a_transition_stays_one, own_stages_stay, planned_tables_pass_over,
};
pub use table_edit::{Busy, Edit};
pub use transition::Transition;
