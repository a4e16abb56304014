//! What lists and legs along loose steps are, as definitions.
//!
//! A loose step is one that is to reach a node over any links.
//!
//! - `specs/LooseRealizes.antt` says when a list realizes steps of which some may be loose, and what
//!   it needs, by the stages of walks alone; `specs/LooseExecutions.antt` which SIDs stages execute,
//!   at which nodes and after how many finished steps; `specs/LooseSmall.antt` which packets fit
//!   their header and links on the way.
//! - `specs/LooseSteps.antt` says where a walk stands between steps, `specs/LooseSids.antt` which
//!   SIDs may be executed at a position, `specs/LooseLegs.antt` what legs and finishes are by
//!   look-ups alone, and `specs/LooseLegsValue.antt` what they are to a search.
//!
//! The laws stand in `loose_legs_theory` and `loose_meaning_theory`.
#![tactic(auto)]
