//! Lists of segments that somebody else made, judged against a network and an intent.
//!
//! `judge` says whether a legal list realizes an intent, with the hop limit that it needs, and
//! whether it is as good as the list that `compile` chooses; or that it doesn't, with the first SID
//! that isn't executed as the steps ask and why. `judge_flat` is the same where the network is known
//! to be flat. `segment_reading` reads a list from its addresses. A list is judged along the legs of
//! the intent, SID by SID, without a search (`list_judge_theory` says why that is exact); only
//! whether it is least takes the search of `path_compiler`.
//!
//! `specs/Judgements.antt` says what an answer means, and `specs/CourseTurns.antt` what the code goes
//! by. The function of `laws` does nothing: its contract is the law on what `compile` answers.
#![tactic(auto)]

mod course;
mod judgement;
mod judging;
mod laws;
mod least;

pub use judgement::{JudgeFault, Judgement};
pub use judging::{judge, judge_flat};
pub use laws::what_is_compiled_is_judged_least;
