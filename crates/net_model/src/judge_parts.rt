//! The first fault of the parts of a network.

ghost use Rattle.text_faults.specs.TextReading.{Gives};
ghost use Rattle.net_model.specs.NetworkTerms.{network_of};
ghost use Rattle.net_model.specs.NetworkJudging.{judging};
ghost use Rattle.net_model.specs.NetworkJudgingTerms.{InRange};

use crate::judge_sids::SidRules;
use crate::net_judge::{BlockRules, LinkRules, NodeRules, PolicyRules, RouteRules, judge_all};
use crate::parts::NetParts;
use crate::standing::Standing;
use std::alloc::Global;
use text_faults::{NetFault, TableKind};

/// The first fault of the parts of a network.
#[tactic(auto, using(crate::proofs::NetworkJudgingLemmas::few_bound), unfolding(crate::specs::NetworkJudging::judging))]
pub(crate) fn judge_parts(
    alloc: Global,
    parts: &NetParts,
    standings: &[Standing],
) -> Result<(), NetFault>
    requires { InRange (network_of parts.now) }
    ensures { Gives (λ _. tt) result (judging (network_of parts.now) standings.now) }
{
    let links = LinkRules {
        node_count: parts.nodes.len(),
    };
    let routes = RouteRules {
        node_count: parts.nodes.len(),
        links: parts.links.as_slice(),
    };
    let sids = SidRules { parts, standings };
    judge_all(&BlockRules, TableKind::Block, parts.blocks.as_slice())?;
    judge_all(&NodeRules, TableKind::Node, parts.nodes.as_slice())?;
    judge_all(&links, TableKind::Link, parts.links.as_slice())?;
    routes.judge_all(alloc, parts.routes.as_slice())?;
    judge_all(&PolicyRules, TableKind::Policy, parts.policies.as_slice())?;
    Ok(judge_all(&sids, TableKind::Sid, parts.sids.as_slice())?)
}
