//! Whether parts are in the ranges that judging takes for granted.

ghost use Rattle.std.specs.Prelude.{◌≡◌, ◌↔◌, IsTrue};
ghost use Rattle.std.specs.List.{list_all, filter_map};
ghost use Rattle.net_model.specs.NetworkTerms.{network_of};
ghost use Rattle.net_model.specs.NetworkRules.{block_len_of};
ghost use Rattle.net_model.specs.NetworkRulesTerms.{is_segment, keeps_node, title_of};
ghost use Rattle.net_model.specs.NetworkJudgingTerms.{few, block_in_range, link_in_range, route_in_range, policy_in_range, sid_in_range, are_numbers, InRange};

use crate::limits::{
    MAX_BLOCKS, MAX_LINKS, MAX_LINKS_OF_SET, MAX_NODES, MAX_POLICIES, MAX_ROUTES, MAX_SIDS,
};
use crate::parts::{Block, Link, NamedPolicy, NetParts, Node, Route};
use crate::rules::{
    are_names, are_segments, block_of, each_keeps_node, is_address, is_csid_len, is_mtu, is_name,
    is_prefix, is_prefix_of, is_table, is_title, keeps_outer, suits_table,
};
use srv6_rules::SidEntry;
use srv6_rules::numbers::MAX_SEGMENTS;
use v6_addr::Addr;

fn block_in_range(b: &Block) -> bool
    ensures { result ≡ block_in_range b.now }
{
    is_prefix(&b.prefix) && is_csid_len(b.csid)
}

fn each_block_in_range(blocks: &[Block]) -> bool
    ensures { result ≡ list_all block_in_range blocks.now }
{
    blocks.iter().all(block_in_range)
}

fn blocks_in_range(blocks: &[Block]) -> bool
    ensures { result ≡ few MAX_BLOCKS block_in_range blocks.now }
{
    blocks.len() <= MAX_BLOCKS && each_block_in_range(blocks)
}

fn nodes_in_range(nodes: &[Node]) -> bool
    ensures { result ≡ few MAX_NODES keeps_node nodes.now }
{
    nodes.len() <= MAX_NODES && each_keeps_node(nodes)
}

fn link_in_range(l: &Link) -> bool
    ensures { result ≡ link_in_range l.now }
{
    is_name(l.name.as_bytes()) && is_mtu(l.mtu)
}

fn each_link_in_range(links: &[Link]) -> bool
    ensures { result ≡ list_all link_in_range links.now }
{
    links.iter().all(link_in_range)
}

fn links_in_range(links: &[Link]) -> bool
    ensures { result ≡ few MAX_LINKS link_in_range links.now }
{
    links.len() <= MAX_LINKS && each_link_in_range(links)
}

fn route_in_range(r: &Route) -> bool
    ensures { result ≡ route_in_range r.now }
{
    is_table(r.table)
        && is_prefix_of(r.family, &r.prefix)
        && r.via.as_slice().len() <= MAX_LINKS_OF_SET
}

fn each_route_in_range(routes: &[Route]) -> bool
    ensures { result ≡ list_all route_in_range routes.now }
{
    routes.iter().all(route_in_range)
}

fn routes_in_range(routes: &[Route]) -> bool
    ensures { result ≡ few MAX_ROUTES route_in_range routes.now }
{
    routes.len() <= MAX_ROUTES && each_route_in_range(routes)
}

fn segments_in_range(segments: &[Addr]) -> bool
    ensures { result ≡ few MAX_SEGMENTS is_segment segments.now }
{
    segments.len() <= MAX_SEGMENTS && are_segments(segments)
}

fn policy_in_range(p: &NamedPolicy) -> bool
    ensures { result ≡ policy_in_range p.now }
{
    let policy = &p.policy;
    is_name(p.name.as_bytes())
        && is_address(policy.source)
        && segments_in_range(policy.segments.as_slice())
        && keeps_outer(policy.traffic_class, policy.flow_label, policy.hop_limit)
}

fn each_policy_in_range(policies: &[NamedPolicy]) -> bool
    ensures { result ≡ list_all policy_in_range policies.now }
{
    policies.iter().all(policy_in_range)
}

fn policies_in_range(policies: &[NamedPolicy]) -> bool
    ensures { result ≡ few MAX_POLICIES policy_in_range policies.now }
{
    policies.len() <= MAX_POLICIES && each_policy_in_range(policies)
}

/// The length in bits of a block, 0 where there is none.
fn block_len_of(block: Option<Block>) -> u8
    ensures { result ≡ block_len_of block }
{
    match block {
        None => 0,
        Some(b) => b.prefix.len(),
    }
}

fn sid_in_range(blocks: &[Block], title_count: usize, s: &SidEntry) -> bool
    ensures { result ≡ sid_in_range blocks.now title_count s.now }
{
    1 <= s.prefix.len()
        && is_prefix(&s.prefix)
        && suits_table(s.behaviour.table())
        && s.links.as_slice().len() <= MAX_LINKS_OF_SET
        && s.block_len == block_len_of(block_of(blocks, &s.prefix))
        && is_title(title_count, s.title)
}

fn each_sid_in_range(blocks: &[Block], title_count: usize, sids: &[SidEntry]) -> bool
    ensures { result ≡ list_all (sid_in_range blocks.now title_count) sids.now }
{
    sids.iter().all(|s| sid_in_range(blocks, title_count, s))
}

fn sids_in_range(blocks: &[Block], title_count: usize, sids: &[SidEntry]) -> bool
    ensures { result ≡ few MAX_SIDS (sid_in_range blocks.now title_count) sids.now }
{
    sids.len() <= MAX_SIDS && each_sid_in_range(blocks, title_count, sids)
}

/// Whether the SIDs' titles are so many, numbered from 0 in the SIDs' order.
#[tactic(auto, using(crate::proofs::NetworkNumberLemmas::numbering))]
fn are_numbered(title_count: usize, sids: &[SidEntry]) -> bool
    ensures { result ≡ are_numbers 0 title_count (filter_map title_of sids.now) }
{
    let mut next = 0usize;
    for s in sids {
        if let Some(title) = s.title {
            if title as usize != next {
                return false;
            }
            next += 1;
        }
    }
    next == title_count
}

/// Whether the parts are in the ranges that `Net::build` needs: their counts are at most those of
/// a network, each name is one, each number, prefix and list is in its range, a SID tells the
/// length of the block that it lies strictly inside (of the first in the list; 0 with none), and
/// the titles are those of the SIDs, one for each SID with a title, in the SIDs' order.
pub fn are_in_range(parts: &NetParts) -> bool
    ensures { IsTrue result ↔ InRange (network_of parts.now) }
{
    let blocks = parts.blocks.as_slice();
    let titles = parts.titles.as_slice();
    let sids = parts.sids.as_slice();
    blocks_in_range(blocks)
        && nodes_in_range(parts.nodes.as_slice())
        && links_in_range(parts.links.as_slice())
        && routes_in_range(parts.routes.as_slice())
        && policies_in_range(parts.policies.as_slice())
        && are_names(titles)
        && are_numbered(titles.len(), sids)
        && sids_in_range(blocks, titles.len(), sids)
}
