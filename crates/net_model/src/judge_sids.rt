//! The first fault of the SIDs of a network.

ghost use Rattle.std.specs.Prelude.{◌≡◌, slice_get, option_map};
ghost use Rattle.net_model.specs.NetworkTerms.{network_of};
ghost use Rattle.net_model.specs.NetworkJudging.{fitting, standing_or, suits_keys, is_unknown_policy, title_text, same_title_text, stands_before, is_full, judge_joins, suits_compression, judge_flavours, judge_apart, judge_sid};

use crate::limits::MAX_SIDS_OF_NODE;
use crate::net_judge::{Judge, has_unknown, is_set_of, is_unknown, refuse_if, stands_before};
use crate::parts::{Block, Name, NetParts};
use crate::rules::{Sids, block_of, same_bytes, suits_block, suits_flavours};
use crate::standing::Standing;
use srv6_rules::{Csid, SidEntry};
use text_faults::{FaultKind, FaultPlace, Key, TextFault};

/// How a SID stands that has the keys that its behaviour takes, and no flavour twice.
fn fitting(s: &SidEntry) -> Standing
    ensures { result ≡ fitting s.now }
{
    Standing {
        links: s.behaviour.takes_links(),
        table: s.behaviour.table().is_some(),
        policy: s.behaviour.policy().is_some(),
        double_flavour: false,
    }
}

/// How the SID with a number stands.
fn standing_of(standings: &[Standing], n: usize, s: &SidEntry) -> Standing
    ensures { result ≡ standing_or s.now (slice_get standings.now n) }
{
    match standings.get(n) {
        None => fitting(s),
        Some(standing) => *standing,
    }
}

/// Whether a SID has the keys that its behaviour takes, and no links where it takes none.
fn suits_keys(standing: Standing, s: &SidEntry) -> bool
    ensures { result ≡ suits_keys standing s.now }
{
    let takes_links = s.behaviour.takes_links();
    standing.links == takes_links
        && standing.table == s.behaviour.table().is_some()
        && standing.policy == s.behaviour.policy().is_some()
        && (takes_links || s.links.as_slice().len() == 0)
}

fn is_unknown_policy(policy_count: usize, policy: Option<u32>) -> bool
    ensures { result ≡ is_unknown_policy policy_count policy }
{
    match policy {
        None => false,
        Some(policy) => is_unknown(policy_count, policy),
    }
}

/// Whether two SIDs have titles of the same text.
fn same_title_text(titles: &[Name], s: &SidEntry, t: &SidEntry) -> bool
    ensures { result ≡ same_title_text titles.now s.now t.now }
{
    match (title_text(titles, s), title_text(titles, t)) {
        (Some(one), Some(other)) => same_bytes(one.as_bytes(), other.as_bytes()),
        _ => false,
    }
}

/// The title of a SID.
fn title_text<'a>(titles: &'a [Name], s: &SidEntry) -> Option<&'a Name>
    ensures { option_map (λ name. name.now) result ≡ title_text titles.now s.now }
{
    match s.title {
        None => None,
        Some(title) => titles.get(title as usize),
    }
}

/// Whether an earlier SID has a title of the same text.
fn has_double_title(titles: &[Name], before: &[SidEntry], s: &SidEntry) -> bool
    ensures { result ≡ stands_before (same_title_text titles.now) before.now s.now }
{
    before
        .iter()
        .any(|earlier| same_title_text(titles, earlier, s))
}

/// Whether the node has as many SIDs before as it may have.
fn is_full(before: &[SidEntry], s: &SidEntry) -> bool
    ensures { result ≡ is_full before.now s.now }
{
    let node = s.node;
    MAX_SIDS_OF_NODE <= before.iter().filter(|other| other.node == node).count()
}

/// The first fault of a SID's references and of its sets.
fn judge_joins(
    parts: &NetParts,
    standing: Standing,
    place: FaultPlace,
    s: &SidEntry,
) -> Result<(), TextFault>
    ensures { result ≡ judge_joins (network_of parts.now) standing place s.now }
{
    let links = s.links.as_slice();
    let takes_links = s.behaviour.takes_links();
    refuse_if(
        is_unknown(parts.nodes.len(), s.node),
        place.fault(FaultKind::UnknownName),
    )?;
    refuse_if(
        !suits_keys(standing, s),
        place.fault(FaultKind::BadStructure),
    )?;
    refuse_if(
        has_unknown(parts.links.len(), links),
        place.fault(FaultKind::UnknownName),
    )?;
    refuse_if(
        is_unknown_policy(parts.policies.len(), s.behaviour.policy()),
        place.fault(FaultKind::UnknownName),
    )?;
    refuse_if(
        takes_links && !is_set_of(parts.links.as_slice(), s.node, links),
        place.fault(FaultKind::BadStructure),
    )
}

/// Whether the compression of a SID suits its block.
fn suits_compression(block: Option<Block>, s: &SidEntry) -> bool
    ensures { result ≡ suits_compression block s.now }
{
    match block {
        None => s.csid == Csid::Plain,
        Some(b) => suits_block(s.csid, &b, s.prefix.len(), s.behaviour.goes_on()),
    }
}

/// The first fault of a SID's flavours and of its compression.
fn judge_flavours(
    parts: &NetParts,
    standing: Standing,
    place: FaultPlace,
    s: &SidEntry,
) -> Result<(), TextFault>
    ensures { result ≡ judge_flavours (network_of parts.now) standing place s.now }
{
    let block = block_of(parts.blocks.as_slice(), &s.prefix);
    refuse_if(standing.double_flavour, place.fault(FaultKind::BadFlavour))?;
    refuse_if(
        !suits_flavours(s.behaviour.takes_flavours(), s.psp, s.usp, s.usd),
        place.fault(FaultKind::BadFlavour),
    )?;
    refuse_if(
        !suits_compression(block, s),
        place.fault(FaultKind::BadFlavour),
    )
}

/// The first fault of a SID beside those before it.
fn judge_apart(
    titles: &[Name],
    before: &[SidEntry],
    place: FaultPlace,
    s: &SidEntry,
) -> Result<(), TextFault>
    ensures { result ≡ judge_apart titles.now before.now place s.now }
{
    refuse_if(
        has_double_title(titles, before, s),
        place.fault(FaultKind::DoubleName),
    )?;
    refuse_if(
        stands_before::<SidEntry, Sids>(before, s),
        place.fault(FaultKind::DoublePrefix),
    )?;
    refuse_if(
        is_full(before, s),
        place.fault(FaultKind::Limit {
            what: Key::Sid,
            value: MAX_SIDS_OF_NODE as i64 + 1,
        }),
    )
}

/// The tests of SIDs, over these parts.
#[derive(Drop)]
pub(crate) struct SidRules<'a> {
    pub(crate) parts: &'a NetParts,
    pub(crate) standings: &'a [Standing],
}

impl<'a> Judge<SidEntry> for SidRules<'a> {
    ghost rules = { λ r. judge_sid (network_of r.parts.now) r.standings.now };

    fn judge(&self, before: &[SidEntry], place: FaultPlace, s: &SidEntry) -> Result<(), TextFault> {
        let standing = standing_of(self.standings, before.len(), s);
        judge_joins(self.parts, standing, place, s)?;
        judge_flavours(self.parts, standing, place, s)?;
        judge_apart(self.parts.titles.as_slice(), before, place, s)
    }
}
