//! The SIDs of a network from what a description says of them.

ghost use Rattle.std.specs.Prelude.{◌≡◌, ◌<◌, ◌^◌, ◌++◌, ℕ, IfOk, OnOk, map, option_map, option_to_list, length, vec_len};
ghost use Rattle.std.specs.List.{list_any, filter_map};
ghost use Rattle.net_model.specs.NetworkRules.{block_of, block_len_of};
ghost use Rattle.net_reader.specs.Numbering.{number_of};
ghost use Rattle.net_reader.specs.Joining.{behaviour_with, is_psp, is_usp, is_usd, or_zero, or_none, title_number, joined_sid, joined_sids, title_in};

use crate::joining::{Names, numbers, same_name};
use crate::numbering::Numbering;
use net_model::{Block, Name};
use net_syntax::{BehaviourWord, DescribedSid, Flavour};
use srv6_rules::{Behaviour, LinkSet, SidEntry};
use std::alloc::{AllocError, Global};
use v6_addr::Prefix;

/// The behaviour of a word, with its table and its policy.
fn behaviour_with(word: BehaviourWord, table: u32, policy: u32) -> Behaviour
    ensures { result ≡ behaviour_with word table policy }
{
    match word {
        BehaviourWord::End => Behaviour::End,
        BehaviourWord::EndX => Behaviour::EndX,
        BehaviourWord::EndT => Behaviour::EndT { table },
        BehaviourWord::Dx6 => Behaviour::Dx6,
        BehaviourWord::Dx4 => Behaviour::Dx4,
        BehaviourWord::Dt6 => Behaviour::Dt6 { table },
        BehaviourWord::Dt4 => Behaviour::Dt4 { table },
        BehaviourWord::Dt46 => Behaviour::Dt46 { table },
        BehaviourWord::B6 => Behaviour::B6 { policy },
        BehaviourWord::B6Red => Behaviour::B6Red { policy },
    }
}

/// The block that a prefix lies strictly inside.
fn block_of(blocks: &[Block], prefix: &Prefix) -> Option<Block>
    ensures { result ≡ block_of blocks.now prefix.now }
{
    blocks
        .iter()
        .copied()
        .find(|block| prefix.inside(&block.prefix))
}

/// The length of that block, 0 where there is none.
fn block_len(blocks: &[Block], prefix: &Prefix) -> u8
    ensures { result ≡ block_len_of (block_of blocks.now prefix.now) }
{
    match block_of(blocks, prefix) {
        Some(block) => block.prefix.len(),
        None => 0,
    }
}

fn is_psp(flavour: &Flavour) -> bool
    ensures { result ≡ is_psp flavour.now }
{
    match flavour {
        Flavour::Psp => true,
        Flavour::Usp | Flavour::Usd => false,
    }
}

fn is_usp(flavour: &Flavour) -> bool
    ensures { result ≡ is_usp flavour.now }
{
    match flavour {
        Flavour::Usp => true,
        Flavour::Psp | Flavour::Usd => false,
    }
}

fn is_usd(flavour: &Flavour) -> bool
    ensures { result ≡ is_usd flavour.now }
{
    match flavour {
        Flavour::Usd => true,
        Flavour::Psp | Flavour::Usp => false,
    }
}

fn has_psp(flavours: &[Flavour]) -> bool
    ensures { result ≡ list_any is_psp flavours.now }
{
    flavours.iter().any(is_psp)
}

fn has_usp(flavours: &[Flavour]) -> bool
    ensures { result ≡ list_any is_usp flavours.now }
{
    flavours.iter().any(is_usp)
}

fn has_usd(flavours: &[Flavour]) -> bool
    ensures { result ≡ list_any is_usd flavours.now }
{
    flavours.iter().any(is_usd)
}

fn or_zero(number: Option<u32>) -> u32
    ensures { result ≡ or_zero number }
{
    match number {
        Some(number) => number,
        None => 0,
    }
}

/// The number of a policy, 0 where none is named.
fn policy_number(policies: &Numbering<'_>, policy: &Option<Name>) -> u32
    ensures { result ≡ or_zero (option_map (number_of policies.now) policy.now) }
{
    match policy {
        Some(name) => policies.number(name),
        None => 0,
    }
}

/// The numbers of links, none where the key is absent.
fn link_numbers(
    alloc: Global,
    links: &Numbering<'_>,
    sid: &DescribedSid,
) -> Result<LinkSet, AllocError>
    ensures { IfOk result (λ set. set ≡ map (number_of links.now) (or_none sid.now.links)) }
{
    match &sid.links {
        Some(names) => numbers(alloc, links, names.as_slice()),
        None => Ok(LinkSet::new(Vec::new(alloc))),
    }
}

/// Puts a title after the titles, and gives its number.
fn push_title(
    alloc: Global,
    titles: &mut Vec<Name>,
    title: &Option<Name>,
) -> Result<Option<u32>, AllocError>
    requires { vec_len titles.old < 2 ^ 32 }
    ensures number { IfOk result (λ n. n ≡ title_number (length titles.old.items) title.now) }
    ensures titles { OnOk result (titles.new.items ≡ titles.old.items ++ option_to_list title.now) }
{
    let Some(name) = title else {
        return Ok(None);
    };
    let number = titles.len() as u32;
    titles.push(same_name(alloc, name)?)?;
    Ok(Some(number))
}

/// The entry of a SID, before whose title so many others stand.
fn entry(
    alloc: Global,
    names: &Names<'_>,
    blocks: &[Block],
    title: Option<u32>,
    sid: &DescribedSid,
) -> Result<SidEntry, AllocError>
    ensures { (n : ℕ) → title ≡ title_number n sid.now.title
        → IfOk result (λ entry. entry ≡ joined_sid names.now.nodes names.now.links
        names.now.policies blocks.now n sid.now) }
{
    let table = or_zero(sid.table);
    let policy = policy_number(&names.policies, &sid.policy);
    let flavours = sid.flavours.as_slice();
    let links = link_numbers(alloc, &names.links, sid)?;
    Ok(SidEntry {
        node: names.nodes.number(&sid.node),
        prefix: sid.prefix,
        behaviour: behaviour_with(sid.behaviour, table, policy),
        csid: sid.csid,
        block_len: block_len(blocks, &sid.prefix),
        psp: has_psp(flavours),
        usp: has_usp(flavours),
        usd: has_usd(flavours),
        title,
        links,
    })
}

/// The titles of SIDs in order, and their entries with the titles' numbers.
pub(crate) fn join_sids(
    alloc: Global,
    names: &Names<'_>,
    blocks: &[Block],
    sids: &[DescribedSid],
) -> Result<(Vec<Name>, Vec<SidEntry>), AllocError>
    requires { length sids.now < 2 ^ 32 }
    ensures titles { IfOk result (λ r. r.0.items ≡ filter_map title_in sids.now) }
    ensures entries { IfOk result (λ r. r.1.items ≡ joined_sids names.now.nodes
        names.now.links names.now.policies blocks.now 0 sids.now) }
{
    let mut titles = Vec::new(alloc);
    let mut entries = Vec::new(alloc);
    for sid in sids {
        let title = push_title(alloc, &mut titles, &sid.title)?;
        let entry = entry(alloc, names, blocks, title, sid)?;
        entries.push(entry)?;
    }
    Ok((titles, entries))
}
