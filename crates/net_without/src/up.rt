//! Which links are up.

ghost use Rattle.std.specs.Prelude.{◌≡◌, ◌≤◌, length, IfOk};
ghost use Rattle.std.specs.List.{list_any};
ghost use Rattle.net_model.specs.declared.limits.TheConstants.{MAX_LINKS};
ghost use Rattle.net_without.specs.Without.{is_among, ends_among, is_up_link, is_left};
ghost use Rattle.net_without.specs.WithoutTerms.{up_from, flag_at};

use net_model::{Link, MAX_LINKS};
use std::alloc::{AllocError, Global};

/// Whether a number is one of these.
fn is_among(numbers: &[u32], n: u32) -> bool
    ensures { result ≡ is_among numbers.now n }
{
    numbers.iter().any(|m| n == *m)
}

/// Whether a link ends at one of these nodes.
fn ends_among(nodes: &[u32], to: Option<u32>) -> bool
    ensures { result ≡ ends_among nodes.now to }
{
    match to {
        None => false,
        Some(to) => is_among(nodes, to),
    }
}

/// Whether a link, with its number, is none of these, and neither starts nor ends at these nodes.
fn is_up_link(links: &[u32], nodes: &[u32], n: u32, link: &Link) -> bool
    ensures { result ≡ is_up_link links.now nodes.now n link.now }
{
    !(is_among(links, n) || (is_among(nodes, link.from) || ends_among(nodes, link.to)))
}

/// For each link whether it is up.
#[tactic(auto, using(crate::proofs::Cuts::pushed_one))]
pub(crate) fn links_up(
    alloc: Global,
    all: &[Link],
    links: &[u32],
    nodes: &[u32],
) -> Result<Vec<bool>, AllocError>
    requires { length all.now ≤ MAX_LINKS }
    ensures { IfOk result (λ up. up.items ≡ up_from links.now nodes.now 0 all.now) }
{
    let mut up = Vec::new(alloc);
    let mut n = 0;
    let mut rest = all;
    while let [link, more @ ..] = rest {
        up.push(is_up_link(links, nodes, n, link))?;
        n += 1;
        rest = more;
    }
    Ok(up)
}

/// Whether the link with a number is up.
pub(crate) fn is_up(up: &[bool], n: u32) -> bool
    ensures { result ≡ flag_at up.now n }
{
    match up.get(n as usize) {
        None => false,
        Some(flag) => *flag,
    }
}

/// Whether a link of a set is up.
fn has_up(up: &[bool], set: &[u32]) -> bool
    ensures { result ≡ list_any (flag_at up.now) set.now }
{
    let mut rest = set;
    while let [n, more @ ..] = rest {
        if is_up(up, *n) {
            return true;
        }
        rest = more;
    }
    false
}

/// Whether a set stays: it is empty, or a link of it is up.
pub(crate) fn is_left(up: &[bool], set: &[u32]) -> bool
    ensures { result ≡ is_left (flag_at up.now) set.now }
{
    if set.is_empty() {
        return true;
    }
    has_up(up, set)
}
