//! Whether items of two descriptions are equal, each a test that answers one word of the definitions.

ghost use Rattle.std.specs.Prelude.{◌≡◌, Bool, option_map};
ghost use Rattle.net_model.specs.NetworkTerms.{network_of};
ghost use Rattle.net_model.specs.NetworkRules.{same_bytes, same_number, same_route};
ghost use Rattle.net_model.specs.NetworkJudging.{same_answer, same_text};
ghost use Rattle.update_spec.specs.Equal.{equal_lists, equal_options, equal_kinds, equal_block, equal_node, equal_link, same_address, equal_outer, equal_policy, equal_route, behaviour_place, equal_behaviour, equal_csid, equal_forms, equal_sid};
ghost use Rattle.update_spec.specs.Joined.{is_new_sid};
ghost use Rattle.update_joined.specs.JoinedEntries.{text_of};

use net_model::{
    Block, BlockKind, Link, Name, NamedPolicy, NetParts, Node, Route, same_family, same_prefix,
};
use srv6_rules::{Behaviour, Csid, Policy, SidEntry};
use v6_addr::Addr;

/// What it is for two items to be equal.
pub(crate) trait Equality<X> {
    ghost equal: { X → X → Bool };

    /// Whether the two are equal.
    fn are_equal(a: &X, b: &X) -> bool
        ensures { result ≡ equal a.now b.now };
}

/// Whether the items of two lists are equal, one by one.
fn are_equal_lists<X, E: Equality<X>>(xs: &[X], ys: &[X]) -> bool
    ensures { result ≡ equal_lists E.equal xs.now ys.now }
{
    let mut x_rest = xs;
    let mut y_rest = ys;
    while let [x, x_more @ ..] = x_rest {
        let [y, y_more @ ..] = y_rest else {
            return false;
        };
        if !E::are_equal(x, y) {
            return false;
        }
        x_rest = x_more;
        y_rest = y_more;
    }
    y_rest.len() == 0
}

/// Whether two texts are the same.
pub(crate) fn same_bytes(a: &[u8], b: &[u8]) -> bool
    ensures { result ≡ same_bytes a.now b.now }
{
    a == b
}

/// Whether two lists of numbers are the same.
fn same_numbers(a: &[u32], b: &[u32]) -> bool
    ensures { result ≡ same_bytes a.now b.now }
{
    a == b
}

fn equal_numbers(a: Option<u32>, b: Option<u32>) -> bool
    ensures { result ≡ equal_options same_number a b }
{
    match (a, b) {
        (None, None) => true,
        (None, Some(_)) => false,
        (Some(_), None) => false,
        (Some(x), Some(y)) => x == y,
    }
}

fn same_answer(a: bool, b: bool) -> bool
    ensures { result ≡ same_answer a b }
{
    a == b
}

fn equal_kinds(a: BlockKind, b: BlockKind) -> bool
    ensures { result ≡ equal_kinds a b }
{
    a == b
}

/// Blocks that are equal.
pub(crate) struct Blocks;

impl Equality<Block> for Blocks {
    ghost equal = { equal_block };

    fn are_equal(a: &Block, b: &Block) -> bool {
        same_prefix(&a.prefix, &b.prefix) && equal_kinds(a.kind, b.kind) && a.csid == b.csid
    }
}

/// Nodes that are equal.
pub(crate) struct Nodes;

impl Equality<Node> for Nodes {
    ghost equal = { equal_node };

    fn are_equal(a: &Node, b: &Node) -> bool {
        same_bytes(a.name.as_bytes(), b.name.as_bytes())
            && a.address.value == b.address.value
            && same_bytes(a.allow.as_slice(), b.allow.as_slice())
    }
}

/// Links that are equal.
pub(crate) struct Links;

impl Equality<Link> for Links {
    ghost equal = { equal_link };

    fn are_equal(a: &Link, b: &Link) -> bool {
        same_bytes(a.name.as_bytes(), b.name.as_bytes())
            && a.from == b.from
            && equal_numbers(a.to, b.to)
            && a.mtu == b.mtu
    }
}

/// Addresses that are equal.
struct Addresses;

impl Equality<Addr> for Addresses {
    ghost equal = { same_address };

    fn are_equal(a: &Addr, b: &Addr) -> bool {
        a.value == b.value
    }
}

fn equal_outer(p: &Policy, q: &Policy) -> bool
    ensures { result ≡ equal_outer p.now q.now }
{
    p.traffic_class == q.traffic_class
        && p.flow_label == q.flow_label
        && p.hop_limit == q.hop_limit
        && same_answer(p.reduced, q.reduced)
}

/// Policies that are equal; their names are not compared.
pub(crate) struct Policies;

impl Equality<NamedPolicy> for Policies {
    ghost equal = { equal_policy };

    fn are_equal(a: &NamedPolicy, b: &NamedPolicy) -> bool {
        let p = &a.policy;
        let q = &b.policy;
        p.source.value == q.source.value
            && are_equal_lists::<Addr, Addresses>(p.segments.as_slice(), q.segments.as_slice())
            && equal_outer(p, q)
    }
}

/// Whether two routes stand at one node, in one table, of one family and on one prefix.
pub(crate) fn same_route(q: &Route, r: &Route) -> bool
    ensures { result ≡ same_route q.now r.now }
{
    q.node == r.node
        && q.table == r.table
        && same_family(q.family, r.family)
        && same_prefix(&q.prefix, &r.prefix)
}

/// Whether two routes are equal.
pub(crate) fn equal_route(q: &Route, r: &Route) -> bool
    ensures { result ≡ equal_route q.now r.now }
{
    same_route(q, r) && same_numbers(q.via.as_slice(), r.via.as_slice())
}

/// Which behaviour it is.
fn behaviour_place(b: Behaviour) -> u8
    ensures { result ≡ behaviour_place b }
{
    match b {
        Behaviour::End => 1,
        Behaviour::EndX => 2,
        Behaviour::EndT { .. } => 3,
        Behaviour::Dx6 => 4,
        Behaviour::Dx4 => 5,
        Behaviour::Dt6 { .. } => 6,
        Behaviour::Dt4 { .. } => 7,
        Behaviour::Dt46 { .. } => 8,
        Behaviour::B6 { .. } => 13,
        Behaviour::B6Red { .. } => 14,
    }
}

fn equal_behaviour(a: Behaviour, b: Behaviour) -> bool
    ensures { result ≡ equal_behaviour a b }
{
    behaviour_place(a) == behaviour_place(b)
        && equal_numbers(a.table(), b.table())
        && equal_numbers(a.policy(), b.policy())
}

fn equal_csid(a: Csid, b: Csid) -> bool
    ensures { result ≡ equal_csid a b }
{
    a == b
}

fn equal_forms(s: &SidEntry, t: &SidEntry) -> bool
    ensures { result ≡ equal_forms s.now t.now }
{
    equal_csid(s.csid, t.csid)
        && s.block_len == t.block_len
        && same_answer(s.psp, t.psp)
        && same_answer(s.usp, t.usp)
        && same_answer(s.usd, t.usd)
}

/// The text of the title with a number.
pub(crate) fn text_of<'a>(titles: &'a [Name], title: Option<u32>) -> Option<&'a Name>
    ensures { option_map (λ name. name.now) result ≡ text_of titles.now title }
{
    match title {
        None => None,
        Some(n) => titles.get(n as usize),
    }
}

/// Whether both titles are there and their texts the same, or neither is there.
fn equal_titles(own: &[Name], other: &[Name], a: Option<u32>, b: Option<u32>) -> bool
    ensures { result ≡ equal_options same_bytes (text_of own.now a) (text_of other.now b) }
{
    match (text_of(own, a), text_of(other, b)) {
        (None, None) => true,
        (None, Some(_)) => false,
        (Some(_), None) => false,
        (Some(one), Some(text)) => same_bytes(one.as_bytes(), text.as_bytes()),
    }
}

/// Whether both titles are there and their texts the same.
pub(crate) fn same_title(own: &[Name], other: &[Name], a: Option<u32>, b: Option<u32>) -> bool
    ensures { result ≡ same_text (text_of own.now a) (text_of other.now b) }
{
    match (text_of(own, a), text_of(other, b)) {
        (None, None) => false,
        (None, Some(_)) => false,
        (Some(_), None) => false,
        (Some(one), Some(text)) => same_bytes(one.as_bytes(), text.as_bytes()),
    }
}

/// Whether a SID of some parts and one of others are equal.
pub(crate) fn equal_sid(own: &NetParts, other: &NetParts, s: &SidEntry, t: &SidEntry) -> bool
    ensures { result ≡ equal_sid (network_of own.now) (network_of other.now) s.now t.now }
{
    s.node == t.node
        && same_prefix(&s.prefix, &t.prefix)
        && equal_behaviour(s.behaviour, t.behaviour)
        && equal_forms(s, t)
        && same_numbers(s.links.as_slice(), t.links.as_slice())
        && equal_titles(&own.titles, &other.titles, s.title, t.title)
}

/// Whether the others have a SID equal to this one.
pub(crate) fn is_in_both(own: &NetParts, other: &NetParts, s: &SidEntry) -> bool
    ensures { result ≡ is_new_sid (network_of own.now) (network_of other.now) s.now }
{
    other.sids.iter().any(|t| equal_sid(own, other, s, t))
}
