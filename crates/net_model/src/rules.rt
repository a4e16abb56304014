//! The rules that the parts of a network keep, each as a test that answers one word of the
//! definitions.

ghost use Rattle.std.specs.Prelude.{◌≡◌, Bool};
ghost use Rattle.std.specs.List.{list_all, list_any};
ghost use Rattle.net_model.specs.NetworkRules.{are_distinct, same_bytes, is_between, is_name_byte, is_name, is_block_len, overlap, same_policy_name, suits_flavours, block_of, is_next_len, suits_next, suits_replace, suits_block, same_node_name, same_node_address, same_link_name, starts_at, same_number, is_link_set, same_prefix, same_family, same_sid};
ghost use Rattle.net_model.specs.NetworkRulesTerms.{is_address, is_prefix, is_csid_len, is_segment, keeps_outer, keeps_node, is_mtu, is_table, is_prefix_of, suits_table, is_title};

use crate::limits::{
    BLOCK_UNIT, LAST_FLOW_LABEL, LAST_OCTET, LAST_TABLE, LONG_CSID, MAX_ALLOWED_TYPES,
    MAX_BLOCK_LEN, MAX_BLOCKS, MAX_IPV4_PREFIX_LEN, MAX_LINK_MTU, MAX_LINKS, MAX_LINKS_OF_SET,
    MAX_NAME_BYTES, MAX_NODES, MAX_POLICIES, MAX_ROUTES, MAX_SIDS, MAX_SIDS_OF_NODE, MIN_LINK_MTU,
    SHORT_CSID,
};
use crate::parts::{Block, BlockKind, Link, Name, NamedPolicy, NetParts, Node, Route};
use srv6_rules::numbers::MAX_SEGMENTS;
use srv6_rules::{Csid, Family, SidEntry};
use v6_addr::{Addr, Prefix};

/// A way in which two items may be the same.
pub(crate) trait Sameness<X> {
    ghost same: { X → X → Bool };

    /// Whether the two are the same in this way.
    fn are_same(a: &X, b: &X) -> bool
        ensures { result ≡ same a.now b.now };
}

/// Whether an item is the same as one of the others.
fn stands_among<X, S: Sameness<X>>(item: &X, others: &[X]) -> bool
    ensures { result ≡ list_any (S.same item.now) others.now }
{
    others.iter().any(|other| S::are_same(item, other))
}

/// Whether no two items are the same.
pub(crate) fn are_distinct<X, S: Sameness<X>>(items: &[X]) -> bool
    ensures { result ≡ are_distinct S.same items.now }
{
    let mut rest = items;
    while let [first, others @ ..] = rest {
        if stands_among::<X, S>(first, others) {
            return false;
        }
        rest = others;
    }
    true
}

/// Blocks that overlap.
pub(crate) struct Overlaps;

impl Sameness<Block> for Overlaps {
    ghost same = { overlap };

    fn are_same(a: &Block, b: &Block) -> bool {
        a.prefix.holds(b.prefix.value()) || b.prefix.holds(a.prefix.value())
    }
}

/// Nodes with the same name.
pub(crate) struct NodeNames;

impl Sameness<Node> for NodeNames {
    ghost same = { same_node_name };

    fn are_same(a: &Node, b: &Node) -> bool {
        same_bytes(a.name.as_bytes(), b.name.as_bytes())
    }
}

/// Nodes with the same address.
pub(crate) struct NodeAddresses;

impl Sameness<Node> for NodeAddresses {
    ghost same = { same_node_address };

    fn are_same(a: &Node, b: &Node) -> bool {
        a.address.value == b.address.value
    }
}

/// Links with the same name.
pub(crate) struct LinkNames;

impl Sameness<Link> for LinkNames {
    ghost same = { same_link_name };

    fn are_same(a: &Link, b: &Link) -> bool {
        same_bytes(a.name.as_bytes(), b.name.as_bytes())
    }
}

/// The same number.
pub(crate) struct Numbers;

impl Sameness<u32> for Numbers {
    ghost same = { same_number };

    fn are_same(a: &u32, b: &u32) -> bool {
        *a == *b
    }
}

/// Policies with the same name.
pub(crate) struct PolicyNames;

impl Sameness<NamedPolicy> for PolicyNames {
    ghost same = { same_policy_name };

    fn are_same(a: &NamedPolicy, b: &NamedPolicy) -> bool {
        same_bytes(a.name.as_bytes(), b.name.as_bytes())
    }
}

/// SIDs of one node with the same prefix.
pub(crate) struct Sids;

impl Sameness<SidEntry> for Sids {
    ghost same = { same_sid };

    fn are_same(a: &SidEntry, b: &SidEntry) -> bool {
        a.node == b.node && same_prefix(&a.prefix, &b.prefix)
    }
}

/// Whether two texts are the same.
pub(crate) fn same_bytes(a: &[u8], b: &[u8]) -> bool
    ensures { result ≡ same_bytes a.now b.now }
{
    a == b
}

fn is_between(low: u8, high: u8, b: u8) -> bool
    ensures { result ≡ is_between low high b }
{
    low <= b && b <= high
}

fn is_name_byte(b: u8) -> bool
    ensures { result ≡ is_name_byte b }
{
    is_between(b'a', b'z', b)
        || is_between(b'A', b'Z', b)
        || is_between(b'0', b'9', b)
        || b == b'_'
        || b == b'.'
        || b == b'-'
}

fn are_name_bytes(bytes: &[u8]) -> bool
    ensures { result ≡ list_all is_name_byte bytes.now }
{
    bytes.iter().all(|b| is_name_byte(*b))
}

/// Whether a text is a name: 1 to `MAX_NAME_BYTES` bytes, all of them letters, digits, `_`, `.` or
/// `-`.
pub fn is_name(name: &[u8]) -> bool
    ensures { result ≡ is_name name.now }
{
    1 <= name.len() && name.len() <= MAX_NAME_BYTES && are_name_bytes(name)
}

/// Always true: the type holds no other number.
#[tactic(auto, unfolding(crate::specs::NetworkRulesTerms::is_address))]
pub(crate) fn is_address(a: Addr) -> bool
    ensures { result ≡ is_address a.value }
{
    let _ = a.value;
    true
}

/// Always true: the type holds no other value.
#[tactic(auto, unfolding(crate::specs::NetworkRulesTerms::is_address, crate::specs::NetworkRulesTerms::is_prefix))]
pub(crate) fn is_prefix(p: &Prefix) -> bool
    ensures { result ≡ is_prefix p.now }
{
    let _ = p.len();
    true
}

/// Whether a block may have this length in bits.
pub(crate) fn is_block_len(len: u8) -> bool
    ensures { result ≡ is_block_len len }
{
    BLOCK_UNIT <= len && len <= MAX_BLOCK_LEN && len % BLOCK_UNIT == 0
}

/// Whether compressed SIDs may have so many bits.
pub(crate) fn is_csid_len(bits: u8) -> bool
    ensures { result ≡ is_csid_len bits }
{
    u32::from(bits) == SHORT_CSID || u32::from(bits) == LONG_CSID
}

fn keeps_node(n: &Node) -> bool
    ensures { result ≡ keeps_node n.now }
{
    is_name(n.name.as_bytes())
        && is_address(n.address)
        && n.allow.as_slice().len() <= MAX_ALLOWED_TYPES
}

pub(crate) fn each_keeps_node(nodes: &[Node]) -> bool
    ensures { result ≡ list_all keeps_node nodes.now }
{
    nodes.iter().all(keeps_node)
}

/// Whether a link is there, and starts at the node.
fn starts_at(links: &[Link], node: u32, n: u32) -> bool
    ensures { result ≡ starts_at links.now node n }
{
    match links.get(n as usize) {
        None => false,
        Some(l) => l.from == node,
    }
}

pub(crate) fn each_starts_at(links: &[Link], node: u32, set: &[u32]) -> bool
    ensures { result ≡ list_all (starts_at links.now node) set.now }
{
    set.iter().all(|n| starts_at(links, node, *n))
}

/// Whether a set has some links of the node and not too many, each once.
pub(crate) fn is_link_set(links: &[Link], node: u32, set: &[u32]) -> bool
    ensures { result ≡ is_link_set links.now node set.now }
{
    1 <= set.len()
        && set.len() <= MAX_LINKS_OF_SET
        && are_distinct::<u32, Numbers>(set)
        && each_starts_at(links, node, set)
}

/// Whether a link may have an MTU.
pub(crate) fn is_mtu(mtu: u32) -> bool
    ensures { result ≡ is_mtu mtu }
{
    MIN_LINK_MTU <= mtu && mtu <= MAX_LINK_MTU
}

pub(crate) fn is_table(table: u32) -> bool
    ensures { result ≡ is_table table }
{
    table <= LAST_TABLE
}

/// Whether a prefix is one of a family.
pub(crate) fn is_prefix_of(family: Family, p: &Prefix) -> bool
    ensures { result ≡ is_prefix_of family p.now }
{
    match family {
        Family::V6 => is_prefix(p),
        Family::V4 => is_prefix(p) && p.len() <= MAX_IPV4_PREFIX_LEN,
    }
}

/// Whether two families are one.
pub fn same_family(a: Family, b: Family) -> bool
    ensures { result ≡ same_family a b }
{
    a == b
}

/// Whether two prefixes are one: the same value and the same length.
pub fn same_prefix(p: &Prefix, q: &Prefix) -> bool
    ensures { result ≡ same_prefix p.now q.now }
{
    p.value().value == q.value().value && p.len() == q.len()
}

fn is_segment(a: Addr) -> bool
    ensures { result ≡ is_segment a }
{
    is_address(a)
}

pub(crate) fn are_segments(segments: &[Addr]) -> bool
    ensures { result ≡ list_all is_segment segments.now }
{
    segments.iter().all(|a| is_segment(*a))
}

/// Whether the numbers of an outer header are in their ranges.
pub(crate) fn keeps_outer(traffic_class: u8, flow_label: u32, hop_limit: u8) -> bool
    ensures { result ≡ keeps_outer traffic_class flow_label hop_limit }
{
    u32::from(traffic_class) <= LAST_OCTET
        && flow_label <= LAST_FLOW_LABEL
        && 1 <= hop_limit
        && u32::from(hop_limit) <= LAST_OCTET
}

/// Whether a table of a SID's own has a table's number.
pub(crate) fn suits_table(table: Option<u32>) -> bool
    ensures { result ≡ suits_table table }
{
    match table {
        None => true,
        Some(table) => is_table(table),
    }
}

/// Whether flavours stand at a SID that takes them alone.
pub(crate) fn suits_flavours(takes: bool, psp: bool, usp: bool, usd: bool) -> bool
    ensures { result ≡ suits_flavours takes psp usp usd }
{
    takes || (!psp && !usp && !usd)
}

/// The block that a prefix lies strictly inside (RFC 9800 section 3).
pub fn block_of(blocks: &[Block], p: &Prefix) -> Option<Block>
    ensures { result ≡ block_of blocks.now p.now }
{
    blocks.iter().copied().find(|b| p.inside(&b.prefix))
}

/// Whether a prefix of so many bits is a NEXT-CSID SID's in a block.
fn is_next_len(b: &Block, len: u8) -> bool
    ensures { result ≡ is_next_len b.now len }
{
    let block = u32::from(b.prefix.len());
    let len = u32::from(len);
    len == block + u32::from(b.csid) || len == block + LONG_CSID
}

fn suits_next(b: &Block, len: u8, goes_on: bool) -> bool
    ensures { result ≡ suits_next b.now.kind b.now len goes_on }
{
    match b.kind {
        BlockKind::Next => goes_on && is_next_len(b, len),
        BlockKind::Replace => false,
    }
}

fn suits_replace(b: &Block, len: u8) -> bool
    ensures { result ≡ suits_replace b.now.kind b.now len }
{
    match b.kind {
        BlockKind::Next => false,
        BlockKind::Replace => u32::from(len) == u32::from(b.prefix.len()) + u32::from(b.csid),
    }
}

/// Whether a SID's compression suits its block.
pub(crate) fn suits_block(csid: Csid, b: &Block, len: u8, goes_on: bool) -> bool
    ensures { result ≡ suits_block csid b.now len goes_on }
{
    match csid {
        Csid::Plain => true,
        Csid::Next => suits_next(b, len, goes_on),
        Csid::Replace => suits_replace(b, len),
    }
}

pub(crate) fn is_title(title_count: usize, title: Option<u32>) -> bool
    ensures { result ≡ is_title title_count title }
{
    match title {
        None => true,
        Some(t) => (t as usize) < title_count,
    }
}

pub(crate) fn are_names(titles: &[Name]) -> bool
    ensures { result ≡ list_all is_name titles.now }
{
    titles.iter().all(|t| is_name(t.as_bytes()))
}
