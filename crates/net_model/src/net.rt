//! The network that keeps the rules, and the look-up of an address.

use crate::hidden::{
    Hidden, entry_of, first_after, hidden_of, hides_nothing, is_shown, mark, none_hidden, place,
    settle,
};
use crate::judge_parts::judge_parts;
use crate::lookup_tables::{Tables, table_key, tables_of};
use crate::named::{place_of_link, place_of_node};
use crate::node_table::NodeTable;
use crate::parts::{Block, Link, Name, NetParts, Node, Route};
use crate::rules::is_link_set;
use crate::standing::Standing;
use prefix_table::Table;
use srv6_rules::{Family, Policy, SidEntry};
use std::alloc::{AllocError, Global};
use std::marker::Model;
use text_faults::NetFault;
use v6_addr::Addr;

/// The entry of a node's table that fits an address best (RFC 8754 section 4.3).
#[derive(Clone, Copy, Debug, PartialEq, Eq)]
pub enum Hit {
    /// A SID, by its number.
    Sid(u32),
    /// The node's own address.
    Address,
    /// A route, by its number.
    Route(u32),
    /// No entry holds the address.
    Nothing,
}

/// A route, a SID or a node's own address, by its number, that of the address being its node's.
#[derive(Clone, Copy, Debug, PartialEq, Eq)]
pub enum EntryId {
    /// A route.
    Route(u32),
    /// A SID.
    Sid(u32),
    /// The own address of a node.
    Address(u32),
}

/// A network that keeps the rules of descriptions.
#[derive(Debug, Drop)]
pub struct Net {
    parts: NetParts,
    hidden: Hidden,
    tables: Tables,
}

impl Model for Net {
    ghost use Rattle.net_model.specs.Network.{Network};
    ghost use Rattle.net_model.specs.NetworkTerms.{network_with};
    ghost use Rattle.net_model.specs.LookupTables.{IsNet};

    ghost Value = { Network };

    ghost view = { λ n. network_with n.parts n.hidden };

    ghost invariant = { λ n. IsNet n.parts n.hidden n.tables };
}

impl Net {
    ghost use Rattle.std.specs.Prelude.{◌≡◌, ◌↔◌, ◌<◌, [], true, false, length, slice_get, option_copied, IsTrue, IfOk, OnOk, OnErr};
    ghost use Rattle.std.specs.Option.{unwrap_or};
    ghost use Rattle.net_model.specs.declared.parts.NamedPolicy.{NamedPolicy};
    ghost use Rattle.net_model.specs.Network.{hit_of_entry, is_shown};
    ghost use Rattle.net_model.specs.NetworkTerms.{network_of, CanHide, CanHideAll, HidesThese, IsEdited};
    ghost use Rattle.net_model.specs.NetworkRules.{is_link_set};
    ghost use Rattle.net_model.specs.NetworkRulesTerms.{IsNetwork};
    ghost use Rattle.text_faults.specs.TextReading.{Gives};
    ghost use Rattle.net_model.specs.NetworkJudging.{judging};
    ghost use Rattle.net_model.specs.NetworkJudgingTerms.{InRange};
    ghost use Rattle.net_model.specs.NetworkKeeps.{Keeps};
    ghost use Rattle.net_model.specs.Best.{entries_of, lookup_of};
    ghost use Rattle.net_model.specs.BestTerms.{IsBest};
    ghost use Rattle.net_model.specs.LookupTables.{IsExact};
    ghost use Rattle.net_model.specs.Named.{node_numbered, link_numbered};
    ghost use Rattle.net_model.specs.NamedTerms.{IsNodeNumbered, IsLinkNumbered};

    /// The network with these parts, or the first fault of them: the tables in the
    /// order block, node, link, route, policy, sid, of a table its items in their order, counted
    /// from 1, and of an item
    ///
    /// - block: `BadStructure` where its length is no block's or it overlaps an earlier one;
    /// - node: `DoubleName`; `DoublePrefix` where an earlier node has the address;
    /// - link: `DoubleName`; `UnknownName` of its start, then of its end; `BadStructure` where both
    ///   are one node;
    /// - route: `UnknownName` of its node, then of a link; `BadStructure` where `via` is empty or
    ///   has a link twice or one that does not start at the node; `DoublePrefix` where an earlier
    ///   route has the node, the table, the family and the prefix;
    /// - policy: `DoubleName`; `BadStructure` where it has no segments;
    /// - SID: `UnknownName` of its node; `BadStructure` where it does not have the keys that its
    ///   behaviour takes; `UnknownName` of a link or of the policy; `BadStructure` of its links as
    ///   of `via`; `BadFlavour` where a flavour stands twice or at another behaviour than End,
    ///   End.X and End.T, or the compression does not suit the block; `DoubleName` of its title;
    ///   `DoublePrefix` where an earlier SID has the node and the prefix; `Limit` where the node
    ///   has `MAX_SIDS_OF_NODE` SIDs before.
    ///
    /// A number out of range stands for an unknown name. What the parts do not hold stands beside
    /// them: the standing with a SID's number is that SID's, and a SID without one has the keys
    /// that its behaviour takes and no flavour twice. The parts of a network that is not made are
    /// given up. `NoMemory` says nothing about them.
    pub fn build(alloc: Global, parts: NetParts, standings: &[Standing]) -> Result<Net, NetFault>
        requires { InRange (network_of parts) }
        ensures first { Gives (λ _. tt) result (judging (network_of parts) standings.now) }
        ensures value { IfOk result (λ net. net ≡ network_of parts) }
    {
        judge_parts(alloc, &parts, standings)?;
        let hidden = none_hidden(alloc, &parts)?;
        let tables = tables_of(alloc, &parts, &hidden)?;
        Ok(Net {
            parts,
            hidden,
            tables,
        })
    }

    /// The network with these parts and with some of its routes and SIDs hidden, or the first fault
    /// of the parts, which doesn't look at what is hidden, as `build` has it. Hiding
    /// SIDs one by one in a network that was built would look over all entries for each.
    pub fn build_without(
        alloc: Global,
        parts: NetParts,
        standings: &[Standing],
        entries: &[EntryId],
    ) -> Result<Net, NetFault>
        requires range { InRange (network_of parts) }
        requires there { CanHideAll (network_of parts) entries.now }
        ensures first { Gives (λ _. tt) result (judging (network_of parts) standings.now) }
        ensures same { IfOk result (λ net. net ≡ record (network_of parts) {
          hidden = net.hidden;
        }) }
        ensures hidden { IfOk result (λ net. HidesThese net.hidden entries.now) }
    {
        judge_parts(alloc, &parts, standings)?;
        let hidden = hidden_of(alloc, &parts, entries)?;
        let tables = tables_of(alloc, &parts, &hidden)?;
        Ok(Net {
            parts,
            hidden,
            tables,
        })
    }

    /// Hides a route or a SID that is shown; all else stays as it was, the lists of the network
    /// with it. It takes no memory.
    pub fn hide(&mut self, entry: EntryId)
        requires there { CanHide self.old entry }
        requires shown { is_shown self.old.hidden (hit_of_entry entry) ≡ true }
        ensures { IsEdited self.old self.new (hit_of_entry entry) false }
    {
        let e = entry_of(&self.parts, entry);
        mark(&self.parts, &mut self.hidden, entry, true);
        let first = first_after(&self.parts, &self.hidden, &self.tables, &e);
        settle(&mut self.tables, &e, first);
    }

    /// Shows a route or a SID that is hidden; all else stays as it was. After want of
    /// memory the network is as it was.
    pub fn show(&mut self, alloc: Global, entry: EntryId) -> Result<(), AllocError>
        requires there { CanHide self.old entry }
        requires hidden { is_shown self.old.hidden (hit_of_entry entry) ≡ false }
        ensures ok { OnOk result (IsEdited self.old self.new (hit_of_entry entry) true) }
        ensures err { OnErr result (self.new ≡ self.old) }
    {
        let e = entry_of(&self.parts, entry);
        mark(&self.parts, &mut self.hidden, entry, false);
        let first = first_after(&self.parts, &self.hidden, &self.tables, &e).unwrap_or(e.hit);
        match place(alloc, &mut self.tables, &e, first) {
            Ok(()) => Ok(()),
            Err(fault) => {
                mark(&self.parts, &mut self.hidden, entry, true);
                Err(fault)
            }
        }
    }

    /// Whether nothing is hidden, as in a network that was just built.
    pub fn is_whole(&self) -> bool
        ensures { IsTrue result ↔ (self.now.hidden ≡ []) }
    {
        hides_nothing(&self.hidden)
    }

    /// Whether an entry is a route or a SID of the network, which alone can be hidden.
    pub fn can_hide(&self, entry: EntryId) -> bool
        ensures { IsTrue result ↔ CanHide self.now entry }
    {
        match entry {
            EntryId::Route(n) => n < self.routes(),
            EntryId::Sid(n) => n < self.sids(),
            EntryId::Address(_) => false,
        }
    }

    /// Whether a route or a SID is shown; a node's address always is.
    pub fn is_shown(&self, entry: EntryId) -> bool
        ensures { result ≡ is_shown self.now.hidden (hit_of_entry entry) }
    {
        match entry {
            EntryId::Route(n) => is_shown(&self.hidden, Hit::Route(n)),
            EntryId::Sid(n) => is_shown(&self.hidden, Hit::Sid(n)),
            EntryId::Address(_) => true,
        }
    }

    /// That the network keeps the rules and is in range, as it was built: an empty function, for
    /// the callers' proofs.
    pub fn keeps_rules(&self)
        ensures network { IsNetwork self.now }
        ensures range { InRange self.now }
        ensures facts { Keeps self.now }
    {
        let _ = &self.parts;
    }

    /// The parts, as the network was made of them, hidden or not.
    pub fn parts(&self) -> &NetParts
        ensures { record (network_of result.now) { hidden = self.now.hidden } ≡ self.now }
    {
        &self.parts
    }

    /// How many blocks there are, at most `MAX_BLOCKS`.
    pub fn blocks(&self) -> u32
        ensures { result ≡ length self.now.blocks }
    {
        self.keeps_rules();
        self.parts.blocks.len() as u32
    }

    /// How many nodes there are, at most `MAX_NODES`.
    pub fn nodes(&self) -> u32
        ensures { result ≡ length self.now.nodes }
    {
        self.keeps_rules();
        self.parts.nodes.len() as u32
    }

    /// How many links there are, at most `MAX_LINKS`.
    pub fn links(&self) -> u32
        ensures { result ≡ length self.now.links }
    {
        self.keeps_rules();
        self.parts.links.len() as u32
    }

    /// How many routes there are, at most `MAX_ROUTES`.
    pub fn routes(&self) -> u32
        ensures { result ≡ length self.now.routes }
    {
        self.keeps_rules();
        self.parts.routes.len() as u32
    }

    /// How many policies there are, at most `MAX_POLICIES`.
    pub fn policies(&self) -> u32
        ensures { result ≡ length self.now.policies }
    {
        self.keeps_rules();
        self.parts.policies.len() as u32
    }

    /// How many titles there are.
    pub fn titles(&self) -> usize
        ensures { result ≡ length self.now.titles }
    {
        self.parts.titles.len()
    }

    /// How many SIDs there are, at most `MAX_SIDS`.
    pub fn sids(&self) -> u32
        ensures { result ≡ length self.now.sids }
    {
        self.keeps_rules();
        self.parts.sids.len() as u32
    }

    /// The block with a number, counted from 0.
    #[tactic(auto, using(std::proofs::lemmas::Option::gets))]
    pub fn block(&self, n: u32) -> &Block
        requires { n < length self.now.blocks }
        ensures { slice_get self.now.blocks n ≡ Some result.now }
    {
        &self.parts.blocks[n as usize]
    }

    /// The node with a number, counted from 0.
    #[tactic(auto, using(std::proofs::lemmas::Option::gets))]
    pub fn node(&self, n: u32) -> &Node
        requires { n < length self.now.nodes }
        ensures { slice_get self.now.nodes n ≡ Some result.now }
    {
        &self.parts.nodes[n as usize]
    }

    /// The number of the node with a name; `None` exactly where no node has it.
    pub fn node_named(&self, name: &[u8]) -> Option<u32>
        ensures number { result ≡ node_numbered name.now self.now.nodes }
        ensures meaning { IsNodeNumbered name.now self.now.nodes result }
    {
        self.keeps_rules();
        match place_of_node(&self.parts.nodes, name) {
            Some(n) => Some(n as u32),
            None => None,
        }
    }

    /// The number of the link with a name; `None` exactly where no link has it.
    pub fn link_named(&self, name: &[u8]) -> Option<u32>
        ensures number { result ≡ link_numbered name.now self.now.links }
        ensures meaning { IsLinkNumbered name.now self.now.links result }
    {
        self.keeps_rules();
        match place_of_link(&self.parts.links, name) {
            Some(n) => Some(n as u32),
            None => None,
        }
    }

    /// Whether a set has 1 to `MAX_LINKS_OF_SET` links of the node, each once.
    pub fn is_link_set(&self, node: u32, set: &[u32]) -> bool
        ensures { result ≡ is_link_set self.now.links node set.now }
    {
        is_link_set(&self.parts.links, node, set)
    }

    /// What in a node's table fits an address of a family best: the longest of the entries that
    /// hold it, and of equally long ones a SID before the node's address before a route. Table 0 of
    /// IPv6 has the node's SIDs, its address and its routes, other tables have routes alone; the
    /// IPv4 routes of a table stand apart, and their addresses in the first 32 bits.
    pub fn lookup(&self, node: u32, table: u32, family: Family, a: Addr) -> Hit
        requires { node < length self.now.nodes }
        ensures value { result ≡ lookup_of self.now node table family a.value }
        ensures best { IsBest self.now node table family a.value result }
    {
        self.table(node, table, family).lookup(a)
    }

    /// The table of a node with a number, for packets of a family, for many look-ups.
    pub fn table(&self, node: u32, table: u32, family: Family) -> NodeTable<'_>
        requires { node < length self.now.nodes }
        ensures { result ≡ record { net = self.now; node = node; table = table; family = family } }
    {
        NodeTable::of(self, node, table, family)
    }

    /// The entries of a node's table with a number, for packets of a family; none are kept for a
    /// table that has none.
    pub(crate) fn entries(&self, node: u32, table: u32, family: Family) -> Option<&Table<Hit>>
        ensures { IsExact (entries_of self.now node table family)
            (unwrap_or (option_copied result) []) }
    {
        self.tables.get(&table_key(node, table, family))
    }

    /// The link with a number, counted from 0.
    #[tactic(auto, using(std::proofs::lemmas::Option::gets))]
    pub fn link(&self, n: u32) -> &Link
        requires { n < length self.now.links }
        ensures { slice_get self.now.links n ≡ Some result.now }
    {
        &self.parts.links[n as usize]
    }

    /// The route with a number, counted from 0.
    #[tactic(auto, using(std::proofs::lemmas::Option::gets))]
    pub fn route(&self, n: u32) -> &Route
        requires { n < length self.now.routes }
        ensures { slice_get self.now.routes n ≡ Some result.now }
    {
        &self.parts.routes[n as usize]
    }

    /// The policy with a number, counted from 0.
    #[tactic(auto, using(std::proofs::lemmas::Option::gets))]
    pub fn policy(&self, n: u32) -> &Policy
        requires { n < length self.now.policies }
        ensures { (p : NamedPolicy) × (slice_get self.now.policies n ≡ Some p)
            × (result.now ≡ p.policy) }
    {
        &self.parts.policies[n as usize].policy
    }

    /// The title with a number, counted from 0.
    #[tactic(auto, using(std::proofs::lemmas::Option::gets))]
    pub fn title(&self, n: u32) -> &Name
        requires { n < length self.now.titles }
        ensures { slice_get self.now.titles n ≡ Some result.now }
    {
        &self.parts.titles[n as usize]
    }

    /// The SID with a number, counted from 0.
    #[tactic(auto, using(std::proofs::lemmas::Option::gets))]
    pub fn sid(&self, n: u32) -> &SidEntry
        requires { n < length self.now.sids }
        ensures { slice_get self.now.sids n ≡ Some result.now }
    {
        &self.parts.sids[n as usize]
    }
}
