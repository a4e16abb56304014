//! A table of a node, and the look-up of addresses in it.

ghost use Rattle.std.specs.Prelude.{◌≡◌, [], List, option_copied};
ghost use Rattle.std.specs.Option.{unwrap_or};
ghost use Rattle.net_model.specs.Best.{Entry, longest, hit_of, lookup_of};
ghost use Rattle.net_model.specs.LookupTables.{IsExact};

use crate::net::{Hit, Net};
use prefix_table::Table;
use srv6_rules::Family;
use std::marker::Model;
use v6_addr::Addr;

/// A table of a node of a network, for many look-ups. It takes no memory.
#[derive(Debug, Drop)]
pub struct NodeTable<'a> {
    net: &'a Net,
    node: u32,
    table: u32,
    family: Family,
    entries: Option<&'a Table<Hit>>,
}

impl<'a> Model for NodeTable<'a> {
    ghost use Rattle.std.specs.Prelude.{[], option_copied};
    ghost use Rattle.std.specs.Option.{unwrap_or};
    ghost use Rattle.net_model.specs.Best.{entries_of};
    ghost use Rattle.net_model.specs.LookupTables.{TableOf, IsExact};

    ghost Value = { TableOf };

    ghost view = { λ t. record {
      net = t.net.now;
      node = t.node;
      table = t.table;
      family = t.family;
    } };

    ghost invariant = { λ t. IsExact (entries_of t.net.now t.node t.table t.family)
        (unwrap_or (option_copied t.entries) []) };
}

impl<'a> NodeTable<'a> {
    /// The table of a node with a number, for packets of a family.
    pub(crate) fn of(net: &'a Net, node: u32, table: u32, family: Family) -> NodeTable<'a>
        ensures { result ≡ record { net = net.now; node = node; table = table; family = family } }
    {
        NodeTable {
            net,
            node,
            table,
            family,
            entries: net.entries(node, table, family),
        }
    }

    /// The network that has the table.
    pub fn net(&self) -> &'a Net
        ensures { result.now ≡ self.now.net }
    {
        self.net
    }

    /// The family of the packets that it is for.
    pub fn family(&self) -> Family
        ensures { result ≡ self.now.family }
    {
        self.family
    }

    /// What fits an address best, as `Net::lookup` gives it.
    #[tactic(auto, unfolding(crate::specs::Best::lookup_of))]
    pub fn lookup(&self, a: Addr) -> Hit
        ensures { result ≡ lookup_of self.now.net self.now.node self.now.table self.now.family
            a.value }
    {
        hit_in(self.entries, a)
    }
}

/// What in a table fits an address best; a table that is not there has no entries.
fn hit_in(table: Option<&Table<Hit>>, a: Addr) -> Hit
    ensures { (entries : List Entry) → IsExact entries (unwrap_or (option_copied table.entry) [])
        → result ≡ hit_of (longest a.value entries) }
{
    match table {
        None => Hit::Nothing,
        Some(table) => match table.best(a) {
            None => Hit::Nothing,
            Some((_, hit)) => *hit,
        },
    }
}
