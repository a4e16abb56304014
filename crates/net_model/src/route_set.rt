//! The entries of tables that came before, as a set.

ghost use Rattle.std.specs.Prelude.{◌≡◌, ◌∷◌, ◌++◌, [], List, IfOk, OnOk};
ghost use Rattle.net_model.specs.declared.parts.Route.{Route};
ghost use Rattle.net_model.specs.NetworkRules.{same_route};
ghost use Rattle.net_model.specs.NetworkJudging.{stands_before};
ghost use Rattle.net_model.specs.EntryKeys.{entry_key, key_of, HasKeys};

use crate::parts::Route;
use crate::rules::same_family;
use srv6_rules::Family;
use std::alloc::AllocError;
use std::collections::BTreeSet;
use v6_addr::Prefix;

/// What tells an entry of a table from others.
#[derive(Clone, Copy, PartialEq, Eq, PartialOrd, Ord)]
pub(crate) struct EntryKey {
    node: u32,
    table: u32,
    is_ipv6: bool,
    address: u128,
    len: u8,
}

/// What tells an entry of a node's table from others.
pub(crate) fn entry_key(node: u32, table: u32, family: Family, prefix: Prefix) -> EntryKey
    ensures { result ≡ entry_key node table family prefix }
{
    EntryKey {
        node,
        table,
        is_ipv6: same_family(family, Family::V6),
        address: prefix.value().value,
        len: prefix.len(),
    }
}

/// What tells a route from others.
fn key_of(r: &Route) -> EntryKey
    ensures { result ≡ key_of r.now }
{
    entry_key(r.node, r.table, r.family, r.prefix)
}

/// Puts a route to those before, and tells whether it stood among them.
pub(crate) fn put_route(keys: &mut BTreeSet<EntryKey>, r: &Route) -> Result<bool, AllocError>
    ensures told { (before : List Route) → HasKeys keys.old before
        → IfOk result (λ stood. stood ≡ stands_before same_route before r.now) }
    ensures kept { (before : List Route) → HasKeys keys.old before
        → OnOk result (HasKeys keys.new (before ++ r.now ∷ [])) }
{
    let is_new = keys.insert(key_of(r))?;
    Ok(!is_new)
}
