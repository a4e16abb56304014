//! A whole description.

ghost use Rattle.toml.specs.View.{table_view};
ghost use Rattle.text_faults.specs.TextReading.{Gives};
ghost use Rattle.net_syntax.specs.DescriptionText.{description_of, description_in};

use crate::block_table::{Blocks, DescribedBlock};
use crate::link_table::{DescribedLink, Links};
use crate::node_table::{DescribedNode, Nodes};
use crate::policy_table::{DescribedPolicy, Policies};
use crate::route_table::{DescribedRoute, Routes};
use crate::sid_table::{DescribedSid, Sids};
use base::Seq;
use net_model::{MAX_BLOCKS, MAX_LINKS, MAX_NODES, MAX_POLICIES, MAX_ROUTES, MAX_SIDS};
use std::alloc::Global;
use text_faults::{FaultPlace, Key, NetFault, TableKind};
use toml::Table;
use toml_reader::{document, items_at, only};

/// What a description says: its items in the order of the file.
#[derive(Debug, Drop)]
pub struct Description {
    /// The blocks of SIDs, at most 64.
    pub blocks: Seq<DescribedBlock>,
    /// The nodes, at most 256.
    pub nodes: Seq<DescribedNode>,
    /// The links, at most 4,096.
    pub links: Seq<DescribedLink>,
    /// The routes, at most 65,536.
    pub routes: Seq<DescribedRoute>,
    /// The policies, at most 256.
    pub policies: Seq<DescribedPolicy>,
    /// The SIDs, at most 4,096.
    pub sids: Seq<DescribedSid>,
}

/// What the tree of a description says, or its first fault: `UnknownKey` of the whole
/// where it has another table; then block, node, link, route, policy and sid in this order, each
/// with its kind, its count and its items. In an item another key comes first, and then each key in
/// its order: whether it is there, its kind, its value. A list's length comes before its members.
/// `NoMemory` may come at any time.
pub fn describe(alloc: Global, root: &Table) -> Result<Description, NetFault>
    ensures { Gives (λ d. d) result (description_of (table_view root.now)) }
{
    let tables = [
        Key::Block,
        Key::Node,
        Key::Link,
        Key::Route,
        Key::Policy,
        Key::Sid,
    ];
    let whole = FaultPlace::whole(TableKind::Net);
    only(root, &tables, whole)?;
    let blocks = items_at::<Blocks, DescribedBlock>(
        alloc,
        TableKind::Block,
        Key::Block,
        MAX_BLOCKS,
        root,
    )?;
    let nodes = items_at::<Nodes, DescribedNode>(
        alloc,
        TableKind::Node,
        Key::Node,
        MAX_NODES,
        root,
    )?;
    let links = items_at::<Links, DescribedLink>(
        alloc,
        TableKind::Link,
        Key::Link,
        MAX_LINKS,
        root,
    )?;
    let routes = items_at::<Routes, DescribedRoute>(
        alloc,
        TableKind::Route,
        Key::Route,
        MAX_ROUTES,
        root,
    )?;
    let policies = items_at::<Policies, DescribedPolicy>(
        alloc,
        TableKind::Policy,
        Key::Policy,
        MAX_POLICIES,
        root,
    )?;
    let sids = items_at::<Sids, DescribedSid>(alloc, TableKind::Sid, Key::Sid, MAX_SIDS, root)?;
    Ok(Description {
        blocks,
        nodes,
        links,
        routes,
        policies,
        sids,
    })
}

/// What a description's text says, or its first fault: `NotToml` exactly where the
/// bytes are not UTF-8 or not TOML, and else as `describe`. `NoMemory` may come at any time.
pub fn read_description(alloc: Global, text: &[u8]) -> Result<Description, NetFault>
    ensures { Gives (λ d. d) result (description_in text.now) }
{
    let root = document(alloc, text, FaultPlace::whole(TableKind::Net))?;
    describe(alloc, &root)
}
