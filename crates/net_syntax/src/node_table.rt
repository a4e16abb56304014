//! Nodes.

ghost use Rattle.net_syntax.specs.DescriptionText.{node_of};

use net_model::{MAX_ALLOWED_TYPES, Name, TypeList};
use std::alloc::Global;
use text_faults::{FaultPlace, Key, NetFault};
use toml::Table;
use toml_reader::{Describes, needed, only, optional_list};
use v6_addr::Addr;

/// A node, as it is described.
#[derive(Debug, Drop)]
pub struct DescribedNode {
    /// Its name.
    pub name: Name,
    /// Its own address.
    pub address: Addr,
    /// The upper layers that it takes at its SIDs; by default none.
    pub allow: TypeList,
}

/// Tables of nodes.
pub(crate) struct Nodes;

impl Describes<DescribedNode> for Nodes {
    ghost of = { node_of };

    fn read(alloc: Global, table: &Table, place: FaultPlace) -> Result<DescribedNode, NetFault> {
        only(table, &[Key::Name, Key::Address, Key::Allow], place)?;
        let name = needed::<Name>(alloc, table, place, Key::Name)?;
        let address = needed::<Addr>(alloc, table, place, Key::Address)?;
        let allow = optional_list::<u8>(alloc, MAX_ALLOWED_TYPES, table, place, Key::Allow)?;
        Ok(DescribedNode {
            name,
            address,
            allow,
        })
    }
}
