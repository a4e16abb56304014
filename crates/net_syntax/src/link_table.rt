//! Links.

ghost use Rattle.net_syntax.specs.DescriptionText.{link_of};

use net_model::{MAX_LINK_MTU, MIN_LINK_MTU, Name};
use std::alloc::Global;
use text_faults::{FaultPlace, Key, NetFault};
use toml::Table;
use toml_reader::{Describes, needed, only, optional, optional_number};

/// A link, as it is described.
#[derive(Debug, Drop)]
pub struct DescribedLink {
    /// Its name.
    pub name: Name,
    /// The name of the node where it starts.
    pub from: Name,
    /// The name of the node where it ends; with none the link leaves the network.
    pub to: Option<Name>,
    /// The bytes of the longest packet that it carries, from 1,280 to 65,575; by default 65,575.
    pub mtu: u32,
}

/// Tables of links.
pub(crate) struct Links;

impl Describes<DescribedLink> for Links {
    ghost of = { link_of };

    fn read(alloc: Global, table: &Table, place: FaultPlace) -> Result<DescribedLink, NetFault> {
        only(table, &[Key::Name, Key::From, Key::To, Key::Mtu], place)?;
        let name = needed::<Name>(alloc, table, place, Key::Name)?;
        let from = needed::<Name>(alloc, table, place, Key::From)?;
        let to = optional::<Option<Name>>(alloc, None, table, place, Key::To)?;
        let mtu = optional_number(
            (MIN_LINK_MTU, MAX_LINK_MTU),
            MAX_LINK_MTU,
            table,
            place,
            Key::Mtu,
        )?;
        Ok(DescribedLink {
            name,
            from,
            to,
            mtu,
        })
    }
}
