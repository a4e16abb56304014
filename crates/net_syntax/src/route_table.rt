//! Routes.

ghost use Rattle.net_syntax.specs.DescriptionText.{route_of};

use crate::family_prefix::FamilyPrefix;
use base::Seq;
use net_model::{LAST_TABLE, MAX_LINKS_OF_SET, Name};
use std::alloc::Global;
use text_faults::{FaultPlace, Key, NetFault};
use toml::Table;
use toml_reader::{Describes, needed, needed_list, only, optional_number};

/// A route, as it is described.
#[derive(Debug, Drop)]
pub struct DescribedRoute {
    /// The name of its node.
    pub node: Name,
    /// The number of its table, from 0 to 65535; by default 0.
    pub table: u32,
    /// Its prefix, of either family.
    pub prefix: FamilyPrefix,
    /// The names of the equal next hops, at most 64.
    pub via: Seq<Name>,
}

/// Tables of routes.
pub(crate) struct Routes;

impl Describes<DescribedRoute> for Routes {
    ghost of = { route_of };

    fn read(alloc: Global, keys: &Table, place: FaultPlace) -> Result<DescribedRoute, NetFault> {
        only(keys, &[Key::Node, Key::Table, Key::Prefix, Key::Via], place)?;
        let node = needed::<Name>(alloc, keys, place, Key::Node)?;
        let table = optional_number((0, LAST_TABLE), 0, keys, place, Key::Table)?;
        let prefix = needed::<FamilyPrefix>(alloc, keys, place, Key::Prefix)?;
        let via = needed_list::<Name>(alloc, MAX_LINKS_OF_SET, keys, place, Key::Via)?;
        Ok(DescribedRoute {
            node,
            table,
            prefix,
            via,
        })
    }
}
