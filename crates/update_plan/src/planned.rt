//! The plan of an update: the network of both descriptions, and what is added and removed.

ghost use Rattle.std.specs.Prelude.{◌≡◌, ◌<◌};
ghost use Rattle.update_plan.specs.UpdateStateTerms.{IsPlan, whole};

use net_model::{EntryId, Net};
use std::marker::Model;

/// How a network passes from an old description to a new one: the network that has the entries of
/// both, of which those that are added are hidden, and the entries that are added and those that are
/// removed, each list routes before SIDs.
#[derive(Debug, Drop)]
pub struct Plan {
    pub(crate) net: Net,
    pub(crate) added: Vec<EntryId>,
    pub(crate) removed: Vec<EntryId>,
}

impl Model for Plan {
    ghost use Rattle.update_plan.specs.UpdateState.{Plan as PlanValue};
    ghost use Rattle.update_plan.specs.UpdateStateTerms.{IsPlan, whole};

    ghost Value = { PlanValue };

    ghost view = { λ p. record {
      joined = whole p.net;
      added = p.added.items;
      removed = p.removed.items;
    } };

    ghost invariant = { λ p. IsPlan p.net p.added.items p.removed.items };
}

impl Plan {
    /// The entries that are added, by their numbers in the network of both.
    pub fn added(&self) -> &[EntryId]
        ensures { result.now ≡ self.now.added }
    {
        self.added.as_slice()
    }

    /// The entries that are removed, by their numbers there, which are the old ones.
    pub fn removed(&self) -> &[EntryId]
        ensures { result.now ≡ self.now.removed }
    {
        self.removed.as_slice()
    }

    /// The network, what is added and what is removed.
    pub(crate) fn into_parts(self) -> (Net, Vec<EntryId>, Vec<EntryId>)
        ensures plan { IsPlan result.0 result.1.items result.2.items }
        ensures value { self ≡ record {
          joined = whole result.0;
          added = result.1.items;
          removed = result.2.items;
        } }
    {
        (self.net, self.added, self.removed)
    }
}
