//! Where a fault of a plan is: its tables and its keys.

ghost use Rattle.std.specs.Prelude.{◌≡◌, ◌+◌, ◌-◌, ◌<◌, ◌^◌};
ghost use Rattle.plan_syntax.specs.PlanFaults.{plan_fault_at};

use crate::plan_faults::{PlanFault, PlanFaultKind};

/// A table of a plan, or the whole of it.
#[derive(Clone, Copy, Debug, PartialEq, Eq)]
pub enum PlanTable {
    /// The whole plan.
    Plan,
    /// A cable.
    Cable,
    /// The metric of a link.
    Link,
    /// A locator.
    Locator,
    /// A site.
    Site,
}

/// A key of a plan; arrays of tables stand at keys too.
#[derive(Clone, Copy, Debug, PartialEq, Eq)]
pub enum PlanKey {
    /// The metrics of links.
    Metric,
    /// The longest packets that links carry.
    Mtu,
    /// Whether SIDs of End are locators.
    Ends,
    /// Whether addresses of nodes are locators.
    Addresses,
    /// The cables.
    Cable,
    /// The metrics of links by their names, or the name of a site's link.
    Link,
    /// The locators.
    Locator,
    /// The sites.
    Site,
    /// The nodes of a cable or of a locator.
    Nodes,
    /// The names of a cable's links.
    Links,
    /// The name of a link.
    Name,
    /// The prefix of a locator.
    Prefix,
    /// The number of a table of routes.
    Table,
    /// The name of a site's node.
    Node,
    /// The prefixes of a site.
    Prefixes,
}

/// Where a fault of a plan is.
#[derive(Clone, Copy, Debug, PartialEq, Eq)]
pub struct PlanPlace {
    /// The table.
    pub table: PlanTable,
    /// The number of its item in the order of the file, counted from 1; 0 is the table itself.
    pub item: u32,
}

impl PlanPlace {
    /// The whole of a table.
    pub fn whole(table: PlanTable) -> PlanPlace
        ensures { result ≡ record { table = table; item = 0 } }
    {
        PlanPlace { table, item: 0 }
    }

    /// The item of a table with an index, which is counted from 0.
    pub fn of_item(table: PlanTable, index: usize) -> PlanPlace
        requires { index < 2 ^ 32 - 1 }
        ensures { result ≡ record { table = table; item = index + 1 } }
    {
        PlanPlace {
            table,
            item: index as u32 + 1,
        }
    }

    /// The fault of a kind here.
    pub fn fault(self, kind: PlanFaultKind) -> PlanFault
        ensures { result ≡ plan_fault_at self kind }
    {
        PlanFault { place: self, kind }
    }
}
