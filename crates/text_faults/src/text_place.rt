//! Where a fault is: the tables and the keys of descriptions and intents.

ghost use Rattle.std.specs.Prelude.{◌≡◌, ◌+◌, ◌-◌, ◌<◌, ◌^◌};
ghost use Rattle.text_faults.specs.TextFaults.{fault_at};

use crate::fault::TextFault;
use crate::fault_kind::FaultKind;

/// A table of a description or of an intent, or the whole of one of them.
#[derive(Clone, Copy, Debug, PartialEq, Eq)]
pub enum TableKind {
    /// The whole description.
    Net,
    /// A block of SIDs.
    Block,
    /// A node.
    Node,
    /// A link.
    Link,
    /// A route.
    Route,
    /// A policy.
    Policy,
    /// A SID.
    Sid,
    /// The whole intent.
    Intent,
    /// A step of an intent.
    Step,
}

/// A key of a description or of an intent; arrays of tables stand at keys too.
#[derive(Clone, Copy, Debug, PartialEq, Eq)]
pub enum Key {
    /// The blocks.
    Block,
    /// The nodes, or the name of one.
    Node,
    /// The links.
    Link,
    /// The routes.
    Route,
    /// The policies, or the name of one.
    Policy,
    /// The SIDs.
    Sid,
    /// The steps.
    Step,
    /// A prefix.
    Prefix,
    /// A block's kind of compression.
    Kind,
    /// The bits of a block's compressed SIDs, or a SID's kind of compression.
    Csid,
    /// A name.
    Name,
    /// A node's address.
    Address,
    /// The upper layers that a node takes.
    Allow,
    /// The node where a link starts.
    From,
    /// The node where a link ends.
    To,
    /// The longest packet that a link carries.
    Mtu,
    /// The number of a table of routes.
    Table,
    /// The links of a route.
    Via,
    /// The source of an outer header.
    Source,
    /// The segments of a policy.
    Segments,
    /// The traffic class of an outer header.
    TrafficClass,
    /// The flow label of an outer header.
    FlowLabel,
    /// The hop limit of an outer header.
    HopLimit,
    /// A SID's behaviour.
    Behaviour,
    /// A SID's flavours.
    Flavours,
    /// A SID's title.
    Title,
    /// The links of a SID or of a step.
    Links,
    /// The node where an intent begins.
    Headend,
    /// The family of an intent's packets.
    Inner,
    /// Whether an intent's headend writes the full or the reduced form.
    Mode,
    /// Which of the shortest lists an intent prefers.
    Prefer,
    /// The most containers of a list.
    MaxContainers,
    /// The title of a step's function.
    Function,
    /// The name of the node that a step reaches.
    Reach,
}

/// Where a fault is.
#[derive(Clone, Copy, Debug, PartialEq, Eq)]
pub struct FaultPlace {
    /// The table.
    pub table: TableKind,
    /// The number of its item in the order of the file, counted from 1; 0 is the table itself.
    pub item: u32,
}

impl FaultPlace {
    /// The whole of a table.
    pub fn whole(table: TableKind) -> FaultPlace
        ensures { result ≡ record { table = table; item = 0 } }
    {
        FaultPlace { table, item: 0 }
    }

    /// The item of a table with an index, which is counted from 0.
    pub fn of_item(table: TableKind, index: usize) -> FaultPlace
        requires { index < 2 ^ 32 - 1 }
        ensures { result ≡ record { table = table; item = index + 1 } }
    {
        FaultPlace {
            table,
            item: index as u32 + 1,
        }
    }

    /// The fault of a kind here.
    pub fn fault(self, kind: FaultKind) -> TextFault
        ensures { result ≡ fault_at self kind }
    {
        TextFault { place: self, kind }
    }
}
