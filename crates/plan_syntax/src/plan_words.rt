//! How faults of plans are written.

ghost use Rattle.std.specs.Prelude.{◌≡◌, Some};
ghost use Rattle.plan_syntax.specs.PlanWords.{plan_table_text, plan_key_text};
ghost use Rattle.plan_syntax.specs.PlanFaults.{plan_kind_name, plan_place_text, plan_fault_text};

use crate::plan_faults::{PlanFault, PlanFaultKind};
use crate::plan_places::{PlanKey, PlanPlace, PlanTable};
use std::fmt;
use std::fmt::{Display, Formatter};

impl PlanTable {
    /// The table's name, as it stands in a file; of the whole, as it stands in a refusal.
    #[tactic(auto, unfolding(crate::specs::PlanWords::plan_table_text))]
    pub fn text(&self) -> &'static str
        ensures { result.now ≡ plan_table_text self.now }
    {
        match self {
            PlanTable::Plan => "plan",
            PlanTable::Cable => "cable",
            PlanTable::Link => "link",
            PlanTable::Locator => "locator",
            PlanTable::Site => "site",
        }
    }
}

impl PlanKey {
    /// The key, as it stands in a file.
    #[tactic(auto, unfolding(crate::specs::PlanWords::plan_key_text))]
    pub fn text(&self) -> &'static str
        ensures { result.now ≡ plan_key_text self.now }
    {
        match self {
            PlanKey::Metric => "metric",
            PlanKey::Mtu => "mtu",
            PlanKey::Ends => "ends",
            PlanKey::Addresses => "addresses",
            PlanKey::Cable => "cable",
            PlanKey::Link => "link",
            PlanKey::Locator => "locator",
            PlanKey::Site => "site",
            PlanKey::Nodes => "nodes",
            PlanKey::Links => "links",
            PlanKey::Name => "name",
            PlanKey::Prefix => "prefix",
            PlanKey::Table => "table",
            PlanKey::Node => "node",
            PlanKey::Prefixes => "prefixes",
        }
    }
}

impl PlanFaultKind {
    /// The kind's name, which is that of the same kind of a description.
    #[tactic(auto, unfolding(crate::specs::PlanFaults::plan_kind_name))]
    pub fn name(self) -> &'static str
        ensures { result.now ≡ plan_kind_name self }
    {
        match self {
            PlanFaultKind::NotToml => "NotToml",
            PlanFaultKind::MissingKey { .. } => "MissingKey",
            PlanFaultKind::WrongKind => "WrongKind",
            PlanFaultKind::UnknownKey => "UnknownKey",
            PlanFaultKind::BadName => "BadName",
            PlanFaultKind::UnknownName => "UnknownName",
            PlanFaultKind::DoubleName => "DoubleName",
            PlanFaultKind::BadAddress => "BadAddress",
            PlanFaultKind::BadStructure => "BadStructure",
            PlanFaultKind::Limit { .. } => "Limit",
        }
    }
}

/// The table's name.
impl Display for PlanTable {
    ghost output = { λ table. Some (plan_table_text table) };

    fn fmt<W: fmt::Write>(&self, f: &mut Formatter<W>) -> fmt::Result {
        f.write_str(self.text())
    }
}

/// The key.
impl Display for PlanKey {
    ghost output = { λ key. Some (plan_key_text key) };

    fn fmt<W: fmt::Write>(&self, f: &mut Formatter<W>) -> fmt::Result {
        f.write_str(self.text())
    }
}

/// The table and the number of its item.
impl Display for PlanPlace {
    ghost output = { λ place. Some (plan_place_text place) };

    fn fmt<W: fmt::Write>(&self, f: &mut Formatter<W>) -> fmt::Result {
        let PlanPlace { table, item } = self;
        write!(f, "{table} {item}")
    }
}

/// The kind's name, and where it is: nothing of a text that is not TOML, and the key too where one
/// is missing. The key and the number of a limit aren't told.
impl Display for PlanFault {
    ghost output = { λ fault. Some (plan_fault_text fault) };

    #[tactic(auto, unfolding(crate::specs::PlanFaults::plan_fault_text))]
    fn fmt<W: fmt::Write>(&self, f: &mut Formatter<W>) -> fmt::Result {
        let name = self.kind.name();
        let place = self.place;
        match self.kind {
            PlanFaultKind::NotToml => write!(f, "{name}"),
            PlanFaultKind::MissingKey { key } => write!(f, "{name} {place} {key}"),
            PlanFaultKind::WrongKind
            | PlanFaultKind::UnknownKey
            | PlanFaultKind::BadName
            | PlanFaultKind::UnknownName
            | PlanFaultKind::DoubleName
            | PlanFaultKind::BadAddress
            | PlanFaultKind::BadStructure
            | PlanFaultKind::Limit { .. } => write!(f, "{name} {place}"),
        }
    }
}
