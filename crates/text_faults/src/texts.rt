//! How faults are written.

ghost use Rattle.std.specs.Prelude.{◌≡◌, Some};
ghost use Rattle.text_faults.specs.Keys.{table_text, key_text};
ghost use Rattle.text_faults.specs.TextFaults.{place_text, fault_text};

use crate::fault::TextFault;
use crate::fault_kind::FaultKind;
use crate::text_place::{FaultPlace, Key, TableKind};
use std::fmt;
use std::fmt::{Display, Formatter};

impl TableKind {
    /// The table's name, as it stands in a file; of the whole, as it stands in a refusal.
    #[tactic(auto, unfolding(crate::specs::Keys::table_text))]
    pub fn text(&self) -> &'static str
        ensures { result.now ≡ table_text self.now }
    {
        match self {
            TableKind::Net => "net",
            TableKind::Block => "block",
            TableKind::Node => "node",
            TableKind::Link => "link",
            TableKind::Route => "route",
            TableKind::Policy => "policy",
            TableKind::Sid => "sid",
            TableKind::Intent => "intent",
            TableKind::Step => "step",
        }
    }
}

impl Key {
    /// The key, as it stands in a file.
    #[tactic(auto, unfolding(crate::specs::Keys::key_text))]
    pub fn text(&self) -> &'static str
        ensures { result.now ≡ key_text self.now }
    {
        match self {
            Key::Block => "block",
            Key::Node => "node",
            Key::Link => "link",
            Key::Route => "route",
            Key::Policy => "policy",
            Key::Sid => "sid",
            Key::Step => "step",
            Key::Prefix => "prefix",
            Key::Kind => "kind",
            Key::Csid => "csid",
            Key::Name => "name",
            Key::Address => "address",
            Key::Allow => "allow",
            Key::From => "from",
            Key::To => "to",
            Key::Mtu => "mtu",
            Key::Table => "table",
            Key::Via => "via",
            Key::Source => "source",
            Key::Segments => "segments",
            Key::TrafficClass => "traffic_class",
            Key::FlowLabel => "flow_label",
            Key::HopLimit => "hop_limit",
            Key::Behaviour => "behaviour",
            Key::Flavours => "flavours",
            Key::Title => "title",
            Key::Links => "links",
            Key::Headend => "headend",
            Key::Inner => "inner",
            Key::Mode => "mode",
            Key::Prefer => "prefer",
            Key::MaxContainers => "max_containers",
            Key::Function => "function",
            Key::Reach => "reach",
        }
    }
}

/// The table's name.
impl Display for TableKind {
    ghost output = { λ kind. Some (table_text kind) };

    fn fmt<W: fmt::Write>(&self, f: &mut Formatter<W>) -> fmt::Result {
        f.write_str(self.text())
    }
}

/// The key.
impl Display for Key {
    ghost output = { λ key. Some (key_text key) };

    fn fmt<W: fmt::Write>(&self, f: &mut Formatter<W>) -> fmt::Result {
        f.write_str(self.text())
    }
}

/// The table and the number of its item.
impl Display for FaultPlace {
    ghost output = { λ place. Some (place_text place) };

    fn fmt<W: fmt::Write>(&self, f: &mut Formatter<W>) -> fmt::Result {
        let FaultPlace { table, item } = self;
        write!(f, "{table} {item}")
    }
}

/// The kind's name, and where it is: nothing of a text that is not TOML, and the key too where one
/// is missing. The key and the number of a limit aren't told.
impl Display for TextFault {
    ghost output = { λ fault. Some (fault_text fault) };

    #[tactic(auto, unfolding(crate::specs::TextFaults::fault_text))]
    fn fmt<W: fmt::Write>(&self, f: &mut Formatter<W>) -> fmt::Result {
        let name = self.kind.name();
        let place = self.place;
        match self.kind {
            FaultKind::NotToml => write!(f, "{name}"),
            FaultKind::MissingKey { key } => write!(f, "{name} {place} {key}"),
            FaultKind::WrongKind
            | FaultKind::UnknownKey
            | FaultKind::BadName
            | FaultKind::UnknownName
            | FaultKind::DoubleName
            | FaultKind::BadAddress
            | FaultKind::BadFlavour
            | FaultKind::BadStructure
            | FaultKind::DoublePrefix
            | FaultKind::Limit { .. } => write!(f, "{name} {place}"),
        }
    }
}
