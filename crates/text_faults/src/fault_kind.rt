//! What may be wrong with a text.

ghost use Rattle.std.specs.Prelude.{◌≡◌};
ghost use Rattle.text_faults.specs.TextFaults.{kind_number, kind_name};

use crate::text_place::Key;

/// What is wrong.
#[derive(Clone, Copy, Debug, PartialEq, Eq)]
pub enum FaultKind {
    /// The whole is not TOML.
    NotToml,
    /// A key that is needed is absent.
    MissingKey {
        /// The key.
        key: Key,
    },
    /// A value is of another kind of TOML than the key takes.
    WrongKind,
    /// A key that the table does not have.
    UnknownKey,
    /// A text that is no name.
    BadName,
    /// A name that nothing has.
    UnknownName,
    /// A name that an earlier item has.
    DoubleName,
    /// A text that is no address or prefix.
    BadAddress,
    /// A word that the key does not take, or a flavour that does not fit.
    BadFlavour,
    /// Parts that do not fit one another.
    BadStructure,
    /// A prefix or an address that an earlier item has.
    DoublePrefix,
    /// A number, a length or a count that is out of range.
    Limit {
        /// The key of the number or of the list, or of the table that is counted.
        what: Key,
        /// The number, the length or the count.
        value: i64,
    },
}

impl FaultKind {
    /// The number of the kind's refusal.
    pub fn number(self) -> u8
        ensures { result ≡ kind_number self }
    {
        match self {
            FaultKind::NotToml => 21,
            FaultKind::MissingKey { .. } => 22,
            FaultKind::WrongKind => 23,
            FaultKind::UnknownKey => 24,
            FaultKind::BadName => 25,
            FaultKind::UnknownName => 26,
            FaultKind::DoubleName => 27,
            FaultKind::BadAddress => 28,
            FaultKind::BadFlavour => 29,
            FaultKind::BadStructure => 30,
            FaultKind::DoublePrefix => 31,
            FaultKind::Limit { .. } => 32,
        }
    }

    /// The kind's name.
    #[tactic(auto, unfolding(crate::specs::TextFaults::kind_name))]
    pub fn name(self) -> &'static str
        ensures { result.now ≡ kind_name self }
    {
        match self {
            FaultKind::NotToml => "NotToml",
            FaultKind::MissingKey { .. } => "MissingKey",
            FaultKind::WrongKind => "WrongKind",
            FaultKind::UnknownKey => "UnknownKey",
            FaultKind::BadName => "BadName",
            FaultKind::UnknownName => "UnknownName",
            FaultKind::DoubleName => "DoubleName",
            FaultKind::BadAddress => "BadAddress",
            FaultKind::BadFlavour => "BadFlavour",
            FaultKind::BadStructure => "BadStructure",
            FaultKind::DoublePrefix => "DoublePrefix",
            FaultKind::Limit { .. } => "Limit",
        }
    }
}
