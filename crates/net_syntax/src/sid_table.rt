//! SIDs.

ghost use Rattle.toml.specs.View.{table_view};
ghost use Rattle.text_faults.specs.TextReading.{Gives};
ghost use Rattle.toml_reader.specs.Tree.{needed, word_in};
ghost use Rattle.net_syntax.specs.TextWords.{csid_of, behaviour_of, flavour_of};
ghost use Rattle.net_syntax.specs.DescriptionText.{sid_prefix_in, sid_of};

use crate::words::{Word, needed_word, optional_word, word_in};
use base::Seq;
use net_model::{LAST_TABLE, MAX_LINKS_OF_SET, Name};
use srv6_rules::Csid;
use std::alloc::Global;
use text_faults::{FaultKind, FaultPlace, Key, NetFault, OrNoMemory};
use toml::{Table, Value};
use toml_reader::{
    Describes, Kind, list_if_given, needed, number_if_given, only, optional, optional_array,
};
use v6_addr::Prefix;

/// A behaviour, by its word alone (RFC 8986 section 4).
#[derive(Clone, Copy, Debug, PartialEq, Eq)]
pub enum BehaviourWord {
    /// `End` (RFC 8986 section 4.1).
    End,
    /// `End.X` (RFC 8986 section 4.2).
    EndX,
    /// `End.T` (RFC 8986 section 4.3).
    EndT,
    /// `End.DX6` (RFC 8986 section 4.4).
    Dx6,
    /// `End.DX4` (RFC 8986 section 4.5).
    Dx4,
    /// `End.DT6` (RFC 8986 section 4.6).
    Dt6,
    /// `End.DT4` (RFC 8986 section 4.7).
    Dt4,
    /// `End.DT46` (RFC 8986 section 4.8).
    Dt46,
    /// `End.B6.Encaps` (RFC 8986 section 4.13).
    B6,
    /// `End.B6.Encaps.Red` (RFC 8986 section 4.14).
    B6Red,
}

/// A flavour of a SID (RFC 8986 section 4.16).
#[derive(Clone, Copy, Debug, PartialEq, Eq)]
pub enum Flavour {
    /// Penultimate segment pop.
    Psp,
    /// Ultimate segment pop.
    Usp,
    /// Ultimate segment decapsulation.
    Usd,
}

/// A SID, as it is described. What its behaviour takes is judged later, and so are
/// flavours that stand twice.
#[derive(Debug, Drop)]
pub struct DescribedSid {
    /// The name of its node.
    pub node: Name,
    /// The SID: packets to addresses in it come to it; of 1 to 128 bits.
    pub prefix: Prefix,
    /// What it does.
    pub behaviour: BehaviourWord,
    /// How its part of a segment list is compressed; by default not at all.
    pub csid: Csid,
    /// Its flavours, as they stand; by default none.
    pub flavours: Seq<Flavour>,
    /// Its title, if it has one.
    pub title: Option<Name>,
    /// The names of its links, at most 64, where the key is there.
    pub links: Option<Seq<Name>>,
    /// The number of its table, from 0 to 65535, where the key is there.
    pub table: Option<u32>,
    /// The name of its policy, where the key is there.
    pub policy: Option<Name>,
}

impl Word for Csid {
    ghost meaning = { csid_of };

    #[tactic(auto, unfolding(crate::specs::TextWords::csid_of))]
    fn meant_by(word: &str) -> Option<Csid> {
        match word {
            "plain" => Some(Csid::Plain),
            "next" => Some(Csid::Next),
            "replace" => Some(Csid::Replace),
            _ => None,
        }
    }
}

impl Word for BehaviourWord {
    ghost meaning = { behaviour_of };

    #[tactic(auto, unfolding(crate::specs::TextWords::behaviour_of))]
    fn meant_by(word: &str) -> Option<BehaviourWord> {
        match word {
            "End" => Some(BehaviourWord::End),
            "End.X" => Some(BehaviourWord::EndX),
            "End.T" => Some(BehaviourWord::EndT),
            "End.DX6" => Some(BehaviourWord::Dx6),
            "End.DX4" => Some(BehaviourWord::Dx4),
            "End.DT6" => Some(BehaviourWord::Dt6),
            "End.DT4" => Some(BehaviourWord::Dt4),
            "End.DT46" => Some(BehaviourWord::Dt46),
            "End.B6.Encaps" => Some(BehaviourWord::B6),
            "End.B6.Encaps.Red" => Some(BehaviourWord::B6Red),
            _ => None,
        }
    }
}

impl Word for Flavour {
    ghost meaning = { flavour_of };

    #[tactic(auto, unfolding(crate::specs::TextWords::flavour_of))]
    fn meant_by(word: &str) -> Option<Flavour> {
        match word {
            "psp" => Some(Flavour::Psp),
            "usp" => Some(Flavour::Usp),
            "usd" => Some(Flavour::Usd),
            _ => None,
        }
    }
}

/// A flavour: `WrongKind` where the value is no text, `BadFlavour` where it is another text.
impl Kind for Flavour {
    ghost kind = { word_in flavour_of };

    fn of(_alloc: Global, value: &Value, place: FaultPlace, key: Key) -> Result<Flavour, NetFault> {
        Ok(word_in::<Flavour>(value, place, key)?)
    }
}

/// The prefix of a SID: `Limit` where it is a prefix without bits.
fn sid_prefix(alloc: Global, table: &Table, place: FaultPlace) -> Result<Prefix, NetFault>
    ensures { Gives (λ p. p) result (needed sid_prefix_in place (table_view table.now) Key.Prefix) }
{
    let prefix = needed::<Prefix>(alloc, table, place, Key::Prefix)?;
    if prefix.len() == 0 {
        return Err(OrNoMemory::Fault(place.fault(FaultKind::Limit {
            what: Key::Prefix,
            value: 0,
        })));
    }
    Ok(prefix)
}

/// Tables of SIDs.
pub(crate) struct Sids;

impl Describes<DescribedSid> for Sids {
    ghost of = { sid_of };

    fn read(alloc: Global, keys: &Table, place: FaultPlace) -> Result<DescribedSid, NetFault> {
        let known = [
            Key::Node,
            Key::Prefix,
            Key::Behaviour,
            Key::Csid,
            Key::Flavours,
            Key::Title,
            Key::Links,
            Key::Table,
            Key::Policy,
        ];
        only(keys, &known, place)?;
        let node = needed::<Name>(alloc, keys, place, Key::Node)?;
        let prefix = sid_prefix(alloc, keys, place)?;
        let behaviour = needed_word::<BehaviourWord>(keys, place, Key::Behaviour)?;
        let csid = optional_word::<Csid>(Csid::Plain, keys, place, Key::Csid)?;
        let flavours = optional_array::<Flavour>(alloc, keys, place, Key::Flavours)?;
        let title = optional::<Option<Name>>(alloc, None, keys, place, Key::Title)?;
        let links = list_if_given::<Name>(alloc, MAX_LINKS_OF_SET, keys, place, Key::Links)?;
        let table = number_if_given((0, LAST_TABLE), keys, place, Key::Table)?;
        let policy = optional::<Option<Name>>(alloc, None, keys, place, Key::Policy)?;
        Ok(DescribedSid {
            node,
            prefix,
            behaviour,
            csid,
            flavours,
            title,
            links,
            table,
            policy,
        })
    }
}
