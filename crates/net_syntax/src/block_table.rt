//! Blocks of SIDs.

ghost use Rattle.std.specs.Prelude.{◌≡◌};
ghost use Rattle.toml.specs.View.{table_view};
ghost use Rattle.toml_reader.specs.Tree.{needed};
ghost use Rattle.net_syntax.specs.TextWords.{block_kind_of, csid_bits_of};
ghost use Rattle.net_syntax.specs.DescriptionText.{csid_bits_in, block_of};

use crate::words::{Word, needed_word};
use net_model::{BlockKind, LONG_CSID, SHORT_CSID};
use std::alloc::Global;
use text_faults::{FaultKind, FaultPlace, Key, NetFault, TextFault};
use toml::Table;
use toml_reader::{Describes, integer_in, meant, needed, only, value_at};
use v6_addr::Prefix;

/// A block of SIDs, as it is described (RFC 9800 section 3).
#[derive(Debug, Drop)]
pub struct DescribedBlock {
    /// The prefix that its SIDs lie in.
    pub prefix: Prefix,
    /// How its SIDs are compressed.
    pub kind: BlockKind,
    /// The bits of its compressed SIDs: 16 or 32.
    pub csid: u8,
}

impl Word for BlockKind {
    ghost meaning = { block_kind_of };

    #[tactic(auto, unfolding(crate::specs::TextWords::block_kind_of))]
    fn meant_by(word: &str) -> Option<BlockKind> {
        match word {
            "next" => Some(BlockKind::Next),
            "replace" => Some(BlockKind::Replace),
            _ => None,
        }
    }
}

/// The bits of compressed SIDs that a number says: 16 or 32.
fn csid_bits_of(number: i64) -> Option<u8>
    ensures { result ≡ csid_bits_of number }
{
    if number == i64::from(SHORT_CSID) || number == i64::from(LONG_CSID) {
        Some(number as u8)
    } else {
        None
    }
}

/// The bits of a block's compressed SIDs: `WrongKind` where the value is no integer, `BadFlavour`
/// where it is another than 16 and 32.
fn csid_bits(table: &Table, place: FaultPlace) -> Result<u8, TextFault>
    ensures { result ≡ needed csid_bits_in place (table_view table.now) Key.Csid }
{
    match value_at(table, Key::Csid) {
        Some(value) => {
            let number = integer_in(value, place)?;
            meant(csid_bits_of(number), place)
        }
        None => Err(place.fault(FaultKind::MissingKey { key: Key::Csid })),
    }
}

/// Tables of blocks.
pub(crate) struct Blocks;

impl Describes<DescribedBlock> for Blocks {
    ghost of = { block_of };

    fn read(alloc: Global, table: &Table, place: FaultPlace) -> Result<DescribedBlock, NetFault> {
        only(table, &[Key::Prefix, Key::Kind, Key::Csid], place)?;
        let prefix = needed::<Prefix>(alloc, table, place, Key::Prefix)?;
        let kind = needed_word::<BlockKind>(table, place, Key::Kind)?;
        let csid = csid_bits(table, place)?;
        Ok(DescribedBlock { prefix, kind, csid })
    }
}
