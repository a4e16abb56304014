//! The document that a text is.

ghost use Rattle.toml.specs.View.{table_view};
ghost use Rattle.text_faults.specs.declared.fault_kind.FaultKind.TheVariants.{NotToml};
ghost use Rattle.text_faults.specs.TextFaults.{fault_at};
ghost use Rattle.text_faults.specs.TextReading.{Gives};
ghost use Rattle.toml_reader.specs.TomlReading.{or_fault, document_of};

use std::alloc::Global;
use text_faults::{FaultKind, FaultPlace, NetFault, OrNoMemory};
use toml::Table;

/// The document that a text is; `NotToml` of the whole exactly where the bytes are not UTF-8 or not
/// TOML. `NoMemory` may come at any time.
pub fn document(alloc: Global, text: &[u8], whole: FaultPlace) -> Result<Table, NetFault>
    ensures { Gives table_view result (or_fault (fault_at whole NotToml) (document_of text.now)) }
{
    let Ok(text) = std::str::from_utf8(text) else {
        return Err(OrNoMemory::Fault(whole.fault(FaultKind::NotToml)));
    };
    match toml::table_from_str(alloc, text) {
        Ok(root) => Ok(root),
        Err(why) if why.is_memory() => Err(OrNoMemory::NoMemory),
        Err(_) => Err(OrNoMemory::Fault(whole.fault(FaultKind::NotToml))),
    }
}
