//! Numbers of 8 bits.

ghost use Rattle.std.specs.Prelude.{◌≡◌};
ghost use Rattle.toml.specs.View.{table_view};
ghost use Rattle.net_model.specs.declared.limits.TheConstants.{LAST_OCTET};
ghost use Rattle.toml_reader.specs.Tree.{optional, number_in};

use net_model::LAST_OCTET;
use text_faults::{FaultPlace, Key, TextFault};
use toml::Table;
use toml_reader::{number_in, value_at};

/// The number at a key, from the least to 255, and the default where the table has no such key.
pub(crate) fn octet_at(
    least: u32,
    default: u8,
    table: &Table,
    place: FaultPlace,
    key: Key,
) -> Result<u8, TextFault>
    ensures { result ≡ optional (number_in least LAST_OCTET) default place (table_view table.now)
        key }
{
    match value_at(table, key) {
        Some(value) => {
            let number = number_in(value, least, LAST_OCTET, place, key)?;
            Ok(number as u8)
        }
        None => Ok(default),
    }
}
