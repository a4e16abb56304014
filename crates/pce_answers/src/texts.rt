//! Texts that replies hold.

ghost use Rattle.std.specs.Prelude.{◌≡◌, ◌++◌, codes, drop, IfOk, string_bytes};
ghost use Rattle.std.specs.Str.{IsUtf8};

use pce_protocol::Text;
use std::alloc::{AllocError, Global};

/// What stands behind the word `refused ` in a text.
pub(crate) fn behind_refused(alloc: Global, line: &str) -> Result<String, AllocError>
    requires { codes "refused " ++ drop 8 line.now ≡ line.now }
    ensures { IfOk result (λ text. string_bytes text ≡ drop 8 line.now) }
{
    match line.strip_prefix("refused ") {
        Some(why) => String::from_str(alloc, why),
        None => unreachable!(),
    }
}

/// The text of bytes that are UTF-8.
pub(crate) fn text_of_bytes(bytes: Vec<u8>) -> Text
    requires { IsUtf8 bytes.items }
    ensures { result ≡ bytes.items }
{
    match String::from_utf8(bytes) {
        Ok(text) => Text::new(text),
        Err(_) => unreachable!(),
    }
}
