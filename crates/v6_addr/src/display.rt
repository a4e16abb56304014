//! Addresses and prefixes as texts, for `format!` and `write!`.

ghost use Rattle.std.specs.Prelude.{Some};
ghost use Rattle.v6_addr.specs.Text.{address_text, prefix_text};

use crate::address::Addr;
use crate::prefix::Prefix;
use crate::write::{write_addr, write_prefix};
use arrayvec::ArrayString;
use std::fmt;

/// The text of an address that `write_addr` writes (RFC 5952 section 4).
impl fmt::Display for Addr {
    ghost output = { λ a. Some (address_text a.value) };

    fn fmt<W: fmt::Write>(&self, f: &mut fmt::Formatter<W>) -> fmt::Result {
        let mut text = ArrayString::<39>::new();
        write_addr(&mut text, *self);
        f.pad(text.as_str())
    }
}

/// The text of a prefix that `write_prefix` writes (RFC 4291 section 2.3).
impl fmt::Display for Prefix {
    ghost output = { λ p. Some (prefix_text p) };

    fn fmt<W: fmt::Write>(&self, f: &mut fmt::Formatter<W>) -> fmt::Result {
        let mut text = ArrayString::<43>::new();
        write_prefix(&mut text, self);
        f.pad(text.as_str())
    }
}
