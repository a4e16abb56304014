ghost use Rattle.std.specs.Prelude.{◌≡◌, ℕ, ◌+◌, ◌-◌, ◌*◌, ◌/◌, ◌%◌, ◌^◌, ◌<◌, ◌≤◌, ◌↔◌, IsTrue, SomeIff, IsSome, IfSome};
ghost use Rattle.v6_addr.specs.Address.{PrefixValue, Holds, holds_address, IsInside, is_inside};
ghost use Rattle.v6_addr.specs.AddressTerms.{IsPrefix};

use crate::address::Addr;
use crate::bits::{high_bits, low_bits};
use std::marker::Model;

/// An IPv6 prefix (RFC 4291 section 2.3): an address and a length of at most 128 bits, where no bit
/// past the length is set.
#[derive(Clone, Copy, Debug, PartialEq, Eq, PartialOrd, Ord, Hash)]
pub struct Prefix {
    value: Addr,
    len: u8,
}

impl Model for Prefix {
    ghost Value = { PrefixValue };

    ghost view = { λ p. record { value = p.value.value; len = p.len } };

    ghost invariant = { λ p. IsPrefix (record { value = p.value.value; len = p.len }) };

    ghost inverse = { λ v. record { value = record { value = v.value }; len = v.len } };
}

impl Prefix {
    /// The prefix of an address and a length in bits. `None` exactly where the length is above 128
    /// or a bit past it is set (RFC 4291 section 2.3; that no bit past it is set is an own rule).
    pub fn new(value: Addr, len: u8) -> Option<Prefix>
        ensures is_prefix { IsSome result ↔ IsPrefix (record { value = value.value; len = len }) }
        ensures value { IfSome result (λ p. p ≡ record { value = value.value; len = len }) }
    {
        if len > 128 || low_bits(value.value, 128 - len) != 0 {
            return None;
        }
        Some(Prefix { value, len })
    }

    /// The address that the prefix begins with (RFC 4291 section 2.3).
    pub fn value(&self) -> Addr
        ensures value { result.value ≡ self.now.value }
        ensures is_prefix { IsPrefix self.now }
    {
        self.value
    }

    /// The length in bits, from 0 to 128 (RFC 4291 section 2.3).
    pub fn len(&self) -> u8
        ensures len { result ≡ self.now.len }
        ensures is_prefix { IsPrefix self.now }
    {
        self.len
    }

    /// Whether the address is in the prefix: both agree in the first bits, as many as the prefix's
    /// length (RFC 4291 section 2.3).
    pub fn holds(&self, a: Addr) -> bool
        ensures test { result ≡ holds_address self.now a.value }
        ensures fact { IsTrue result ↔ Holds self.now a.value }
    {
        let behind = 128 - self.len;
        high_bits(a.value, behind) == high_bits(self.value.value, behind)
    }

    /// Whether the prefix lies strictly inside another: it is longer, and the other holds its
    /// address (RFC 4291 section 2.3).
    pub fn inside(&self, outer: &Prefix) -> bool
        ensures test { result ≡ is_inside self.now outer.now }
        ensures fact { IsTrue result ↔ IsInside self.now outer.now }
    {
        outer.len < self.len && outer.holds(self.value)
    }
}
