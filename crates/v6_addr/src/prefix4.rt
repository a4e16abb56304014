//! The texts of IPv4 prefixes.

ghost use Rattle.std.specs.Prelude.{◌≡◌, ℕ, suc, ◌+◌, ◌-◌, ◌*◌, ◌%◌, ◌^◌, ◌<◌, ◌≤◌, MatchOption, MatchResult, length, take, slice_index};
ghost use Rattle.v6_addr.specs.Address.{PrefixValue};
ghost use Rattle.v6_addr.specs.AddressFaults.{Begins, IsLongestBeginning, IsPrefixFault};
ghost use Rattle.v6_addr.specs.Text.{length_text};
ghost use Rattle.v6_addr.specs.Text4Terms.{IsAddress4Text, IsPrefix4Text};

use crate::address::Addr;
use crate::errors::BadAddr;
use crate::length::length_beginning;
use crate::parse::parse_length;
use crate::prefix::Prefix;
use crate::scan4::{address_at, walk4};

/// An IPv4 prefix's length: a decimal number of at most 32 without leading zeros.
fn length4(text: &[u8]) -> Option<u8>
    ensures { MatchOption result
        ((len : ℕ) → len ≤ 32 → text.now ≡ length_text len → ⊥)
        (λ len. (len ≤ 32) × (text.now ≡ length_text len)) }
{
    match parse_length(text) {
        None => None,
        Some(len) => {
            if len > 32 {
                return None;
            }
            Some(len)
        }
    }
}

/// The prefix of a text that is an address and a slash up to a place, or the place of its fault.
fn after_slash4(text: &[u8], at: usize, value: u128) -> Result<Prefix, BadAddr>
    requires longest { IsLongestBeginning (Begins IsAddress4Text) text.now at }
    requires inside { at < length text.now }
    requires slash { slice_index text.now at ≡ 47 }
    requires address { IsAddress4Text (take at text.now) value }
    ensures { MatchResult result
        (λ prefix. IsPrefix4Text text.now prefix)
        (λ bad. ((p : PrefixValue) → IsPrefix4Text text.now p → ⊥)
        × IsPrefixFault IsAddress4Text 32 IsPrefix4Text text.now bad.at) }
{
    let digits = text.split_at(at + 1).1;
    match length4(digits) {
        None => Err(BadAddr {
            at: at + 1 + length_beginning(32, value, digits),
        }),
        Some(len) => match Prefix::new(Addr { value }, len) {
            Some(prefix) => Ok(prefix),
            None => Err(BadAddr { at: text.len() }),
        },
    }
}

/// The IPv4 prefix that a text writes (RFC 4632 section 3.1): an IPv4 address, a slash and a
/// length, a decimal number of at most 32. The length has no leading zeros, and no bit past it is
/// set. The prefix holds addresses whose top 32 bits are the IPv4 address. `BadAddr`
/// comes exactly where the text is another. Its `at` is the length of the text's longest beginning
/// that some IPv4 prefix's text begins with, or of the whole text where only a bit past the length
/// is wrong.
pub fn parse_prefix4(text: &[u8]) -> Result<Prefix, BadAddr>
    ensures { MatchResult result
        (λ prefix. IsPrefix4Text text.now prefix)
        (λ bad. ((p : PrefixValue) → IsPrefix4Text text.now p → ⊥)
        × IsPrefixFault IsAddress4Text 32 IsPrefix4Text text.now bad.at) }
{
    let reach = walk4(text);
    let at = reach.at;
    if at >= text.len() {
        return Err(BadAddr { at });
    }
    if text[at] != b'/' {
        return Err(BadAddr { at });
    }
    match address_at(reach.place) {
        None => Err(BadAddr { at }),
        Some(value) => after_slash4(text, at, value),
    }
}
