ghost use Rattle.std.specs.Prelude.{◌≡◌, ℕ, ◌<◌, ◌==◌, Some, None, MatchResult, IfSome, length, position};
ghost use Rattle.v6_addr.specs.Text.{address_of_text, prefix_of_text};
ghost use Rattle.v6_addr.specs.AddressGrammar.{IsAddressText, IsPrefixText};
ghost use Rattle.v6_addr.specs.AddressFaults.{Begins, IsLongestBeginning, IsPrefixFault};

use crate::address::Addr;
use crate::errors::BadAddr;
use crate::groups::{parse_full, parse_shortened};
use crate::length::length_beginning;
use crate::parse::{find_gap, parse_length};
use crate::prefix::Prefix;
use crate::scan::address_beginning;

/// The number of the address that a text writes, where it is in the grammar.
#[tactic(auto, unfolding(crate::specs::Text::address_of_text))]
fn parse_value(text: &[u8]) -> Option<u128>
    ensures { result ≡ address_of_text text.now }
{
    match find_gap(text) {
        None => parse_full(text),
        Some(gap) => parse_shortened(text, gap),
    }
}

/// The address that a text writes (RFC 4291 section 2.2): eight groups of one to four hexadecimal
/// digits in either case, parted by colons, where `::` may stand once for one or more groups that
/// are 0. No IPv4 address and no zone may stand at the end. `BadAddr` comes exactly
/// where the text is another; its `at` is the length of the text's longest beginning that some
/// address's text begins with.
pub fn parse_addr(text: &[u8]) -> Result<Addr, BadAddr>
    ensures { MatchResult result
        (λ address. address_of_text text.now ≡ Some address.value)
        (λ bad. (address_of_text text.now ≡ None)
        × IsLongestBeginning (Begins IsAddressText) text.now bad.at) }
{
    match parse_value(text) {
        Some(value) => Ok(Addr { value }),
        None => Err(BadAddr {
            at: address_beginning(text),
        }),
    }
}

/// How many bytes stand before the first slash of a text.
fn find_slash(text: &[u8]) -> Option<usize>
    ensures value { result ≡ position (λ b. b == 47) text.now }
    ensures within { IfSome result (λ slash. slash < length text.now) }
{
    text.iter().position(|b| *b == b'/')
}

/// The prefix that a text writes, where it is in the grammar.
fn read_prefix(text: &[u8]) -> Option<Prefix>
    ensures { result ≡ prefix_of_text text.now }
{
    let slash = find_slash(text)?;
    let value = parse_value(text.split_at(slash).0)?;
    let len = parse_length(text.split_at(slash + 1).1)?;
    Prefix::new(Addr { value }, len)
}

/// The place of the fault of a text that is no prefix.
fn prefix_fault(text: &[u8]) -> usize
    requires { prefix_of_text text.now ≡ None }
    ensures { IsPrefixFault IsAddressText 128 IsPrefixText text.now result }
{
    let at = address_beginning(text);
    if at >= text.len() {
        return at;
    }
    if text[at] != b'/' {
        return at;
    }
    let digits = text.split_at(at + 1).1;
    match parse_value(text.split_at(at).0) {
        None => at,
        Some(value) => match parse_length(digits) {
            Some(_) => text.len(),
            None => at + 1 + length_beginning(128, value, digits),
        },
    }
}

/// The prefix that a text writes (RFC 4291 section 2.3): an address, a slash and a length, a
/// decimal number of at most 128. The length has no leading zeros, and no bit past it is set. `BadAddr` comes exactly where the text is another. Its `at` is the length of the text's
/// longest beginning that some prefix's text begins with, or of the whole text where only a bit
/// past the length is wrong.
pub fn parse_prefix(text: &[u8]) -> Result<Prefix, BadAddr>
    ensures { MatchResult result
        (λ prefix. prefix_of_text text.now ≡ Some prefix)
        (λ bad. (prefix_of_text text.now ≡ None)
        × IsPrefixFault IsAddressText 128 IsPrefixText text.now bad.at) }
{
    match read_prefix(text) {
        Some(prefix) => Ok(prefix),
        None => Err(BadAddr {
            at: prefix_fault(text),
        }),
    }
}
