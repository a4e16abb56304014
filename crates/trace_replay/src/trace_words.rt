//! Words of lines.

ghost use Rattle.std.specs.Prelude.{◌≡◌, IfOk};
ghost use Rattle.std.specs.List.{list_all};
ghost use Rattle.trace_replay.specs.TraceGrammar.{family_read, hex_read, is_digits, is_hex, is_lower_digit, is_prefix, is_reason, names_one, other_reasons, reasons_of_headers};
ghost use Rattle.trace_replay.specs.TraceGrammarTerms.{items_of};

use base::NoMemory;
use hex::FromHexError;
use srv6_rules::Family;
use std::alloc::Global;
use v6_addr::parse_prefix;

/// Whether a byte is a hexadecimal digit, of lower case.
fn is_lower_digit(byte: u8) -> bool
    ensures { result ≡ is_lower_digit byte }
{
    (48 <= byte && byte <= 57) || (97 <= byte && byte <= 102)
}

fn are_lower_digits(word: &[u8]) -> bool
    ensures { result ≡ list_all is_lower_digit word.now }
{
    word.iter().all(|byte| is_lower_digit(*byte))
}

/// Whether a word is two digits for each of some bytes.
fn is_digits(word: &[u8]) -> bool
    ensures { result ≡ is_digits word.now }
{
    word.len() != 0 && word.len() % 2 == 0 && are_lower_digits(word)
}

/// Whether a word writes bytes.
pub(crate) fn is_hex(word: &str) -> bool
    ensures { result ≡ is_hex word.now }
{
    word == "-" || is_digits(word.as_bytes())
}

/// The bytes that a word writes, if it writes some or none.
pub(crate) fn hex_of(alloc: Global, word: &str) -> Result<Option<Vec<u8>>, NoMemory>
    ensures { IfOk result (λ bytes. items_of bytes ≡ hex_read word.now) }
{
    if word == "-" {
        return Ok(Some(Vec::new(alloc)));
    }
    if !is_digits(word.as_bytes()) {
        return Ok(None);
    }
    match hex::decode(alloc, word) {
        Ok(bytes) => Ok(Some(bytes)),
        Err(FromHexError::OutOfMemory) => Err(NoMemory),
        Err(
            FromHexError::InvalidHexCharacter { .. }
            | FromHexError::OddLength
            | FromHexError::InvalidStringLength,
        ) => Ok(None),
    }
}

/// The family that a word names.
pub(crate) fn family_of(word: &str) -> Option<Family>
    ensures { result ≡ family_read word.now }
{
    if word == "6" {
        return Some(Family::V6);
    }
    if word == "4" {
        return Some(Family::V4);
    }
    None
}

/// Whether a word is a prefix.
pub(crate) fn is_prefix(word: &str) -> bool
    ensures { result ≡ is_prefix word.now }
{
    parse_prefix(word.as_bytes()).is_ok()
}

/// Whether a word is the name of a reason that is found in a packet's headers.
#[tactic(auto, unfolding(srv6_rules::specs::Reasons::reason_name))]
fn is_reason_of_headers(word: &str) -> bool
    ensures { result ≡ names_one reasons_of_headers word.now }
{
    match word {
        "BadChain"
        | "LateHopByHop"
        | "OptionDiscard"
        | "OptionUnknown"
        | "Fragment"
        | "BadSegments"
        | "HmacTlv"
        | "BadTlv"
        | "UnknownRouting"
        | "UpperLayer" => true,
        _ => false,
    }
}

/// Whether a word is the name of another reason.
#[tactic(auto, unfolding(srv6_rules::specs::Reasons::reason_name))]
fn is_other_reason(word: &str) -> bool
    ensures { result ≡ names_one other_reasons word.now }
{
    match word {
        "Truncated"
        | "BadVersion"
        | "Multicast"
        | "NoRoute"
        | "HopLimit"
        | "Ttl"
        | "TooBig"
        | "InnerHop"
        | "MtuExceeded" => true,
        _ => false,
    }
}

/// Whether a word is the name of a reason for a drop.
pub(crate) fn is_reason(word: &str) -> bool
    ensures { result ≡ is_reason word.now }
{
    is_reason_of_headers(word) || is_other_reason(word)
}
