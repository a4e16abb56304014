//! Words that are numbers.

ghost use Rattle.std.specs.Prelude.{◌≡◌};
ghost use Rattle.std.specs.Char.{is_ascii_digit};
ghost use Rattle.std.specs.List.{list_all};
ghost use Rattle.trace_replay.specs.TraceGrammar.{is_number, is_numeral, number_in};

/// Whether all bytes are decimal digits.
fn are_digits(bytes: &[u8]) -> bool
    ensures { result ≡ list_all is_ascii_digit bytes.now }
{
    bytes.iter().all(|byte| byte.is_ascii_digit())
}

/// Whether bytes are decimal digits without a leading zero.
fn is_numeral(bytes: &[u8]) -> bool
    ensures { result ≡ is_numeral bytes.now }
{
    match bytes {
        [] => false,
        [first, ..] => (bytes.len() == 1 || *first != b'0') && are_digits(bytes),
    }
}

/// The number that a word is: one of 32 bits in decimal digits without a leading zero.
pub fn number_of_word(word: &str) -> Option<u32>
    ensures { result ≡ number_in word.now }
{
    if !is_numeral(word.as_bytes()) {
        return None;
    }
    match word.parse::<u32>() {
        Ok(number) => Some(number),
        Err(_) => None,
    }
}

/// Whether a word is a number that is at most another.
#[tactic(auto, using(crate::proofs::ReplayNumberLemmas::number_at_most, crate::proofs::ReplayNumberLemmas::number_missing))]
pub(crate) fn is_number(most: u32, word: &str) -> bool
    ensures { result ≡ is_number most word.now }
{
    match number_of_word(word) {
        Some(number) => number <= most,
        None => false,
    }
}
