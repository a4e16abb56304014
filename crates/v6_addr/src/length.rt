//! The lengths of prefixes byte by byte: how far a text is the beginning of a length that fits an
//! address.

ghost use Rattle.std.specs.Prelude.{◌≡◌, ℕ, ◌+◌, ◌-◌, ◌*◌, ◌/◌, ◌%◌, ◌^◌, ◌<◌, ◌≤◌, ◌⊎◌, Some, None, IfSome, length};
ghost use Rattle.v6_addr.specs.AddressFaults.{Begins, IsLongestBeginning};
ghost use Rattle.v6_addr.specs.Lengths.{with_digit, next_number};
ghost use Rattle.v6_addr.specs.LengthsTerms.{furthest, length_goes_on, length_behind, IsLengthOf};

use crate::bits::low_bits;

/// A number so far, with one more digit; `None` after a zero, which stands alone.
#[tactic(auto, using(crate::proofs::AddressCases::tests), unfolding(crate::specs::Lengths::with_digit))]
fn with_digit(number: Option<u32>, digit: u32) -> Option<u32>
    requires number { IfSome number (λ n. n ≤ 255) }
    requires digit { digit < 10 }
    ensures value { result ≡ with_digit number digit }
    ensures bound { IfSome result (λ n. n ≤ 2559) }
{
    let Some(n) = number else {
        return Some(digit);
    };
    if n == 0 {
        return None;
    }
    Some(n * 10 + digit)
}

/// A number so far, where one more byte is a decimal digit.
#[tactic(auto, using(crate::proofs::AddressCases::tests), unfolding(crate::specs::Lengths::next_number))]
pub(crate) fn next_number(number: Option<u32>, byte: u8) -> Option<u32>
    requires { IfSome number (λ n. n ≤ 255) }
    ensures value { result ≡ next_number number byte }
    ensures bound { IfSome result (λ n. n ≤ 2559) }
{
    match char::from(byte).to_digit(10) {
        Some(digit) => with_digit(number, digit),
        None => None,
    }
}

/// The greatest length up to a limit whose digits begin with those of a number.
#[tactic(auto, using(crate::proofs::AddressCases::tests), unfolding(crate::specs::LengthsTerms::furthest))]
fn furthest(limit: u32, n: u32) -> u32
    requires limit { limit ≤ 128 }
    requires number { n ≤ limit }
    ensures value { result ≡ furthest limit n }
    ensures bound { result ≤ limit }
{
    if n == 0 {
        return 0;
    }
    if n * 100 <= limit {
        if n * 100 + 99 <= limit {
            return n * 100 + 99;
        }
        return limit;
    }
    if n * 10 <= limit {
        if n * 10 + 9 <= limit {
            return n * 10 + 9;
        }
        return limit;
    }
    n
}

/// The number, where no bit of the address is set after some length up to the limit whose digits
/// begin with those of the number.
#[tactic(auto, using(crate::proofs::AddressCases::tests), unfolding(crate::specs::LengthsTerms::length_goes_on))]
fn length_goes_on(limit: u32, value: u128, n: u32) -> Option<u32>
    requires { limit ≤ 128 }
    ensures value { result ≡ length_goes_on limit value n }
    ensures bound { IfSome result (λ m. m ≤ limit) }
{
    if n > limit {
        return None;
    }
    let behind = 128 - furthest(limit, n) as u8;
    if low_bits(value, behind) == 0 {
        return Some(n);
    }
    None
}

/// The length's number so far with one more byte, or `None` where no length up to the limit that
/// fits the address goes on so.
#[tactic(auto, using(crate::proofs::AddressCases::tests), unfolding(crate::specs::LengthsTerms::length_behind))]
fn length_behind(limit: u32, value: u128, number: Option<u32>, byte: u8) -> Option<u32>
    requires limit { limit ≤ 128 }
    requires number { IfSome number (λ n. n ≤ limit) }
    ensures value { result ≡ length_behind limit value number byte }
    ensures bound { IfSome result (λ n. n ≤ limit) }
{
    match next_number(number, byte) {
        Some(n) => length_goes_on(limit, value, n),
        None => None,
    }
}

/// The length of a text's longest beginning that some length up to a limit begins with after
/// which no bit of an address is set.
pub(crate) fn length_beginning(limit: u32, value: u128, text: &[u8]) -> usize
    requires limit { (limit ≡ 32) ⊎ (limit ≡ 128) }
    requires fits { value % 2 ^ (128 - limit) ≡ 0 }
    ensures { IsLongestBeginning (Begins (IsLengthOf limit value)) text.now result }
{
    let mut number = None;
    for (i, byte) in text.iter().enumerate() {
        match length_behind(limit, value, number, *byte) {
            Some(n) => number = Some(n),
            None => return i,
        }
    }
    text.len()
}
