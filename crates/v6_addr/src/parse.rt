ghost use Rattle.std.specs.Prelude.{◌≡◌, ℕ, ◌+◌, ◌-◌, ◌*◌, ◌/◌, ◌%◌, ◌^◌, ◌<◌, ◌≤◌, length, IfSome};
ghost use Rattle.v6_addr.specs.Text.{number_of_text, group_of_text, gap_of, length_of_text};

/// The number that digits write in a radix, their letters in either case.
pub(crate) fn parse_number(radix: u32, text: &[u8]) -> Option<u32>
    requires above { 2 ≤ radix }
    requires below { radix ≤ 16 }
    requires short { length text.now ≤ 4 }
    ensures value { result ≡ number_of_text radix text.now }
    ensures bound { IfSome result (λ n. n < 2 ^ 16) }
{
    let mut value: u32 = 0;
    for b in text {
        let digit = char::from(*b).to_digit(radix)?;
        value = value * radix + digit;
    }
    Some(value)
}

/// The number of a group: one to four hexadecimal digits.
#[tactic(auto, using(crate::proofs::AddressCases::tests), unfolding(crate::specs::Text::group_of_text))]
pub(crate) fn parse_group(text: &[u8]) -> Option<u16>
    ensures { result ≡ group_of_text text.now }
{
    if text.is_empty() {
        return None;
    }
    if text.len() > 4 {
        return None;
    }
    let number = parse_number(16, text)?;
    Some(number as u16)
}

/// A prefix's length: a decimal number of at most 128 without leading zeros.
#[tactic(auto, using(crate::proofs::AddressCases::tests), unfolding(crate::specs::Text::length_of_text))]
pub(crate) fn parse_length(text: &[u8]) -> Option<u8>
    ensures value { result ≡ length_of_text text.now }
    ensures bound { IfSome result (λ len. len ≤ 128) }
{
    if text.is_empty() {
        return None;
    }
    if text.len() > 3 {
        return None;
    }
    if text.len() > 1 && text[0] == b'0' {
        return None;
    }
    let len = parse_number(10, text)?;
    if len > 128 {
        return None;
    }
    Some(len as u8)
}

/// How many bytes stand before the first `::` of a text.
pub(crate) fn find_gap(text: &[u8]) -> Option<usize>
    ensures value { result ≡ gap_of text.now }
    ensures within { IfSome result (λ gap. gap + 2 ≤ length text.now) }
{
    for i in 1..text.len() {
        if text[i - 1] == b':' && text[i] == b':' {
            return Some(i - 1);
        }
    }
    None
}
