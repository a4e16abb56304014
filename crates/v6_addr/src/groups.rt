ghost use Rattle.std.specs.Prelude.{◌≡◌, ℕ, ◌+◌, ◌-◌, ◌*◌, ◌/◌, ◌%◌, ◌^◌, ◌<◌, ◌≤◌, length, Some, None, MatchOption, IfSome};
ghost use Rattle.v6_addr.specs.Text.{groups_of_text, number_of_groups, address_of_parts};

use crate::bits::raised;
use crate::parse::parse_group;
use arrayvec::ArrayVec;

/// The groups of a text, at most eight, parted by colons; none where nothing stands.
pub(crate) fn parse_groups(text: &[u8]) -> Option<ArrayVec<u16, 8>>
    ensures { MatchOption result
        (IfSome (groups_of_text text.now) (λ groups. 8 < length groups))
        (λ groups. groups_of_text text.now ≡ Some groups.items) }
{
    let mut groups = ArrayVec::new();
    if text.is_empty() {
        return Some(groups);
    }
    for piece in text.split(|b| *b == b':') {
        let group = parse_group(piece)?;
        if groups.is_full() {
            return None;
        }
        groups.push(group);
    }
    Some(groups)
}

/// The number that groups make, the highest first.
pub(crate) fn number(groups: &[u16]) -> u128
    requires { length groups.now ≤ 8 }
    ensures value { result ≡ number_of_groups groups.now }
    ensures bound { result < 2 ^ (16 * length groups.now) }
{
    let mut value: u128 = 0;
    for group in groups {
        value = value * 65536 + u128::from(*group);
    }
    value
}

/// The address of a text of eight groups.
pub(crate) fn parse_full(text: &[u8]) -> Option<u128>
    ensures { result ≡ address_of_parts text.now None }
{
    let groups = parse_groups(text)?;
    if groups.len() != 8 {
        return None;
    }
    Some(number(groups.as_slice()))
}

/// The address of a text whose first `::` stands after `gap` bytes.
pub(crate) fn parse_shortened(text: &[u8], gap: usize) -> Option<u128>
    requires { gap + 2 ≤ length text.now }
    ensures { result ≡ address_of_parts text.now (Some gap) }
{
    let left = parse_groups(text.split_at(gap).0)?;
    let right = parse_groups(text.split_at(gap + 2).1)?;
    let before = left.len();
    let after = right.len();
    if before + after > 7 {
        return None;
    }
    let high = number(left.as_slice());
    let low = number(right.as_slice());
    let moved = raised(high, 128 - 16 * before as u8);
    Some(moved + low)
}
