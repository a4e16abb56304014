//! The texts of IPv4 addresses byte by byte: how far a text is the beginning of an IPv4 address,
//! and which address it is.

ghost use Rattle.std.specs.Prelude.{◌≡◌, ℕ, ◌+◌, ◌-◌, ◌*◌, ◌/◌, ◌%◌, ◌^◌, ◌<◌, ◌≤◌, Some, None, IfSome, length, take, slice_index};
ghost use Rattle.v6_addr.specs.AddressFaults.{Begins, IsLongestBeginning};
ghost use Rattle.v6_addr.specs.Scan.{walked};
ghost use Rattle.v6_addr.specs.Scan4.{start4, up_to_255, number_behind, behind_dot, behind4, address_at};
ghost use Rattle.v6_addr.specs.Scan4Terms.{IsPlace4};
ghost use Rattle.v6_addr.specs.Text4Terms.{IsAddress4Text};

use crate::bits::raised;
use crate::length::next_number;

/// What stands before the next byte in the text of an IPv4 address.
#[derive(Clone, Copy)]
pub(crate) struct Place4 {
    /// How many numbers with their dots.
    done: u8,
    /// The value that these make, the first the highest.
    value: u32,
    /// The number that has begun after them.
    number: Option<u32>,
}

/// The number so far with one more byte, up to 255.
#[tactic(auto, using(crate::proofs::AddressCases::tests), unfolding(crate::specs::Scan4::number_behind, crate::specs::Scan4::up_to_255))]
fn number_behind(number: Option<u32>, byte: u8) -> Option<u32>
    requires { IfSome number (λ n. n ≤ 255) }
    ensures value { result ≡ number_behind number byte }
    ensures bound { IfSome result (λ n. n ≤ 255) }
{
    match next_number(number, byte) {
        Some(n) => {
            if n > 255 {
                return None;
            }
            Some(n)
        }
        None => None,
    }
}

/// What stands before the next byte, once a dot was read.
#[tactic(auto, using(crate::proofs::AddressCases::tests), unfolding(crate::specs::Scan4::behind_dot))]
fn behind_dot(place: Place4) -> Option<Place4>
    requires { IsPlace4 place }
    ensures { result ≡ behind_dot place place.number }
{
    match place.number {
        None => None,
        Some(n) => {
            if place.done < 3 {
                return Some(Place4 {
                    done: place.done + 1,
                    value: place.value * 256 + n,
                    number: None,
                });
            }
            None
        }
    }
}

/// What stands before the next byte, or `None` where no IPv4 address goes on with this one.
#[tactic(auto, using(crate::proofs::AddressCases::tests), unfolding(crate::specs::Scan4::behind4))]
fn behind4(place: Place4, byte: u8) -> Option<Place4>
    requires { IsPlace4 place }
    ensures { result ≡ behind4 place byte }
{
    if byte == b'.' {
        return behind_dot(place);
    }
    match number_behind(place.number, byte) {
        Some(n) => Some(Place4 {
            done: place.done,
            value: place.value,
            number: Some(n),
        }),
        None => None,
    }
}

/// How far a text is the beginning of an IPv4 address, and what stands there.
#[derive(Clone, Copy)]
pub(crate) struct Reach4 {
    /// The length of the longest beginning.
    pub(crate) at: usize,
    /// What stands after it.
    pub(crate) place: Place4,
}

/// Walks over a text as far as it is the beginning of an IPv4 address.
pub(crate) fn walk4(text: &[u8]) -> Reach4
    ensures place { IsPlace4 result.place }
    ensures walked { walked behind4 start4 (take result.at text.now) ≡ Some result.place }
    ensures longest { IsLongestBeginning (Begins IsAddress4Text) text.now result.at }
{
    let mut place = Place4 {
        done: 0,
        value: 0,
        number: None,
    };
    for (i, byte) in text.iter().enumerate() {
        match behind4(place, *byte) {
            Some(after) => place = after,
            None => return Reach4 { at: i, place },
        }
    }
    Reach4 {
        at: text.len(),
        place,
    }
}

/// The address, where an IPv4 address may end.
#[tactic(auto, using(crate::proofs::AddressCases::tests), unfolding(crate::specs::Scan4::address_at))]
pub(crate) fn address_at(place: Place4) -> Option<u128>
    requires { IsPlace4 place }
    ensures { result ≡ address_at place place.number }
{
    let n = place.number?;
    if place.done != 3 {
        return None;
    }
    Some(raised(u128::from(place.value) * 256 + u128::from(n), 96))
}
