//! The texts of addresses byte by byte: how far a text is the beginning of an address.

ghost use Rattle.std.specs.Prelude.{◌≡◌, ℕ, ◌+◌, ◌-◌, ◌<◌, ◌≤◌, Some, None, length};
ghost use Rattle.v6_addr.specs.ScanTerms.{behind_digit, behind_colon, behind};
ghost use Rattle.v6_addr.specs.AddressGrammar.{IsAddressText};
ghost use Rattle.v6_addr.specs.AddressFaults.{Begins, IsLongestBeginning};

/// What stands before the next byte in the text of an address. Each `left` is a number of groups
/// that may still follow, and `short` says whether `::` was read.
#[derive(Clone, Copy)]
enum Scanned {
    /// Nothing.
    Start,
    /// A colon, and nothing before it.
    Colon,
    /// A group of so many digits yet.
    Group { left: u8, digits: u8, short: bool },
    /// A group and a colon; the groups left are those after the group that comes next.
    Between { left: u8, short: bool },
    /// `::`.
    Gap { left: u8 },
}

/// What stands before the next byte, once a hexadecimal digit was read.
#[tactic(auto, using(crate::proofs::AddressCases::tests), unfolding(crate::specs::ScanTerms::behind_digit))]
fn behind_digit(place: Scanned) -> Option<Scanned>
    ensures { result ≡ behind_digit place }
{
    match place {
        Scanned::Start => Some(Scanned::Group {
            left: 7,
            digits: 1,
            short: false,
        }),
        Scanned::Colon => None,
        Scanned::Group {
            left,
            digits,
            short,
        } => {
            if digits < 4 {
                return Some(Scanned::Group {
                    left,
                    digits: digits + 1,
                    short,
                });
            }
            None
        }
        Scanned::Between { left, short } => Some(Scanned::Group {
            left,
            digits: 1,
            short,
        }),
        Scanned::Gap { left } => {
            if left > 0 {
                return Some(Scanned::Group {
                    left: left - 1,
                    digits: 1,
                    short: true,
                });
            }
            None
        }
    }
}

/// What stands before the next byte, once a colon was read.
#[tactic(auto, using(crate::proofs::AddressCases::tests), unfolding(crate::specs::ScanTerms::behind_colon))]
fn behind_colon(place: Scanned) -> Option<Scanned>
    ensures { result ≡ behind_colon place }
{
    match place {
        Scanned::Start => Some(Scanned::Colon),
        Scanned::Colon => Some(Scanned::Gap { left: 7 }),
        Scanned::Group { left, short, .. } => {
            if left > 0 {
                return Some(Scanned::Between {
                    left: left - 1,
                    short,
                });
            }
            None
        }
        Scanned::Between { left, short } => {
            if short {
                return None;
            }
            Some(Scanned::Gap { left })
        }
        Scanned::Gap { .. } => None,
    }
}

/// What stands before the next byte, or `None` where no address goes on with this one.
#[tactic(auto, using(crate::proofs::AddressCases::tests), unfolding(crate::specs::ScanTerms::behind))]
fn behind(place: Scanned, byte: u8) -> Option<Scanned>
    ensures { result ≡ behind place byte }
{
    if char::from(byte).is_digit(16) {
        return behind_digit(place);
    }
    if byte == b':' {
        return behind_colon(place);
    }
    None
}

/// The length of a text's longest beginning that some text of an address begins with.
pub(crate) fn address_beginning(text: &[u8]) -> usize
    ensures { IsLongestBeginning (Begins IsAddressText) text.now result }
{
    let mut place = Scanned::Start;
    for (i, byte) in text.iter().enumerate() {
        match behind(place, *byte) {
            Some(after) => place = after,
            None => return i,
        }
    }
    text.len()
}
