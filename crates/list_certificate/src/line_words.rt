//! Words and numbers of a line.

ghost use Rattle.std.specs.Prelude.{◌≡◌, ◌==◌, ◌<◌, length, position, IfSome};
ghost use Rattle.std.specs.Option.{option_map};
ghost use Rattle.list_certificate.specs.CertificateReading.{cut_at, number_in, digit_after, digits_from, first_cost_in, second_cost_in, cost_in, row_in};
ghost use Rattle.list_certificate.specs.CertificateReadingTerms.{row_value, cut_value};

use crate::certificate_types::Form;
use list_pack::Cost;

/// A position, a SID, a room and a cost, as the words of a line say them.
#[derive(Clone, Copy, Debug)]
pub struct Row<'a> {
    /// How many steps of the intent are done.
    pub position: u32,
    /// The text of the SID.
    pub sid: &'a [u8],
    /// The room.
    pub room: u32,
    /// The cost.
    pub cost: Cost,
}

/// What stands before a mark in a text, and after it.
#[derive(Clone, Copy, Debug)]
pub struct Parts<'a> {
    /// What stands before it.
    pub front: &'a [u8],
    /// What stands after it.
    pub rest: &'a [u8],
}

fn find(text: &[u8], mark: u8) -> Option<usize>
    ensures value { result ≡ position (λ b. b == mark) text.now }
    ensures within { IfSome result (λ i. i < length text.now) }
{
    text.iter().position(|b| *b == mark)
}

/// The parts of a text before the first of a mark and after it; none where the mark isn't there.
#[tactic(auto, unfolding(crate::specs::CertificateReading::cut_at))]
pub fn cut(text: &[u8], mark: u8) -> Option<Parts<'_>>
    ensures value { option_map cut_value result ≡ cut_at mark text.now }
    ensures shorter { IfSome result (λ p. length p.rest.now < length text.now) }
{
    let i = find(text, mark)?;
    Some(Parts {
        front: text.split_at(i).0,
        rest: text.split_at(i + 1).1,
    })
}

/// A number with a digit more
fn digit_after(value: u32, b: u8) -> Option<u32>
    ensures { result ≡ digit_after value b }
{
    if !b.is_ascii_digit() {
        return None;
    }
    let more = 10 * u64::from(value) + u64::from(b - b'0');
    if more < 0x1_0000_0000 {
        Some(more as u32)
    } else {
        None
    }
}

/// The number that digits complete
fn digits(word: &[u8]) -> Option<u32>
    ensures { result ≡ digits_from 0 word.now }
{
    let mut value: u32 = 0;
    for b in word {
        match digit_after(value, *b) {
            Some(more) => value = more,
            None => return None,
        }
    }
    Some(value)
}

/// The number of 32 bits that a word is, in decimal digits without leading zeros.
#[tactic(auto, unfolding(crate::specs::CertificateReading::number_in))]
pub fn number(word: &[u8]) -> Option<u32>
    ensures { result ≡ number_in word.now }
{
    if word.is_empty() || (word.len() > 1 && word[0] == b'0') {
        return None;
    }
    digits(word)
}

/// A cost of the first form: containers and hops
#[tactic(auto, unfolding(crate::specs::CertificateReading::first_cost_in))]
fn first_cost_of(text: &[u8]) -> Option<Cost>
    ensures { result ≡ first_cost_in text.now }
{
    let parts = cut(text, b' ')?;
    let containers = number(parts.front)?;
    let hops = number(parts.rest)?;
    Some(Cost {
        containers,
        sids: 0,
        hops,
    })
}

/// A cost of the second form: containers, SIDs and hops
#[tactic(auto, unfolding(crate::specs::CertificateReading::second_cost_in))]
fn second_cost_of(text: &[u8]) -> Option<Cost>
    ensures { result ≡ second_cost_in text.now }
{
    let first = cut(text, b' ')?;
    let second = cut(first.rest, b' ')?;
    let containers = number(first.front)?;
    let sids = number(second.front)?;
    let hops = number(second.rest)?;
    Some(Cost {
        containers,
        sids,
        hops,
    })
}

fn cost_of(form: Form, text: &[u8]) -> Option<Cost>
    ensures { result ≡ cost_in form text.now }
{
    match form {
        Form::First => first_cost_of(text),
        Form::Second => second_cost_of(text),
    }
}

/// The words of a line, parted by single spaces: five with a cost of the first form, six with one
/// of the second.
#[tactic(auto, unfolding(crate::specs::CertificateReading::row_in))]
pub fn row_of(form: Form, text: &[u8]) -> Option<Row<'_>>
    ensures { option_map row_value result ≡ row_in form text.now }
{
    let first = cut(text, b' ')?;
    let second = cut(first.rest, b' ')?;
    let third = cut(second.rest, b' ')?;
    let position = number(first.front)?;
    let room = number(third.front)?;
    let cost = cost_of(form, third.rest)?;
    Some(Row {
        position,
        sid: second.front,
        room,
        cost,
    })
}
