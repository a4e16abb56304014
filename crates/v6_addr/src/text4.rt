//! The texts of IPv4 addresses. An IPv4 address is kept in the top 32 bits of an `Addr`.

ghost use Rattle.std.specs.Prelude.{◌≡◌, ℕ, ◌+◌, ◌-◌, ◌*◌, ◌%◌, ◌^◌, ◌<◌, ◌≤◌, [], ◌++◌, MatchResult, length};
ghost use Rattle.arrayvec.specs.ArrayString.{array_string_len};
ghost use Rattle.v6_addr.specs.AddressFaults.{Begins, IsLongestBeginning};
ghost use Rattle.v6_addr.specs.Text.{length_text};
ghost use Rattle.v6_addr.specs.Text4.{address4_text};
ghost use Rattle.v6_addr.specs.Text4Terms.{IsAddress4Text};

use crate::address::Addr;
use crate::bits::field;
use crate::errors::BadAddr;
use crate::scan4::{address_at, walk4};
use arrayvec::ArrayString;

/// The IPv4 address that a text writes (RFC 6943 section 3.1.1, the strict form): four decimal
/// numbers up to 255 without leading zeros, parted by dots. The address is kept in the top 32 bits
///. `BadAddr` comes exactly where the text is another; its `at` is the length of the
/// text's longest beginning that some IPv4 address's text begins with.
pub fn parse_addr4(text: &[u8]) -> Result<Addr, BadAddr>
    ensures { MatchResult result
        (λ address. IsAddress4Text text.now address.value)
        (λ bad. ((a : ℕ) → IsAddress4Text text.now a → ⊥)
        × IsLongestBeginning (Begins IsAddress4Text) text.now bad.at) }
{
    let reach = walk4(text);
    if reach.at < text.len() {
        return Err(BadAddr { at: reach.at });
    }
    match address_at(reach.place) {
        Some(value) => Ok(Addr { value }),
        None => Err(BadAddr { at: reach.at }),
    }
}

/// Appends a number in decimal digits without leading zeros.
#[tactic(auto, using(crate::proofs::AddressCases::tests), unfolding(crate::specs::Text::length_text))]
fn push_number(out: &mut ArrayString<15>, n: u8)
    requires { array_string_len out.old + 3 ≤ 15 }
    ensures bytes { out.new.bytes ≡ out.old.bytes ++ length_text n }
    ensures len { array_string_len out.new ≤ array_string_len out.old + 3 }
{
    if n < 10 {
        out.push(char::from(b'0' + n));
        return;
    }
    if n < 100 {
        out.push(char::from(b'0' + n / 10));
        out.push(char::from(b'0' + n % 10));
        return;
    }
    out.push(char::from(b'0' + n / 100));
    out.push(char::from(b'0' + n / 10 % 10));
    out.push(char::from(b'0' + n % 10));
}

/// Writes the text of an IPv4 address (RFC 6943 section 3.1.1, the strict form): four decimal
/// numbers without leading zeros, parted by dots. The address stands in the top 32 bits, and its
/// low 96 bits must be 0. `out` must be empty; it always has the room.
pub fn write_addr4(out: &mut ArrayString<15>, a: Addr)
    requires empty { out.old.bytes ≡ [] }
    requires low { a.value % 2 ^ 96 ≡ 0 }
    ensures { out.new.bytes ≡ address4_text a.value }
{
    push_number(out, field(a, 0, 8) as u8);
    out.push('.');
    push_number(out, field(a, 8, 8) as u8);
    out.push('.');
    push_number(out, field(a, 16, 8) as u8);
    out.push('.');
    push_number(out, field(a, 24, 8) as u8);
}
