ghost use Rattle.std.specs.Prelude.{◌≡◌, ℕ, ◌+◌, ◌-◌, ◌*◌, ◌<◌, ◌≤◌, [], ◌∷◌, ◌++◌, length, flat_map};
ghost use Rattle.std.specs.Char.{digit_char};
ghost use Rattle.arrayvec.specs.ArrayString.{array_string_len};
ghost use Rattle.v6_addr.specs.Text.{groups_of, group_text, groups_text, leading_zeros, longest_run, text_with_run, address_text, length_text, prefix_text};

use crate::address::Addr;
use crate::bits::field;
use crate::prefix::Prefix;
use arrayvec::ArrayString;

/// Appends a hexadecimal digit in lower case.
fn push_digit(out: &mut ArrayString<39>, digit: u16)
    requires small { digit < 16 }
    requires room { array_string_len out.old < 39 }
    ensures { out.new.bytes ≡ out.old.bytes ++ digit_char digit ∷ [] }
{
    let byte = if digit < 10 {
        b'0' + digit as u8
    } else {
        b'a' + (digit as u8 - 10)
    };
    out.push(char::from(byte));
}

/// Appends a group in hexadecimal digits without leading zeros.
#[tactic(auto, using(crate::proofs::AddressCases::tests), unfolding(crate::specs::Text::group_text))]
fn push_group(out: &mut ArrayString<39>, group: u16)
    requires { array_string_len out.old + 4 ≤ 39 }
    ensures bytes { out.new.bytes ≡ out.old.bytes ++ group_text group }
    ensures len { array_string_len out.new ≤ array_string_len out.old + 4 }
{
    if group < 16 {
        push_digit(out, group);
        return;
    }
    if group < 256 {
        push_digit(out, group / 16);
        push_digit(out, group % 16);
        return;
    }
    if group < 4096 {
        push_digit(out, group / 256);
        push_digit(out, group / 16 % 16);
        push_digit(out, group % 16);
        return;
    }
    push_digit(out, group / 4096);
    push_digit(out, group / 256 % 16);
    push_digit(out, group / 16 % 16);
    push_digit(out, group % 16);
}

/// An address's eight groups of 16 bits, the highest first.
#[tactic(auto, unfolding(crate::specs::Text::groups_of))]
fn groups_of_addr(a: Addr) -> [u16; 8]
    ensures { result ≡ groups_of a.value }
{
    [
        field(a, 0, 16) as u16,
        field(a, 16, 16) as u16,
        field(a, 32, 16) as u16,
        field(a, 48, 16) as u16,
        field(a, 64, 16) as u16,
        field(a, 80, 16) as u16,
        field(a, 96, 16) as u16,
        field(a, 112, 16) as u16,
    ]
}

/// Appends groups with a colon before each.
fn push_more_groups(out: &mut ArrayString<39>, groups: &[u16])
    requires { array_string_len out.old + 5 * length groups.now ≤ 39 }
    ensures bytes { out.new.bytes ≡ out.old.bytes ++ flat_map (λ g. 58 ∷ group_text g) groups.now }
    ensures len { array_string_len out.new ≤ array_string_len out.old + 5 * length groups.now }
{
    for group in groups {
        out.push(':');
        push_group(out, *group);
    }
}

/// Appends groups with a colon between each two.
fn push_groups(out: &mut ArrayString<39>, groups: &[u16])
    requires { array_string_len out.old + 5 * length groups.now ≤ 40 }
    ensures bytes { out.new.bytes ≡ out.old.bytes ++ groups_text groups.now }
    ensures len { array_string_len out.new
        ≤ array_string_len out.old + (5 * length groups.now - 1) }
{
    if let Some((first, rest)) = groups.split_first() {
        push_group(out, *first);
        push_more_groups(out, rest);
    }
}

/// Some groups in a row: the place of the first, counted from 0, and how many they are.
#[derive(Drop)]
struct Run {
    start: usize,
    count: usize,
}

/// The longest run of groups that are 0, the first among equals.
fn find_longest_run(groups: &[u16]) -> Run
    ensures run { record { start = result.start; count = result.count } ≡ longest_run groups.now }
    ensures within { result.start + result.count ≤ length groups.now }
{
    let mut run = Run {
        start: groups.len(),
        count: 0,
    };
    let mut here = 0;
    let mut i = groups.len();
    while i > 0 {
        i -= 1;
        here = if groups[i] == 0 { here + 1 } else { 0 };
        if here >= run.count {
            run = Run {
                start: i,
                count: here,
            };
        }
    }
    run
}

/// Writes the text of an address (RFC 5952 section 4): groups in lower case without leading zeros,
/// with `::` for the longest run of two or more groups that are 0, the first among equals. `out`
/// must be empty; it always has the room.
pub fn write_addr(out: &mut ArrayString<39>, a: Addr)
    requires { out.old.bytes ≡ [] }
    ensures { out.new.bytes ≡ address_text a.value }
{
    let groups = groups_of_addr(a);
    let run = find_longest_run(&groups);
    if run.count < 2 {
        push_groups(out, &groups);
        return;
    }
    push_groups(out, groups.split_at(run.start).0);
    out.push(':');
    out.push(':');
    push_groups(out, groups.split_at(run.start + run.count).1);
}

/// Appends a prefix's length in decimal digits without leading zeros.
#[tactic(auto, using(crate::proofs::AddressCases::tests), unfolding(crate::specs::Text::length_text))]
fn push_length(out: &mut ArrayString<43>, len: u8)
    requires { array_string_len out.old + 3 ≤ 43 }
    ensures { out.new.bytes ≡ out.old.bytes ++ length_text len }
{
    if len < 10 {
        out.push(char::from(b'0' + len));
        return;
    }
    if len < 100 {
        out.push(char::from(b'0' + len / 10));
        out.push(char::from(b'0' + len % 10));
        return;
    }
    out.push(char::from(b'0' + len / 100));
    out.push(char::from(b'0' + len / 10 % 10));
    out.push(char::from(b'0' + len % 10));
}

/// Writes the text of a prefix (RFC 4291 section 2.3): the text of its address, a slash and its
/// length in decimal digits. `out` must be empty; it always has the room.
pub fn write_prefix(out: &mut ArrayString<43>, p: &Prefix)
    requires { out.old.bytes ≡ [] }
    ensures { out.new.bytes ≡ prefix_text p.now }
{
    let mut address = ArrayString::<39>::new();
    write_addr(&mut address, p.value());
    out.push_str(address.as_str());
    out.push('/');
    push_length(out, p.len());
}
