ghost use Rattle.std.specs.Prelude.{◌≡◌, ℕ, ◌+◌, ◌-◌, ◌*◌, ◌/◌, ◌%◌, ◌^◌, ◌<◌, ◌≤◌};
ghost use Rattle.v6_addr.specs.Address.{field_of, with_field_of};

use crate::address::Addr;

/// The bits of `a` above its lowest `k`, as a number.
pub(crate) fn high_bits(a: u128, k: u8) -> u128
    requires { k ≤ 128 }
    ensures { result ≡ a / 2 ^ k }
{
    if k == 128 { 0 } else { a >> k }
}

/// The lowest `k` bits of `a`, as a number.
pub(crate) fn low_bits(a: u128, k: u8) -> u128
    requires { k ≤ 128 }
    ensures { result ≡ a % 2 ^ k }
{
    if k == 128 { a } else { a & ((1u128 << k) - 1) }
}

/// `a` moved up by `k` bits.
pub(crate) fn raised(a: u128, k: u8) -> u128
    requires small { k ≤ 128 }
    requires fits { a * 2 ^ k < 2 ^ 128 }
    ensures { result ≡ a * 2 ^ k }
{
    if k == 128 { 0 } else { a << k }
}

/// The number in the `width` bits of an address from bit `at` on. Both count bits; bit 0 is the
/// highest.
#[tactic(auto, unfolding(crate::specs::Address::field_of))]
pub fn field(a: Addr, at: u8, width: u8) -> u128
    requires some { 1 ≤ width }
    requires within { at + width ≤ 128 }
    ensures value { result ≡ field_of a.value at width }
    ensures fits { result < 2 ^ width }
{
    low_bits(high_bits(a.value, 128 - at - width), width)
}

/// The address with `v` in the `width` bits from bit `at` on, and its other bits as they were.
/// Both count bits; bit 0 is the highest.
pub fn with_field(a: Addr, at: u8, width: u8, v: u128) -> Addr
    requires some { 1 ≤ width }
    requires within { at + width ≤ 128 }
    requires fits { v < 2 ^ width }
    ensures value { result.value ≡ with_field_of a.value at width v }

    // What was written is read back, and each other field is as it was.
    ensures same { field_of result.value at width ≡ v }
    ensures before { (other size : ℕ) → other + size ≤ at
        → field_of result.value other size ≡ field_of a.value other size }
    ensures behind { (other size : ℕ) → at + width ≤ other → other + size ≤ 128
        → field_of result.value other size ≡ field_of a.value other size }
{
    let rest = 128 - at - width;
    let above = a.value - low_bits(a.value, 128 - at);
    let moved = raised(v, rest);
    let below = low_bits(a.value, rest);
    Addr {
        value: above + moved + below,
    }
}
