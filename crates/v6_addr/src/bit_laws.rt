ghost use Rattle.std.specs.Prelude.{◌≡◌, ℕ, ◌+◌, ◌/◌, ◌%◌, ◌^◌, ◌<◌, ◌≤◌};
ghost use Rattle.v6_addr.specs.Address.{PrefixValue, Holds, field_of, with_field_of};
ghost use Rattle.v6_addr.specs.Bits.{cut, put};

/// Laws on two numbers: where they agree above a bit they agree above each higher one, where they
/// agree below a bit they agree below each lower one, and where they agree above and below one bit
/// they are equal.
pub fn numbers_agree_above_and_below()
    ensures above { (a b low high : ℕ) → low ≤ high → a / 2 ^ low ≡ b / 2 ^ low
        → a / 2 ^ high ≡ b / 2 ^ high }
    ensures below { (a b low high : ℕ) → low ≤ high → a % 2 ^ high ≡ b % 2 ^ high
        → a % 2 ^ low ≡ b % 2 ^ low }
    ensures same { (a b k : ℕ) → a / 2 ^ k ≡ b / 2 ^ k → a % 2 ^ k ≡ b % 2 ^ k → a ≡ b }
{}

/// Laws on bits that are put into a number: they are read back, the bits above and below are as
/// they were, the number stays below a bound, and its own bits put into it change nothing.
pub fn bits_are_cut_and_put()
    ensures same { (a rest width v : ℕ) → v < 2 ^ width → cut (put a rest width v) rest width ≡ v }
    ensures above { (a rest width v : ℕ) → v < 2 ^ width
        → put a rest width v / 2 ^ (rest + width) ≡ a / 2 ^ (rest + width) }
    ensures below { (a rest width v : ℕ) → v < 2 ^ width
        → put a rest width v % 2 ^ rest ≡ a % 2 ^ rest }
    ensures bound { (a rest width v top : ℕ) → rest + width ≤ top → a < 2 ^ top → v < 2 ^ width
        → put a rest width v < 2 ^ top }
    ensures own { (a rest width : ℕ) → put a rest width (cut a rest width) ≡ a }
{}

/// Laws on fields and prefixes: a field that is written as it stands changes nothing, and a prefix
/// holds an address where a shorter one holds both the address and the prefix's value, and they
/// agree in the field from there to the prefix's end.
pub fn fields_and_prefixes()
    ensures own { (a at width : ℕ) → at + width ≤ 128
        → with_field_of a at width (field_of a at width) ≡ a }
    ensures longer { (p q : PrefixValue) (a width : ℕ) → p.len + width ≡ q.len → q.len ≤ 128
        → Holds p a → Holds p q.value → field_of a p.len width ≡ field_of q.value p.len width
        → Holds q a }
{}
