ghost use Rattle.std.specs.Prelude.{◌≡◌, ℕ, ◌+◌, ◌-◌, ◌*◌, ◌%◌, ◌^◌, ◌<◌, ◌≤◌, ◌↔◌, IsTrue, List, Some, length};
ghost use Rattle.v6_addr.specs.Address.{PrefixValue, Holds, holds_address, IsInside, is_inside, field_of, with_field_of};
ghost use Rattle.v6_addr.specs.AddressTerms.{IsPrefix};
ghost use Rattle.v6_addr.specs.Text.{address_of_text, prefix_of_text, address_text, prefix_text, longest_run};
ghost use Rattle.v6_addr.specs.Text4.{address4_text};
ghost use Rattle.v6_addr.specs.Text4Terms.{IsAddress4Text, IsPrefix4Text};
ghost use Rattle.v6_addr.specs.Scan4.{address4_of_text, prefix4_of_text};
ghost use Rattle.v6_addr.specs.AddressGrammar.{IsAddressText, IsPrefixText, IsLongestRun};

/// A law: an address's text is read exactly where the grammar of RFC 4291 section 2.2 without a
/// dotted IPv4 tail has it, and so as one address at most.
pub fn address_grammar()
    ensures { (text : List ℕ) (a : ℕ) → (address_of_text text ≡ Some a) ↔ IsAddressText text a }
{}

/// A law: the run of groups that `::` stands for is of groups that are 0, none is longer, and none
/// as long begins earlier (RFC 5952 section 4.2.3).
pub fn longest_run_rule()
    ensures { (groups : List ℕ) → IsLongestRun groups (longest_run groups) }
{}

/// A law: the text of an address has at most 39 bytes, and is read as that address (RFC 4291
/// section 2.2, RFC 5952 section 4).
pub fn address_reads_back()
    ensures read_back { (a : ℕ) → a < 2 ^ 128 → address_of_text (address_text a) ≡ Some a }
    ensures len { (a : ℕ) → length (address_text a) ≤ 39 }
{}

/// A law: a prefix's text is read exactly where the grammar of RFC 4291 section 2.3 has it with no
/// bit set after its length and no leading zeros, and so as one prefix at most.
pub fn prefix_grammar()
    ensures { (text : List ℕ) (p : PrefixValue)
        → (prefix_of_text text ≡ Some p) ↔ IsPrefixText text p }
{}

/// A law: the text of a prefix has at most 43 bytes, and is read as that prefix (RFC 4291 section
/// 2.3, RFC 5952 section 4).
pub fn prefix_reads_back()
    ensures read_back { (p : PrefixValue) → IsPrefix p → prefix_of_text (prefix_text p) ≡ Some p }
    ensures len { (p : PrefixValue) → length (prefix_text p) ≤ 43 }
{}

/// A law: a text writes one IPv4 address at most (RFC 6943 section 3.1.1).
pub fn address4_grammar()
    ensures { (text : List ℕ) (a b : ℕ) → IsAddress4Text text a → IsAddress4Text text b → a ≡ b }
{}

/// Laws: the text of an IPv4 address or prefix is read exactly where the grammar has it (RFC 6943
/// section 3.1.1, the strict form, and RFC 4632 section 3.1).
pub fn texts4_are_read()
    ensures address { (text : List ℕ) (a : ℕ)
        → (address4_of_text text ≡ Some a) ↔ IsAddress4Text text a }
    ensures prefix { (text : List ℕ) (p : PrefixValue)
        → (prefix4_of_text text ≡ Some p) ↔ IsPrefix4Text text p }
{}

/// A law: the text of an IPv4 address has at most 15 bytes, and is read as that address (RFC 6943
/// section 3.1.1).
pub fn address4_reads_back()
    ensures read_back { (a : ℕ) → a < 2 ^ 128 → a % 2 ^ 96 ≡ 0
        → IsAddress4Text (address4_text a) a }
    ensures len { (a : ℕ) → length (address4_text a) ≤ 15 }
{}

/// Laws on what prefixes hold: a prefix holds its own address, and one of 128 bits no other; what a
/// prefix holds is held by each prefix that it lies inside; of two prefixes that hold one address
/// the shorter holds the other's and all that the other holds, and two of one length are one (RFC
/// 4291 section 2.3).
pub fn prefixes_nest()
    ensures own { (p : PrefixValue) → Holds p p.value }
    ensures whole { (p : PrefixValue) (a : ℕ) → p.len ≡ 128 → Holds p a ↔ (a ≡ p.value) }
    ensures outer { (inner outer : PrefixValue) (a : ℕ) → IsInside inner outer → Holds inner a
        → Holds outer a }
    ensures nested { (p q : PrefixValue) (a : ℕ) → p.len ≤ q.len → Holds p a → Holds q a
        → Holds p q.value }
    ensures alike { (p q : PrefixValue) (a b : ℕ) → p.len ≤ q.len → Holds q a → Holds q b
        → Holds p a → Holds p b }
    ensures same { (p q : PrefixValue) (a : ℕ) → IsPrefix p → IsPrefix q → p.len ≡ q.len
        → Holds p a → Holds q a → p.value ≡ q.value }
{}

/// Laws on the tests of prefixes: each is true exactly where its fact holds (RFC 4291 section 2.3).
pub fn prefix_tests()
    ensures holds { (p : PrefixValue) (a : ℕ) → IsTrue (holds_address p a) ↔ Holds p a }
    ensures inside { (inner outer : PrefixValue)
        → IsTrue (is_inside inner outer) ↔ IsInside inner outer }
{}

/// Laws on a field that is written: it is read back, each other field is as it was, the result is
/// an address, and a prefix that ends before the field still holds it.
pub fn fields_apart()
    ensures same { (a at width v : ℕ) → at + width ≤ 128 → v < 2 ^ width
        → field_of (with_field_of a at width v) at width ≡ v }
    ensures before { (a at width v other size : ℕ) → at + width ≤ 128 → v < 2 ^ width
        → other + size ≤ at
        → field_of (with_field_of a at width v) other size ≡ field_of a other size }
    ensures behind { (a at width v other size : ℕ) → at + width ≤ 128 → v < 2 ^ width
        → at + width ≤ other → other + size ≤ 128
        → field_of (with_field_of a at width v) other size ≡ field_of a other size }
    ensures bound { (a at width v : ℕ) → at + width ≤ 128 → a < 2 ^ 128 → v < 2 ^ width
        → with_field_of a at width v < 2 ^ 128 }
    ensures held { (p : PrefixValue) (a at width v : ℕ) → at + width ≤ 128 → v < 2 ^ width
        → p.len ≤ at → Holds p a → Holds p (with_field_of a at width v) }
{}
