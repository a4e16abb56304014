//! Laws about the definitions, each the contract of a function that does nothing.

ghost use Rattle.std.specs.Prelude.{◌≡◌, ◌<◌, ◌≤◌, ◌-◌, ◌*◌, ◌^◌, List, [], ℕ, ◌∷◌, ◌++◌, length, slice_index, flat_map, All, Result, Ok};
ghost use Rattle.srv6_rules.specs.Behaviours.{ipv6_inside};
ghost use Rattle.srv6_rules.specs.Encapsulation.{Encapsulation, segment_list, segment_routing_of};
ghost use Rattle.srv6_rules.specs.Packet.{address_bytes};
ghost use Rattle.srv6_rules.specs.Srh.{Srh, srh_spelling, entries_of, entry_of, tlv_bytes};
ghost use Rattle.srv6_rules.specs.SrhTerms.{IsSrhSpellable};
ghost use Rattle.srh_codec.specs.SrhReading.{IsRead};
ghost use Rattle.srh_codec.specs.Writing.{header_over};
ghost use Rattle.ip6_headers.specs.declared.chain.BadChain.{BadChain};

/// Bytes that begin with a header's spelling are read as that header, whatever stands after it
/// (RFC 8754 section 2).
pub fn spelled_header_is_read()
    ensures { (s : Srh) (rest : List ℕ) (read : Result Srh BadChain) → IsSrhSpellable s
        → IsRead (srh_spelling s ++ rest) read → read ≡ Ok s }
{}

/// A header that is written over 1 to 127 entries has these bytes, can be spelled, and has exactly
/// these entries and no type-length-value area. Over an encapsulation's segment list it is the
/// encapsulating node's (RFC 8754 sections 2 and 4.1).
pub fn written_header_is_of_its_entries()
    ensures bytes { (next_header left : ℕ) (entries : List ℕ)
        → srh_spelling (header_over next_header left entries)
        ≡ next_header ∷ (2 * length entries) ∷ 4 ∷ left ∷ (length entries - 1) ∷
        0 ∷ 0 ∷ 0 ∷ flat_map address_bytes entries }
    ensures spellable { (next_header left : ℕ) (entries : List ℕ) → next_header < 2 ^ 8
        → left < 2 ^ 8 → length entries ≤ 127
        → IsSrhSpellable (header_over next_header left entries) }
    ensures entries { (next_header left : ℕ) (entries : List ℕ)
        → entries_of (header_over next_header left entries) ≡ length entries }
    ensures entry { (next_header left : ℕ) (entries : List ℕ) (i : ℕ) → i < length entries
        → All (λ a. a < 2 ^ 128) entries
        → entry_of (header_over next_header left entries) i ≡ slice_index entries i }
    ensures tlvs { (next_header left : ℕ) (entries : List ℕ) → 0 < length entries
        → tlv_bytes (header_over next_header left entries) ≡ [] }
    ensures encapsulation { (e : Encapsulation) (left : ℕ)
        → header_over ipv6_inside left (segment_list e) ≡ segment_routing_of e left }
{}
