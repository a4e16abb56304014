//! Laws of options and of the items of type-length-value areas.

ghost use Rattle.std.specs.Prelude.{◌≡◌, ◌≢◌, ◌<◌, ◌≤◌, ◌+◌, ◌*◌, List, [], ℕ, length, drop, slice_index, Option, Some, None};
ghost use Rattle.srv6_rules.specs.declared.numbers.TheConstants.{PAD1, HMAC, OPTIONS_AT, SEGMENT_LIST_AT, SEGMENT_LEN};
ghost use Rattle.srv6_rules.specs.Areas.{Fault, item_bytes, first_of, area_fault, option_fault, options_fault, tlv_fault, tlvs_fault};
ghost use Rattle.srv6_rules.specs.Chain.{Header};
ghost use Rattle.srv6_rules.specs.ChainTerms.{LiesIn};
ghost use Rattle.srv6_rules.specs.Packet.{Packet};
ghost use Rattle.srv6_rules.specs.Srh.{srh_of, segment_routing};
ghost use Rattle.srv6_rules.specs.declared.reason.Reason.TheVariants.{BadChain, OptionDiscard, OptionUnknown, HmacTlv, BadTlv};

/// An area of items has the first fault of its items: that of its first item, or else that of the
/// area after that item, whose length is its own; an area of no bytes has none (RFC 8200 section
/// 4.2, RFC 8754 section 2.1).
pub fn area_is_judged_item_by_item()
    ensures empty { (judge : ℕ → List ℕ → Option Fault) (at : ℕ)
        → area_fault judge 0 at [] ≡ None }
    ensures item { (judge : ℕ → List ℕ → Option Fault) (at : ℕ) (item : List ℕ) → 0 < length item
        → area_fault judge 0 at item
        ≡ first_of (judge at item)
        (area_fault judge 0 (at + item_bytes item) (drop (item_bytes item) item)) }
{}

/// An option that passes its header's end makes the chain bad, whatever its type. Pad1 and PadN are
/// skipped, and of other types the two highest bits decide: 00 is skipped, 01 discarded, and 10 and
/// 11 are discarded and the sender is told (RFC 8200 section 4.2).
pub fn options_are_judged_by_type_and_length()
    ensures pad1 { (item : List ℕ) (at : ℕ) → 0 < length item → slice_index item 0 ≡ PAD1
        → option_fault at item ≡ None }
    ensures skipped { (item : List ℕ) (at : ℕ) → 2 + slice_index item 1 ≤ length item
        → slice_index item 0 < 64 → option_fault at item ≡ None }
    ensures discarded { (item : List ℕ) (at : ℕ) → 2 + slice_index item 1 ≤ length item
        → 64 ≤ slice_index item 0 → slice_index item 0 < 128
        → option_fault at item ≡ Some (record { reason = OptionDiscard; at = at }) }
    ensures told { (item : List ℕ) (at : ℕ) → 2 + slice_index item 1 ≤ length item
        → 128 ≤ slice_index item 0
        → option_fault at item ≡ Some (record { reason = OptionUnknown; at = at }) }
    ensures bad { (item : List ℕ) (at : ℕ) → slice_index item 0 ≢ PAD1
        → length item < 2 + slice_index item 1
        → option_fault at item ≡ Some (record { reason = BadChain; at = at }) }
{}

/// An HMAC in a segment routing header is refused, also where it passes its area's end. Any other
/// item that passes it is bad, and one that does not is skipped (own rule; RFC 8754 section 2.1).
pub fn segment_routing_items_are_judged_by_type_and_length()
    ensures hmac { (item : List ℕ) (at : ℕ) → slice_index item 0 ≡ HMAC
        → tlv_fault at item ≡ Some (record { reason = HmacTlv; at = at }) }
    ensures bad { (item : List ℕ) (at : ℕ) → slice_index item 0 ≢ PAD1
        → slice_index item 0 ≢ HMAC → length item < 2 + slice_index item 1
        → tlv_fault at item ≡ Some (record { reason = BadTlv; at = at }) }
    ensures pad1 { (item : List ℕ) (at : ℕ) → 0 < length item → slice_index item 0 ≡ PAD1
        → tlv_fault at item ≡ None }
    ensures skipped { (item : List ℕ) (at : ℕ) → slice_index item 0 ≢ HMAC
        → 2 + slice_index item 1 ≤ length item → tlv_fault at item ≡ None }
{}

/// A fault among items stands in their area: of options in their header, after its first two
/// bytes, and of a segment routing header's area in that header, after the entry at Last Entry
pub fn fault_of_an_item_has_its_place_in_the_header()
    ensures area { (judge : ℕ → List ℕ → Option Fault)
        → ((at : ℕ) (item : List ℕ) (f : Fault) → judge at item ≡ Some f → f.at ≡ at)
        → (skip at : ℕ) (bytes : List ℕ) (f : Fault) → area_fault judge skip at bytes ≡ Some f
        → (at ≤ f.at) × (f.at < at + length bytes) }
    ensures options { (p : Packet) (h : Header) (f : Fault) → LiesIn p h → options_fault h ≡ Some f
        → (h.place.at + OPTIONS_AT ≤ f.at) × (f.at < h.place.at + length h.bytes) }
    ensures segment_routing { (p : Packet) (h : Header) (f : Fault) → LiesIn p h
        → tlvs_fault h.place.at (srh_of h.bytes) ≡ Some f
        → (h.place.at + SEGMENT_LIST_AT + SEGMENT_LEN * ((srh_of h.bytes).last_entry + 1) ≤ f.at)
        × (f.at < h.place.at + length h.bytes) }
{}
