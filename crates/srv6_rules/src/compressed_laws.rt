//! Laws of compressed SIDs, each the contract of a function that does nothing.

ghost use Rattle.std.specs.Prelude.{◌≡◌, ◌≢◌, ◌↔◌, ◌<◌, ◌≤◌, ◌+◌, ◌-◌, ◌^◌, ◌==◌, ◌&&◌, Bool, List, [], ℕ, ◌∷◌, ◌++◌, length, slice_index, All};
ghost use Rattle.v6_addr.specs.Address.{PrefixValue, Holds};
ghost use Rattle.srv6_rules.specs.declared.compression.Compression.{Compression};
ghost use Rattle.srv6_rules.specs.Packet.{Packet, IsSpellable};
ghost use Rattle.srv6_rules.specs.Srh.{Srh, entry_of};
ghost use Rattle.srv6_rules.specs.CompressedSteps.{Moved, csid_len_of, is_ended, move_of, replace_step, shifted, to_entry};
ghost use Rattle.srv6_rules.specs.CompressedStepsTerms.{IsEntryOf, IsNext, IsReplace, index_behind};
ghost use Rattle.srv6_rules.specs.Compressed.{argument_of, container_of, csid_at, csid_count, csid_of, index_of, packed_entry, replace_of, shift_of};
ghost use Rattle.srv6_rules.specs.CompressedTerms.{IsCsidLen, IsContainer, IsReplaceSid};

/// The container of SIDs of one block, shifted at its first SID, is the container of the others,
/// and is shifted on in the same way (RFC 9800 section 4.1).
pub fn shift_leads_to_the_next_sid()
    ensures shifted { (block s t : PrefixValue) (ss : List PrefixValue)
        → IsContainer block (s ∷ t ∷ ss)
        → shift_of (container_of block.len (s ∷ t ∷ ss)) block.len s.len
        ≡ container_of block.len (t ∷ ss) }
    ensures rest { (block s : PrefixValue) (ss : List PrefixValue) → IsContainer block (s ∷ ss)
        → IsContainer block ss }
{}

/// The argument of a container at its first SID is 0 exactly where no SID follows (RFC 9800 section
/// 4.1).
pub fn argument_is_of_the_sids_that_follow()
    ensures { (block s : PrefixValue) (ss : List PrefixValue) → IsContainer block (s ∷ ss)
        → (argument_of (container_of block.len (s ∷ ss)) s.len ≡ 0) ↔ (ss ≡ []) }
{}

/// A container is an address in the prefix of its first SID, and the container of one SID is the
/// SID's own address (RFC 9800 section 4.1).
pub fn container_is_in_its_first_sid()
    ensures holds { (block s : PrefixValue) (ss : List PrefixValue) → IsContainer block (s ∷ ss)
        → Holds s (container_of block.len (s ∷ ss)) }
    ensures address { (block s : PrefixValue) (ss : List PrefixValue) → IsContainer block (s ∷ ss)
        → container_of block.len (s ∷ ss) < 2 ^ 128 }
    ensures one { (block_len : ℕ) (s : PrefixValue) → container_of block_len (s ∷ []) ≡ s.value }
{}

/// An entry that holds CSIDs has the first at the greatest index and each further one at the index
/// below, and 0 at the indexes after the last. Where no CSID is 0, it is 0 exactly there (RFC 9800
/// section 4.2).
pub fn entry_holds_its_csids()
    ensures csid { (csid_len : ℕ) (csids : List ℕ) (i : ℕ) → IsCsidLen csid_len
        → All (λ c. c < 2 ^ csid_len) csids → length csids ≤ csid_count csid_len
        → i < csid_count csid_len
        → csid_at csid_len (packed_entry csid_len csids) (csid_count csid_len - 1 - i)
        ≡ slice_index csids i }
    ensures past { (csid_len : ℕ) (csids : List ℕ) (i : ℕ) → IsCsidLen csid_len
        → All (λ c. c < 2 ^ csid_len) csids → All (λ c. c ≢ 0) csids
        → length csids ≤ csid_count csid_len → i < csid_count csid_len
        → (csid_at csid_len (packed_entry csid_len csids) (csid_count csid_len - 1 - i) ≡ 0)
        ↔ (length csids ≤ i) }
    ensures address { (csid_len : ℕ) (csids : List ℕ) → IsCsidLen csid_len
        → All (λ c. c < 2 ^ csid_len) csids → length csids ≤ csid_count csid_len
        → packed_entry csid_len csids < 2 ^ 128 }
{}

/// A destination under REPLACE-CSID is the SID's value and an index. The next SID's CSID and index
/// written to it give the next SID's value and that index; the index is read back; and the SID's
/// prefix holds the destination (RFC 9800 section 4.2).
pub fn replacement_gives_the_next_sid()
    ensures next { (block s t : PrefixValue) (csid_len i j : ℕ) → IsReplaceSid block csid_len s
        → IsReplaceSid block csid_len t → i < csid_count csid_len → j < csid_count csid_len
        → replace_of (s.value + i) block.len csid_len (csid_of block.len t) j ≡ t.value + j }
    ensures index { (block s : PrefixValue) (csid_len i : ℕ) → IsReplaceSid block csid_len s
        → i < csid_count csid_len → index_of csid_len (s.value + i) ≡ i }
    ensures holds { (block s : PrefixValue) (csid_len i : ℕ) → IsReplaceSid block csid_len s
        → i < csid_count csid_len → Holds s (s.value + i) }
    ensures written { (destination block_len csid_len csid index : ℕ) → IsCsidLen csid_len
        → index < csid_count csid_len
        → index_of csid_len (replace_of destination block_len csid_len csid index) ≡ index }
{}

/// A packet after a shift, and one after a step over a segment list of CSIDs, can be spelled where
/// it could be before: the destination is an address, and the payload is as long (RFC 9800 sections
/// 4.1 and 4.2).
pub fn compressed_steps_can_be_spelled()
    ensures shifted { (c : Compression) (p : Packet) → IsNext c → IsSpellable p
        → IsSpellable (shifted c p) }
    ensures moved { (c : Compression) (p q : Packet) (at : ℕ) (srh : Srh) (ended : Bool)
        → IsReplace c → IsSpellable p → srh.segments_left < 2 ^ 8 → All (λ b. b < 2 ^ 8) srh.body
        → replace_step c p at srh ≡ Moved q ended → IsSpellable q }
    ensures hop_limit { (c : Compression) (p q : Packet) (at : ℕ) (srh : Srh) (ended : Bool)
        → replace_step c p at srh ≡ Moved q ended → p.hop_limit ≡ q.hop_limit + 1 }
{}

/// The CSIDs of an entry are gone through in their order. At a SID that is not the last of its
/// entry the next one's CSID and index are written, and no segment is left then exactly where
/// Segments Left is 0 and no further SID follows. At the last one, where the entry has room for
/// more, the next entry is taken whole. From a SID's own value, which has index 0, the first SID
/// of the next entry follows (RFC 9800 section 4.2).
pub fn csids_of_an_entry_follow_one_another()
    ensures next { (c : Compression) (block s t : PrefixValue) (srh : Srh)
        (before after : List PrefixValue)
        → IsEntryOf c block (before ++ s ∷ t ∷ after) (entry_of srh srh.segments_left)
        → move_of c srh (s.value + index_behind c (length before))
        ≡ record {
          segments_left = srh.segments_left;
          destination = t.value + index_behind c (length before + 1);
          ended = (srh.segments_left == 0) && (length after == 0);
        } }
    ensures entry { (c : Compression) (block s : PrefixValue) (srh : Srh)
        (before : List PrefixValue)
        → IsEntryOf c block (before ++ s ∷ []) (entry_of srh srh.segments_left)
        → 0 < index_behind c (length before)
        → move_of c srh (s.value + index_behind c (length before)) ≡ to_entry srh }
    ensures first { (c : Compression) (block s t : PrefixValue) (srh : Srh)
        (after : List PrefixValue) → IsReplaceSid block (csid_len_of c) s
        → IsEntryOf c block (t ∷ after) (entry_of srh (srh.segments_left - 1))
        → move_of c srh s.value
        ≡ record {
          segments_left = srh.segments_left - 1;
          destination = t.value + index_behind c 0;
          ended = (srh.segments_left - 1 == 0) && (length after == 0);
        } }
    ensures ended { (c : Compression) (block s : PrefixValue) (srh : Srh) (left : ℕ)
        (before after : List PrefixValue)
        → IsEntryOf c block (before ++ s ∷ after) (entry_of srh 0)
        → is_ended c srh left (s.value + index_behind c (length before))
        ≡ (left == 0) && (length after == 0) }
{}
