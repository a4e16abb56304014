//! Laws of packets and segment routing headers: their spellings, and reading them back.

ghost use Rattle.std.specs.Prelude.{◌≡◌, ◌<◌, ◌≤◌, ◌+◌, ◌*◌, ◌^◌, List, ℕ, ◌++◌, length, take, drop, slice_index, slice_set, All, flat_map};
ghost use Rattle.srv6_rules.specs.Chain.{segments_left};
ghost use Rattle.srv6_rules.specs.Packet.{Packet, V6, IsSpellable, spelling, content_of, read_as, entered, bytes_of, header_len, stated_len, packet_at, two_bytes, four_bytes, first_word, address_bytes, two_number, four_number, address_number};
ghost use Rattle.srv6_rules.specs.PacketTerms.{IsContent, Spells};
ghost use Rattle.srv6_rules.specs.Srh.{Srh, srh_of, srh_spelling, segment_routing};
ghost use Rattle.srv6_rules.specs.SrhTerms.{IsSrhSpellable};
ghost use Rattle.srv6_rules.specs.declared.family.Family.{Family};

/// A number has 2, 4 or 16 bytes, each below 256 (RFC 791 appendix B).
pub fn numbers_have_bytes()
    ensures two { (n : ℕ) → (length (two_bytes n) ≡ 2) × All (λ b. b < 2 ^ 8) (two_bytes n) }
    ensures four { (n : ℕ) → (length (four_bytes n) ≡ 4) × All (λ b. b < 2 ^ 8) (four_bytes n) }
    ensures address { (a : ℕ) → (length (address_bytes a) ≡ 16)
        × All (λ b. b < 2 ^ 8) (address_bytes a) }
{}

/// The bytes of a number that fits them read as the number, whatever stands after them (RFC 791
/// appendix B).
pub fn bytes_read_as_the_number()
    ensures two { (n : ℕ) (rest : List ℕ) → n < 2 ^ 16 → two_number (two_bytes n ++ rest) ≡ n }
    ensures four { (n : ℕ) (rest : List ℕ) → n < 2 ^ 32 → four_number (four_bytes n ++ rest) ≡ n }
    ensures address { (a : ℕ) (rest : List ℕ) → a < 2 ^ 128
        → address_number (address_bytes a ++ rest) ≡ a }
{}

/// What stands after the first 2, 4 or 16 bytes makes no difference to the number in them (RFC 791
/// appendix B).
pub fn number_is_in_the_first_bytes()
    ensures two { (xs ys : List ℕ) → 2 ≤ length xs → two_number (xs ++ ys) ≡ two_number xs }
    ensures four { (xs ys : List ℕ) → 4 ≤ length xs → four_number (xs ++ ys) ≡ four_number xs }
    ensures address { (xs ys : List ℕ) → 16 ≤ length xs
        → address_number (xs ++ ys) ≡ address_number xs }
{}

/// The number in the first bytes has these bytes (RFC 791 appendix B).
pub fn number_read_has_the_bytes()
    ensures two { (bytes : List ℕ) → 2 ≤ length bytes → All (λ b. b < 2 ^ 8) bytes
        → two_bytes (two_number bytes) ≡ take 2 bytes }
    ensures four { (bytes : List ℕ) → 4 ≤ length bytes → All (λ b. b < 2 ^ 8) bytes
        → four_bytes (four_number bytes) ≡ take 4 bytes }
    ensures address { (bytes : List ℕ) → 16 ≤ length bytes → All (λ b. b < 2 ^ 8) bytes
        → address_bytes (address_number bytes) ≡ take 16 bytes }
{}

/// Reading a packet's spelling gives the packet back, whatever stands after it
/// (RFC 8200 section 3).
pub fn reading_gives_the_value_back()
    ensures front { (p : Packet) (rest : List ℕ) → IsSpellable p
        → content_of (spelling p ++ rest) ≡ V6 p }
    ensures alone { (p : Packet) → IsSpellable p → content_of (spelling p) ≡ V6 p }
{}

/// Bytes spell at most one packet, and a packet has one spelling (RFC 8200 section 3).
pub fn spelling_is_the_one()
    ensures value { (p q : Packet) (bytes : List ℕ) → Spells bytes p → Spells bytes q → p ≡ q }
    ensures spelling { (p : Packet) (bytes more : List ℕ) → Spells bytes p → Spells more p
        → bytes ≡ more }
{}

/// A spelling is a header of 40 bytes and the payload, each byte below 256 (RFC 8200 section 3).
pub fn spelling_is_header_and_payload()
    ensures length { (p : Packet) → length (spelling p) ≡ 40 + length p.payload }
    ensures bytes { (p : Packet) → IsSpellable p → All (λ b. b < 2 ^ 8) (spelling p) }
{}

/// Where each field stands in a spelling (RFC 8200 section 3).
pub fn fields_stand_in_the_spelling()
    ensures word { (p : Packet) → take 4 (spelling p)
        ≡ four_bytes (first_word p.traffic_class p.flow_label) }
    ensures payload_len { (p : Packet)
        → take 2 (drop 4 (spelling p)) ≡ two_bytes (length p.payload) }
    ensures next_header { (p : Packet) → slice_index (spelling p) 6 ≡ p.next_header }
    ensures hop_limit { (p : Packet) → slice_index (spelling p) 7 ≡ p.hop_limit }
    ensures source { (p : Packet) → take 16 (drop 8 (spelling p)) ≡ address_bytes p.source }
    ensures destination { (p : Packet)
        → take 16 (drop 24 (spelling p)) ≡ address_bytes p.destination }
    ensures payload { (p : Packet) → drop 40 (spelling p) ≡ p.payload }
{}

/// A field that changes changes its bytes in the spelling and no other (RFC 8200 section 3).
pub fn field_changes_its_bytes()
    ensures hop_limit { (p : Packet) (x : ℕ)
        → spelling (record p { hop_limit = x }) ≡ slice_set (spelling p) 7 x }
    ensures destination { (p : Packet) (a : ℕ)
        → spelling (record p { destination = a })
        ≡ take 24 (spelling p) ++ (address_bytes a ++ drop 40 (spelling p)) }
    ensures payload { (p : Packet) (k v : ℕ)
        → spelling (record p { payload = slice_set p.payload k v })
        ≡ slice_set (spelling p) (40 + k) v }
{}

/// Bytes that read as a packet begin with its spelling; with nothing after the packet's end they
/// are its spelling (RFC 8200 section 3).
pub fn what_reads_was_spelled()
    ensures whole_bytes { (bytes : List ℕ) → All (λ b. b < 2 ^ 8) bytes
        → header_len + stated_len bytes ≤ length bytes → IsSpellable (packet_at bytes) }
    ensures spellable { (p : Packet) (bytes : List ℕ) → All (λ b. b < 2 ^ 8) bytes
        → content_of bytes ≡ V6 p → IsSpellable p }
    ensures front { (p : Packet) (bytes : List ℕ) → All (λ b. b < 2 ^ 8) bytes
        → content_of bytes ≡ V6 p → bytes ≡ spelling p ++ drop (length (spelling p)) bytes }
    ensures whole { (p : Packet) (bytes : List ℕ) → All (λ b. b < 2 ^ 8) bytes
        → content_of bytes ≡ V6 p → length bytes ≤ length (spelling p) → bytes ≡ spelling p }
{}

/// What enters a node as a packet of a family is a content that bytes can spell, and its bytes read
/// as it again.
pub fn what_enters_is_a_content()
    ensures content { (family : Family) (bytes : List ℕ) → All (λ b. b < 2 ^ 8) bytes
        → IsContent (entered family bytes) }
    ensures back { (family : Family) (bytes : List ℕ) → All (λ b. b < 2 ^ 8) bytes
        → read_as family (bytes_of (entered family bytes)) ≡ entered family bytes }
{}

/// Reading a segment routing header's spelling gives the header back, whatever stands after it
/// (RFC 8754 section 2).
pub fn srh_reading_gives_the_value_back()
    ensures { (s : Srh) (rest : List ℕ) → IsSrhSpellable s → srh_of (srh_spelling s ++ rest) ≡ s }
{}

/// Bytes that hold a whole segment routing header begin with the spelling of the header that is
/// read there (RFC 8754 section 2).
pub fn srh_in_bytes_was_spelled()
    ensures spellable { (bytes : List ℕ) → All (λ b. b < 2 ^ 8) bytes
        → 8 + 8 * slice_index bytes 1 ≤ length bytes → IsSrhSpellable (srh_of bytes) }
    ensures front { (bytes : List ℕ) → All (λ b. b < 2 ^ 8) bytes → 8 ≤ length bytes
        → slice_index bytes 2 ≡ segment_routing
        → srh_spelling (srh_of bytes) ≡ take (8 + 8 * slice_index bytes 1) bytes }
{}

/// Addresses that stand one after the other in a segment list are its entries, the first at place
/// 0, and Segments Left is the header's byte 3 (RFC 8754 section 2).
pub fn srh_holds_its_list()
    ensures entry { (list more : List ℕ) (i : ℕ) → i < length list → All (λ a. a < 2 ^ 128) list
        → address_number (drop (16 * i) (flat_map address_bytes list ++ more))
        ≡ slice_index list i }
    ensures length { (list : List ℕ) → length (flat_map address_bytes list) ≡ 16 * length list }
    ensures left { (s : Srh) (rest : List ℕ) (v : ℕ)
        → slice_set (srh_spelling s ++ rest) 3 v
        ≡ srh_spelling (record s { segments_left = v }) ++ rest }
{}
