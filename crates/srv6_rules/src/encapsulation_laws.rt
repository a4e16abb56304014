//! Laws of encapsulation, each the contract of a function that does nothing.

ghost use Rattle.std.specs.Prelude.{◌≡◌, ◌⊎◌, ◌<◌, ◌≤◌, ◌+◌, ◌-◌, ◌*◌, ◌^◌, Bool, true, false, if◌then◌else◌, List, [], ℕ, ◌∷◌, ◌++◌, length, drop, reverse, slice_index, slice_set, flat_map, All};
ghost use Rattle.srv6_rules.specs.Behaviours.{ipv6_inside, goes_on, exposes};
ghost use Rattle.srv6_rules.specs.Chain.{Upper, routing, from_place, chain_of};
ghost use Rattle.srv6_rules.specs.Encapsulation.{Encapsulation, segment_list, has_segment_routing, segment_routing_of, outer, at_segment, pushed, header_bytes, inner_lowered};
ghost use Rattle.srv6_rules.specs.EncapsulationTerms.{IsSpellableEncapsulation, header_of, inner_place, bare, bare_place, encapsulated};
ghost use Rattle.srv6_rules.specs.Endpoint.{Onward, Exposed, Delivered, Refused, is_allowed, upper_layer, at_sid};
ghost use Rattle.srv6_rules.specs.Packet.{Packet, V6 as V6Content, IsSpellable, most_len, header_len, spelling, read_as, address_bytes};
ghost use Rattle.srv6_rules.specs.Srh.{srh_spelling, segments_left_at};
ghost use Rattle.srv6_rules.specs.declared.sid.Csid.TheVariants.{Plain};
ghost use Rattle.srv6_rules.specs.declared.family.Family.TheVariants.{V6};
ghost use Rattle.srv6_rules.specs.declared.reason.Reason.TheVariants.{HopLimit, BadSegments, UpperLayer};
ghost use Rattle.srv6_rules.specs.declared.sid.SidEntry.{SidEntry};

/// A packet as it is made has its first segment active, which is its destination, and as many
/// Segments Left as there are segments after the first (RFC 8754 section 4.1).
pub fn pushed_packet_has_its_first_segment_active()
    ensures active { (e : Encapsulation) (inner : List ℕ) (hop : ℕ)
        → pushed e inner hop ≡ at_segment e inner 0 hop }
    ensures destination { (e : Encapsulation) (inner : List ℕ) (hop : ℕ)
        → (pushed e inner hop).destination ≡ slice_index e.segments 0 }
{}

/// The outer packet has a segment routing header in front of the inner packet's bytes, or these
/// alone where the form has none. The header begins with the bytes Next Header 41, length in 8-byte
/// units after the first 8 bytes, Routing Type 4, Segments Left, Last Entry, no flags and two
/// bytes of no tag (RFC 8754 sections 2 and 4.1, RFC 8986 section 5.2).
pub fn outer_packet_has_its_parts()
    ensures with_header { (e : Encapsulation) (inner : List ℕ) (left hop destination : ℕ)
        → has_segment_routing e ≡ true
        → ((outer e inner left hop destination).next_header ≡ routing)
        × ((outer e inner left hop destination).payload
        ≡ srh_spelling (segment_routing_of e left) ++ inner) }
    ensures header { (e : Encapsulation) (left : ℕ)
        → srh_spelling (segment_routing_of e left)
        ≡ 41 ∷ (2 * length (segment_list e)) ∷ 4 ∷ left ∷ (length (segment_list e) - 1) ∷
        0 ∷ 0 ∷ 0 ∷ flat_map address_bytes (segment_list e) }
    ensures without_header { (e : Encapsulation) (inner : List ℕ) (left hop destination : ℕ)
        → has_segment_routing e ≡ false
        → ((outer e inner left hop destination).next_header ≡ ipv6_inside)
        × ((outer e inner left hop destination).payload ≡ inner) }
{}

/// The segment list begins with the last segment. In the full form it has all segments, in the
/// reduced form all but the first, and the reduced form of one segment has no segment routing
/// header (RFC 8754 sections 2 and 4.1.1, RFC 8986 section 5.2).
pub fn segment_list_begins_with_the_last()
    ensures entry { (e : Encapsulation) (k : ℕ) → k + 1 < length e.segments
        → slice_index (segment_list e) k ≡ slice_index e.segments (length e.segments - 1 - k) }
    ensures full { (e : Encapsulation) (left : ℕ) → e.reduced ≡ false
        → (has_segment_routing e ≡ true) × (segment_list e ≡ reverse e.segments)
        × ((segment_routing_of e left).last_entry ≡ length e.segments - 1) }
    ensures reduced { (e : Encapsulation) (left : ℕ) → e.reduced ≡ true → 1 < length e.segments
        → (has_segment_routing e ≡ true) × (segment_list e ≡ reverse (drop 1 e.segments))
        × ((segment_routing_of e left).last_entry ≡ length e.segments - 2) }
    ensures one { (e : Encapsulation) → e.reduced ≡ true → length e.segments ≡ 1
        → has_segment_routing e ≡ false }
{}

/// The chain of an outer packet is its one segment routing header, none where the form has none,
/// and the packet inside as the upper layer, after the header bytes (RFC 8200 section 4, RFC 8754
/// section 2).
pub fn outer_packet_has_its_chain()
    ensures chain { (e : Encapsulation) (inner : List ℕ) (left hop destination : ℕ)
        → chain_of (outer e inner left hop destination)
        ≡ record {
          headers = if has_segment_routing e then header_of e left ∷ [] else [];
          end = Upper (inner_place e);
        } }
    ensures inner { (e : Encapsulation) (inner : List ℕ) (left hop destination : ℕ)
        → from_place (outer e inner left hop destination) (inner_place e).at ≡ inner }
    ensures place { (e : Encapsulation)
        → (inner_place e).at ≡ header_bytes e.reduced (length e.segments) }
{}

/// A SID that goes on, as End, End.X and End.T do, makes at a segment that is not the last the next
/// segment the active one and lowers the hop limit by one; a hop limit of at most 1 is refused. So
/// it is in both forms, with any allowed upper layers and any inner bytes. With PSP the segment
/// routing header is taken out on the way to the last segment, and on no other (RFC 8754 section
/// 4.3.1.1, RFC 8986 sections 4.1 to 4.3 and 4.16.1).
pub fn end_goes_on_to_the_next_segment()
    ensures onward { (s : SidEntry) → s.csid ≡ Plain
        → (allow : List ℕ) (e : Encapsulation) (inner : List ℕ) (i hop : ℕ) → goes_on s ≡ true
        → (s.psp ≡ false) ⊎ (i + 2 < length e.segments)
        → i + 1 < length e.segments → All (λ a. a < 2 ^ 128) e.segments → 1 < hop
        → at_sid s allow (at_segment e inner i hop)
        ≡ Onward (at_segment e inner (i + 1) (hop - 1)) }
    ensures psp { (s : SidEntry) → s.csid ≡ Plain
        → (allow : List ℕ) (e : Encapsulation) (inner : List ℕ) (i hop : ℕ) → goes_on s ≡ true
        → s.psp ≡ true → i + 2 ≡ length e.segments
        → All (λ a. a < 2 ^ 128) e.segments → 1 < hop
        → at_sid s allow (at_segment e inner i hop)
        ≡ Onward (bare e inner (hop - 1) (slice_index e.segments (i + 1))) }
    ensures hop_limit { (s : SidEntry) → s.csid ≡ Plain
        → (allow : List ℕ) (e : Encapsulation) (inner : List ℕ) (i hop : ℕ) → goes_on s ≡ true
        → i + 1 < length e.segments → hop ≤ 1
        → at_sid s allow (at_segment e inner i hop) ≡ Refused HopLimit 0 }
{}

/// At the last segment a SID that does not expose IPv6 packets, as End, End.X and End.T without
/// USD, has the packet inside as an upper layer, with USP without the segment routing header; and
/// one that does, as End.DT6, exposes the inner bytes; those of a packet whose spelling was put in
/// read as that packet. So it is too where the header was taken out on the way (RFC 8986 sections
/// 4.1 to 4.8 and 4.16).
pub fn last_segment_has_the_packet_inside()
    ensures upper_layer { (s : SidEntry) → s.csid ≡ Plain
        → (allow : List ℕ) (e : Encapsulation) (inner : List ℕ) (i hop : ℕ) → s.usp ≡ false
        → exposes s ipv6_inside ≡ false → i + 1 ≡ length e.segments
        → at_sid s allow (at_segment e inner i hop)
        ≡ upper_layer allow (at_segment e inner i hop) (inner_place e) }
    ensures usp { (s : SidEntry) → s.csid ≡ Plain
        → (allow : List ℕ) (e : Encapsulation) (inner : List ℕ) (i hop : ℕ) → s.usp ≡ true
        → has_segment_routing e ≡ true → exposes s ipv6_inside ≡ false
        → i + 1 ≡ length e.segments
        → at_sid s allow (at_segment e inner i hop)
        ≡ (if is_allowed allow ipv6_inside
        then Delivered (bare e inner hop (slice_index e.segments i))
        else Refused UpperLayer (inner_place e).at) }
    ensures exposed { (s : SidEntry) → s.csid ≡ Plain
        → (allow : List ℕ) (e : Encapsulation) (inner : List ℕ) (i hop : ℕ)
        → exposes s ipv6_inside ≡ true → i + 1 ≡ length e.segments
        → at_sid s allow (at_segment e inner i hop) ≡ Exposed V6 inner }
    ensures bare_upper_layer { (s : SidEntry) → s.csid ≡ Plain
        → (allow : List ℕ) (e : Encapsulation)
        (inner : List ℕ) (hop destination : ℕ) → exposes s ipv6_inside ≡ false
        → at_sid s allow (bare e inner hop destination)
        ≡ upper_layer allow (bare e inner hop destination) bare_place }
    ensures bare_exposed { (s : SidEntry) → s.csid ≡ Plain
        → (allow : List ℕ) (e : Encapsulation) (inner : List ℕ) (hop destination : ℕ)
        → exposes s ipv6_inside ≡ true
        → at_sid s allow (bare e inner hop destination) ≡ Exposed V6 inner }
    ensures packet { (p : Packet) → IsSpellable p → read_as V6 (spelling p) ≡ V6Content p }
{}

/// A SID that does not go on, as End.DT6, refuses the packet at a segment that is not the last,
/// whatever its hop limit, for Segments Left (RFC 8986 sections 4.4 to 4.8).
pub fn decapsulation_is_at_the_last_segment()
    ensures { (s : SidEntry) → s.csid ≡ Plain
        → (allow : List ℕ) (e : Encapsulation) (inner : List ℕ) (i hop : ℕ)
        → goes_on s ≡ false → i + 1 < length e.segments
        → at_sid s allow (at_segment e inner i hop)
        ≡ Refused BadSegments (header_len + segments_left_at) }
{}

/// A packet with an outer header is as long as the inner bytes and the header bytes, whichever
/// segment is active. In the full form n segments take 48 + 16 * n bytes; in the reduced form one
/// takes 40, and n take 32 + 16 * n. More segments take more bytes (RFC 8200 section 3, RFC 8754
/// section 2).
pub fn headers_have_their_bytes()
    ensures length { (e : Encapsulation) (inner : List ℕ) (i hop : ℕ)
        → length (spelling (at_segment e inner i hop))
        ≡ header_bytes e.reduced (length e.segments) + length inner }
    ensures payload { (e : Encapsulation) (inner : List ℕ) (left hop destination : ℕ)
        → 40 + length (outer e inner left hop destination).payload
        ≡ header_bytes e.reduced (length e.segments) + length inner }
    ensures full { (n : ℕ) → header_bytes false n ≡ 48 + 16 * n }
    ensures one { header_bytes true 1 ≡ 40 }
    ensures reduced { (n : ℕ) → 1 < n → header_bytes true n ≡ 32 + 16 * n }
    ensures more { (reduced : Bool) (m n : ℕ) → 0 < m → m < n
        → header_bytes reduced m < header_bytes reduced n }
{}

/// Bytes can spell a packet with an outer header where each field fits its width, there are at most
/// 127 segments, and the whole is no longer than the longest packet (RFC 8200 section 3; at most
/// 127 is an own rule).
pub fn outer_packet_can_be_spelled()
    ensures { (e : Encapsulation) (inner : List ℕ) (i hop : ℕ) → IsSpellableEncapsulation e
        → hop < 2 ^ 8 → All (λ b. b < 2 ^ 8) inner
        → header_bytes e.reduced (length e.segments) + length inner ≤ most_len
        → IsSpellable (at_segment e inner i hop) }
{}

/// Before a packet is encapsulated its hop limit, byte 7, is lowered by one and no other byte
/// changes; after the header bytes the lowered packet is what a SID that exposes IPv6 packets, as
/// End.DT6, exposes at the last segment (RFC 8986 sections 4.6 and 5.1).
pub fn encapsulation_lowers_and_keeps_the_packet()
    ensures lowered { (p : Packet)
        → spelling (inner_lowered p) ≡ slice_set (spelling p) 7 (p.hop_limit - 1) }
    ensures inner { (p : Packet) → IsSpellable p → IsSpellable (inner_lowered p) }
    ensures pushed { (e : Encapsulation) (p : Packet) (hop : ℕ)
        → encapsulated e p hop ≡ at_segment e (spelling (inner_lowered p)) 0 hop }
    ensures length { (e : Encapsulation) (p : Packet) (hop : ℕ)
        → length (spelling (encapsulated e p hop))
        ≡ header_bytes e.reduced (length e.segments) + length (spelling p) }
    ensures spellable { (e : Encapsulation) (p : Packet) (hop : ℕ) → IsSpellableEncapsulation e
        → IsSpellable p → hop < 2 ^ 8 → header_bytes e.reduced (length e.segments) + length
        (spelling p) ≤ most_len → IsSpellable (encapsulated e p hop) }
    ensures exposed { (s : SidEntry) → s.csid ≡ Plain
        → (allow : List ℕ) (e : Encapsulation) (p : Packet) (i hop : ℕ)
        → exposes s ipv6_inside ≡ true → i + 1 ≡ length e.segments
        → at_sid s allow (at_segment e (spelling (inner_lowered p)) i hop)
        ≡ Exposed V6 (spelling (inner_lowered p)) }
    ensures reads { (p : Packet) → IsSpellable p
        → read_as V6 (spelling (inner_lowered p)) ≡ V6Content (inner_lowered p) }
{}
