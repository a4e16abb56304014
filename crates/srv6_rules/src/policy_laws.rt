//! Laws of the headers that policies put in front of packets, each the contract of a function that
//! does nothing.

ghost use Rattle.std.specs.Prelude.{◌≡◌, ◌↔◌, ◌<◌, ◌≤◌, ◌+◌, ◌-◌, ◌*◌, ◌^◌, Bool, true, false, List, ℕ, ◌∷◌, ◌++◌, length, drop, flat_map, All};
ghost use Rattle.srv6_rules.specs.Chain.{routing};
ghost use Rattle.srv6_rules.specs.Encapsulation.{Encapsulation, segment_list, has_segment_routing, pushed, header_bytes};
ghost use Rattle.srv6_rules.specs.EncapsulationTerms.{IsSpellableEncapsulation};
ghost use Rattle.srv6_rules.specs.Packet.{IsSpellable, most_len, spelling, address_bytes};
ghost use Rattle.srv6_rules.specs.Policies.{Outer, TooBig, InnerHop, inner_kind, routing_header, pushed_round, outer_by, pushed_by, headend_by};
ghost use Rattle.srv6_rules.specs.Srh.{srh_spelling};
ghost use Rattle.srv6_rules.specs.declared.policy.Policy.{Policy};
ghost use Rattle.srv6_rules.specs.declared.family.Family.{Family};
ghost use Rattle.srv6_rules.specs.declared.family.Family.TheVariants.{V6, V4};

/// The last header in front of the inner packet names its family: the segment routing header, or
/// the IPv6 header where the form has none. But for that an outer packet is the same round packets
/// of both families (RFC 8986 sections 5.1 and 5.2).
pub fn last_header_names_the_inner_family()
    ensures kinds { (inner_kind V6 ≡ 41) × (inner_kind V4 ≡ 4) }
    ensures ipv6 { (e : Encapsulation) (bytes : List ℕ) (hop : ℕ)
        → pushed_round e V6 bytes hop ≡ pushed e bytes hop }
    ensures with_header { (e : Encapsulation) (inner : Family) (bytes : List ℕ) (hop : ℕ)
        → has_segment_routing e ≡ true
        → ((pushed_round e inner bytes hop).next_header ≡ routing)
        × ((pushed_round e inner bytes hop).payload
        ≡ srh_spelling (routing_header e inner) ++ bytes) }
    ensures header { (e : Encapsulation) (inner : Family)
        → srh_spelling (routing_header e inner)
        ≡ inner_kind inner ∷ (2 * length (segment_list e)) ∷ 4 ∷ (length e.segments - 1) ∷
        (length (segment_list e) - 1) ∷ 0 ∷ 0 ∷ 0 ∷ flat_map address_bytes (segment_list e) }
    ensures without_header { (e : Encapsulation) (inner : Family) (bytes : List ℕ) (hop : ℕ)
        → has_segment_routing e ≡ false
        → ((pushed_round e inner bytes hop).next_header ≡ inner_kind inner)
        × ((pushed_round e inner bytes hop).payload ≡ bytes) }
{}

/// The inner packet's bytes stand unchanged after the header bytes of the form (RFC 8986 sections
/// 5.1 and 5.2).
pub fn inner_packet_stands_behind_the_headers()
    ensures length { (policy : Policy) (reduced : Bool) (inner : Family) (bytes : List ℕ)
        → length (spelling (outer_by policy reduced inner bytes))
        ≡ header_bytes reduced (length policy.segments) + length bytes }
    ensures inner { (policy : Policy) (reduced : Bool) (inner : Family) (bytes : List ℕ)
        → drop (header_bytes reduced (length policy.segments))
        (spelling (outer_by policy reduced inner bytes)) ≡ bytes }
{}

/// Bytes can spell the outer packet round a packet of either family under the premises under which
/// they can round an IPv6 packet (RFC 8200 section 3).
pub fn outer_packet_of_either_family_can_be_spelled()
    ensures { (e : Encapsulation) (inner : Family) (bytes : List ℕ) (hop : ℕ)
        → IsSpellableEncapsulation e → hop < 2 ^ 8 → All (λ b. b < 2 ^ 8) bytes
        → header_bytes e.reduced (length e.segments) + length bytes ≤ most_len
        → IsSpellable (pushed_round e inner bytes hop) }
{}

/// A packet is too big exactly where its payload, the headers after the first 40 bytes among it,
/// passes 65,535 bytes, and that length is told (RFC 8200 section 3).
pub fn too_big_is_a_payload_above_65535()
    ensures too_big { (policy : Policy) (reduced : Bool) (inner : Family) (bytes : List ℕ) (n : ℕ)
        → (pushed_by policy reduced inner bytes ≡ TooBig n)
        ↔ ((65535 < n)
        × (40 + n ≡ header_bytes reduced (length policy.segments) + length bytes)) }
    ensures made { (policy : Policy) (reduced : Bool) (inner : Family) (bytes : List ℕ)
        → header_bytes reduced (length policy.segments) + length bytes ≤ 65575
        → pushed_by policy reduced inner bytes ≡ Outer (outer_by policy reduced inner bytes) }
{}

/// A headend judges the inner hop limit or TTL first: at most 1 is refused, exactly there, and else
/// the header of the policy's own form is put in front of the lowered packet (RFC 8986 section 5.1;
/// own rule).
pub fn headend_judges_the_inner_hop_limit_first()
    ensures refused { (policy : Policy) (inner : Family) (hop : ℕ) (lowered : List ℕ)
        → (headend_by policy inner hop lowered ≡ InnerHop) ↔ (hop ≤ 1) }
    ensures pushed { (policy : Policy) (inner : Family) (hop : ℕ) (lowered : List ℕ) → 1 < hop
        → headend_by policy inner hop lowered ≡ pushed_by policy policy.reduced inner lowered }
{}
