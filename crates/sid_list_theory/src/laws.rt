//! Laws about the definitions, each the contract of a function that does nothing.

ghost use Rattle.std.specs.Prelude.{◌≡◌, ◌<◌, ◌≤◌, ◌+◌, ◌-◌, ◌^◌, Bool, true, false, List, [], ℕ, ◌∷◌, length, All, Option, Some, None};
ghost use Rattle.v6_addr.specs.Address.{Holds};
ghost use Rattle.srv6_rules.specs.Behaviours.{goes_on, exposes};
ghost use Rattle.srv6_rules.specs.Encapsulation.{Encapsulation};
ghost use Rattle.srv6_rules.specs.Endpoint.{Onward, Exposed, Refused, at_sid};
ghost use Rattle.srv6_rules.specs.Packet.{Packet, header_len};
ghost use Rattle.srv6_rules.specs.Policies.{inner_kind, pushed_round};
ghost use Rattle.srv6_rules.specs.Srh.{segments_left_at};
ghost use Rattle.srv6_rules.specs.declared.sid.Csid.TheVariants.{Plain, Replace};
ghost use Rattle.srv6_rules.specs.declared.family.Family.{Family};
ghost use Rattle.srv6_rules.specs.declared.reason.Reason.TheVariants.{BadSegments, HopLimit};
ghost use Rattle.srv6_rules.specs.declared.sid.SidEntry.{SidEntry};
ghost use Rattle.sid_list_theory.specs.ListExamples.{next_list, next_values, next_destinations, replace_list, replace_values, replace_destinations};
ghost use Rattle.sid_list_theory.specs.ExecutionRows.{Execution, Executes, StandInOrder, after_next, destinations_from};
ghost use Rattle.sid_list_spec.specs.SegmentLists.{Container, IsLegal, values_of};
ghost use Rattle.sid_list_theory.specs.SegmentListsTerms.{IsFlatList, sids_in};
ghost use Rattle.sid_list_theory.specs.ListPlaces.{Along, IsPlace, ListPlace, StandsOn, Tunnel, active, at_the_end, behind_of, destination_of, first_of, form, may_lack, next_of, sids_from, stays_routed};

/// The values of a legal list over SIDs of a flat network are addresses, one for each container
/// (RFC 9800 section 4).
pub fn values_are_addresses()
    ensures { (cs : List Container) → IsLegal cs → IsFlatList cs
        → All (λ a. a < 2 ^ 128) (values_of cs) }
{}

/// A legal list has a first place, which over SIDs of a flat network is a place of a legal list
/// over such SIDs; and what is next to such a place is one too.
pub fn legal_list_has_places()
    ensures some { (cs : List Container) → IsLegal cs → (x : ListPlace) × (first_of cs ≡ Some x) }
    ensures first { (cs : List Container) (x : ListPlace) → IsLegal cs → IsFlatList cs
        → first_of cs ≡ Some x → IsPlace x }
    ensures next { (x y : ListPlace) → IsPlace x → next_of x ≡ Some y → IsPlace y }
{}

/// The places of a list go through its SIDs one by one, in their order.
pub fn places_go_through_the_list()
    ensures first { (cs : List Container) (x : ListPlace) → first_of cs ≡ Some x
        → sids_from x ≡ sids_in cs }
    ensures next { (x y : ListPlace) → next_of x ≡ Some y → sids_from x ≡ active x ∷ sids_from y }
    ensures last { (x : ListPlace) → next_of x ≡ None → sids_from x ≡ active x ∷ [] }
{}

/// A packet at a place has its destination in the prefix of the place's active SID, whatever stands
/// after that SID in the container (RFC 9800 section 4).
pub fn destination_is_in_the_active_sid()
    ensures place { (x : ListPlace) → IsPlace x → Holds (active x).prefix (destination_of x) }
    ensures packet { (t : Tunnel) (x : ListPlace) (hop : ℕ) (p : Packet) → Along t x hop p
        → Holds (active x).prefix p.destination }
    ensures hop_limit { (t : Tunnel) (x : ListPlace) (hop : ℕ) (p : Packet) → Along t x hop p
        → p.hop_limit ≡ hop }
{}

/// The packet that H.Encaps makes of a legal list's values stands at the list's first SID, in the
/// full and the reduced form, round a packet of either family (RFC 8986 sections 5.1 and 5.2).
pub fn made_packet_is_at_the_first_sid()
    ensures { (e : Encapsulation) (inner : Family) (bytes : List ℕ) (hop : ℕ)
        (cs : List Container) (x : ListPlace) → IsLegal cs → IsFlatList cs
        → e.segments ≡ values_of cs → first_of cs ≡ Some x
        → Along (record { encapsulation = e; inner = inner; bytes = bytes }) x hop
        (pushed_round e inner bytes hop) }
{}

/// A packet stays at its place in the list, whatever its hop limit is after it was sent (RFC 8200
/// section 3).
pub fn sends_keep_the_place()
    ensures { (t : Tunnel) (x : ListPlace) (hop n : ℕ) (p : Packet) → Along t x hop p
        → Along t x n (record p { hop_limit = n }) }
{}

/// A SID that goes on makes, at a place that has a next one, exactly the packet at the next place,
/// with a hop limit one lower; a hop limit of at most 1 is refused. So it is for plain SIDs, those
/// of NEXT-CSID and those of REPLACE-CSID, with any PSP, USP and USD and any allowed upper layers.
/// And a packet goes on in no other way (RFC 8986 sections 4.1 to 4.3 and 4.16.1, RFC 9800 sections
/// 4.1 and 4.2).
pub fn sid_leads_to_the_next_place()
    ensures onward { (s : SidEntry) (allow : List ℕ) (t : Tunnel) (x y : ListPlace) (hop : ℕ)
        (p : Packet) → (at : Along t x hop p) → StandsOn s (active x) → goes_on s ≡ true
        → next_of x ≡ Some y → 1 < hop
        → at_sid s allow p ≡ Onward (form t y (stays_routed s.psp x y at.routed) (hop - 1)) }
    ensures place { (t : Tunnel) (x y : ListPlace) (hop n : ℕ) (p : Packet) (psp : Bool)
        → (at : Along t x hop p) → next_of x ≡ Some y
        → Along t y n (form t y (stays_routed psp x y at.routed) n) }
    ensures hop_limit { (s : SidEntry) (allow : List ℕ) (t : Tunnel) (x y : ListPlace) (hop : ℕ)
        (p : Packet) → Along t x hop p → StandsOn s (active x) → goes_on s ≡ true
        → next_of x ≡ Some y → hop ≤ 1 → at_sid s allow p ≡ Refused HopLimit 0 }
    ensures only { (s : SidEntry) (allow : List ℕ) (t : Tunnel) (x : ListPlace) (hop : ℕ)
        (p q : Packet) → Along t x hop p → StandsOn s (active x) → at_sid s allow p ≡ Onward q
        → (1 < hop) × (y : ListPlace) × (next_of x ≡ Some y) × Along t y (hop - 1) q }
{}

/// At the last SID of a list a SID that exposes packets of the inner family, by its behaviour or by
/// USD, exposes the packet inside, whatever the hop limit. Another has that packet as the upper
/// layer, with USP after no segment routing header (RFC 8986 sections 4.1 to 4.8, 4.16.2 and
/// 4.16.3).
pub fn last_sid_has_the_packet_inside()
    ensures exposed { (s : SidEntry) (allow : List ℕ) (t : Tunnel) (x : ListPlace) (hop : ℕ)
        (p : Packet) → Along t x hop p → StandsOn s (active x) → next_of x ≡ None
        → exposes s (inner_kind t.inner) ≡ true → at_sid s allow p ≡ Exposed t.inner t.bytes }
    ensures either { (s : SidEntry) (allow : List ℕ) (t : Tunnel) (x : ListPlace) (hop : ℕ)
        (p : Packet) → (at : Along t x hop p) → StandsOn s (active x) → next_of x ≡ None
        → at_sid s allow p ≡ at_the_end s allow t x at.routed hop }
{}

/// A packet is exposed in the last container alone, and what is exposed is the packet inside. A SID
/// that does not go on refuses a packet before the last container, for Segments Left; inside it one
/// that is not compressed takes the packet wherever it stands, and one of REPLACE-CSID only at the
/// last SID (RFC 8986 sections 4.4 to 4.8, RFC 9800 section 4.2).
pub fn packet_is_exposed_in_the_last_container()
    ensures only { (s : SidEntry) (allow : List ℕ) (t : Tunnel) (x : ListPlace) (hop : ℕ)
        (p : Packet) (family : Family) (bytes : List ℕ) → Along t x hop p
        → StandsOn s (active x) → at_sid s allow p ≡ Exposed family bytes
        → (behind_of x ≡ []) × (exposes s (inner_kind t.inner) ≡ true) × (family ≡ t.inner)
        × (bytes ≡ t.bytes) }
    ensures before { (s : SidEntry) (allow : List ℕ) (t : Tunnel) (x : ListPlace) (hop : ℕ)
        (p : Packet) (c : Container) (cs : List Container) → Along t x hop p
        → StandsOn s (active x) → goes_on s ≡ false → behind_of x ≡ c ∷ cs
        → at_sid s allow p ≡ Refused BadSegments (header_len + segments_left_at) }
    ensures plain { (s : SidEntry) (allow : List ℕ) (t : Tunnel) (x : ListPlace) (hop : ℕ)
        (p : Packet) → Along t x hop p → s.csid ≡ Plain → behind_of x ≡ []
        → exposes s (inner_kind t.inner) ≡ true → at_sid s allow p ≡ Exposed t.inner t.bytes }
    ensures plain_either { (s : SidEntry) (allow : List ℕ) (t : Tunnel) (x : ListPlace) (hop : ℕ)
        (p : Packet) → (at : Along t x hop p) → s.csid ≡ Plain → behind_of x ≡ []
        → at_sid s allow p ≡ at_the_end s allow t x at.routed hop }
    ensures packed { (s : SidEntry) (allow : List ℕ) (t : Tunnel) (x : ListPlace) (hop : ℕ)
        (p : Packet) → Along t x hop p → StandsOn s (active x) → goes_on s ≡ false
        → s.csid ≡ Replace → may_lack x ≡ false
        → at_sid s allow p ≡ Refused BadSegments (header_len + segments_left_at) }
{}

/// Executions by SIDs that stand, one by one, on the list's SIDs from a packet's place on, with any
/// sends between, lead to the packet at the place as many SIDs further; each lowers the hop limit
/// (RFC 8754 section 4.3, RFC 9800 section 4).
pub fn executions_go_along_the_list()
    ensures { (t : Tunnel) (x : ListPlace) (p q : Packet) (row : List Execution)
        → Along t x p.hop_limit p → StandInOrder row (sids_from x) → Executes p row q
        → (z : ListPlace) × (after_next (length row) x ≡ Some z) × Along t z q.hop_limit q
        × (q.hop_limit + length row ≤ p.hop_limit) }
{}

/// Two lists by hand: a NEXT-CSID container of four SIDs, and a SID of REPLACE-CSID with three more
/// in one container after it. Both are legal, over SIDs as a flat network has them. Their values,
/// and the destinations on the way, are the ones written out (RFC 9800 sections 4.1 and 4.2).
pub fn lists_by_hand_are_legal()
    ensures next { IsLegal next_list × IsFlatList next_list }
    ensures next_values { values_of next_list ≡ next_values }
    ensures next_path { destinations_from 4 (first_of next_list) ≡ next_destinations }
    ensures replace { IsLegal replace_list × IsFlatList replace_list }
    ensures replace_values { values_of replace_list ≡ replace_values }
    ensures replace_path { destinations_from 4 (first_of replace_list) ≡ replace_destinations }
{}
