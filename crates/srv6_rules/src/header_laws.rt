//! Laws of what is done with each header at a SID or an address.

ghost use Rattle.std.specs.Prelude.{◌≡◌, ◌⊎◌, ◌<◌, ◌≤◌, ◌+◌, true, false, if◌then◌else◌, List, ℕ, ◌++◌, All, Contains, Some, None};
ghost use Rattle.srv6_rules.specs.Behaviours.{goes_on};
ghost use Rattle.srv6_rules.specs.CompressedSteps.{compression_of, is_replace, shifted};
ghost use Rattle.srv6_rules.specs.Areas.{Fault, options_fault};
ghost use Rattle.srv6_rules.specs.Chain.{ChainPlace, Header, ChainEnd, Upper, Cut, is_extension, hop_by_hop, routing, fragment, destination_options, is_first, is_whole, header_in, behind_in, behind, from_place, segments_left, is_segment_routing};
ghost use Rattle.srv6_rules.specs.ChainTerms.{LiesIn, StandsIn, chain_at};
ghost use Rattle.srv6_rules.specs.Endpoint.{Endpoint, Onward, Refused, outcome_without, next_segment, next_csid, shifts_at, is_options, over_headers, at_header_by, at_sid_routing, at_header, at_upper, at_sid, at_address_header, at_address};
ghost use Rattle.srv6_rules.specs.EndpointTerms.{MovesWithPsp, TakesWhole, IsPassed, IsTakenOut, IsSkipped, IsReached, Decides, over_chain};
ghost use Rattle.srv6_rules.specs.Packet.{Packet, header_len};
ghost use Rattle.srv6_rules.specs.Srh.{srh_of, segments_left_at, routing_type_at};
ghost use Rattle.srv6_rules.specs.declared.sid.Csid.TheVariants.{Plain};
ghost use Rattle.srv6_rules.specs.declared.reason.Reason.TheVariants.{LateHopByHop, Fragment, BadSegments, UnknownRouting};
ghost use Rattle.srv6_rules.specs.declared.sid.SidEntry.{SidEntry};

/// Headers that are passed over change nothing: after them the outcome is that of the headers
/// after them, and where all are passed over it is that of the chain's end (RFC 8200 section 4).
pub fn headers_that_are_passed_over_change_nothing()
    ensures before { (treat : Header → Endpoint → Endpoint) (before after : List Header)
        (end : Endpoint) → All (IsPassed treat) before
        → over_headers treat (before ++ after) end ≡ over_headers treat after end }
    ensures end { (treat : Header → Endpoint → Endpoint) (headers : List Header) (end : Endpoint)
        → All (IsPassed treat) headers → over_headers treat headers end ≡ end }
{}

/// At a SID and at an address each header is passed over, or decides: then what stands after it
/// makes no difference; at a SID with USP one may be taken out besides. So the first header that is
/// neither passed over nor taken out decides the outcome, and where there is none the chain's end
/// does (RFC 8200 section 4, RFC 8754 section 4.3.1.1, RFC 8986 section 4.16.2).
pub fn first_header_that_is_not_passed_over_decides()
    ensures at_sid { (s : SidEntry) (p : Packet) (h : Header)
        → IsSkipped s p h ⊎ Decides (at_header s p) h }
    ensures without_usp { (s : SidEntry) (p : Packet) (h : Header) → s.usp ≡ false
        → IsPassed (at_header s p) h ⊎ Decides (at_header s p) h }
    ensures at_address { (h : Header)
        → IsPassed at_address_header h ⊎ Decides at_address_header h }
    ensures first { (treat : Header → Endpoint → Endpoint) (headers : List Header)
        → ((h : Header) → IsPassed treat h ⊎ Decides treat h)
        → All (IsPassed treat) headers
        ⊎ ((h : Header) × IsReached (IsPassed treat) headers h × Decides treat h) }
    ensures first_at_sid { (s : SidEntry) (p : Packet) (headers : List Header)
        → All (IsSkipped s p) headers
        ⊎ ((h : Header) × IsReached (IsSkipped s p) headers h × Decides (at_header s p) h) }
    ensures decides { (treat : Header → Endpoint → Endpoint) (headers : List Header) (h : Header)
        (end behind : Endpoint) → IsReached (IsPassed treat) headers h → Decides treat h
        → over_headers treat headers end ≡ treat h behind }
{}

/// What comes of a header that is no routing header, at a SID and at an address: Hop-by-Hop Options
/// are passed over where the IPv6 header names them, and refused elsewhere, at the field that named
/// them; Destination Options are passed over where no option has a fault, and refused at the first
/// fault; a Fragment header is refused (RFC 8200 sections 4.1, 4.2, 4.5 and 4.6; that a Fragment
/// header is not processed is an own rule).
pub fn header_is_passed_over_or_refused_by_its_kind()
    ensures first { (route : Header → Endpoint → Endpoint) (h : Header)
        → h.place.kind ≡ hop_by_hop → is_first h.place ≡ true → IsPassed (at_header_by route) h }
    ensures late { (route : Header → Endpoint → Endpoint) (h : Header) (rest : Endpoint)
        → h.place.kind ≡ hop_by_hop → is_first h.place ≡ false
        → at_header_by route h rest ≡ Refused LateHopByHop h.place.named_at }
    ensures options { (route : Header → Endpoint → Endpoint) (h : Header)
        → h.place.kind ≡ destination_options → options_fault h ≡ None
        → IsPassed (at_header_by route) h }
    ensures fault { (route : Header → Endpoint → Endpoint) (h : Header) (f : Fault)
        (rest : Endpoint) → h.place.kind ≡ destination_options → options_fault h ≡ Some f
        → at_header_by route h rest ≡ Refused f.reason f.at }
    ensures fragment { (route : Header → Endpoint → Endpoint) (h : Header) (rest : Endpoint)
        → h.place.kind ≡ fragment → at_header_by route h rest ≡ Refused Fragment h.place.at }
{}

/// A routing header with no segments left is passed over, whatever its type; a segment routing
/// header is then taken out besides at a SID with USP, and only there. One with segments left: a
/// SID that goes on takes the step over a segment routing header, and with PSP takes it out exactly
/// where one segment was left, so that Segments Left becomes 0; another SID refuses it for Segments
/// Left, and any other routing header is unknown; at an address every one is (RFC 8754 section
/// 4.3.1.1, RFC 8986 sections 4.1 to 4.8, 4.16.1 and 4.16.2, RFC 8200 section 4.4). So it is where
/// a SID's segments are whole and it does not shift the destination; SIDs that do have laws of
/// their own.
pub fn routing_header_is_passed_over_stepped_over_or_refused()
    ensures passed { (s : SidEntry) (p : Packet) (h : Header) → TakesWhole s p → s.usp ≡ false
        → h.place.kind ≡ routing → segments_left h ≡ 0 → IsPassed (at_header s p) h }
    ensures passed_other { (s : SidEntry) (p : Packet) (h : Header) → shifts_at s p ≡ false
        → h.place.kind ≡ routing → is_segment_routing h ≡ false → segments_left h ≡ 0
        → IsPassed (at_header s p) h }
    ensures usp { (s : SidEntry) (p : Packet) (h : Header) → TakesWhole s p → s.usp ≡ true
        → is_segment_routing h ≡ true → segments_left h ≡ 0 → IsTakenOut s p h }
    ensures steps { (s : SidEntry) (p : Packet) (h : Header) (rest : Endpoint) → TakesWhole s p
        → is_segment_routing h ≡ true → 0 < segments_left h → goes_on s ≡ true
        → (s.psp ≡ false) ⊎ (1 < segments_left h)
        → at_header s p h rest ≡ next_segment p h.place.at (srh_of h.bytes) }
    ensures psp { (s : SidEntry) (p : Packet) (h : Header) (rest : Endpoint) → TakesWhole s p
        → is_segment_routing h ≡ true → segments_left h ≡ 1 → goes_on s ≡ true → s.psp ≡ true
        → at_header s p h rest
        ≡ outcome_without h (next_segment p h.place.at (srh_of h.bytes)) }
    ensures refuses { (s : SidEntry) (p : Packet) (h : Header) (rest : Endpoint) → TakesWhole s p
        → is_segment_routing h ≡ true → 0 < segments_left h → goes_on s ≡ false
        → at_header s p h rest ≡ Refused BadSegments (h.place.at + segments_left_at) }
    ensures unknown { (s : SidEntry) (p : Packet) (h : Header) (rest : Endpoint)
        → shifts_at s p ≡ false → h.place.kind ≡ routing → is_segment_routing h ≡ false
        → 0 < segments_left h
        → at_header s p h rest ≡ Refused UnknownRouting (h.place.at + routing_type_at) }
    ensures passed_at_address { (h : Header) → h.place.kind ≡ routing → segments_left h ≡ 0
        → IsPassed at_address_header h }
    ensures at_address { (h : Header) (rest : Endpoint) → h.place.kind ≡ routing
        → 0 < segments_left h
        → at_address_header h rest ≡ Refused UnknownRouting (h.place.at + routing_type_at) }
{}

/// A SID of NEXT-CSID with an argument that is not 0 shifts at the first header that has no
/// options, and in front of the upper layer: the packet that goes on is the one with the shifted
/// destination, whose headers are as they were, also with PSP and USP; elsewhere a header is what
/// its kind makes it (RFC 9800 section 4.1).
pub fn sid_shifts_at_the_first_header_without_options()
    ensures shifts { (s : SidEntry) (p : Packet) (h : Header) (rest : Endpoint)
        → shifts_at s p ≡ true → is_options h ≡ false → at_header s p h rest ≡ next_csid s p }
    ensures upper { (s : SidEntry) (allow : List ℕ) (p : Packet) (place : ChainPlace)
        → shifts_at s p ≡ true → at_upper s allow p place ≡ next_csid s p }
    ensures options { (s : SidEntry) (p : Packet) (h : Header) (rest : Endpoint)
        → is_options h ≡ true
        → at_header s p h rest ≡ at_header_by (at_sid_routing s p) h rest }
    ensures onward { (s : SidEntry) (allow : List ℕ) (p q : Packet) → shifts_at s p ≡ true
        → at_sid s allow p ≡ Onward q → q ≡ shifted (compression_of s) p }
    ensures plain { (s : SidEntry) (p : Packet) → s.csid ≡ Plain → TakesWhole s p }
{}

/// A packet that goes on from a SID of REPLACE-CSID without USP has taken the step over a segment
/// routing header after headers that are passed over, and with PSP that header is taken out
/// exactly where no segment is left then (RFC 9800 section 4.2, RFC 8986 section 4.16.1).
pub fn packed_segments_are_moved_on_in()
    ensures { (s : SidEntry) (allow : List ℕ) (p q : Packet) → is_replace s.csid ≡ true
        → s.usp ≡ false → at_sid s allow p ≡ Onward q → MovesWithPsp s p q }
{}

/// A header that is reached is one of the chain's, lies in the packet, and stands at a place of it
/// (RFC 8200 section 4).
pub fn header_that_is_reached_is_in_the_packet()
    ensures contained { (treat : Header → Endpoint → Endpoint) (headers : List Header) (h : Header)
        → IsReached (IsPassed treat) headers h → Contains headers h }
    ensures lies { (treat : Header → Endpoint → Endpoint) (p : Packet) (place : ChainPlace)
        (h : Header) → header_len ≤ place.at
        → IsReached (IsPassed treat) (chain_at p place).headers h → LiesIn p h }
    ensures stands { (treat : Header → Endpoint → Endpoint) (p : Packet) (place : ChainPlace)
        (h : Header) → StandsIn p place → IsReached (IsPassed treat) (chain_at p place).headers h
        → StandsIn p h.place }
    ensures at_sid { (s : SidEntry) (p : Packet) (place : ChainPlace) (h : Header)
        → StandsIn p place → IsReached (IsSkipped s p) (chain_at p place).headers h
        → Contains (chain_at p place).headers h × LiesIn p h × StandsIn p h.place }
{}

/// How the outcome goes on from each place of a packet: at an upper layer, and at a header that is
/// cut, it is that of the chain's end; at a whole header it is made of what came of those after it
/// (RFC 8200 section 4).
pub fn outcome_goes_on()
    ensures { (treat : Header → Endpoint → Endpoint) (end : ChainEnd → Endpoint) (p : Packet)
        (place : ChainPlace) → header_len ≤ place.at
        → over_chain treat end (chain_at p place)
        ≡ (if is_extension place.kind
        then (if is_whole place.kind (from_place p place.at)
        then treat (header_in place (from_place p place.at))
        (over_chain treat end (chain_at p (behind_in place (from_place p place.at))))
        else end (Cut place))
        else end (Upper place)) }
{}
