//! Laws of what SIDs and addresses do with packets.

ghost use Rattle.std.specs.Prelude.{◌≡◌, ◌⊎◌, ◌↔◌, ◌<◌, ◌≤◌, ◌+◌, true, false, List, ℕ, ◌++◌, length, drop};
ghost use Rattle.srv6_rules.specs.Behaviours.{ipv6_inside, ipv4_inside, is_packet_inside, goes_on, exposes};
ghost use Rattle.srv6_rules.specs.CompressedStepsTerms.{SuitsCompression};
ghost use Rattle.srv6_rules.specs.Packet4.{Packet4, spelling4};
ghost use Rattle.srv6_rules.specs.Endpoint.{Onward, Exposed, Delivered, Refused, at_sid, at_address};
ghost use Rattle.srv6_rules.specs.EndpointTerms.{StepsTo, StepsWithPsp, TakesWhole, ChangesFewBytes, ExposesFrom};
ghost use Rattle.srv6_rules.specs.Packet.{Packet, V6, V4, Unreadable, IsSpellable, spelling, read_as, bytes_of, header_len};
ghost use Rattle.srv6_rules.specs.PacketTerms.{IsContent};
ghost use Rattle.srv6_rules.specs.declared.sid.Behaviour.TheVariants.{End, EndX, EndT, Dx6, Dx4, Dt6, Dt4, Dt46, B6, B6Red};
ghost use Rattle.srv6_rules.specs.declared.family.Family.{Family};
ghost use Rattle.srv6_rules.specs.declared.reason.Reason.{Reason};
ghost use Rattle.srv6_rules.specs.declared.sid.SidEntry.{SidEntry};

/// Which SIDs go on to the next segment, and which expose the packet inside: End, End.X, End.T,
/// End.B6.Encaps and its reduced form go on; End.DX6, End.DT6 and End.DT46 expose an IPv6 packet,
/// End.DX4, End.DT4 and End.DT46 an IPv4 packet, a SID with USD a packet of either family, and
/// nothing else exposes anything (RFC 8986 sections 4.1 to 4.8, 4.13, 4.14 and 4.16.3).
pub fn behaviours_go_on_or_expose()
    ensures goes_on { (s : SidEntry) → (goes_on s ≡ true) ↔ ((s.behaviour ≡ End)
        ⊎ ((s.behaviour ≡ EndX) ⊎ (((table : ℕ) × (s.behaviour ≡ EndT table))
        ⊎ (((policy : ℕ) × (s.behaviour ≡ B6 policy))
        ⊎ ((policy : ℕ) × (s.behaviour ≡ B6Red policy)))))) }
    ensures ipv6 { (s : SidEntry) → (exposes s ipv6_inside ≡ true) ↔ (((s.behaviour ≡ Dx6)
        ⊎ (((table : ℕ) × (s.behaviour ≡ Dt6 table))
        ⊎ ((table : ℕ) × (s.behaviour ≡ Dt46 table)))) ⊎ (s.usd ≡ true)) }
    ensures ipv4 { (s : SidEntry) → (exposes s ipv4_inside ≡ true) ↔ (((s.behaviour ≡ Dx4)
        ⊎ (((table : ℕ) × (s.behaviour ≡ Dt4 table))
        ⊎ ((table : ℕ) × (s.behaviour ≡ Dt46 table)))) ⊎ (s.usd ≡ true)) }
    ensures kinds { (s : SidEntry) (kind : ℕ) → exposes s kind ≡ true
        → (kind ≡ ipv6_inside) ⊎ (kind ≡ ipv4_inside) }
    ensures one { (s : SidEntry) (kind : ℕ) → goes_on s ≡ true → s.usd ≡ false
        → exposes s kind ≡ false }
    ensures usd { (s : SidEntry) (kind : ℕ) → goes_on s ≡ true → s.usd ≡ true
        → exposes s kind ≡ is_packet_inside kind }
{}

/// A packet that goes on from a SID, whichever its flavours, had a hop limit above 1 and has one
/// lower by one, is no longer than it was, has its traffic class, flow label and source as they
/// were, and stays a packet that bytes can spell, where the SID's compression suits its prefix (RFC
/// 8754 section 4.3.1.1, RFC 8986 sections 4.1 to 4.3, RFC 9800 section 4).
pub fn onward_lowers_the_hop_limit_by_one()
    ensures hop_limit { (s : SidEntry) (allow : List ℕ) (p q : Packet)
        → at_sid s allow p ≡ Onward q
        → (1 < p.hop_limit) × (p.hop_limit ≡ q.hop_limit + 1) }
    ensures length { (s : SidEntry) (allow : List ℕ) (p q : Packet) → at_sid s allow p ≡ Onward q
        → length q.payload ≤ length p.payload }
    ensures fields { (s : SidEntry) (allow : List ℕ) (p q : Packet) → at_sid s allow p ≡ Onward q
        → (q.traffic_class ≡ p.traffic_class) × ((q.flow_label ≡ p.flow_label)
        × (q.source ≡ p.source)) }
    ensures spellable { (s : SidEntry) (allow : List ℕ) (p q : Packet) → SuitsCompression s
        → IsSpellable p → at_sid s allow p ≡ Onward q → IsSpellable q }
{}

/// A packet that goes on from a SID without PSP and USP whose segments are whole, and which does
/// not shift the packet's destination, has taken the step over a segment routing header: the hop
/// limit was above 1 and is one lower, Segments Left is one lower, the destination is that entry,
/// and all else is as it was; its bytes are as they were but for byte 7, bytes 24 to 39 and the
/// byte of Segments Left. With PSP the same header is taken out then exactly where Segments Left
/// became 0 (RFC 8754 section 4.3.1.1, RFC 8986 sections 4.1 to 4.3 and 4.16.1).
pub fn onward_is_one_step()
    ensures step { (s : SidEntry) (allow : List ℕ) (p q : Packet) → TakesWhole s p
        → s.psp ≡ false → s.usp ≡ false → at_sid s allow p ≡ Onward q → StepsTo s p q }
    ensures bytes { (s : SidEntry) (allow : List ℕ) (p q : Packet) → TakesWhole s p
        → s.psp ≡ false → s.usp ≡ false → at_sid s allow p ≡ Onward q
        → ChangesFewBytes (spelling p) (spelling q) }
    ensures psp { (s : SidEntry) (allow : List ℕ) (p q : Packet) → TakesWhole s p → s.usp ≡ false
        → at_sid s allow p ≡ Onward q → StepsWithPsp s p q }
{}

/// Decapsulation changes no byte: what is exposed are the packet's bytes from the place of the
/// packet inside on. What they read as is a content that bytes can spell and that reads back; of a
/// packet they begin with its spelling, and bytes that do not read are kept as they are (RFC 8986
/// sections 4.4 to 4.8).
pub fn decapsulation_changes_no_byte()
    ensures exposes { (s : SidEntry) (allow : List ℕ) (p : Packet) (family : Family)
        (bytes : List ℕ) → at_sid s allow p ≡ Exposed family bytes → ExposesFrom s p family bytes }
    ensures packet { (s : SidEntry) (allow : List ℕ) (p q : Packet) (family : Family)
        (bytes : List ℕ) → IsSpellable p → at_sid s allow p ≡ Exposed family bytes
        → read_as family bytes ≡ V6 q → bytes ≡ spelling q ++ drop (length (spelling q)) bytes }
    ensures packet4 { (s : SidEntry) (allow : List ℕ) (p : Packet) (q : Packet4) (family : Family)
        (bytes : List ℕ) → IsSpellable p → at_sid s allow p ≡ Exposed family bytes
        → read_as family bytes ≡ V4 q → bytes ≡ spelling4 q ++ drop (length (spelling4 q)) bytes }
    ensures unreadable { (family : Family) (bytes kept : List ℕ) (why : Reason)
        → read_as family bytes ≡ Unreadable kept why → bytes ≡ kept }
    ensures content { (s : SidEntry) (allow : List ℕ) (p : Packet) (family : Family)
        (bytes : List ℕ) → IsSpellable p → at_sid s allow p ≡ Exposed family bytes
        → IsContent (read_as family bytes) }
    ensures back { (s : SidEntry) (allow : List ℕ) (p : Packet) (family : Family) (bytes : List ℕ)
        → IsSpellable p → at_sid s allow p ≡ Exposed family bytes
        → read_as family (bytes_of (read_as family bytes)) ≡ read_as family bytes }
{}

/// A packet that is handed to the upper layer is as it was, but that USP takes out its segment
/// routing headers: its next header and its payload alone are others then, and it stays a packet
/// that bytes can spell. At an address no packet goes on and none is exposed (RFC 8754 section
/// 4.3.1.1, RFC 8986 sections 4.1.1 and 4.16.2).
pub fn delivered_packet_is_as_it_was()
    ensures at_sid { (s : SidEntry) (allow : List ℕ) (p q : Packet) → s.usp ≡ false
        → at_sid s allow p ≡ Delivered q → q ≡ p }
    ensures fields { (s : SidEntry) (allow : List ℕ) (p q : Packet) → at_sid s allow p ≡ Delivered q
        → q ≡ record p { next_header = q.next_header; payload = q.payload } }
    ensures spellable { (s : SidEntry) (allow : List ℕ) (p q : Packet) → IsSpellable p
        → at_sid s allow p ≡ Delivered q → IsSpellable q }
    ensures at_address { (p q : Packet) → at_address p ≡ Delivered q → q ≡ p }
    ensures onward { (p q : Packet) → at_address p ≡ Onward q → ⊥ }
    ensures exposed { (p : Packet) (family : Family) (bytes : List ℕ)
        → at_address p ≡ Exposed family bytes → ⊥ }
{}

/// The place of a fault lies in the packet or at its end.
pub fn fault_has_its_place_in_the_packet()
    ensures at_sid { (s : SidEntry) (allow : List ℕ) (p : Packet) (reason : Reason) (at : ℕ)
        → at_sid s allow p ≡ Refused reason at → at ≤ header_len + length p.payload }
    ensures at_address { (p : Packet) (reason : Reason) (at : ℕ) → at_address p ≡ Refused reason at
        → at ≤ header_len + length p.payload }
{}
