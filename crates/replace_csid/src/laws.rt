//! Laws of steps, each the contract of a function that does nothing.

ghost use Rattle.std.specs.Prelude.{◌≡◌, ◌≤◌, ◌<◌, ◌^◌, true, All};
ghost use Rattle.srv6_rules.specs.Packet.{Packet, header_len};
ghost use Rattle.srv6_rules.specs.Srh.{srh_of};
ghost use Rattle.srv6_rules.specs.Chain.{Header, from_place, is_segment_routing, is_whole, routing};
ghost use Rattle.srv6_rules.specs.ChainTerms.{LiesIn};

/// A segment routing header of a packet's chain can be stepped over at its place: it stands after
/// the IPv6 header and is whole, and what the bytes from its place on begin with is its value (RFC
/// 8754 section 2).
pub fn header_of_a_chain_can_be_stepped_over()
    ensures behind { (p : Packet) (h : Header) → LiesIn p h → header_len ≤ h.place.at }
    ensures whole { (p : Packet) (h : Header) → LiesIn p h → is_segment_routing h ≡ true
        → is_whole routing (from_place p h.place.at) ≡ true }
    ensures value { (p : Packet) (h : Header) → LiesIn p h → is_segment_routing h ≡ true
        → All (λ b. b < 2 ^ 8) p.payload
        → srh_of (from_place p h.place.at) ≡ srh_of h.bytes }
{}
