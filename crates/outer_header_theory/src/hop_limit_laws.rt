//! Laws of the definitions: each is the contract of an empty function.

ghost use Rattle.std.specs.Prelude.{List, ℕ};
ghost use Rattle.srv6_rules.specs.Endpoint.{at_sid};
ghost use Rattle.srv6_rules.specs.Packet.{Packet};
ghost use Rattle.srv6_rules.specs.declared.sid.SidEntry.{SidEntry};
ghost use Rattle.outer_header_theory.specs.HopLimits.{Course, Takes, at_hop};

/// At a SID the hop limit of a packet decides only whether it goes on: packets that differ in
/// nothing else all go on as packets that differ in nothing else, one lower where it is above 1,
/// and are refused else; or what is inside all of them is exposed, whatever the hop limit is; or
/// all of them end there (RFC 8986 section 4.1, RFC 9800 section 4, RFC 8754 section 4.3.1.1).
pub fn hop_limits_decide_only_whether_packets_go_on()
    ensures { (s : SidEntry) (allow : List ℕ) (p : Packet) →
        (course : Course) × ((hop : ℕ) → Takes course hop (at_sid s allow (at_hop hop p))) }
{}
