//! Laws of the definitions: each is the contract of an empty function.

ghost use Rattle.std.specs.Prelude.{◌≡◌, Bool, List, [], ℕ, Option};
ghost use Rattle.srv6_rules.specs.Endpoint.{at_sid};
ghost use Rattle.srv6_rules.specs.Packet.{Packet};
ghost use Rattle.srv6_rules.specs.Policies.{outer_by};
ghost use Rattle.srv6_rules.specs.Srh.{Srh};
ghost use Rattle.srv6_rules.specs.declared.policy.Policy.{Policy};
ghost use Rattle.srv6_rules.specs.declared.family.Family.TheVariants.{V6};
ghost use Rattle.srv6_rules.specs.declared.sid.SidEntry.{SidEntry};
ghost use Rattle.outer_header_theory.specs.HeaderFronts.{AreFront, Fate, IsFate, endpoint_of, filled, front_by};

/// What comes at a SID of a header in front of an IPv6 packet does not depend on that packet: for
/// all bytes at once the header goes on as another one in front of the same bytes, exposes these
/// bytes, is handed to the upper layer in front of them, or is dropped for one reason at one place.
/// So it is whatever the SID's behaviour, flavours and compression are, and whatever the header's
/// fields and segment list are (RFC 8986 section 4, RFC 9800 section 4, RFC 8754 section 4.3.1.1).
pub fn what_a_header_is_round_makes_no_difference()
    ensures { (s : SidEntry) (allow : List ℕ) (p : Packet) (o : Option Srh) → AreFront o →
        (fate : Fate) × IsFate fate ×
        ((bytes : List ℕ) → at_sid s allow (filled p o bytes) ≡ endpoint_of fate bytes) }
{}

/// The header that a policy puts in front of an IPv6 packet is such a header, in the full and in
/// the reduced form, and it is the same in front of all bytes (RFC 8986 sections 4.13, 4.14 and 5).
pub fn a_policy_makes_a_front()
    ensures front { (policy : Policy) (reduced : Bool) → AreFront (front_by policy reduced) }
    ensures round { (policy : Policy) (reduced : Bool) (bytes : List ℕ) →
        outer_by policy reduced V6 bytes
        ≡ filled (outer_by policy reduced V6 []) (front_by policy reduced) bytes }
{}
