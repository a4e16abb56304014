//! Laws of the chain of extension headers.

ghost use Rattle.std.specs.Prelude.{◌≡◌, ◌⊎◌, ◌<◌, ◌≤◌, ◌+◌, ◌-◌, ◌*◌, ◌^◌, true, false, if◌then◌else◌, List, [], ℕ, ◌∷◌, ◌++◌, length, take, slice_index, All};
ghost use Rattle.srv6_rules.specs.declared.numbers.TheConstants.{NEXT_HEADER_AT};
ghost use Rattle.srv6_rules.specs.Chain.{ChainPlace, Header, Upper, Cut, is_extension, routing, is_first, is_whole, extension_bytes, header_in, behind_in, behind, without, start_of, chain_of, from_place};
ghost use Rattle.srv6_rules.specs.ChainTerms.{LiesIn, StandsIn, EndsIn, Follow, place_of, place_behind, lowered, renamed, in_front, chain_at};
ghost use Rattle.srv6_rules.specs.Endpoint.{as_in};
ghost use Rattle.srv6_rules.specs.Packet.{Packet, IsSpellable, spelling, header_len};
ghost use Rattle.srv6_rules.specs.Srh.{Srh, srh_spelling};

/// The values that name extension headers: 0 Hop-by-Hop Options, 43 Routing, 44 Fragment and 60
/// Destination Options (RFC 8200 section 4).
pub fn extension_headers_have_their_values()
    ensures named { (is_extension 0 ≡ true) × (is_extension 43 ≡ true) × (is_extension 44 ≡ true)
        × (is_extension 60 ≡ true) }
    ensures no_other { (kind : ℕ) → is_extension kind ≡ true
        → (kind ≡ 0) ⊎ ((kind ≡ 43) ⊎ ((kind ≡ 44) ⊎ (kind ≡ 60))) }
{}

/// How a chain goes on from each place at or after the end of the IPv6 header: it ends at an upper
/// layer or at a header that is cut, and goes on after a whole header with the value in that
/// header's first byte. A packet's chain starts after its IPv6 header, which names what stands
/// there (RFC 8200 section 4).
pub fn chain_goes_on()
    ensures start { (p : Packet) → chain_of p ≡ chain_at p (start_of p) }
    ensures each { (p : Packet) (place : ChainPlace) → header_len ≤ place.at
        → chain_at p place
        ≡ (if is_extension place.kind
        then (if is_whole place.kind (from_place p place.at)
        then behind (header_in place (from_place p place.at))
        (chain_at p (behind_in place (from_place p place.at)))
        else record { headers = []; end = Cut place })
        else record { headers = []; end = Upper place }) }
    ensures upper { (p : Packet) (place : ChainPlace) → header_len ≤ place.at
        → is_extension place.kind ≡ false
        → chain_at p place ≡ record { headers = []; end = Upper place } }
    ensures cut { (p : Packet) (place : ChainPlace) → header_len ≤ place.at
        → is_extension place.kind ≡ true → is_whole place.kind (from_place p place.at) ≡ false
        → chain_at p place ≡ record { headers = []; end = Cut place } }
    ensures header { (p : Packet) (place : ChainPlace) → header_len ≤ place.at
        → is_extension place.kind ≡ true → is_whole place.kind (from_place p place.at) ≡ true
        → chain_at p place ≡ behind (header_in place (from_place p place.at))
        (chain_at p (behind_in place (from_place p place.at))) }
{}

/// The chain from a place of a packet where a segment routing header was spelled: that header, and
/// the chain after it (RFC 8200 section 4, RFC 8754 section 2).
pub fn chain_goes_on_behind_a_spelled_header()
    ensures { (p : Packet) (at named_at : ℕ) (s : Srh) (rest : List ℕ) → header_len ≤ at
        → length s.body ≡ 8 * s.extension_len → from_place p at ≡ srh_spelling s ++ rest
        → chain_at p (record { at = at; kind = routing; named_at = named_at })
        ≡ behind (record {
          place = record { at = at; kind = routing; named_at = named_at };
          bytes = srh_spelling s;
        })
        (chain_at p (record {
          at = at + length (srh_spelling s);
          kind = s.next_header;
          named_at = at;
        })) }
{}

/// A whole header, of at least 8 bytes, lies in the packet, and so does each header of a chain. A
/// chain ends at a value that names no extension header, or at an extension header that is not
/// whole; an upper layer stands in the packet or at its end, at or after the place where the chain
/// started (RFC 8200 section 4).
pub fn chain_is_in_the_packet()
    ensures header { (p : Packet) (place : ChainPlace) → header_len ≤ place.at
        → is_extension place.kind ≡ true → is_whole place.kind (from_place p place.at) ≡ true
        → LiesIn p (header_in place (from_place p place.at)) }
    ensures least { (kind : ℕ) (bytes : List ℕ) → 8 ≤ extension_bytes kind bytes }
    ensures headers { (p : Packet) (place : ChainPlace) → header_len ≤ place.at
        → All (LiesIn p) (chain_at p place).headers }
    ensures ends { (p : Packet) (place : ChainPlace) → header_len ≤ place.at
        → EndsIn p (chain_at p place).end }
    ensures upper { (p : Packet) (place upper : ChainPlace) → StandsIn p place
        → (chain_at p place).end ≡ Upper upper
        → (is_extension upper.kind ≡ false) × (place.at ≤ upper.at)
        × (upper.at ≤ header_len + length p.payload) }
{}

/// The headers of a chain follow one another: each stands where the one before it ends, and the
/// first byte of that one names it; the IPv6 header names the first. So places ascend, each lies in
/// the packet or at its end, and the byte at the place that named it holds its kind. Headers that
/// lie in a packet and follow one another from a place are those that the chain has from there (RFC
/// 8200 section 4).
pub fn headers_of_a_chain_follow_one_another()
    ensures follow { (p : Packet) (place : ChainPlace) → header_len ≤ place.at
        → Follow place (chain_at p place).headers (place_of (chain_at p place).end) }
    ensures ascend { (place : ChainPlace) (headers : List Header) (last : ChainPlace)
        → Follow place headers last
        → All (λ h. place.at ≤ h.place.at) headers × (place.at ≤ last.at) }
    ensures start { (p : Packet) → StandsIn p (start_of p) }
    ensures behind { (p : Packet) (place : ChainPlace) → StandsIn p place
        → is_whole place.kind (from_place p place.at) ≡ true
        → StandsIn p (behind_in place (from_place p place.at)) }
    ensures stand { (p : Packet) (place : ChainPlace) → StandsIn p place
        → All (λ h. StandsIn p h.place) (chain_at p place).headers
        × StandsIn p (place_of (chain_at p place).end) }
    ensures only { (p : Packet) (place : ChainPlace) (headers : List Header) (last : ChainPlace)
        → Follow place headers last → All (LiesIn p) headers
        → chain_at p place
        ≡ record {
          headers = headers ++ (chain_at p last).headers;
          end = (chain_at p last).end;
        } }
{}

/// The bytes of a header that lies in a packet are the packet's at the header's place, and as many
/// as are stated there (RFC 8200 section 4).
pub fn header_has_bytes_of_the_packet()
    ensures each { (p : Packet) (h : Header) (k : ℕ) → LiesIn p h → k < length h.bytes
        → slice_index h.bytes k ≡ slice_index p.payload (h.place.at + k - header_len) }
    ensures spelled { (p : Packet) (h : Header) (k : ℕ) → LiesIn p h → k < length h.bytes
        → slice_index h.bytes k ≡ slice_index (spelling p) (h.place.at + k) }
    ensures stated { (p : Packet) (h : Header) → LiesIn p h
        → length h.bytes ≡ extension_bytes h.place.kind (from_place p h.place.at) }
    ensures below { (p : Packet) (h : Header) → LiesIn p h → All (λ b. b < 2 ^ 8) p.payload
        → All (λ b. b < 2 ^ 8) h.bytes }
    ensures there { (p : Packet) (h : Header) → LiesIn p h → as_in p h ≡ h }
{}

/// A packet without a header: but for the next header of the IPv6 header, where that named it, and
/// the payload nothing changes. The payload is shorter by the header; the bytes after the header
/// stand so many places lower, those in front of the field that named it are as they were, and
/// bytes can spell what is left. The chain is the chain without that header: the field that named
/// the header names what stood after it, and each later place is lower by the header's length (RFC
/// 8200 section 4, RFC 8986 section 4.16.1).
pub fn header_taken_out_leaves_the_chain()
    ensures others { (p : Packet) (h : Header)
        → without p h
        ≡ record p {
          next_header = (without p h).next_header;
          payload = (without p h).payload;
        } }
    ensures length { (p : Packet) (h : Header) → LiesIn p h
        → length (without p h).payload + length h.bytes ≡ length p.payload }
    ensures behind { (p : Packet) (h : Header) → LiesIn p h → StandsIn p h.place → (at : ℕ)
        → h.place.at + length h.bytes ≤ at
        → from_place (without p h) (at - length h.bytes) ≡ from_place p at }
    ensures front { (p : Packet) (h : Header) (at : ℕ) → LiesIn p h → StandsIn p h.place
        → header_len ≤ at → at ≤ (if is_first h.place then h.place.at else h.place.named_at)
        → take (at - header_len) (without p h).payload ≡ take (at - header_len) p.payload }
    ensures spellable { (p : Packet) (h : Header) → IsSpellable p → LiesIn p h
        → IsSpellable (without p h) }
    ensures first { (p : Packet) (h : Header) (after : List Header)
        → (chain_of p).headers ≡ h ∷ after
        → chain_of (without p h)
        ≡ lowered (length h.bytes) NEXT_HEADER_AT after (chain_of p).end }
    ensures later { (p : Packet) (before after : List Header) (g h : Header)
        → (chain_of p).headers ≡ before ++ g ∷ h ∷ after
        → chain_of (without p h)
        ≡ in_front before (behind (renamed (slice_index h.bytes 0) g)
        (lowered (length h.bytes) g.place.at after (chain_of p).end)) }
    ensures split { (p : Packet) (place : ChainPlace) → header_len ≤ place.at
        → (before after : List Header) (h : Header)
        → (chain_at p place).headers ≡ before ++ h ∷ after
        → chain_at p (place_behind h)
        ≡ record { headers = after; end = (chain_at p place).end } }
{}
