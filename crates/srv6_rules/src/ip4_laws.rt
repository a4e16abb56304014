//! Laws of IPv4 packets, each the contract of a function that does nothing (RFC 791, RFC 1624).

ghost use Rattle.std.specs.Prelude.{◌≡◌, ◌≢◌, ◌<◌, ◌≤◌, ◌-◌, ◌/◌, ◌^◌, List, [], ℕ, ◌++◌, length, drop, slice_index, All, Result, Ok, Err};
ghost use Rattle.srv6_rules.specs.Checksum.{all_ones, ones_sum};
ghost use Rattle.srv6_rules.specs.Packet4.{Packet4, IsSpellable4, spelling4, read4, packet4_at, stated_header_len, total_len, ttl, header_checksum, checksum_lowered, ttl_lowered, lowered4};
ghost use Rattle.srv6_rules.specs.Packet4Terms.{Spells4};
ghost use Rattle.srv6_rules.specs.declared.numbers.TheConstants.{IPV4_VERSION, IPV4_HEADER_LEN};
ghost use Rattle.srv6_rules.specs.declared.reason.Reason.TheVariants.{Truncated, BadVersion};

/// Reading a packet's spelling gives the packet back, whatever stands after it (RFC 791 section
/// 3.1).
pub fn reading_gives_the_ipv4_packet_back()
    ensures front { (p : Packet4) (rest : List ℕ) → IsSpellable4 p
        → read4 (spelling4 p ++ rest) ≡ Ok p }
    ensures alone { (p : Packet4) → IsSpellable4 p → read4 (spelling4 p) ≡ Ok p }
{}

/// Bytes that read as a packet begin with its spelling, and a packet has one spelling (RFC 791
/// section 3.1).
pub fn what_reads_as_ipv4_was_spelled()
    ensures spellable { (p : Packet4) (bytes : List ℕ) → All (λ b. b < 2 ^ 8) bytes
        → read4 bytes ≡ Ok p → IsSpellable4 p }
    ensures front { (p : Packet4) (bytes : List ℕ) → read4 bytes ≡ Ok p
        → bytes ≡ spelling4 p ++ drop (length (spelling4 p)) bytes }
    ensures value { (p q : Packet4) (bytes : List ℕ) → Spells4 bytes p → Spells4 bytes q → p ≡ q }
{}

/// Bytes that do not begin with a half byte of 4 are of another version, whatever their lengths.
/// Others are truncated where they are fewer than 20, than the length of their header, or than the
/// total length, and where these two state a header below 20 bytes or a packet below its header
/// (RFC 791 section 3.1; the order is an own rule).
pub fn ipv4_is_judged_by_version_and_lengths()
    ensures none { read4 [] ≡ Err Truncated }
    ensures version { (bytes : List ℕ) → 0 < length bytes
        → slice_index bytes 0 / 16 ≢ IPV4_VERSION → read4 bytes ≡ Err BadVersion }
    ensures short { (bytes : List ℕ) → slice_index bytes 0 / 16 ≡ IPV4_VERSION
        → length bytes < IPV4_HEADER_LEN → read4 bytes ≡ Err Truncated }
    ensures header { (bytes : List ℕ) → slice_index bytes 0 / 16 ≡ IPV4_VERSION
        → stated_header_len bytes < IPV4_HEADER_LEN → read4 bytes ≡ Err Truncated }
    ensures total { (bytes : List ℕ) → slice_index bytes 0 / 16 ≡ IPV4_VERSION
        → total_len bytes < stated_header_len bytes → read4 bytes ≡ Err Truncated }
    ensures cut { (bytes : List ℕ) → slice_index bytes 0 / 16 ≡ IPV4_VERSION
        → length bytes < total_len bytes → read4 bytes ≡ Err Truncated }
    ensures whole { (bytes : List ℕ) → slice_index bytes 0 / 16 ≡ IPV4_VERSION
        → IPV4_HEADER_LEN ≤ length bytes → IPV4_HEADER_LEN ≤ stated_header_len bytes
        → stated_header_len bytes ≤ total_len bytes → total_len bytes ≤ length bytes
        → read4 bytes ≡ Ok (packet4_at bytes) }
{}

/// A packet whose time to live is lowered, of at least 1, has a time to live lower by one and the
/// checksum that follows; each other byte is as it was, and it stays a packet that bytes can spell.
/// The one's complement sum of the header's words stays as it was, so a checksum that was right
/// stays right (RFC 791 section 3.1, RFC 1624 section 3).
pub fn lower_ttl_keeps_the_checksum_right()
    ensures ttl { (p : Packet4) → IPV4_HEADER_LEN ≤ length p.header
        → ttl (lowered4 p) ≡ ttl p - 1 }
    ensures checksum { (p : Packet4) → IsSpellable4 p
        → header_checksum (lowered4 p).header ≡ checksum_lowered (header_checksum p.header) }
    ensures others { (p : Packet4) (k : ℕ) → IPV4_HEADER_LEN ≤ length p.header
        → k ≢ 8 → k ≢ 10 → k ≢ 11
        → slice_index (spelling4 (lowered4 p)) k ≡ slice_index (spelling4 p) k }
    ensures length { (p : Packet4) → IPV4_HEADER_LEN ≤ length p.header
        → length (lowered4 p).header ≡ length p.header }
    ensures bytes { (header rest : List ℕ) → IPV4_HEADER_LEN ≤ length header
        → ttl_lowered (header ++ rest) ≡ ttl_lowered header ++ rest }
    ensures spellable { (p : Packet4) → IsSpellable4 p → IsSpellable4 (lowered4 p) }
    ensures sum { (p : Packet4) → IsSpellable4 p → 0 < ttl p
        → ones_sum (lowered4 p).header ≡ ones_sum p.header }
    ensures verifies { (p : Packet4) → IsSpellable4 p → 0 < ttl p
        → ones_sum p.header ≡ all_ones → ones_sum (lowered4 p).header ≡ all_ones }
{}
