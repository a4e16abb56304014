//! Laws of edits, each the contract of a function that does nothing.

ghost use Rattle.std.specs.Prelude.{◌≡◌, ℕ, ◌+◌, ◌^◌, ◌<◌, ◌≤◌, List, ◌++◌, length, take, drop, slice_set};
ghost use Rattle.srv6_rules.specs.declared.numbers.TheConstants.{PAYLOAD_LEN_AT, NEXT_HEADER_AT, HOP_LIMIT_AT, DESTINATION_AT};
ghost use Rattle.srv6_rules.specs.declared.reason.Reason.TheVariants.{Truncated};
ghost use Rattle.srv6_rules.specs.Packet.{Packet, V6, Unreadable, content_of, header_len, two_bytes, address_bytes};

/// Bytes that read as a packet read, where a field was written, as that packet with this field
/// alone changed. With another payload length the payload is as many of the bytes after the
/// header, and where these are not there the packet is truncated (RFC 8200 section 3).
pub fn edit_changes_its_field()
    ensures next_header { (bytes : List ℕ) (p : Packet) (v : ℕ) → content_of bytes ≡ V6 p
        → content_of (slice_set bytes NEXT_HEADER_AT v) ≡ V6 (record p { next_header = v }) }
    ensures hop_limit { (bytes : List ℕ) (p : Packet) (v : ℕ) → content_of bytes ≡ V6 p
        → content_of (slice_set bytes HOP_LIMIT_AT v) ≡ V6 (record p { hop_limit = v }) }
    ensures destination { (bytes : List ℕ) (p : Packet) (a : ℕ) → content_of bytes ≡ V6 p
        → a < 2 ^ 128
        → content_of (take DESTINATION_AT bytes ++ (address_bytes a ++ drop header_len bytes))
        ≡ V6 (record p { destination = a }) }
    ensures payload_len { (bytes : List ℕ) (p : Packet) (n : ℕ) → content_of bytes ≡ V6 p
        → n < 2 ^ 16 → header_len + n ≤ length bytes
        → content_of (take PAYLOAD_LEN_AT bytes ++ (two_bytes n ++ drop NEXT_HEADER_AT bytes))
        ≡ V6 (record p { payload = take n (drop header_len bytes) }) }
    ensures truncated { (bytes : List ℕ) (p : Packet) (n : ℕ) → content_of bytes ≡ V6 p
        → n < 2 ^ 16 → length bytes < header_len + n
        → let written = take PAYLOAD_LEN_AT bytes ++ (two_bytes n ++ drop NEXT_HEADER_AT bytes) in
        content_of written ≡ Unreadable written Truncated }
{}
