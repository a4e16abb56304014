//! Laws about the definitions, each the contract of a function that does nothing.

ghost use Rattle.std.specs.Prelude.{◌≡◌, ◌<◌, ◌≤◌, ◌+◌, ◌^◌, ℕ, suc, Bool, List, [], ◌∷◌, ◌++◌, length, drop, All, Ok};
ghost use Rattle.std.specs.List.{flat_map};
ghost use Rattle.pcap_io.specs.declared.capture_head.CaptureHead.{CaptureHead};
ghost use Rattle.pcap_io.specs.declared.numbers.TheConstants.{HEAD_LEN, MAX_FRAMES, SNAPLEN, PIECE, MICROS_MAGIC, NANOS_MAGIC, PCAPNG_MAGIC, MAJOR, MINOR, ETHERNET, RAW_IP, IPV6, ETHERTYPE_V6, ETHERTYPE_V4};
ghost use Rattle.srv6_rules.specs.declared.numbers.TheConstants.{MAX_PACKET_LEN};
ghost use Rattle.pcap_io.specs.Head.{Unread, head_bytes, head_of};
ghost use Rattle.pcap_io.specs.HeadTerms.{FitsHead};
ghost use Rattle.pcap_io.specs.Frames.{Spelled, Reading, frame_bytes, frame_len, behind, by_version, with_front, frames_of};
ghost use Rattle.pcap_io.specs.FramesTerms.{Fits, Splits, HoldsNoFrame, numbered_from};
ghost use Rattle.pcap_io.specs.FedPieces.{FrameCall, Runs, bytes_fed, coming, frames_taken, fresh_reader};
ghost use Rattle.pcap_io.specs.Capture.{written_head, written_head_bytes, written_frame_bytes};
ghost use Rattle.pcap_io.specs.CaptureTerms.{IsAtLimit, IsDone, Reader};

/// A head that is spelled is read, whatever follows it.
pub fn spelled_heads_are_read()
    ensures { (head : CaptureHead) (u : Unread) (rest : List ℕ) → FitsHead u
        → head_of (head_bytes head u ++ rest) ≡ Ok head }
{}

/// What is read as a head is spelled so, each byte of it.
pub fn heads_are_spelled()
    ensures { (bytes : List ℕ) (head : CaptureHead) → All (λ b. b < 2 ^ 8) bytes
        → head_of bytes ≡ Ok head
        → (u : Unread) × FitsHead u × (bytes ≡ head_bytes head u ++ drop HEAD_LEN bytes) }
{}

/// The frames that are read are those that stand in the bytes one after the other, up to a rest
/// that begins with no whole frame, or up to the limit: no byte is lost or read twice.
pub fn frames_are_spelled()
    ensures { (head : CaptureHead) (most n : ℕ) (bytes : List ℕ) → All (λ b. b < 2 ^ 8) bytes
        → (frames : List Spelled) × Splits head most n bytes frames (frames_of head most n bytes) }
{}

/// There is one way only to split bytes into frames, and reading gives it.
pub fn spelled_frames_are_read()
    ensures { (head : CaptureHead) (most n : ℕ) (bytes : List ℕ) (frames : List Spelled)
        (read : Reading) → Splits head most n bytes frames read
        → frames_of head most n bytes ≡ read }
{}

/// However the bytes after a head are cut into pieces, and whenever frames are asked for: the
/// frames that were taken are the first of those of all bytes, and what is still to come is what
/// comes of the reader; where nothing more is fed and no frame is left, they are all; at the limit
/// they are all, whatever is fed later.
pub fn frames_do_not_depend_on_pieces()
    ensures frames { (head : CaptureHead) (r : Reader) (calls : List FrameCall) (more : List ℕ)
        → Runs (fresh_reader head) calls r
        → frames_of head MAX_FRAMES 1 (bytes_fed calls ++ more)
        ≡ with_front (frames_taken calls) (coming r more) }
    ensures end { (head : CaptureHead) (r : Reader) (calls : List FrameCall)
        → Runs (fresh_reader head) calls r → IsDone r
        → frames_of head MAX_FRAMES 1 (bytes_fed calls)
        ≡ record { frames = frames_taken calls; rest = r.rest } }
    ensures limit { (head : CaptureHead) (r : Reader) (calls : List FrameCall) (more : List ℕ)
        → Runs (fresh_reader head) calls r → IsAtLimit r
        → frames_of head MAX_FRAMES 1 (bytes_fed calls ++ more)
        ≡ record { frames = frames_taken calls; rest = r.rest ++ more } }
{}

/// No frame is spelled at the front exactly where the bytes are fewer than its numbers say.
pub fn no_frame_is_spelled_there()
    ensures none { (little : Bool) (bytes more : List ℕ) (f : Spelled)
        → HoldsNoFrame little bytes → Fits f → bytes ≡ frame_bytes little f ++ more → ⊥ }
    ensures some { (little : Bool) (bytes : List ℕ) → All (λ b. b < 2 ^ 8) bytes
        → frame_len little bytes ≤ length bytes
        → (f : Spelled) × Fits f × (bytes ≡ frame_bytes little f ++ behind little bytes) }
{}

/// What is written reads back, whatever follows: the head, and each frame as its packet where the
/// packet's first half byte is 6 or 4, else as none; and all frames of a capture.
pub fn written_captures_are_read()
    ensures head { (rest : List ℕ) → head_of (written_head_bytes ++ rest) ≡ Ok written_head }
    ensures frame { (number link most n : ℕ) (packet rest : List ℕ)
        → number < 2 ^ 32 → link < 2 ^ 32 → length packet ≤ MAX_PACKET_LEN
        → frames_of written_head (suc most) n (written_frame_bytes number link packet ++ rest)
        ≡ with_front (record { number = n; body = by_version packet } ∷ [])
        (frames_of written_head most (n + 1) rest) }
    ensures whole { (frames : List Spelled) → All Fits frames → length frames ≤ MAX_FRAMES
        → frames_of written_head MAX_FRAMES 1 (drop HEAD_LEN
        (written_head_bytes ++ flat_map (frame_bytes written_head.little) frames))
        ≡ record { frames = numbered_from written_head.link 1 frames; rest = [] } }
{}

/// The figures of the format (libpcap's savefile): the head's 24 bytes, the magics of captures with
/// microseconds and with nanoseconds, the first bytes of a pcapng file, version 2.4, the link types
/// of Ethernet, of IP and of IPv6, and the EtherTypes of IPv6 (RFC 2464 section 3) and of IPv4 (RFC
/// 894); and the own limits: 65,536 frames, pieces of 64 KiB, and the snaplen that is written.
pub fn captures_have_their_figures()
    ensures head { (HEAD_LEN ≡ 24) × (MICROS_MAGIC ≡ 0xa1b2c3d4)
        × (NANOS_MAGIC ≡ 0xa1b23c4d) × (PCAPNG_MAGIC ≡ 0x0a0d0d0a) × (MAJOR ≡ 2)
        × (MINOR ≡ 4) }
    ensures links { (ETHERNET ≡ 1) × (RAW_IP ≡ 101) × (IPV6 ≡ 229)
        × (ETHERTYPE_V6 ≡ 0x86dd) × (ETHERTYPE_V4 ≡ 0x0800) }
    ensures limits { (MAX_FRAMES ≡ 65536) × (SNAPLEN ≡ 262144) × (PIECE ≡ 65536) }
{}
