//! Laws about the definitions, each the contract of a function that does nothing.

ghost use Rattle.std.specs.Prelude.{◌≡◌, ◌≤◌, ℕ, true, false, List, [], ◌∷◌, ◌++◌, length, All, Some, Err};
ghost use Rattle.pcap_io.specs.declared.numbers.TheConstants.{MAX_FRAMES};
ghost use Rattle.pcapng_io.specs.declared.ng_block.BlockType.TheVariants as types;
ghost use Rattle.pcapng_io.specs.declared.fault.NgFault.{NgFault};
ghost use Rattle.pcapng_io.specs.declared.fault.NgFault.TheVariants as ng;
ghost use Rattle.pcapng_io.specs.declared.numbers.TheConstants.{MAJOR, MAX_INPUT, PIECE, SIMPLE_START, ENHANCED_START};
ghost use Rattle.pcapng_io.specs.Blocks.{type_of, least_of, order_of, link_in};
ghost use Rattle.pcapng_io.specs.declared.end.NgEnd.{NgEnd};
ghost use Rattle.pcapng_io.specs.declared.end.NgEnd.TheVariants.{Whole, Faulty};
ghost use Rattle.pcapng_io.specs.NgReading.{end_at, end_at_start, with_front, ng_capture_of};
ghost use Rattle.pcapng_io.specs.NgReadingTerms.{AreFrom, NgFrames};
ghost use Rattle.pcapng_io.specs.Taking.{NgSeen, fresh, coming, IsDone, Takes};
ghost use Rattle.pcapng_io.specs.Runs.{NgCall, Runs, bytes_fed, frames_taken};
ghost use Rattle.pcapng_io.specs.Spelled.{NgHead, NgSpelled, FitsNgHead, FitsNgPacket, ng_bytes, frames_read};

/// However bytes are cut into pieces, and whenever frames are asked for: the frames that `take`
/// gave are the first of those of all bytes, and what is still to come is what comes of the reader;
/// where nothing more is fed, they are all, and the end is the one that `finish` tells; where a
/// fault comes, it is the end, whatever is fed later.
pub fn frames_do_not_depend_on_pieces()
    ensures frames { (calls : List NgCall) (r : NgSeen) (more : List ℕ) → Runs fresh calls r
        → ng_capture_of (bytes_fed calls ++ more)
        ≡ with_front (frames_taken calls) (coming r more) }
    ensures end { (calls : List NgCall) (r : NgSeen) → Runs fresh calls r → IsDone r
        → NgFrames (bytes_fed calls) (frames_taken calls) (end_at r.place r.rest) }
    ensures fault { (calls : List NgCall) (old new : NgSeen) (fault : NgFault) (more : List ℕ)
        → Runs fresh calls old → Takes old new (Err fault) → (fault ≡ ng.NoMemory → ⊥)
        → NgFrames (bytes_fed calls ++ more) (frames_taken calls) (Faulty fault) }
{}

/// A file that is spelled with one section, one interface and enhanced packets of it, with any
/// options and in either byte order, is read as its frames.
pub fn spelled_files_are_read()
    ensures { (h : NgHead) (packets : List NgSpelled) → FitsNgHead h
        → All (FitsNgPacket h.little) packets → length packets ≤ MAX_FRAMES
        → NgFrames (ng_bytes h packets) (frames_read (link_in h.link) 1 packets) Whole }
{}

/// A file whose first block is cut or faulty has no frames, and ends there.
pub fn first_block_decides()
    ensures { (bytes : List ℕ) (end : NgEnd) → end_at_start bytes ≡ Some end
        → NgFrames bytes [] end }
{}

/// The frames of a file are numbered from 1 on, over all sections.
pub fn frames_are_numbered()
    ensures { (bytes : List ℕ) → AreFrom 1 (ng_capture_of bytes).frames }
{}

/// The figures of the format (draft-ietf-opsawg-pcapng sections 3.1 and 4): the types of blocks,
/// their least lengths in bytes, the magic in either order, the major version, where packets begin,
/// and the own limits: 64 MiB, pieces of 64 KiB, and 65,536 packets.
pub fn blocks_have_their_figures()
    ensures section { type_of 0x0a0d0d0a ≡ types.Section }
    ensures interface { type_of 1 ≡ types.Interface }
    ensures old_packet { type_of 2 ≡ types.OldPacket }
    ensures simple_packet { type_of 3 ≡ types.SimplePacket }
    ensures enhanced_packet { type_of 6 ≡ types.EnhancedPacket }
    ensures least { (least_of types.Section ≡ 28) × (least_of types.Interface ≡ 20)
        × (least_of types.SimplePacket ≡ 16) × (least_of types.EnhancedPacket ≡ 32)
        × (least_of types.OldPacket ≡ 12) × (least_of types.Other ≡ 12) }
    ensures high_first { (a b c d e f g h : ℕ) (rest : List ℕ)
        → order_of (a ∷ b ∷ c ∷ d ∷ e ∷ f ∷ g ∷ h ∷ 0x1a ∷ 0x2b ∷ 0x3c ∷ 0x4d ∷ rest) ≡ Some false }
    ensures low_first { (a b c d e f g h : ℕ) (rest : List ℕ)
        → order_of (a ∷ b ∷ c ∷ d ∷ e ∷ f ∷ g ∷ h ∷ 0x4d ∷ 0x3c ∷ 0x2b ∷ 0x1a ∷ rest) ≡ Some true }
    ensures numbers { (MAJOR ≡ 1) × (SIMPLE_START ≡ 12) × (ENHANCED_START ≡ 28)
        × (MAX_INPUT ≡ 67108864) × (PIECE ≡ 65536) × (MAX_FRAMES ≡ 65536) }
{}
