//! Laws of the grammar, each the contract of a function that does nothing.

ghost use Rattle.std.specs.Prelude.{◌≡◌, ◌↔◌, ◌<◌, ◌^◌, ℕ, List, [], ◌∷◌, All};
ghost use Rattle.pcapng_io.specs.NgReading.{ng_capture_of};
ghost use Rattle.pcapng_io.specs.declared.end.NgEnd.TheVariants.{CutIn, Faulty, Whole};
ghost use Rattle.pcapng_io.specs.declared.fault.NgFault.TheVariants as ng;
ghost use Rattle.pcapng_theory.specs.NgEndings.{BadBlock, BadMagic, BadVersion, Cut, EndOfBytes, NoInterface, ObsoleteBlock, TooManyPackets};
ghost use Rattle.pcapng_theory.specs.NgFiles.{EndsAt, EndsIn, File, Spells};
ghost use Rattle.pcapng_theory.specs.NgFrames.{file_reading};

/// A file that the grammar spells is read as the frames of its packets, and ends as its bytes do.
pub fn spelled_files_are_read()
    ensures { (bytes : List ℕ) (f : File) → Spells bytes f → ng_capture_of bytes ≡ file_reading f }
{}

/// Any bytes are spelled by the grammar, and what is read of them is what it says.
pub fn each_file_is_spelled()
    ensures { (bytes : List ℕ) → All (λ b. b < 2 ^ 8) bytes
        → (f : File) × Spells bytes f × (ng_capture_of bytes ≡ file_reading f) }
{}

/// Bytes are spelled in one way at most: each section, block and field, and how they end.
pub fn files_are_spelled_in_one_way()
    ensures { (bytes : List ℕ) (f g : File) → Spells bytes f → Spells bytes g → f ≡ g }
{}

/// A file that begins with the type of a section has no block before its first section.
pub fn files_begin_with_a_section()
    ensures { (bytes : List ℕ) (f : File)
        → Spells (0x0a ∷ 0x0d ∷ 0x0d ∷ 0x0a ∷ bytes) f → f.before_sections ≡ [] }
{}

/// Each refusal is told, of the block of a number, exactly where the bytes end so in that block, and
/// that a file is whole exactly where no byte is left.
pub fn refusals_are_those_of_the_grammar()
    ensures block { (bytes : List ℕ) (n : ℕ) → All (λ b. b < 2 ^ 8) bytes
        → ((ng_capture_of bytes).end ≡ Faulty (ng.NgBlock n)) ↔ EndsIn bytes BadBlock n }
    ensures magic { (bytes : List ℕ) (n : ℕ) → All (λ b. b < 2 ^ 8) bytes
        → ((ng_capture_of bytes).end ≡ Faulty (ng.NgMagic n)) ↔ EndsIn bytes BadMagic n }
    ensures version { (bytes : List ℕ) (n : ℕ) → All (λ b. b < 2 ^ 8) bytes
        → ((ng_capture_of bytes).end ≡ Faulty (ng.NgVersion n)) ↔ EndsIn bytes BadVersion n }
    ensures interface { (bytes : List ℕ) (n : ℕ) → All (λ b. b < 2 ^ 8) bytes
        → ((ng_capture_of bytes).end ≡ Faulty (ng.NgInterface n))
        ↔ EndsIn bytes NoInterface n }
    ensures cut { (bytes : List ℕ) (n : ℕ) → All (λ b. b < 2 ^ 8) bytes
        → ((ng_capture_of bytes).end ≡ CutIn n) ↔ EndsIn bytes Cut n }
    ensures obsolete { (bytes : List ℕ) (n : ℕ) → All (λ b. b < 2 ^ 8) bytes
        → ((ng_capture_of bytes).end ≡ Faulty (ng.NgOldBlock n))
        ↔ EndsIn bytes ObsoleteBlock n }
    ensures limit { (bytes : List ℕ) → All (λ b. b < 2 ^ 8) bytes
        → ((ng_capture_of bytes).end ≡ Faulty ng.FrameLimit) ↔ EndsAt bytes TooManyPackets }
    ensures whole { (bytes : List ℕ) → All (λ b. b < 2 ^ 8) bytes
        → ((ng_capture_of bytes).end ≡ Whole) ↔ EndsAt bytes EndOfBytes }
{}
