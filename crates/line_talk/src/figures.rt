//! The figures of the limits that the definitions cite, each written out: the contract of a
//! function that does nothing.

ghost use Rattle.std.specs.Prelude.{◌≡◌};
ghost use Rattle.line_talk.specs.declared.buffer.TheConstants.{MAX_ROOM};
ghost use Rattle.line_talk.specs.declared.engine.TheConstants.{MAX_LINE};
ghost use Rattle.line_talk.specs.declared.serve.TheConstants.{PIECE};

/// A line that is read has at most 64 MiB, a read gives at most 64 KiB, and a buffer keeps at most
/// 64 KiB of room.
pub fn limits_have_their_figures()
    ensures { (MAX_LINE ≡ 67108864) × (PIECE ≡ 65536) × (MAX_ROOM ≡ 65536) }
{}
