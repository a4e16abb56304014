//! Buffers that are used again.
ghost use Rattle.std.specs.Prelude.{◌≡◌, ◌≤◌, []};
ghost use Rattle.std.specs.Vec.{vec_capacity};

/// The most bytes of room that a buffer keeps from one use to the next: 64 KiB.
pub(crate) const MAX_ROOM: usize = 65_536;

/// Takes all bytes out of a buffer, and gives back what room it has beyond `MAX_ROOM`.
pub(crate) fn empty(buffer: &mut Vec<u8>)
    ensures items { buffer.new.items ≡ [] }
    ensures room { vec_capacity buffer.new ≤ MAX_ROOM }
{
    buffer.clear();
    if buffer.capacity() > MAX_ROOM {
        buffer.shrink_to_fit();
    }
}
