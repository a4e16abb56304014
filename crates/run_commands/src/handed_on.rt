//! A buffer that is handed on from packet to packet.

ghost use Rattle.std.specs.Prelude.{◌≡◌, ◌+◌, ◌<◌, ◌≤◌, IfOk, OnErr, length};
ghost use Rattle.run_commands.specs.HandedOn.{emptied, refilled, whole_len};

use base::NoMemory;
use pkt_buf::PktBuf;
use srv6_rules::numbers::MAX_PACKET_LEN;
use std::mem;

/// Takes a buffer with other bytes in it and at least so many spare in front of them; a buffer
/// without bytes is left in its place. Memory is taken, and wanting, only where the buffer has
/// fewer bytes in all, spare or not; for want of it the buffer stays, and all its bytes are spare.
pub fn refilled(buf: &mut PktBuf, spare: usize, bytes: &[u8]) -> Result<PktBuf, NoMemory>
    requires spare { spare ≤ MAX_PACKET_LEN }
    requires bytes { length bytes.now ≤ MAX_PACKET_LEN }
    ensures filled { IfOk result (λ filled. filled ≡ refilled spare bytes.now buf.old) }
    ensures err { OnErr result (buf.new ≡ emptied buf.old) }
    ensures want { OnErr result (whole_len buf.old < spare + length bytes.now) }
{
    let held = buf.len();
    buf.drop_front(held);
    buf.reserve_front(spare + bytes.len())?;
    buf.put_front(bytes);
    let none = buf.no_bytes();
    Ok(mem::replace(buf, none))
}
