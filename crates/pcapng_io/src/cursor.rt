//! Where a reader stands in its input.

ghost use Rattle.std.specs.Prelude.{◌≡◌, length, take, OnOk};
ghost use Rattle.pcapng_io.specs.Passing.{Lies, IsRoom, Passes, PassesTo, TakesOver};

use crate::fault::NgFault;
use crate::ng_block::{BlockContent, BlockPacket, Interface, WholeBlock, block_at, body_of};
use base::NoMemory;
use pcap_io::{Frame, MAX_FRAMES};
use std::alloc::Global;

/// Where a reader stands in its input, with what the blocks before say to those after.
#[derive(Clone, Copy, Debug)]
pub(crate) struct NgCursor {
    /// The bytes of the input that blocks have taken.
    pub(crate) at: usize,
    /// Whether the lowest byte of each number of the section comes first.
    pub(crate) little: bool,
    /// How many interfaces were described before the section.
    pub(crate) first: usize,
    /// How many blocks were passed, over all sections.
    pub(crate) blocks: u32,
    /// How many packets were passed, over all sections.
    pub(crate) packets: u32,
}

/// A packet block at a cursor.
#[derive(Clone, Copy, Debug)]
pub(crate) struct PacketBlock {
    /// The block's length in bytes.
    pub(crate) total: usize,
    /// The packet in it.
    pub(crate) packet: BlockPacket,
}

/// Passes a block that stands at the cursor.
fn pass(
    cursor: &mut NgCursor,
    described: &mut Vec<Interface>,
    whole: WholeBlock,
) -> Result<(), NoMemory>
    requires { IsRoom cursor.old described.old.items whole }
    ensures kept { take (length described.old.items) described.new.items ≡ described.old.items }
    ensures ok { OnOk result
        (Passes cursor.old cursor.new described.old.items described.new.items whole) }
{
    let WholeBlock { total, block } = whole;
    cursor.at += total;
    cursor.blocks += 1;
    match block {
        BlockContent::Section { little } => {
            cursor.little = little;
            cursor.first = described.len();
        }
        BlockContent::Interface(interface) => described.push(interface)?,
        BlockContent::Packet(_) => cursor.packets += 1,
        BlockContent::Skipped => {}
    }
    Ok(())
}

/// Passes whole blocks up to the next packet, and gives its block. `None` comes exactly where no
/// whole block is left.
fn next_packet(
    cursor: &mut NgCursor,
    described: &mut Vec<Interface>,
    input: &[u8],
) -> Result<Option<PacketBlock>, NgFault>
    requires { Lies cursor.old described.old.items input.now }
    ensures kept { take (length described.old.items) described.new.items ≡ described.old.items }
    ensures passed { PassesTo input.now cursor.old cursor.new described.old.items
        described.new.items result }
{
    'each: loop {
        let interfaces = described.as_slice().split_at(cursor.first).1;
        let rest = input.split_at(cursor.at).1;
        let whole = match block_at(cursor.little, interfaces, rest) {
            Ok(Some(whole)) => whole,
            Ok(None) => return Ok(None),
            Err(fault) => return Err(fault.of_block(cursor.blocks + 1)),
        };
        if let BlockContent::Packet(packet) = whole.block {
            let total = whole.total;
            return Ok(Some(PacketBlock { total, packet }));
        }
        pass(cursor, described, whole)?;
    }
}

/// Passes whole blocks up to the next packet and that packet's block, and gives its frame.
pub(crate) fn next_frame(
    alloc: Global,
    cursor: &mut NgCursor,
    described: &mut Vec<Interface>,
    input: &[u8],
) -> Result<Option<Frame>, NgFault>
    requires { Lies cursor.old described.old.items input.now }
    ensures kept { take (length described.old.items) described.new.items ≡ described.old.items }
    ensures passed { TakesOver input.now cursor.old cursor.new described.old.items
        described.new.items result }
{
    let Some(PacketBlock { total, packet }) = next_packet(cursor, described, input)? else {
        return Ok(None);
    };
    if cursor.packets == MAX_FRAMES {
        return Err(NgFault::FrameLimit);
    }
    let block = input.split_at(cursor.at).1.split_at(total).0;
    let body = body_of(alloc, packet, block)?;
    cursor.at += total;
    cursor.blocks += 1;
    cursor.packets += 1;
    Ok(Some(Frame {
        number: cursor.packets,
        body,
    }))
}
