//! The blocks of a pcapng file.

ghost use Rattle.std.specs.Prelude.{◌≡◌, ◌+◌, ◌≤◌, length, IfOk};
ghost use Rattle.pcapng_io.specs.Blocks.{order_of, type_of, least_of, has_form, filled, link_in, section_in, interface_in, kept, packet_of, enhanced_in, simple_of, held, formed, whole_at, block_at, body_of};

use crate::fault::BlockFault;
use crate::numbers::{
    ENHANCED_PACKET, ENHANCED_START, INTERFACE, MAJOR, MIN_BLOCK, MIN_ENHANCED, MIN_INTERFACE,
    MIN_SECTION, MIN_SIMPLE, OLD_PACKET, ORDER_MAGIC, SECTION, SIMPLE_PACKET, SIMPLE_START,
};
use base::NoMemory;
use pcap_io::{Body, LinkType, four_at, link_of, packet_in, two_at};
use std::alloc::Global;

/// The types of blocks that are told apart.
#[derive(Clone, Copy, Debug, PartialEq, Eq)]
pub(crate) enum BlockType {
    /// A section header block: what follows it has its byte order, up to the next one.
    Section,
    /// An interface description block.
    Interface,
    /// An enhanced packet block.
    EnhancedPacket,
    /// A simple packet block.
    SimplePacket,
    /// The obsolete packet block.
    OldPacket,
    /// Any other, which is skipped.
    Other,
}

/// What an interface description says of its packets.
#[derive(Clone, Copy, Debug)]
pub(crate) struct Interface {
    /// What its frames hold; `None` where its link type is not one that is read.
    pub(crate) link: Option<LinkType>,
    /// The most bytes that are kept of a packet; 0 keeps all.
    pub(crate) snaplen: u32,
}

/// Where a packet lies in its block, in bytes from the block's first.
#[derive(Clone, Copy, Debug)]
pub(crate) struct BlockPacket {
    /// The link type of its interface.
    pub(crate) link: Option<LinkType>,
    /// Where its bytes begin.
    pub(crate) start: usize,
    /// How many of its bytes are there.
    pub(crate) captured: usize,
    /// How many it had on its link.
    pub(crate) original: usize,
}

/// What a whole block says.
#[derive(Clone, Copy, Debug)]
pub(crate) enum BlockContent {
    /// A section begins.
    Section {
        /// Whether the lowest byte of each number comes first.
        little: bool,
    },
    /// A further interface of the section.
    Interface(Interface),
    /// A packet.
    Packet(BlockPacket),
    /// Something that is not looked at.
    Skipped,
}

/// A whole block at the front of bytes.
#[derive(Clone, Copy, Debug)]
pub(crate) struct WholeBlock {
    /// Its length in bytes.
    pub(crate) total: usize,
    /// What it says.
    pub(crate) block: BlockContent,
}

/// The byte order in which the magic of a section reads as it should.
#[tactic(auto, unfolding(crate::specs::Blocks::order_of))]
fn order_of(bytes: &[u8]) -> Option<bool>
    requires { MIN_BLOCK ≤ length bytes.now }
    ensures { result ≡ order_of bytes.now }
{
    if four_at(true, bytes, 8) == ORDER_MAGIC {
        Some(true)
    } else if four_at(false, bytes, 8) == ORDER_MAGIC {
        Some(false)
    } else {
        None
    }
}

/// The type of a number.
#[tactic(auto, unfolding(crate::specs::Blocks::type_of))]
fn type_of(number: u32) -> BlockType
    ensures { result ≡ type_of number }
{
    if number == SECTION {
        BlockType::Section
    } else if number == INTERFACE {
        BlockType::Interface
    } else if number == ENHANCED_PACKET {
        BlockType::EnhancedPacket
    } else if number == SIMPLE_PACKET {
        BlockType::SimplePacket
    } else if number == OLD_PACKET {
        BlockType::OldPacket
    } else {
        BlockType::Other
    }
}

/// The fewest bytes of a block of a type.
fn least_of(kind: BlockType) -> usize
    ensures least { result ≡ least_of kind }
    ensures some { MIN_BLOCK ≤ result }
{
    match kind {
        BlockType::Section => MIN_SECTION,
        BlockType::Interface => MIN_INTERFACE,
        BlockType::EnhancedPacket => MIN_ENHANCED,
        BlockType::SimplePacket => MIN_SIMPLE,
        BlockType::OldPacket | BlockType::Other => MIN_BLOCK,
    }
}

/// Whether a block's length is a multiple of 4, no less than the least, and stands at its end too.
#[tactic(auto, unfolding(crate::specs::Blocks::has_form))]
fn has_form(little: bool, least: usize, block: &[u8]) -> bool
    requires { MIN_BLOCK ≤ least }
    ensures { result ≡ has_form little least block.now }
{
    let len = block.len();
    len % 4 == 0 && least <= len && four_at(little, block, len - 4) as usize == len
}

/// A length filled up to a multiple of 4.
fn filled(len: u32) -> usize
    ensures { result ≡ filled len }
{
    (len as usize + 3) / 4 * 4
}

/// The link type of a number, where it is one that is read.
fn link_in(number: u16) -> Option<LinkType>
    ensures { result ≡ link_in number }
{
    match link_of(number as u32) {
        Ok(link) => Some(link),
        Err(_) => None,
    }
}

/// What a section says.
#[tactic(auto, unfolding(crate::specs::Blocks::section_in))]
fn section_in(little: bool, block: &[u8]) -> Result<BlockContent, BlockFault>
    requires { MIN_SECTION ≤ length block.now }
    ensures { result ≡ section_in little block.now }
{
    if two_at(little, block, 12) == MAJOR {
        Ok(BlockContent::Section { little })
    } else {
        Err(BlockFault::Version)
    }
}

/// What an interface description says.
#[tactic(auto, unfolding(crate::specs::Blocks::interface_in))]
fn interface_in(little: bool, block: &[u8]) -> Interface
    requires { MIN_INTERFACE ≤ length block.now }
    ensures { result ≡ interface_in little block.now }
{
    Interface {
        link: link_in(two_at(little, block, 8)),
        snaplen: four_at(little, block, 12),
    }
}

/// The packet of an enhanced packet block.
#[tactic(auto, unfolding(crate::specs::Blocks::enhanced_in))]
fn enhanced_in(
    little: bool,
    interfaces: &[Interface],
    block: &[u8],
) -> Result<BlockContent, BlockFault>
    requires { MIN_ENHANCED ≤ length block.now }
    ensures { result ≡ enhanced_in little interfaces.now block.now }
{
    let captured = four_at(little, block, 20);
    if MIN_ENHANCED + filled(captured) > block.len() {
        return Err(BlockFault::Form);
    }
    let Some(interface) = interfaces.get(four_at(little, block, 8) as usize) else {
        return Err(BlockFault::Interface);
    };
    Ok(BlockContent::Packet(BlockPacket {
        link: interface.link,
        start: ENHANCED_START,
        captured: captured as usize,
        original: four_at(little, block, 24) as usize,
    }))
}

/// How many bytes of a packet an interface keeps.
fn kept(snaplen: u32, original: u32) -> u32
    ensures { result ≡ kept snaplen original }
{
    if snaplen == 0 {
        original
    } else {
        original.min(snaplen)
    }
}

/// The packet of a simple packet block, which is of interface 0.
#[tactic(auto, unfolding(crate::specs::Blocks::simple_of))]
fn simple_of(
    interface: Option<Interface>,
    original: u32,
    block: &[u8],
) -> Result<BlockContent, BlockFault>
    ensures { result ≡ simple_of interface original block.now }
{
    let Some(interface) = interface else {
        return Err(BlockFault::Interface);
    };
    let captured = kept(interface.snaplen, original);
    if MIN_SIMPLE + filled(captured) > block.len() {
        return Err(BlockFault::Form);
    }
    Ok(BlockContent::Packet(BlockPacket {
        link: interface.link,
        start: SIMPLE_START,
        captured: captured as usize,
        original: original as usize,
    }))
}

/// What a block of good form holds.
fn held(
    little: bool,
    interfaces: &[Interface],
    kind: BlockType,
    block: &[u8],
) -> Result<BlockContent, BlockFault>
    requires { least_of kind ≤ length block.now }
    ensures { result ≡ held little interfaces.now kind block.now }
{
    match kind {
        BlockType::Section => section_in(little, block),
        BlockType::Interface => Ok(BlockContent::Interface(interface_in(little, block))),
        BlockType::EnhancedPacket => enhanced_in(little, interfaces, block),
        BlockType::SimplePacket => {
            simple_of(
                interfaces.first().copied(),
                four_at(little, block, 8),
                block,
            )
        }
        BlockType::OldPacket => Err(BlockFault::OldBlock),
        BlockType::Other => Ok(BlockContent::Skipped),
    }
}

/// What a block of a type holds, with its length.
#[tactic(auto, unfolding(crate::specs::Blocks::formed))]
fn formed(
    little: bool,
    interfaces: &[Interface],
    kind: BlockType,
    block: &[u8],
) -> Result<Option<WholeBlock>, BlockFault>
    ensures { result ≡ formed little interfaces.now kind block.now }
{
    if has_form(little, least_of(kind), block) {
        let held = held(little, interfaces, kind, block)?;
        Ok(Some(WholeBlock {
            total: block.len(),
            block: held,
        }))
    } else {
        Err(BlockFault::Form)
    }
}

/// The block of a type at the front of bytes; `None` where it is cut.
#[tactic(auto, unfolding(crate::specs::Blocks::whole_at))]
fn whole_at(
    little: bool,
    interfaces: &[Interface],
    kind: BlockType,
    bytes: &[u8],
) -> Result<Option<WholeBlock>, BlockFault>
    requires { MIN_BLOCK ≤ length bytes.now }
    ensures { result ≡ whole_at little interfaces.now kind bytes.now }
{
    let total = four_at(little, bytes, 4) as usize;
    if bytes.len() < total {
        return Ok(None);
    }
    formed(little, interfaces, kind, bytes.split_at(total).0)
}

/// The block at the front of bytes, in a section of this byte order and with these interfaces so
/// far; `None` where it is cut.
#[tactic(auto, unfolding(crate::specs::Blocks::block_at))]
pub(crate) fn block_at(
    little: bool,
    interfaces: &[Interface],
    bytes: &[u8],
) -> Result<Option<WholeBlock>, BlockFault>
    ensures { result ≡ block_at little interfaces.now bytes.now }
{
    if bytes.len() < MIN_BLOCK {
        return Ok(None);
    }
    if four_at(false, bytes, 0) != SECTION {
        let kind = type_of(four_at(little, bytes, 0));
        return whole_at(little, interfaces, kind, bytes);
    }
    let Some(little) = order_of(bytes) else {
        return Err(BlockFault::Magic);
    };
    whole_at(little, &[], BlockType::Section, bytes)
}

/// What the packet in a block is.
#[tactic(auto, unfolding(crate::specs::Blocks::body_of))]
pub(crate) fn body_of(alloc: Global, packet: BlockPacket, block: &[u8]) -> Result<Body, NoMemory>
    requires { packet.start + packet.captured ≤ length block.now }
    ensures { IfOk result (λ body. body ≡ body_of packet block.now) }
{
    if packet.captured < packet.original {
        return Ok(Body::ShortFrame);
    }
    let captured = block.split_at(packet.start).1.split_at(packet.captured).0;
    match packet.link {
        Some(link) => packet_in(alloc, link, captured),
        None => Ok(Body::NotIp),
    }
}
