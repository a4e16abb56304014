//! Why a command is refused.

ghost use Rattle.std.specs.Prelude.{◌≡◌};
ghost use Rattle.command_output.specs.Halts.{flat_refusal};

use crate::entry_name::EntryName;
use crate::node_name::NodeName;
use intent_reader::IntentFault;
use net_flatness::NotFlat;
use net_model::Net;
use pcap_io::CaptureFault;
use std::fmt;
use text_faults::{TableKind, TextFault};
use v6_addr::Prefix;

/// Why a command was refused; each has a number of its own in the line on `err`.
#[derive(Debug, Drop, PartialEq, Eq)]
pub enum Refusal {
    /// 2: a file or the input has more than `limit` bytes.
    TooBig {
        /// The limit, in bytes.
        limit: usize,
    },
    /// 11, 13 to 15 and 17: the input is no capture, or has too many frames.
    Capture(CaptureFault),
    /// 16: the capture ends within a frame.
    CutFrame {
        /// The frame's number, from 1.
        frame: u32,
    },
    /// 21 to 32: the description gives no network; the first fault.
    Net(TextFault),
    /// 33 to 38 and 46: the intent's text gives no intent in the network; the first fault.
    Intent(IntentFault),
    /// 39: no node has the name.
    BadNode,
    /// 40: the text is no trace of the network.
    BadTrace {
        /// The first bad line, counted from 1; where a line feed is missing, the line that lacks
        /// it, and where `end` is missing, the line after the last.
        line: u32,
    },
    /// 41: an entry's prefix lies strictly inside a SID's, and it is no SID nested in that one.
    Nested {
        /// The SID's prefix.
        outer: Prefix,
        /// The prefix inside.
        inner: Prefix,
    },
    /// 42: the bits of a SID after its block's are all 0.
    ZeroCsid {
        /// The SID's prefix.
        prefix: Prefix,
    },
    /// 43: a SID overlaps a block and is no longer than it, or has a length that SIDs of the block
    /// do not have.
    MixedBlock {
        /// The block's prefix.
        block: Prefix,
        /// The SID's prefix.
        prefix: Prefix,
    },
    /// 44: SIDs of two nodes on one prefix, both of which make the next segment the destination,
    /// are compressed in two ways.
    Clash {
        /// The SIDs' prefix.
        prefix: Prefix,
        /// The name of the node of the SID that comes first in the description.
        first: NodeName,
        /// The name of the other's node.
        second: NodeName,
    },
    /// 45: the certificate's text gives none over the legs of the intent.
    BadCert {
        /// The first line that is outside the grammar or names no state, counted from 1; where
        /// there is none and the text ends too early, the line after the last.
        line: u32,
    },
    /// 47: an entry of an old description and one of a new one cannot both be there.
    Conflict {
        /// The entry of the old description.
        before: EntryName,
        /// The entry of the new one.
        after: EntryName,
    },
    /// 48: an item of two descriptions is not equal in both.
    Differs {
        /// Its table.
        table: TableKind,
        /// Its place in the table, counted from 1.
        item: u32,
    },
    /// 49: a block of a pcapng file has a length that doesn't fit.
    NgBlock {
        /// The block's number, from 1 on over all sections.
        block: u32,
    },
    /// 50: the magic of a section of a pcapng file reads 1a2b3c4d in neither byte order.
    NgMagic {
        /// The block's number, from 1 on over all sections.
        block: u32,
    },
    /// 51: the major version of a section of a pcapng file is not 1.
    NgVersion {
        /// The block's number, from 1 on over all sections.
        block: u32,
    },
    /// 52: the interface of a packet of a pcapng file is not described.
    NgInterface {
        /// The block's number, from 1 on over all sections.
        block: u32,
    },
    /// 53: a pcapng file ends within a block.
    NgCut {
        /// The block's number, from 1 on over all sections.
        block: u32,
    },
    /// 54: a pcapng file has an obsolete packet block.
    NgOldBlock {
        /// The block's number, from 1 on over all sections.
        block: u32,
    },
}

/// The refusal of a network that is not flat.
pub fn refusal_of_not_flat(net: &Net, why: &NotFlat) -> Refusal
    ensures { result ≡ flat_refusal net.now why.now }
{
    match *why {
        NotFlat::Nested { outer, inner } => Refusal::Nested { outer, inner },
        NotFlat::ZeroCsid { prefix } => Refusal::ZeroCsid { prefix },
        NotFlat::MixedBlock { block, prefix } => Refusal::MixedBlock { block, prefix },
        NotFlat::Clash {
            prefix,
            first,
            second,
        } => Refusal::Clash {
            prefix,
            first: NodeName::of_node(net, first),
            second: NodeName::of_node(net, second),
        },
    }
}

/// The refusal's number, its name, and its fields.
impl fmt::Display for Refusal {
    ghost use Rattle.std.specs.Prelude.{Some};
    ghost use Rattle.command_output.specs.OutputLines.{refusal_text};

    ghost output = { λ refusal. Some (refusal_text refusal) };

    #[tactic(auto, unfolding(crate::specs::OutputLines::refusal_text, crate::specs::OutputLines::capture_text))]
    fn fmt<W: fmt::Write>(&self, f: &mut fmt::Formatter<W>) -> fmt::Result {
        match self {
            Refusal::TooBig { limit } => write!(f, "refused 2 TooBig {limit}"),
            Refusal::Capture(CaptureFault::BadMagic) => write!(f, "refused 11 BadMagic"),
            Refusal::Capture(CaptureFault::PcapNg) => write!(f, "refused 12 PcapNg"),
            Refusal::Capture(CaptureFault::BadVersion) => write!(f, "refused 13 BadVersion"),
            Refusal::Capture(CaptureFault::BadLink { link }) => {
                write!(f, "refused 14 BadLink {link}")
            }
            Refusal::Capture(CaptureFault::CutHead) => write!(f, "refused 15 CutHead"),
            Refusal::Capture(CaptureFault::FrameLimit) => write!(f, "refused 17 FrameLimit"),
            Refusal::CutFrame { frame } => write!(f, "refused 16 CutFrame {frame}"),
            Refusal::Net(fault) => {
                let number = fault.kind.number();
                write!(f, "refused {number} {fault}")
            }
            Refusal::Intent(fault) => {
                let number = fault.number();
                write!(f, "refused {number} {fault}")
            }
            Refusal::BadNode => write!(f, "refused 39 BadNode"),
            Refusal::BadTrace { line } => write!(f, "refused 40 BadTrace {line}"),
            Refusal::Nested { outer, inner } => write!(f, "refused 41 Nested {outer} {inner}"),
            Refusal::ZeroCsid { prefix } => write!(f, "refused 42 ZeroCsid {prefix}"),
            Refusal::MixedBlock { block, prefix } => {
                write!(f, "refused 43 MixedBlock {block} {prefix}")
            }
            Refusal::Clash {
                prefix,
                first,
                second,
            } => write!(f, "refused 44 Clash {prefix} {first} {second}"),
            Refusal::BadCert { line } => write!(f, "refused 45 BadCert {line}"),
            Refusal::Conflict { before, after } => {
                write!(f, "refused 47 Conflict {before} {after}")
            }
            Refusal::Differs { table, item } => write!(f, "refused 48 Differs {table} {item}"),
            Refusal::NgBlock { block } => write!(f, "refused 49 NgBlock {block}"),
            Refusal::NgMagic { block } => write!(f, "refused 50 NgMagic {block}"),
            Refusal::NgVersion { block } => write!(f, "refused 51 NgVersion {block}"),
            Refusal::NgInterface { block } => write!(f, "refused 52 NgInterface {block}"),
            Refusal::NgCut { block } => write!(f, "refused 53 NgCut {block}"),
            Refusal::NgOldBlock { block } => write!(f, "refused 54 NgOldBlock {block}"),
        }
    }
}
