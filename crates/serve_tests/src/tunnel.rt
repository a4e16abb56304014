//! A tunnel along a compressed list over a row of four nodes: the texts, a packet, and what becomes
//! of it, in hexadecimal.

use std::alloc::{AllocError, Global};
use test_networks::ROW;

/// A block of NEXT-CSIDs of 16 bits, and SIDs of the row: at the second node End, and End.X over
/// its first link to the third; at the last End, and End.DT6.
const SIDS: &str = r#"
[[block]]
prefix = "fcbb:bb00::/32"
kind = "next"
csid = 16

[[sid]]
node = "B"
prefix = "fcbb:bb00:2::/48"
behaviour = "End"
csid = "next"

[[sid]]
node = "B"
prefix = "fcbb:bb00:e001::/48"
behaviour = "End.X"
csid = "next"
links = ["bc1"]

[[sid]]
node = "D"
prefix = "fcbb:bb00:4::/48"
behaviour = "End"
csid = "next"

[[sid]]
node = "D"
prefix = "fcbb:bb00:f001::/48"
behaviour = "End.DT6"
title = "vpn"
table = 100
"#;

/// Over the first link from the second node to the third, and handed over at the last.
pub const INTENT: &str = r#"
headend = "A"
source = "2001:db8::a"
inner = "ipv6"
mode = "reduced"
step = [{ links = ["ab"] }, { links = ["bc1"] }, { links = ["cd"] }, { function = "vpn" }]
"#;

/// The packet, with nothing after its header: hop limit 64.
pub const PACKET: &str = "\
    6000000000003b4020010db800010000000000000000000120010db8000200000000000000000001";

/// The packet in the tunnel, as the headend sends it: its four SIDs stand in one address.
pub const IN_TUNNEL: &str = "\
    600000000028294020010db800000000000000000000000afcbbbb000002e0010004f00100000000\
    6000000000003b3f20010db800010000000000000000000120010db8000200000000000000000001";

/// What `walk` writes: the head, the frames on ab, bc1 and cd, and on ce the packet that was handed
/// over with hop limit 63.
pub const WALKED: &str = "\
    d4c3b2a1020004000000000000000000000004006500000001000000010000005000000050000000\
    600000000028294020010db800000000000000000000000afcbbbb000002e0010004f00100000000\
    6000000000003b3f20010db800010000000000000000000120010db8000200000000000000000001\
    01000000020000005000000050000000\
    600000000028293e20010db800000000000000000000000afcbbbb000004f0010000000000000000\
    6000000000003b3f20010db800010000000000000000000120010db8000200000000000000000001\
    01000000040000005000000050000000\
    600000000028293d20010db800000000000000000000000afcbbbb000004f0010000000000000000\
    6000000000003b3f20010db800010000000000000000000120010db8000200000000000000000001\
    01000000050000002800000028000000\
    6000000000003b3e20010db800010000000000000000000120010db8000200000000000000000001";

/// The line of the packet.
pub const LINE: &[u8] = b"packet 1: left ce\n";

/// The description.
pub fn row_of(alloc: Global) -> Result<String, AllocError> {
    format!(in alloc; "{ROW}{SIDS}")
}
