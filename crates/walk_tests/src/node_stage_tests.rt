//! What one stage at a node makes of packets that were laid out by hand; whole walks are rows of
//! the program.

ghost use Rattle.std.specs.Prelude.{◌≡◌, length};

use base::NoMemory;
use icmp6_errors::IcmpSlot;
use net_model::Net;
use net_reader::read_net;
use node_stage::{Content, stage};
use srv6_rules::Family::{V4, V6};
use srv6_rules::{Family, Reason};
use std::alloc::{AllocError, Global};
use std::process::Abort;
use std::test::Fail;
use walk_rules::{How, Outcome, arrival};

/// A and B, and a link out of the network from B, over which IPv4 goes; blocks of both kinds, and
/// policies of two segments and of one. A SID at B stands after it.
const NET: &str = r#"
node = [{ name = "A", address = "::1" }, { name = "B", address = "::2" }]
link = [{ name = "ab", from = "A", to = "B" }, { name = "out", from = "B" }]
route = [{ node = "B", prefix = "10.0.0.0/8", via = ["out"] }]
block = [
    { prefix = "fc00:b::/32", kind = "next", csid = 16 },
    { prefix = "fc00:c::/32", kind = "replace", csid = 16 },
]
policy = [
    { name = "two", source = "::2", segments = ["::3", "::4"] },
    { name = "one", source = "::2", segments = ["::3"] },
]
[[sid]]
node = "B"
"#;

/// From 2001:db8::1 to fc00:b:1::1, hop limit 63, payload of 80 bytes; the same at the second
/// segment, hop limit 62, and with hop limit 1.
const HEADER: &str = "6000000000502b3f\
    20010db8000000000000000000000001fc00000b000100000000000000000001";

const STEPPED: &str = "6000000000502b3e\
    20010db8000000000000000000000001fc00000b000200000000000000000000";

const LAST_HOP: &str = "6000000000502b01\
    20010db8000000000000000000000001fc00000b000100000000000000000001";

/// Segments Left 1 of the segment list fc00:b:2::, fc00:b:1::1, and Segments Left 0.
const ONE_LEFT: &str = "2904040101000000\
    fc00000b000200000000000000000000fc00000b000100000000000000000001";

const NONE_LEFT: &str = "2904040001000000\
    fc00000b000200000000000000000000fc00000b000100000000000000000001";

/// The header at the second segment, with a payload of 40 bytes and next header 41.
const STEPPED_ALONE: &str = "600000000028293e\
    20010db8000000000000000000000001fc00000b000200000000000000000000";

/// The first header with a payload of 24 bytes and next header 4.
const ROUND_IPV4: &str = "600000000018043f\
    20010db8000000000000000000000001fc00000b000100000000000000000001";

/// Inside: from 2001:db8::1 to 2001:db8::2, hop limit 2, no payload.
const INSIDE: &str = "6000000000003b02\
    20010db800000000000000000000000120010db8000000000000000000000002";

/// IPv4 from 10.0.0.1 to 10.0.0.2, UDP, TTL 64, payload of 4 bytes; the same with TTL 63 and 1.
const IPV4: &str = "4500001800010000401166d20a0000010a000002deadbeef";

const IPV4_LOWERED: &str = "45000018000100003f1167d20a0000010a000002deadbeef";

const IPV4_LAST: &str = "45000018000100000111a5d20a0000010a000002deadbeef";

/// To fc00:b:1:2::, no payload; to fc00:b:2::, its hop limit lowered.
const CARRIER: &str = "6000000000003b3f\
    20010db8000000000000000000000001fc00000b000100020000000000000000";

const SHIFTED: &str = "6000000000003b3e\
    20010db8000000000000000000000001fc00000b000200000000000000000000";

/// To fc00:c:1::7, Segments Left 0 of one entry of CSIDs of 16 bits: at index 7 that of the
/// destination, at index 6 0x0002, and none after it. The same to fc00:c:2::6.
const CONTAINER: &str = "6000000000182b3f\
    20010db8000000000000000000000001fc00000c000100000000000000000007";

const WRITTEN: &str = "6000000000182b3e\
    20010db8000000000000000000000001fc00000c000200000000000000000006";

const ENTRY: &str = "3b0204000000000000000000000000000000000000020001";

/// The policy of two segments in the full form, in front of 120 bytes: to ::3, 160 bytes of
/// payload, next header 43; then next header 41, 4 units, Segments Left 1, Last Entry 1, ::4 and
/// ::3.
const FULL: &str = "6000000000a02b40\
    0000000000000000000000000000000200000000000000000000000000000003\
    2904040101000000\
    0000000000000000000000000000000400000000000000000000000000000003";

/// The same in the reduced form: 144 bytes of payload; 2 units, Last Entry 0, and ::4 alone.
const REDUCED: &str = "6000000000902b40\
    0000000000000000000000000000000200000000000000000000000000000003\
    2902040100000000\
    00000000000000000000000000000004";

/// The policy of one segment in the reduced form: next header 41, no segment routing header.
const BARE: &str = "6000000000782940\
    0000000000000000000000000000000200000000000000000000000000000003";

/// B's SID is executed, and the packet is looked up in table 0 or 5.
const AGAIN: Outcome = Outcome::Again {
    sid: 0,
    how: How::Submitted { table: 0 },
};

const AGAIN_IN_5: Outcome = Outcome::Again {
    sid: 0,
    how: How::Submitted { table: 5 },
};

/// B's SID exposes the packet inside, which arrives in table 0 or 5.
const EXPOSED: Outcome = Outcome::Hand {
    sid: 0,
    how: How::Arrived { table: 0 },
    family: V6,
};

const EXPOSED_IN_5: Outcome = Outcome::Hand {
    sid: 0,
    how: How::Arrived { table: 5 },
    family: V6,
};

const IPV4_EXPOSED: Outcome = Outcome::Hand {
    sid: 0,
    how: How::Arrived { table: 5 },
    family: V4,
};

/// The packet leaves, or is dropped.
const LEFT: Outcome = Outcome::Send { link: 1 };

const NO_ROUTE: Outcome = Outcome::Drop {
    reason: Reason::NoRoute,
    error: true,
};

const HOP_LIMIT: Outcome = Outcome::Drop {
    reason: Reason::HopLimit,
    error: true,
};

const TTL: Outcome = Outcome::Drop {
    reason: Reason::Ttl,
    error: false,
};

/// An End without flavours.
const END: &str = "prefix = \"fc00:b:1::/48\"\nbehaviour = \"End\"";

/// B's SID, a packet's family, the parts of the packet, what comes of it, and the parts of it after
/// that.
const STAGES: &[(&str, Family, &[&str], Outcome, &[&str])] = &[
    // what stood after the packet's end is gone
    (
        END,
        V6,
        &[HEADER, ONE_LEFT, INSIDE, "01"],
        AGAIN,
        &[STEPPED, NONE_LEFT, INSIDE],
    ),
    (
        "prefix = \"fc00:b:1::/48\"\nbehaviour = \"End.T\"\ntable = 5\nflavours = [\"psp\"]",
        V6,
        &[HEADER, ONE_LEFT, INSIDE],
        AGAIN_IN_5,
        &[STEPPED_ALONE, INSIDE],
    ),
    (
        "prefix = \"fc00:b:1::/48\"\nbehaviour = \"End\"\nflavours = [\"usd\"]",
        V6,
        &[HEADER, NONE_LEFT, INSIDE],
        EXPOSED,
        &[INSIDE],
    ),
    (
        "prefix = \"fc00:b:1::/48\"\nbehaviour = \"End.DT46\"\ntable = 5",
        V6,
        &[HEADER, NONE_LEFT, INSIDE],
        EXPOSED_IN_5,
        &[INSIDE],
    ),
    (
        "prefix = \"fc00:b:1::/48\"\nbehaviour = \"End.DT46\"\ntable = 5",
        V6,
        &[ROUND_IPV4, IPV4],
        IPV4_EXPOSED,
        &[IPV4],
    ),
    (
        "prefix = \"fc00:b:1::/48\"\nbehaviour = \"End\"\ncsid = \"next\"",
        V6,
        &[CARRIER],
        AGAIN,
        &[SHIFTED],
    ),
    (
        "prefix = \"fc00:c:1::/48\"\nbehaviour = \"End\"\ncsid = \"replace\"",
        V6,
        &[CONTAINER, ENTRY],
        AGAIN,
        &[WRITTEN, ENTRY],
    ),
    // End.B6.Encaps puts the full form in front, End.B6.Encaps.Red the reduced form
    (
        "prefix = \"fc00:b:1::/48\"\nbehaviour = \"End.B6.Encaps\"\npolicy = \"two\"",
        V6,
        &[HEADER, ONE_LEFT, INSIDE],
        AGAIN,
        &[FULL, STEPPED, NONE_LEFT, INSIDE],
    ),
    (
        "prefix = \"fc00:b:1::/48\"\nbehaviour = \"End.B6.Encaps.Red\"\npolicy = \"two\"",
        V6,
        &[HEADER, ONE_LEFT, INSIDE],
        AGAIN,
        &[REDUCED, STEPPED, NONE_LEFT, INSIDE],
    ),
    (
        "prefix = \"fc00:b:1::/48\"\nbehaviour = \"End.B6.Encaps.Red\"\npolicy = \"one\"",
        V6,
        &[HEADER, ONE_LEFT, INSIDE],
        AGAIN,
        &[BARE, STEPPED, NONE_LEFT, INSIDE],
    ),
    // what is dropped stays as it came
    (
        "prefix = \"fc00:b:1::/48\"\nbehaviour = \"End.B6.Encaps.Red\"\npolicy = \"one\"",
        V6,
        &[LAST_HOP, ONE_LEFT, INSIDE],
        HOP_LIMIT,
        &[LAST_HOP, ONE_LEFT, INSIDE],
    ),
    (END, V6, &[INSIDE], NO_ROUTE, &[INSIDE]),
    (END, V4, &[IPV4_LAST], TTL, &[IPV4_LAST]),
    (END, V4, &[IPV4], LEFT, &[IPV4_LOWERED]),
];

/// The bytes of parts in hexadecimal.
fn bytes_of(alloc: Global, parts: &[&str]) -> Result<Vec<u8>, Fail> {
    let mut bytes = Vec::new(alloc);
    for part in parts {
        let more = hex::decode(alloc, part)?;
        bytes.extend_from_slice(more.as_slice())?;
    }
    Ok(bytes)
}

/// The network with a SID at B.
fn net_with(rt: &impl Abort, alloc: Global, sid: &str) -> Result<Net, AllocError> {
    let text = format!(in alloc; "{NET}{sid}")?;
    Ok(
        read_net(alloc, text.as_bytes())
            .ok()
            .expect(rt, "a network"),
    )
}

/// What comes at B of bytes that arrived in table 0, and the bytes after it.
fn stage_at_b(
    alloc: Global,
    net: &Net,
    family: Family,
    bytes: Vec<u8>,
    after: &[u8],
) -> Result<(Outcome, bool), NoMemory>
    requires { length net.now.nodes ≡ 2 }
{
    let mut content = Content::enter(family, bytes);
    let place = arrival(1, family);
    let outcome = stage(alloc, net, &place, &mut content, 0, &mut IcmpSlot::new())?;
    Ok((outcome, content.bytes() == after))
}

#[test]
fn stages_are_as_laid_out_by_hand(rt: HostRuntime) -> Result<(), Fail> {
    for (sid, family, packet, outcome, after) in STAGES {
        let net = net_with(&rt, rt.alloc(), sid)?;
        assert!(rt; net.nodes() == 2);
        let bytes = bytes_of(rt.alloc(), packet)?;
        let wanted = bytes_of(rt.alloc(), after)?;
        let came = stage_at_b(rt.alloc(), &net, *family, bytes, wanted.as_slice())?;
        assert!(rt; came.0 == *outcome && came.1, "{sid}");
    }
    Ok(())
}
