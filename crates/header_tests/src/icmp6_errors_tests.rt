//! About which packets an error is made: edges of types and chains that no worked row has, and
//! multicast destinations, which no node answers.

use icmp6_errors::{IcmpSlot, error_for};
use ip6_headers::Ip6View;
use srv6_rules::IcmpKind;
use std::alloc::Global;
use std::process::Abort;
use std::test::Fail;
use v6_addr::Addr;

/// The node, 2001:db8::b.
const NODE: Addr = Addr {
    value: 0x2001_0db8_0000_0000_0000_0000_0000_000b,
};

/// How long the error about a packet is, 0 where none is made.
fn answered(rt: &impl Abort, packet: &[u8], kind: IcmpKind) -> usize {
    assert!(rt; Ip6View::read(packet).is_ok());
    let mut out = IcmpSlot::new();
    error_for(packet, &kind, NODE, &mut out);
    out.len()
}

/// The packet from 2001:db8:1::1 with this payload length and next header, to a destination that
/// ends in ::1, with what stands after its header.
fn packet(alloc: Global, named: &str, to: &str, payload: &str) -> Result<Vec<u8>, Fail> {
    let from = "20010db8000100000000000000000001";
    let end = "000000000000000000000001";
    let text = format!(in alloc; "6000000000{named}40{from}{to}{end}{payload}")?;
    Ok(hex::decode(alloc, text.as_str())?)
}

/// Types below 128 and 137 aren't answered; nor is one behind options, or in a first fragment. A
/// message of no bytes, one in a later fragment and one behind options that are cut are none.
#[test]
fn messages(rt: HostRuntime) -> Result<(), Fail> {
    for (named, payload, want) in [
        ("013a", "01", 0),
        ("013a", "7f", 0),
        ("013a", "80", 89),
        ("013a", "89", 0),
        ("013a", "8a", 89),
        ("003a", "", 88),
        ("093c", "3a0001040000000001", 0),
        ("092c", "3a0000010000000103", 0),
        ("092c", "3a0000080000000103", 97),
        ("093c", "3a0101040000000001", 97),
    ] {
        let packet = packet(rt.alloc(), named, "20010db9", payload)?;
        let len = answered(&rt, packet.as_slice(), IcmpKind::TimeExceeded);
        assert_eq!(rt; len, want, "at {named} {payload}");
    }
    Ok(())
}

/// Of a multicast destination options alone are told.
#[test]
fn multicast_destinations(rt: HostRuntime) -> Result<(), Fail> {
    let packet = packet(rt.alloc(), "003b", "ff010db9", "")?;
    for (kind, want) in [
        (IcmpKind::TimeExceeded, 0),
        (IcmpKind::Parameter { code: 1, at: 40 }, 0),
        (IcmpKind::Parameter { code: 2, at: 42 }, 88),
    ] {
        assert_eq!(rt; answered(&rt, packet.as_slice(), kind), want);
    }
    Ok(())
}
