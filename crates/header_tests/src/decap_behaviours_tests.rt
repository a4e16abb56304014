//! Which packets each behaviour that decapsulates exposes (RFC 8986 sections 4.4 to 4.8).

use crate::packets::{is_whole, sid};
use decap_behaviours::decap_step;
use endpoint_chain::EndOutcome;
use pkt_buf::PktBuf;
use srv6_rules::{Behaviour, Family};
use std::alloc::Global;
use std::process::Abort;
use std::test::Fail;

/// From 2001:db8::1 to the SID, hop limit 1, in front of 4 bytes, which aren't judged; the header's
/// next header is filled in.
const PACKET: [u8; 44] = [
    0x60, 0x00, 0x00, 0x00, 0x00, 0x04, 0x00, 0x01, 0x20, 0x01, 0x0d, 0xb8, 0x00, 0x00, 0x00, 0x00,
    0x00, 0x00, 0x00, 0x00, 0x00, 0x00, 0x00, 0x01, 0xfc, 0x00, 0x00, 0x00, 0x00, 0x0b, 0x00, 0x0d,
    0x00, 0x00, 0x00, 0x00, 0x00, 0x00, 0x00, 0x00, 0x01, 0x02, 0x03, 0x04,
];

/// As what a packet of this next header leaves the SID, and in how many bytes.
fn exposed(
    rt: &impl Abort,
    alloc: Global,
    behaviour: Behaviour,
    next_header: u8,
) -> Result<(Option<Family>, usize), Fail> {
    let mut bytes = PACKET;
    bytes[6] = next_header;
    let mut buf = PktBuf::of(bytes.to_vec(alloc)?);
    is_whole(rt, buf.view());
    let sid = sid(rt, alloc, behaviour, false);
    assert!(rt; !sid.goes_on());
    let family = match decap_step(&sid, &[58], &mut buf) {
        EndOutcome::Hand { family } => Some(family),
        EndOutcome::On | EndOutcome::Local | EndOutcome::Drop { .. } => None,
    };
    Ok((family, buf.len()))
}

#[test]
fn each_exposes_its_families(rt: HostRuntime) -> Result<(), Fail> {
    let none = (None, 44);
    let v6 = (Some(Family::V6), 4);
    let v4 = (Some(Family::V4), 4);
    for (behaviour, six, four) in [
        (Behaviour::Dx6, v6, none),
        (Behaviour::Dx4, none, v4),
        (Behaviour::Dt6 { table: 1 }, v6, none),
        (Behaviour::Dt4 { table: 1 }, none, v4),
        (Behaviour::Dt46 { table: 1 }, v6, v4),
    ] {
        assert_eq!(rt; exposed(&rt, rt.alloc(), behaviour, 41)?, six);
        assert_eq!(rt; exposed(&rt, rt.alloc(), behaviour, 4)?, four);
        assert_eq!(rt; exposed(&rt, rt.alloc(), behaviour, 59)?, none);
    }
    Ok(())
}
