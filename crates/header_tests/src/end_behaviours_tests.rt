//! The longest chain of headers that USP takes out: their places lie on the stack, and no clause says
//! that there is room for them.

use crate::packets::{is_whole, sid};
use end_behaviours::end_step;
use endpoint_chain::EndOutcome;
use pkt_buf::PktBuf;
use srv6_rules::Behaviour;
use std::alloc::{AllocError, Global};
use std::test::Fail;

/// From 2001:db8::1 to the SID, hop limit 1, payload of 65,528 bytes, next header 43.
const HEADER: [u8; 40] = [
    0x60, 0x00, 0x00, 0x00, 0xff, 0xf8, 0x2b, 0x01, 0x20, 0x01, 0x0d, 0xb8, 0x00, 0x00, 0x00, 0x00,
    0x00, 0x00, 0x00, 0x00, 0x00, 0x00, 0x00, 0x01, 0xfc, 0x00, 0x00, 0x00, 0x00, 0x0b, 0x00, 0x0d,
    0x00, 0x00, 0x00, 0x00, 0x00, 0x00, 0x00, 0x00,
];

/// The packet with as many segment routing headers of 8 bytes as a payload has room for, none of
/// which has a segment left; the last one names UDP.
fn longest(alloc: Global) -> Result<Vec<u8>, AllocError> {
    let mut bytes = HEADER.to_vec(alloc)?;
    for _ in 0..8190u16 {
        bytes.extend_from_slice(&[0x2b, 0x00, 0x04, 0x00, 0x00, 0x00, 0x00, 0x00])?;
    }
    bytes.extend_from_slice(&[0x11, 0x00, 0x04, 0x00, 0x00, 0x00, 0x00, 0x00])?;
    Ok(bytes)
}

/// The payload length is 0 then, and the IPv6 header names the datagram.
#[test]
fn usp_takes_many_headers_out(rt: HostRuntime) -> Result<(), Fail> {
    let mut buf = PktBuf::of(longest(rt.alloc())?);
    is_whole(&rt, buf.view());
    let sid = sid(&rt, rt.alloc(), Behaviour::End, true);
    assert!(rt; sid.goes_on());
    assert_eq!(rt; end_step(&sid, &[0x11], &mut buf), EndOutcome::Local);
    assert_eq!(rt; buf.len(), 40);
    assert!(rt; buf.view()[4..7] == [0, 0, 0x11]);
    Ok(())
}
