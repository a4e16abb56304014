//! The lengths of the greatest texts, and the first packet; the smallest texts are rows of the
//! program.

use net_generator::{Size, write_intent, write_net, write_packet};
use std::alloc::Global;
use std::process::Abort;
use std::test::Fail;

/// From 2001:db8:1::1 to 2001:db8:2::1, hop limit 64, next header 59 and one byte of payload.
const PACKET: &[u8] = &[
    0x60, 0x00, 0x00, 0x00, 0x00, 0x01, 0x3b, 0x40, 0x20, 0x01, 0x0d, 0xb8, 0x00, 0x01, 0x00, 0x00,
    0x00, 0x00, 0x00, 0x00, 0x00, 0x00, 0x00, 0x01, 0x20, 0x01, 0x0d, 0xb8, 0x00, 0x02, 0x00, 0x00,
    0x00, 0x00, 0x00, 0x00, 0x00, 0x00, 0x00, 0x01, 0x00,
];

#[test]
fn the_greatest_texts_and_the_first_packet(rt: HostRuntime) -> Result<(), Fail> {
    let size = Size::new(47).expect(&rt, "a size");
    let mut out = Vec::new(rt.alloc());
    write_net(rt.alloc(), size, &mut out)?;
    assert!(rt; out.len() == 97_948);
    write_intent(rt.alloc(), size, &mut out)?;
    assert!(rt; out.len() == 97_948 + 1_566);
    let mut packet = Vec::new(rt.alloc());
    write_packet(1, &mut packet)?;
    assert!(rt; packet.as_slice() == PACKET);
    Ok(())
}
