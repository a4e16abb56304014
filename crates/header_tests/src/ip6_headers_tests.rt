//! The checksum of an IPv4 header whose time to live is lowered, by the sums of RFC 1624, and two
//! fields of an IPv6 header that no command writes.

use ip6_headers::{Ip6Edit, lower_ttl, read_fault4, two_at};
use std::test::Fail;

/// IPv4 of 20 bytes without payload, protocol 17, from 192.0.2.1 to 198.51.100.1.
const PACKET4: [u8; 20] = [
    0x45, 0x00, 0x00, 0x14, 0x00, 0x00, 0x00, 0x00, 0x02, 0x11, 0xcc, 0xa3, 0xc0, 0x00, 0x02, 0x01,
    0xc6, 0x33, 0x64, 0x01,
];

/// The sum, which isn't verified, wraps at 0xff80; from 0xfeff it comes to 0 (equation 3 of RFC
/// 1624) and not to 0xffff.
#[test]
fn checksum_of_a_lowered_time_to_live(rt: HostRuntime) -> Result<(), Fail> {
    for (high, low, want) in [
        (0xcc, 0xa3, 0xcda3),
        (0xff, 0x80, 0x0081),
        (0xfe, 0xff, 0x0000),
        (0xfe, 0xfe, 0xfffe),
    ] {
        let mut bytes = PACKET4;
        bytes[10] = high;
        bytes[11] = low;
        if let None = read_fault4(&bytes) {
            lower_ttl(&mut bytes);
        }
        assert_eq!(rt; bytes[8], 1);
        assert_eq!(rt; two_at(&bytes, 10), want);
    }
    Ok(())
}

/// The payload length stands in bytes 4 and 5, the next header in byte 6 (RFC 8200 section 3).
#[test]
fn fields_are_written_in_their_bytes(rt: HostRuntime) {
    let mut bytes = [0xee; 40];
    {
        let mut edit = Ip6Edit::over(&mut bytes);
        edit.set_payload_len(0x0102);
        edit.set_next_header(43);
    }
    assert!(rt; bytes[..8] == [0xee, 0xee, 0xee, 0xee, 1, 2, 43, 0xee]);
}
