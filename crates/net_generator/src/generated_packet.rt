//! The packets that are sent through a generated network.

ghost use Rattle.std.specs.Prelude.{◌≡◌, ◌+◌, ◌++◌, ◌≤◌, length, OnErr, OnOk};
ghost use Rattle.arrayvec.specs.ArrayVec.{array_vec_len};
ghost use Rattle.srv6_rules.specs.Packet.{IsSpellable, header_spelling, spelling};
ghost use Rattle.net_generator.specs.GeneratedPackets.{generated_packet};

use arrayvec::ArrayVec;
use base::NoMemory;
use srv6_rules::numbers::{IPV6_HEADER_LEN, IPV6_VERSION};

/// The next header that says that nothing follows: 59 (RFC 8200 section 4.7).
const NO_NEXT_HEADER: u8 = 59;

/// The hop limit of generated packets.
const HOP_LIMIT: u8 = 64;

/// A payload has fewer zeros than this.
const PAYLOAD_MODULUS: u16 = 64;

/// The source of packet 0, 2001:db8:1::, to which a packet's number is added.
const SOURCE: u128 = 0x2001_0db8_0001_0000_0000_0000_0000_0000;

/// The destination, 2001:db8:2::1.
const DESTINATION: u128 = 0x2001_0db8_0002_0000_0000_0000_0000_0001;

/// Room for a generated packet: a header and at most 63 bytes.
type Slot = ArrayVec<u8, 103>;

/// Appends bytes.
fn append(out: &mut Slot, bytes: &[u8])
    requires { array_vec_len out.old + length bytes.now ≤ 103 }
    ensures { out.new.items ≡ out.old.items ++ bytes.now }
{
    out.try_extend_from_slice(bytes).unwrap();
}

/// The bytes of packet k.
fn packet_of(k: u16) -> Slot
    ensures { result.items ≡ spelling (generated_packet k) }
{
    let len = k % PAYLOAD_MODULUS;
    let source = SOURCE + u128::from(k);
    let mut slot = Slot::new();
    append(&mut slot, &[IPV6_VERSION * 16, 0, 0, 0]);
    append(&mut slot, &len.to_be_bytes());
    append(&mut slot, &[NO_NEXT_HEADER, HOP_LIMIT]);
    append(&mut slot, &source.to_be_bytes());
    append(&mut slot, &DESTINATION.to_be_bytes());
    append(&mut slot, [0; 63].split_at(usize::from(len)).0);
    slot
}

/// Appends the bytes of generated packet k: an IPv6 packet from 2001:db8:1::k, k in hexadecimal, to
/// 2001:db8:2::1, with hop limit 64, next header 59 and, after the header, as many bytes of zeros
/// as k leaves divided by 64. `NoMemory` leaves the bytes as they were.
pub fn write_packet(k: u16, out: &mut Vec<u8>) -> Result<(), NoMemory>
    ensures ok { OnOk result (out.new.items ≡ out.old.items ++ spelling (generated_packet k)) }
    ensures err { OnErr result (out.new.items ≡ out.old.items) }
    ensures spellable { IsSpellable (generated_packet k) }
{
    out.extend_from_slice(packet_of(k).as_slice())?;
    Ok(())
}
