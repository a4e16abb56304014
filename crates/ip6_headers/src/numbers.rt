//! Numbers in headers, the highest byte first.

ghost use Rattle.std.specs.Prelude.{◌≡◌, ◌+◌, ◌≤◌, ◌++◌, length, take, drop};
ghost use Rattle.srv6_rules.specs.Packet.{two_bytes, address_bytes, two_number, four_number, address_number};

use byteorder::{BigEndian, ByteOrder};
use v6_addr::Addr;

/// The number in the 2 bytes from a place on (RFC 791 appendix B).
#[tactic(auto, unfolding(srv6_rules::specs::Packet::two_number))]
pub fn two_at(bytes: &[u8], at: usize) -> u16
    requires { at + 2 ≤ length bytes.now }
    ensures { result ≡ two_number (drop at bytes.now) }
{
    BigEndian::read_u16(bytes.split_at(at).1)
}

/// The number in the 4 bytes from a place on (RFC 791 appendix B).
#[tactic(auto, unfolding(srv6_rules::specs::Packet::four_number))]
pub fn four_at(bytes: &[u8], at: usize) -> u32
    requires { at + 4 ≤ length bytes.now }
    ensures { result ≡ four_number (drop at bytes.now) }
{
    BigEndian::read_u32(bytes.split_at(at).1)
}

/// The address in the 16 bytes from a place on (RFC 791 appendix B).
#[tactic(auto, unfolding(srv6_rules::specs::Packet::address_number))]
pub fn address_at(bytes: &[u8], at: usize) -> Addr
    requires { at + 16 ≤ length bytes.now }
    ensures { result.value ≡ address_number (drop at bytes.now) }
{
    Addr {
        value: BigEndian::read_u128(bytes.split_at(at).1),
    }
}

/// Writes a number's 2 bytes at a place.
#[tactic(auto, using(crate::proofs::HeaderEditLemmas::behinds), unfolding(srv6_rules::specs::Packet::two_bytes))]
pub(crate) fn put_two(bytes: &mut [u8], at: usize, n: u16)
    requires { at + 2 ≤ length bytes.old }
    ensures { bytes.new ≡ take at bytes.old ++ (two_bytes n ++ drop (at + 2) bytes.old) }
{
    let (_, part) = bytes.split_at_mut(at);
    BigEndian::write_u16(part, n);
}

/// Writes an address's 16 bytes at a place.
pub(crate) fn put_address(bytes: &mut [u8], at: usize, a: Addr)
    requires { at + 16 ≤ length bytes.old }
    ensures { bytes.new ≡ take at bytes.old ++ (address_bytes a.value ++ drop (at + 16) bytes.old) }
{
    let (_, part) = bytes.split_at_mut(at);
    BigEndian::write_u128(part, a.value);
}
