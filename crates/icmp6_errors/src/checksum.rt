//! The Internet checksum, from plain sums of 16-bit words (RFC 1071).

ghost use Rattle.std.specs.Prelude.{◌≡◌, ◌-◌, ◌*◌, ◌≤◌, length};
ghost use Rattle.srv6_rules.specs.Packet.{address_bytes};
ghost use Rattle.srv6_rules.specs.Checksum.{all_ones, pseudo_header};
ghost use Rattle.srv6_rules.specs.ChecksumTerms.{carried, word_sum};

use srv6_rules::numbers::{ICMPV6, MIN_MTU};
use v6_addr::Addr;

/// The sum of the words of bytes; an odd last byte is the high one of its word (RFC 1071 section
/// 1).
pub(crate) fn word_sum(bytes: &[u8]) -> u32
    requires { length bytes.now ≤ MIN_MTU }
    ensures sum { result ≡ word_sum bytes.now }
    ensures most { result ≤ 65535 * length bytes.now }
{
    let mut sum = 0;
    let mut rest = bytes;
    'words: while rest.len() >= 2 {
        sum += u32::from(rest[0]) * 256 + u32::from(rest[1]);
        rest = rest.split_at(2).1;
    }
    if rest.is_empty() {
        return sum;
    }
    sum + u32::from(rest[0]) * 256
}

/// The sum of an address's eight words.
#[tactic(auto, unfolding(srv6_rules::specs::Packet::address_bytes))]
fn address_sum(a: Addr) -> u32
    ensures sum { result ≡ word_sum (address_bytes a.value) }
    ensures most { result ≤ 65535 * 16 }
{
    word_sum(&a.value.to_be_bytes())
}

/// The sum of the words of the pseudo-header in front of an ICMPv6 message of a length (RFC 8200
/// section 8.1).
pub(crate) fn pseudo_sum(source: Addr, destination: Addr, len: u16) -> u32
    ensures sum { result ≡ word_sum (pseudo_header source.value destination.value len ICMPV6) }
    ensures most { result ≤ 65535 * 40 }
{
    address_sum(source) + address_sum(destination) + u32::from(len) + u32::from(ICMPV6)
}

/// The one's complement of a plain sum with its carries added at the lowest bit (RFC 1071 section
/// 2).
pub(crate) fn complement(sum: u32) -> u16
    ensures { result ≡ all_ones - carried sum }
{
    let once = sum / 0x1_0000 + sum % 0x1_0000;
    let twice = once / 0x1_0000 + once % 0x1_0000;
    0xffff - twice as u16
}
