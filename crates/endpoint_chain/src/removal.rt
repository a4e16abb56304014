//! A header taken out of a packet's bytes.

ghost use Rattle.std.specs.Prelude.{◌≡◌, ◌⊎◌, ◌+◌, ◌<◌, ◌≤◌, length, take, drop};
ghost use Rattle.srv6_rules.specs.Packet.{header_len, packet_at};
ghost use Rattle.srv6_rules.specs.PacketTerms.{Spells};
ghost use Rattle.srv6_rules.specs.Chain.{without};
ghost use Rattle.endpoint_chain.specs.Outcomes.{HoldsAlone};
ghost use Rattle.endpoint_chain.specs.Removal.{with_payload_len};
ghost use Rattle.ip6_headers.specs.ChainStepping.{header_at};

use ip6_headers::ChainPlace;
use pkt_buf::PktBuf;
use srv6_rules::numbers::{IPV6_HEADER_LEN, NEXT_HEADER_AT, PAYLOAD_LEN_AT};

/// Writes the payload length in a packet's header, in bytes.
fn state_payload_len(buf: &mut PktBuf, len: u16)
    requires { header_len ≤ length buf.old.bytes }
    ensures bytes { buf.new.bytes ≡ with_payload_len len buf.old.bytes }
    ensures front { buf.new.front ≡ buf.old.front }
{
    let bytes = len.to_be_bytes();
    buf.set(PAYLOAD_LEN_AT, bytes[0]);
    buf.set(PAYLOAD_LEN_AT + 1, bytes[1]);
}

/// Takes the extension header of so many bytes that stands at a place of a packet out of the
/// packet's bytes: the field that named it names what stood after it, its bytes go, and the
/// payload length is as much lower. No other byte changes, and as many are spare in front as before
/// (RFC 8986 sections 4.16.1 and 4.16.2).
pub fn take_out(buf: &mut PktBuf, place: ChainPlace, len: usize)
    requires packet { HoldsAlone buf.old.bytes }
    requires behind { header_len ≤ place.at }
    requires earlier { place.named_at < place.at }
    requires field { (place.named_at ≡ NEXT_HEADER_AT) ⊎ (header_len ≤ place.named_at) }
    requires some { 1 ≤ len }
    requires within { place.at + len ≤ length buf.old.bytes }
    ensures packet { Spells buf.new.bytes (without (packet_at buf.old.bytes)
        (header_at place (take len (drop place.at buf.old.bytes)))) }
    ensures front { buf.new.front ≡ buf.old.front }
{
    let next = buf.view()[place.at];
    buf.set(place.named_at, next);
    buf.cut(place.at, len);
    let payload_len = buf.len() - IPV6_HEADER_LEN;
    state_payload_len(buf, payload_len as u16);
}
