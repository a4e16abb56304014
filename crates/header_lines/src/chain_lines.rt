//! The lines of a chain of extension headers.

ghost use Rattle.std.specs.Prelude.{◌≡◌, ◌++◌, OnOk, string_bytes};
ghost use Rattle.header_lines.specs.HeaderLines.{bad_chain_line, chain_lines, upper_line};
ghost use Rattle.srv6_rules.specs.Chain.{chain_of};

use crate::header_fields::append_header;
use ip6_headers::{BadChain, ChainStep, Ip6View, chain_start, chain_step};
use srv6_rules::numbers::FRAGMENT;
use std::alloc::AllocError;

/// Appends the line of an upper layer.
#[tactic(auto, unfolding(crate::specs::HeaderLines::upper_line))]
fn append_upper(kind: u8, at: usize, len: usize, out: &mut String) -> Result<(), AllocError>
    ensures { OnOk result (string_bytes out.new ≡ string_bytes out.old ++ upper_line kind at len) }
{
    writeln!(out, "upper {kind} at {at} bytes {len}")
}

/// Appends the line of an extension header that is cut.
#[tactic(auto, unfolding(crate::specs::HeaderLines::bad_chain_line))]
fn append_bad_chain(at: usize, out: &mut String) -> Result<(), AllocError>
    ensures { OnOk result (string_bytes out.new ≡ string_bytes out.old ++ bad_chain_line at) }
{
    writeln!(out, "bad chain at {at}")
}

/// Appends the lines of what stands after a packet's IPv6 header, up to a Fragment header or the
/// end of the chain.
pub(crate) fn append_chain(packet: &Ip6View<'_>, out: &mut String) -> Result<(), AllocError>
    ensures { OnOk result (string_bytes out.new
        ≡ string_bytes out.old ++ chain_lines packet.now (chain_of packet.now)) }
{
    let bytes = packet.bytes();
    let mut place = chain_start(packet);
    'headers: loop {
        let rest = bytes.split_at(place.at).1;
        match chain_step(bytes, place) {
            Ok(ChainStep::Header { len, next }) => {
                append_header(place, rest.split_at(len).0, out)?;
                if place.kind == FRAGMENT {
                    return Ok(());
                }
                place = next;
            }
            Ok(ChainStep::Upper) => return append_upper(place.kind, place.at, rest.len(), out),
            Err(BadChain) => return append_bad_chain(place.at, out),
        }
    }
}
