//! The lines of an extension header.

ghost use Rattle.std.specs.Prelude.{◌≡◌, ◌++◌, length, OnOk, string_bytes};
ghost use Rattle.header_lines.specs.HeaderLines.{destination_line, fragment_line, header_lines, hop_by_hop_line};
ghost use Rattle.ip6_headers.specs.ChainStepping.{IsHeader, header_at};

use crate::routing_lines::{append_routing, append_srh};
use ip6_headers::ChainPlace;
use srv6_rules::numbers::{
    DESTINATION_OPTIONS, FRAGMENT, HOP_BY_HOP, ROUTING_TYPE_AT, SEGMENT_ROUTING, SEGMENTS_LEFT_AT,
};
use std::alloc::AllocError;

/// Appends the line of a Hop-by-Hop Options header.
#[tactic(auto, unfolding(crate::specs::HeaderLines::hop_by_hop_line))]
fn append_hop_by_hop(at: usize, len: usize, out: &mut String) -> Result<(), AllocError>
    ensures { OnOk result (string_bytes out.new ≡ string_bytes out.old ++ hop_by_hop_line at len) }
{
    writeln!(out, "hop-by-hop at {at} bytes {len}")
}

/// Appends the line of a Destination Options header.
#[tactic(auto, unfolding(crate::specs::HeaderLines::destination_line))]
fn append_destination(at: usize, len: usize, out: &mut String) -> Result<(), AllocError>
    ensures { OnOk result (string_bytes out.new ≡ string_bytes out.old ++ destination_line at len) }
{
    writeln!(out, "destination at {at} bytes {len}")
}

/// Appends the line of a Fragment header.
#[tactic(auto, unfolding(crate::specs::HeaderLines::fragment_line))]
fn append_fragment(at: usize, out: &mut String) -> Result<(), AllocError>
    ensures { OnOk result (string_bytes out.new ≡ string_bytes out.old ++ fragment_line at) }
{
    writeln!(out, "fragment at {at}")
}

/// Appends the lines of the extension header of these bytes, which stands at a place.
pub(crate) fn append_header(
    place: ChainPlace,
    header: &[u8],
    out: &mut String,
) -> Result<(), AllocError>
    requires { IsHeader place.kind header.now (length header.now) }
    ensures { OnOk result (string_bytes out.new
        ≡ string_bytes out.old ++ header_lines (header_at place header.now)) }
{
    let at = place.at;
    let len = header.len();
    if place.kind == HOP_BY_HOP {
        return append_hop_by_hop(at, len, out);
    }
    if place.kind == DESTINATION_OPTIONS {
        return append_destination(at, len, out);
    }
    if place.kind == FRAGMENT {
        return append_fragment(at, out);
    }
    if header[ROUTING_TYPE_AT] == SEGMENT_ROUTING {
        return append_srh(header, at, out);
    }
    append_routing(
        header[ROUTING_TYPE_AT],
        header[SEGMENTS_LEFT_AT],
        at,
        len,
        out,
    )
}
