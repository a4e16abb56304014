//! The lines of routing headers.

ghost use Rattle.std.specs.Prelude.{◌≡◌, ◌++◌, ◌<◌, length, OnOk, string_bytes};
ghost use Rattle.srv6_rules.specs.Chain.{routing};
ghost use Rattle.srv6_rules.specs.Srh.{entries_of, srh_of};
ghost use Rattle.ip6_headers.specs.ChainStepping.{IsHeader};
ghost use Rattle.header_lines.specs.HeaderLines.{area_line, entries_lines, entry_line, routing_line, srh_line, srh_lines};

use srh_codec::SrhView;
use std::alloc::AllocError;

/// Appends the line of a segment routing header's fixed fields.
#[tactic(auto, unfolding(crate::specs::HeaderLines::srh_line))]
fn append_fields(
    srh: &SrhView<'_>,
    at: usize,
    len: usize,
    out: &mut String,
) -> Result<(), AllocError>
    ensures { OnOk result
        (string_bytes out.new ≡ string_bytes out.old ++ srh_line srh.now at len) }
{
    let next = srh.next_header();
    let left = srh.segments_left();
    let last = srh.last_entry();
    let flags = srh.flags();
    let tag = srh.tag();
    writeln!(
        out,
        "srh next {next} left {left} last {last} flags {flags} tag {tag} at {at} bytes {len}"
    )
}

/// Appends the line of the segment list's entry at a place counted from 0.
#[tactic(auto, unfolding(crate::specs::HeaderLines::entry_line))]
fn append_entry(srh: &SrhView<'_>, i: usize, out: &mut String) -> Result<(), AllocError>
    requires { i < entries_of srh.now }
    ensures { OnOk result (string_bytes out.new ≡ string_bytes out.old ++ entry_line srh.now i) }
{
    let entry = srh.entry(i);
    writeln!(out, "entry {i} {entry}")
}

/// Appends the lines of the segment list's entries: those up to Last Entry that are there.
fn append_entries(srh: &SrhView<'_>, out: &mut String) -> Result<(), AllocError>
    ensures { OnOk result (string_bytes out.new ≡ string_bytes out.old ++ entries_lines srh.now) }
{
    let shown = (usize::from(srh.last_entry()) + 1).min(srh.entries());
    for i in 0..shown {
        append_entry(srh, i, out)?;
    }
    Ok(())
}

/// Appends the line of the type-length-value area: its length, or that the entry at Last Entry,
/// after which it would stand, isn't there.
#[tactic(auto, unfolding(crate::specs::HeaderLines::tlvs_line, crate::specs::HeaderLines::bad_last_entry_line))]
fn append_area(srh: &SrhView<'_>, out: &mut String) -> Result<(), AllocError>
    ensures { OnOk result (string_bytes out.new ≡ string_bytes out.old ++ area_line srh.now) }
{
    if usize::from(srh.last_entry()) < srh.entries() {
        let len = srh.tlv_bytes().len();
        writeln!(out, "tlvs {len}")
    } else {
        writeln!(out, "bad last entry")
    }
}

/// Appends the lines of the segment routing header of these bytes, which stands at a place.
pub(crate) fn append_srh(header: &[u8], at: usize, out: &mut String) -> Result<(), AllocError>
    requires { IsHeader routing header.now (length header.now) }
    ensures { OnOk result (string_bytes out.new
        ≡ string_bytes out.old ++ srh_lines (srh_of header.now) at (length header.now)) }
{
    let Ok(srh) = SrhView::read(header) else {
        unreachable!()
    };
    append_fields(&srh, at, header.len(), out)?;
    append_entries(&srh, out)?;
    append_area(&srh, out)
}

/// Appends the line of a routing header of another type.
#[tactic(auto, unfolding(crate::specs::HeaderLines::routing_line))]
pub(crate) fn append_routing(
    kind: u8,
    left: u8,
    at: usize,
    len: usize,
    out: &mut String,
) -> Result<(), AllocError>
    ensures { OnOk result
        (string_bytes out.new ≡ string_bytes out.old ++ routing_line kind left at len) }
{
    writeln!(out, "routing type {kind} left {left} at {at} bytes {len}")
}
