//! The lines of a packet.

ghost use Rattle.std.specs.Prelude.{◌≡◌, ◌++◌, List, ℕ, IfOk, OnOk, string_bytes};
ghost use Rattle.header_lines.specs.HeaderLines.{content_lines, fault_line, ip4_line, ip6_line, number_line, packet_lines};
ghost use Rattle.ip6_headers.specs.Ip4Reading.{reason_of};
ghost use Rattle.srv6_rules.specs.Packet.{content_of, read_as};
ghost use Rattle.srv6_rules.specs.declared.family.Family.TheVariants.{V4};
ghost use Rattle.v6_addr.specs.Text4.{address4_text};

use crate::chain_lines::append_chain;
use arrayvec::ArrayString;
use ip6_headers::{Ip4View, Ip6View, ReadFault};
use srv6_rules::Family;
use std::alloc::{AllocError, Global};
use v6_addr::{Addr, write_addr4};

/// Appends the line over a packet's lines.
#[tactic(auto, unfolding(crate::specs::HeaderLines::number_line))]
fn append_number(number: u32, out: &mut String) -> Result<(), AllocError>
    ensures { OnOk result (string_bytes out.new ≡ string_bytes out.old ++ number_line number) }
{
    writeln!(out, "packet {number}")
}

/// Appends the line of a packet's IPv6 header.
#[tactic(auto, unfolding(crate::specs::HeaderLines::ip6_line))]
fn append_ip6(packet: &Ip6View<'_>, out: &mut String) -> Result<(), AllocError>
    ensures { OnOk result (string_bytes out.new ≡ string_bytes out.old ++ ip6_line packet.now) }
{
    let class = packet.traffic_class();
    let flow = packet.flow_label();
    let payload = packet.payload_len();
    let next = packet.next_header();
    let hop = packet.hop_limit();
    let src = packet.source();
    let dst = packet.destination();
    writeln!(
        out,
        "ip6 class {class} flow {flow} payload {payload} next {next} hop {hop} src {src} dst {dst}"
    )
}

/// Appends the line of an IPv4 packet.
#[tactic(auto, unfolding(crate::specs::HeaderLines::ip4_line), using(crate::proofs::FaultLines::lows))]
fn append_ip4(packet: &Ip4View<'_>, out: &mut String) -> Result<(), AllocError>
    ensures { OnOk result (string_bytes out.new ≡ string_bytes out.old ++ ip4_line packet.now) }
{
    let ttl = packet.ttl();
    let proto = packet.protocol();
    let total = packet.total_len();
    let mut src = ArrayString::<15>::new();
    write_addr4(&mut src, packet.source());
    let mut dst = ArrayString::<15>::new();
    write_addr4(&mut dst, packet.destination());
    writeln!(
        out,
        "ip4 ttl {ttl} proto {proto} total {total} src {src} dst {dst}"
    )
}

/// Appends the line of bytes that do not read as a packet.
#[tactic(auto, unfolding(crate::specs::HeaderLines::truncated_line, crate::specs::HeaderLines::bad_version_line))]
fn append_fault(fault: ReadFault, out: &mut String) -> Result<(), AllocError>
    ensures { OnOk result (string_bytes out.new
        ≡ string_bytes out.old ++ fault_line (reason_of fault)) }
{
    match fault {
        ReadFault::Truncated => writeln!(out, "truncated"),
        ReadFault::BadVersion => writeln!(out, "bad version"),
    }
}

/// Appends the lines of what bytes read as by IPv6.
#[tactic(auto, using(crate::proofs::FaultLines::faults))]
fn append_content(bytes: &[u8], out: &mut String) -> Result<(), AllocError>
    ensures { OnOk result (string_bytes out.new
        ≡ string_bytes out.old ++ content_lines (content_of bytes.now)) }
{
    match Ip6View::read(bytes) {
        Ok(packet) => {
            append_ip6(&packet, out)?;
            append_chain(&packet, out)
        }
        Err(fault) => append_fault(fault, out),
    }
}

/// Appends the line of what bytes read as by IPv4.
#[tactic(auto, using(crate::proofs::FaultLines::faults))]
fn append_content4(bytes: &[u8], out: &mut String) -> Result<(), AllocError>
    ensures { OnOk result (string_bytes out.new
        ≡ string_bytes out.old ++ content_lines (read_as V4 bytes.now)) }
{
    match Ip4View::read(bytes) {
        Ok(packet) => append_ip4(&packet, out),
        Err(fault) => append_fault(fault, out),
    }
}

/// The lines of the packet of a number and a family that bytes begin with; what stands after its
/// end is not looked at. `packet NUMBER` is the first; then comes `truncated` or `bad version`
/// where the bytes do not read.
///
/// Of an IPv6 packet the IPv6 header follows and the chain of extension headers, each header with
/// its place and its length in bytes, in order. The last line is the upper layer with the length of
/// its bytes, an extension header that is cut, or a fragment header. Of a segment routing header, a
/// routing header of type 4, the entries are shown that are there up to Last Entry, and then the
/// length of the type-length-value area, or that Last Entry is beyond the entries (own rule; RFC
/// 8200 sections 3 and 4, RFC 8754 section 2).
///
/// Of an IPv4 packet the second line is the last: it has the time to live, the protocol's number,
/// the packet's length in bytes, its header among it, and the addresses of the source and the
/// destination. Nothing is shown of options and of what stands after the header (own rule; RFC 791
/// section 3.1).
pub fn lines_of_packet(
    alloc: Global,
    number: u32,
    family: Family,
    bytes: &[u8],
) -> Result<String, AllocError>
    ensures { IfOk result (λ lines. string_bytes lines
        ≡ packet_lines number (read_as family bytes.now)) }
{
    let mut lines = String::new(alloc);
    append_number(number, &mut lines)?;
    match family {
        Family::V6 => append_content(bytes, &mut lines)?,
        Family::V4 => append_content4(bytes, &mut lines)?,
    }
    Ok(lines)
}
