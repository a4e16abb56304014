//! The lines of a trace, written.

ghost use Rattle.std.specs.Prelude.{◌≡◌, true, ◌<◌, ◌++◌, ◌∷◌, [], length, slice_get, IfOk, OnErr, OnOk, string_bytes};
ghost use Rattle.trace_replay.specs.TraceLines.{again_table_text, again_text, again_through_text, drop_text, end_text, family_number, hand_table_text, hand_text, hand_through_text, head_text, hex_text, local_text, name_of_node, outcome_text, packet_text, send_text, stages_text};
ghost use Rattle.trace_replay.specs.Numbered.{IsNumbered};

use base::NoMemory;
use net_model::{Name, Net};
use srv6_rules::{Family, Reason};
use std::alloc::{AllocError, Global};
use v6_addr::Prefix;
use walk_rules::{How, Outcome};

/// Bytes in hexadecimal digits of lower case, two each; a dash where there are none.
#[tactic(auto, unfolding(crate::specs::TraceLines::hex_text))]
fn text_of_bytes(alloc: Global, bytes: &[u8]) -> Result<String, AllocError>
    ensures { IfOk result (λ text. string_bytes text ≡ hex_text bytes.now) }
{
    match bytes {
        [] => format!(in alloc; "-"),
        [_, ..] => hex::encode(alloc, bytes),
    }
}

/// The number of a family's version.
fn number_of(family: Family) -> u32
    ensures { result ≡ family_number family }
{
    match family {
        Family::V6 => 6,
        Family::V4 => 4,
    }
}

#[tactic(auto, unfolding(crate::specs::TraceLines::again_table_text))]
fn text_of_again_table(
    alloc: Global,
    sid: &Prefix,
    table: u32,
    hex: &str,
) -> Result<String, AllocError>
    ensures { IfOk result (λ text. string_bytes text ≡ again_table_text sid.now table hex.now) }
{
    format!(in alloc; "again {sid} table {table} {hex}")
}

#[tactic(auto, unfolding(crate::specs::TraceLines::again_through_text))]
fn text_of_again_through(alloc: Global, sid: &Prefix, hex: &str) -> Result<String, AllocError>
    ensures { IfOk result (λ text. string_bytes text ≡ again_through_text sid.now hex.now) }
{
    format!(in alloc; "again {sid} through {hex}")
}

/// The line of the execution of a SID after which the packet goes on.
fn text_of_again(alloc: Global, sid: &Prefix, how: &How, hex: &str) -> Result<String, AllocError>
    ensures { IfOk result (λ text. string_bytes text ≡ again_text sid.now how.now hex.now) }
{
    match *how {
        How::Arrived { table } | How::Submitted { table } => {
            text_of_again_table(alloc, sid, table, hex)
        }
        How::Through { .. } => text_of_again_through(alloc, sid, hex),
    }
}

#[tactic(auto, unfolding(crate::specs::TraceLines::hand_table_text))]
fn text_of_hand_table(
    alloc: Global,
    sid: &Prefix,
    table: u32,
    family: Family,
    hex: &str,
) -> Result<String, AllocError>
    ensures { IfOk result (λ text.
        string_bytes text ≡ hand_table_text sid.now table family hex.now) }
{
    let version = number_of(family);
    format!(in alloc; "hand {sid} table {table} {version} {hex}")
}

#[tactic(auto, unfolding(crate::specs::TraceLines::hand_through_text))]
fn text_of_hand_through(
    alloc: Global,
    sid: &Prefix,
    family: Family,
    hex: &str,
) -> Result<String, AllocError>
    ensures { IfOk result (λ text. string_bytes text ≡ hand_through_text sid.now family hex.now) }
{
    let version = number_of(family);
    format!(in alloc; "hand {sid} through {version} {hex}")
}

/// The line of the execution of a SID that exposed a packet of a family.
fn text_of_hand(
    alloc: Global,
    sid: &Prefix,
    how: &How,
    family: Family,
    hex: &str,
) -> Result<String, AllocError>
    ensures { IfOk result (λ text. string_bytes text ≡ hand_text sid.now how.now family hex.now) }
{
    match *how {
        How::Arrived { table } | How::Submitted { table } => {
            text_of_hand_table(alloc, sid, table, family, hex)
        }
        How::Through { .. } => text_of_hand_through(alloc, sid, family, hex),
    }
}

/// The line of a packet that is sent on a link.
#[tactic(auto, unfolding(crate::specs::TraceLines::send_text))]
pub(crate) fn text_of_send(alloc: Global, link: &Name, hex: &str) -> Result<String, AllocError>
    ensures { IfOk result (λ text. string_bytes text ≡ send_text link.now hex.now) }
{
    format!(in alloc; "send {link} {hex}")
}

#[tactic(auto, unfolding(crate::specs::TraceLines::local_text))]
fn text_of_local(alloc: Global) -> Result<String, AllocError>
    ensures { IfOk result (λ text. string_bytes text ≡ local_text) }
{
    format!(in alloc; "local")
}

#[tactic(auto, unfolding(crate::specs::TraceLines::drop_text))]
fn text_of_drop(alloc: Global, reason: Reason, hex: &str) -> Result<String, AllocError>
    ensures { IfOk result (λ text. string_bytes text ≡ drop_text reason hex.now) }
{
    format!(in alloc; "drop {reason} {hex}")
}

/// The line of an outcome, without its line feed: of an execution and a Send with the packet's
/// bytes after it, of a drop with the bytes of the ICMPv6 error about it.
pub(crate) fn text_of_outcome(
    alloc: Global,
    net: &Net,
    outcome: &Outcome,
    packet: &[u8],
    error: &[u8],
) -> Result<String, AllocError>
    requires { IsNumbered net.now outcome.now }
    ensures { IfOk result (λ text.
        string_bytes text ≡ outcome_text net.now outcome.now packet.now error.now) }
{
    match outcome {
        Outcome::Again { sid, how } => {
            let hex = text_of_bytes(alloc, packet)?;
            text_of_again(alloc, &net.sid(*sid).prefix, how, hex.as_str())
        }
        Outcome::Hand { sid, how, family } => {
            let hex = text_of_bytes(alloc, packet)?;
            text_of_hand(alloc, &net.sid(*sid).prefix, how, *family, hex.as_str())
        }
        Outcome::Send { link } => {
            let hex = text_of_bytes(alloc, packet)?;
            text_of_send(alloc, &net.link(*link).name, hex.as_str())
        }
        Outcome::Local => text_of_local(alloc),
        Outcome::Drop { reason, .. } => {
            let hex = text_of_bytes(alloc, error)?;
            text_of_drop(alloc, *reason, hex.as_str())
        }
    }
}

/// Appends a text and a line feed; with want of memory nothing is appended.
fn append_line(mut text: String, out: &mut Vec<u8>) -> Result<(), NoMemory>
    ensures ok { OnOk result (out.new.items ≡ out.old.items ++ (string_bytes text ++ 10 ∷ [])) }
    ensures err { OnErr result (out.new.items ≡ out.old.items) }
{
    text.push('\n')?;
    out.extend_from_slice(text.as_bytes())?;
    Ok(())
}

/// Whether the SID or the link that an outcome names is one of the network's.
pub fn is_numbered(net: &Net, outcome: &Outcome) -> bool
    ensures yes { result ≡ true → IsNumbered net.now outcome.now }
    ensures no { IsNumbered net.now outcome.now → result ≡ true }
{
    match outcome {
        Outcome::Again { sid, .. } | Outcome::Hand { sid, .. } => *sid < net.sids(),
        Outcome::Send { link } => *link < net.links(),
        Outcome::Local | Outcome::Drop { .. } => true,
    }
}

/// Appends the line of one stage: its outcome, the bytes of the packet after it, and those of the
/// ICMPv6 error that is sent about a drop, none where none is. The numbers of SIDs and links are
/// those of the network. With `NoMemory` nothing is appended.
pub fn print_event(
    alloc: Global,
    net: &Net,
    outcome: &Outcome,
    packet: &[u8],
    error: &[u8],
    out: &mut Vec<u8>,
) -> Result<(), NoMemory>
    requires { IsNumbered net.now outcome.now }
    ensures ok { OnOk result (out.new.items ≡ out.old.items
        ++ (outcome_text net.now outcome.now packet.now error.now ++ 10 ∷ [])) }
    ensures err { OnErr result (out.new.items ≡ out.old.items) }
{
    append_line(text_of_outcome(alloc, net, outcome, packet, error)?, out)
}

#[tactic(auto, unfolding(crate::specs::TraceLines::packet_text))]
fn text_of_packet(
    alloc: Global,
    number: u32,
    family: Family,
    node: &Name,
    hex: &str,
) -> Result<String, AllocError>
    ensures { IfOk result (λ text.
        string_bytes text ≡ packet_text number family node.now hex.now) }
{
    let version = number_of(family);
    format!(in alloc; "packet {number} {version} {node} {hex}")
}

/// Appends the line with which a packet begins: its number, its family, the node where it enters,
/// and its bytes. With `NoMemory` nothing is appended.
pub fn print_packet(
    alloc: Global,
    net: &Net,
    number: u32,
    family: Family,
    node: u32,
    packet: &[u8],
    out: &mut Vec<u8>,
) -> Result<(), NoMemory>
    requires { node < length net.now.nodes }
    ensures ok { OnOk result (out.new.items ≡ out.old.items
        ++ (packet_text number family (name_of_node (slice_get net.now.nodes node))
        (hex_text packet.now) ++ 10 ∷ [])) }
    ensures err { OnErr result (out.new.items ≡ out.old.items) }
{
    let hex = text_of_bytes(alloc, packet)?;
    let name = &net.node(node).name;
    append_line(
        text_of_packet(alloc, number, family, name, hex.as_str())?,
        out,
    )
}

#[tactic(auto, unfolding(crate::specs::TraceLines::stages_text))]
fn text_of_stages(alloc: Global) -> Result<String, AllocError>
    ensures { IfOk result (λ text. string_bytes text ≡ stages_text) }
{
    format!(in alloc; "stages")
}

/// Appends the line after those of a packet that used all its stages. With `NoMemory` nothing is
/// appended.
pub fn print_stages(alloc: Global, out: &mut Vec<u8>) -> Result<(), NoMemory>
    ensures ok { OnOk result (out.new.items ≡ out.old.items ++ (stages_text ++ 10 ∷ [])) }
    ensures err { OnErr result (out.new.items ≡ out.old.items) }
{
    append_line(text_of_stages(alloc)?, out)
}

#[tactic(auto, unfolding(crate::specs::TraceLines::head_text))]
fn text_of_head(alloc: Global) -> Result<String, AllocError>
    ensures { IfOk result (λ text. string_bytes text ≡ head_text) }
{
    format!(in alloc; "srv6 trace 1")
}

/// Appends a trace's first line. With `NoMemory` nothing is appended.
pub fn print_head(alloc: Global, out: &mut Vec<u8>) -> Result<(), NoMemory>
    ensures ok { OnOk result (out.new.items ≡ out.old.items ++ (head_text ++ 10 ∷ [])) }
    ensures err { OnErr result (out.new.items ≡ out.old.items) }
{
    append_line(text_of_head(alloc)?, out)
}

#[tactic(auto, unfolding(crate::specs::TraceLines::end_text))]
fn text_of_end(alloc: Global) -> Result<String, AllocError>
    ensures { IfOk result (λ text. string_bytes text ≡ end_text) }
{
    format!(in alloc; "end")
}

/// Appends a trace's last line. With `NoMemory` nothing is appended.
pub fn print_end(alloc: Global, out: &mut Vec<u8>) -> Result<(), NoMemory>
    ensures ok { OnOk result (out.new.items ≡ out.old.items ++ (end_text ++ 10 ∷ [])) }
    ensures err { OnErr result (out.new.items ≡ out.old.items) }
{
    append_line(text_of_end(alloc)?, out)
}
