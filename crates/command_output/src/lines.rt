//! The lines on `err`, each with its line feed.

ghost use Rattle.std.specs.Prelude.{◌≡◌, ◌++◌, IfOk, OnOk, string_bytes};
ghost use Rattle.command_output.specs.Sent.{IsEnd};
ghost use Rattle.command_output.specs.OutputLines.{refusal_line, left_line, delivered_line, dropped_line, stages_line, packet_line, unread_line};

use crate::refusal::Refusal;
use crate::unread::Unread;
use net_model::{Name, Net};
use srv6_rules::Reason;
use std::alloc::{AllocError, Global};
use walk_rules::{Ended, MAX_STAGES};

/// A refusal's line.
pub fn line_of_refusal(alloc: Global, refusal: &Refusal) -> Result<String, AllocError>
    ensures { IfOk result (λ line. string_bytes line ≡ refusal_line refusal.now) }
{
    format!(in alloc; "{refusal}\n")
}

/// Adds the line of a packet that left over a link.
#[tactic(auto, unfolding(crate::specs::OutputLines::left_line))]
fn add_left(line: &mut String, number: u32, link: &Name) -> Result<(), AllocError>
    ensures { OnOk result (string_bytes line.new
        ≡ string_bytes line.old ++ left_line number link.now) }
{
    write!(line, "packet {number}: left {link}\n")
}

/// Adds the line of a packet that a node took.
#[tactic(auto, unfolding(crate::specs::OutputLines::delivered_line))]
fn add_delivered(line: &mut String, number: u32, node: &Name) -> Result<(), AllocError>
    ensures { OnOk result (string_bytes line.new
        ≡ string_bytes line.old ++ delivered_line number node.now) }
{
    write!(line, "packet {number}: delivered at {node}\n")
}

/// Adds the line of a packet that a node dropped.
#[tactic(auto, unfolding(crate::specs::OutputLines::dropped_line))]
fn add_dropped(
    line: &mut String,
    number: u32,
    reason: Reason,
    node: &Name,
) -> Result<(), AllocError>
    ensures { OnOk result (string_bytes line.new
        ≡ string_bytes line.old ++ dropped_line number reason node.now) }
{
    write!(line, "packet {number}: dropped {reason} at {node}\n")
}

/// Adds the line of a packet that used all its stages.
#[tactic(auto, unfolding(crate::specs::OutputLines::stages_line))]
fn add_stages(line: &mut String, number: u32) -> Result<(), AllocError>
    ensures { OnOk result (string_bytes line.new ≡ string_bytes line.old ++ stages_line number) }
{
    write!(line, "packet {number}: stopped after {MAX_STAGES} stages\n")
}

/// Writes the line of a packet that is not read, in place of what the text held.
#[tactic(auto, unfolding(crate::specs::OutputLines::unread_line))]
pub fn write_unread_line(line: &mut String, number: u32, cause: Unread) -> Result<(), AllocError>
    ensures { OnOk result (string_bytes line.new ≡ unread_line number cause) }
{
    line.clear();
    write!(line, "packet {number}: not read, {cause}\n")
}

/// Writes the line of a packet of a number when it ends, in place of what the text held; a text
/// that is handed on from packet to packet asks for memory for its longest line alone.
pub fn write_packet_line(
    line: &mut String,
    net: &Net,
    number: u32,
    ended: &Ended,
) -> Result<(), AllocError>
    requires { IsEnd net.now ended.now }
    ensures { OnOk result (string_bytes line.new ≡ packet_line net.now number ended.now) }
{
    line.clear();
    match ended {
        Ended::Left { link } => add_left(line, number, &net.link(*link).name),
        Ended::Delivered { node } => add_delivered(line, number, &net.node(*node).name),
        Ended::Dropped { node, reason } => {
            add_dropped(line, number, *reason, &net.node(*node).name)
        }
        Ended::Stages => add_stages(line, number),
    }
}
