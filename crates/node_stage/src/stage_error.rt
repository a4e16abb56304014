//! The ICMPv6 error about what is dropped.

ghost use Rattle.std.specs.Prelude.{◌≡◌, [], is_some};
ghost use Rattle.srv6_rules.specs.Errors.{error_packet};
ghost use Rattle.icmp6_errors.specs.Answer.{error_bytes};
ghost use Rattle.walk_rules.specs.Treatment.{error_from};
ghost use Rattle.node_stage.specs.StageAnswers.{Tells, dropped_from};

use crate::content_buf::{ContentBuf, Held};
use crate::ip6_packet::Packet;
use icmp6_errors::{IcmpSlot, error_for};
use srv6_rules::{IcmpKind, Reason};
use v6_addr::Addr;
use walk_rules::Outcome;

/// What a stage tells: its outcome, and what stands there after it.
#[derive(Debug, Drop)]
pub(crate) struct StageResult {
    pub(crate) outcome: Outcome,
    pub(crate) after: ContentBuf,
}

/// Writes the error of a kind about a packet into a slot, from an address, if one is made, and
/// answers whether it is.
fn answered(packet: &Packet, kind: &IcmpKind, from: Addr, slot: &mut IcmpSlot) -> bool
    ensures made { result ≡ is_some (error_packet packet.now.packet kind.now from.value) }
    ensures bytes { slot.new.items ≡ error_bytes
        (error_packet packet.now.packet kind.now from.value) }
{
    error_for(packet.bytes(), kind, from, slot)
}

/// Writes the error about what a node with an address drops for a reason, with its detail, into an
/// empty slot, if one is made, and answers whether it is: about an IPv4 packet and about bytes that
/// do not read none is, and for an IPv6 packet the reason names its kind (RFC 4443 section 3).
fn error_about(
    content: &ContentBuf,
    reason: Reason,
    detail: u32,
    from: Addr,
    slot: &mut IcmpSlot,
) -> bool
    requires { slot.old.items ≡ [] }
    ensures made { result ≡ is_some (error_from from.value reason detail content.now.content) }
    ensures bytes { slot.new.items
        ≡ error_bytes (error_from from.value reason detail content.now.content) }
{
    match &content.held {
        Held::V6(packet) => match IcmpKind::of(reason, detail) {
            Some(kind) => answered(packet, &kind, from, slot),
            None => false,
        },
        Held::V4(_) => false,
        Held::Unreadable(_, _) => false,
    }
}

/// What stands at a node with an address is dropped as it is, for a reason, with its detail; the
/// error about it is written into an empty slot, if one is made.
pub(crate) fn dropped(
    reason: Reason,
    detail: u32,
    content: ContentBuf,
    from: Addr,
    slot: &mut IcmpSlot,
) -> StageResult
    requires { slot.old.items ≡ [] }
    ensures tells { Tells result slot.new.items
        (dropped_from from.value reason detail content.content) }
    ensures after { result.after ≡ content }
{
    let error = error_about(&content, reason, detail, from, slot);
    StageResult {
        outcome: Outcome::Drop { reason, error },
        after: content,
    }
}
