//! A packet at the headend, encapsulated for a list.

ghost use Rattle.std.specs.Prelude.{◌≡◌, ◌^◌, ◌<◌, ◌≤◌, length};
ghost use Rattle.srv6_rules.specs.PoliciesTerms.{IsPolicy};
ghost use Rattle.srv6_rules.specs.Packet.{most_len};

use crate::executions::At;
use base::{NoMemory, Seq};
use intent_reader::Intent;
use node_stage::Content;
use pkt_buf::PktBuf;
use policy_encap::{MAX_FRONT, PushFault, push};
use srv6_rules::{Family, Policy};
use std::alloc::Global;
use v6_addr::Addr;
use walk_rules::{How, Place};

/// The most segments that a segment routing header has room for (RFC 8754 section 2)
const MAX_SEGMENTS: usize = 127;

/// The outer hop limit that a packet has before each stage without a header of a binding SID in
/// front
pub(crate) const HIGHEST: u8 = 255;

/// A smallest IPv6 packet (RFC 8200 section 3)
const INNER6: [u8; 40] = [
    0x60, 0, 0, 0, 0, 0, 59, 64, 0x20, 1, 0x0d, 0xb8, 0, 0, 0, 0, 0, 0, 0, 0, 0, 0, 0, 1, 0x20, 1,
    0x0d, 0xb8, 0, 0, 0, 0, 0, 0, 0, 0, 0, 0, 0, 2,
];

/// A smallest IPv4 packet (RFC 791 section 3.1)
const INNER4: [u8; 20] = [
    0x45, 0, 0, 20, 0, 0, 0, 0, 64, 59, 0x76, 0xad, 192, 0, 2, 1, 192, 0, 2, 2,
];

/// The bytes of a smallest packet of a family
fn inner_bytes(family: Family) -> &'static [u8]
    ensures { length result.now ≤ 40 }
{
    match family {
        Family::V6 => &INNER6,
        Family::V4 => &INNER4,
    }
}

/// What the headend puts in front of packets
fn policy_of(intent: &Intent, segments: Vec<Addr>) -> Policy
    requires flow_label { intent.now.flow_label < 2 ^ 20 }
    requires some { 0 < length segments.items }
    requires most { length segments.items ≤ 127 }
    ensures { IsPolicy result }
{
    Policy {
        source: intent.source,
        segments: Seq::new(segments),
        traffic_class: intent.traffic_class,
        flow_label: intent.flow_label,
        hop_limit: HIGHEST,
        reduced: intent.reduced,
    }
}

/// A packet where it leaves the headend; none where no header has room for the segments (RFC 8986
/// sections 5.1 and 5.2)
pub(crate) fn entering(
    alloc: Global,
    intent: &Intent,
    segments: Vec<Addr>,
) -> Result<Option<At>, NoMemory>
    requires { intent.now.flow_label < 2 ^ 20 }
{
    if segments.is_empty() || segments.len() > MAX_SEGMENTS {
        return Ok(None);
    }
    let mut bytes = PktBuf::new(alloc, 2 * MAX_FRONT, inner_bytes(intent.inner))?;
    let policy = policy_of(intent, segments);
    match push(&policy, policy.reduced, intent.inner, &mut bytes) {
        Ok(()) => {}
        Err(PushFault::TooBig { .. }) => return Ok(None),
        Err(PushFault::NoMemory) => return Err(NoMemory),
    }
    Ok(Some(At {
        place: Place {
            node: intent.headend,
            how: How::Submitted { table: 0 },
            family: Family::V6,
        },
        content: Content::enter_buf(Family::V6, bytes),
        done: 0,
        depth: 0,
        handed: false,
    }))
}
