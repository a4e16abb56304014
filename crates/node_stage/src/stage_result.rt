//! What a stage gives, before the error about what it drops.

ghost use Rattle.std.specs.Prelude.{◌≡◌, ◌+◌, ◌≤◌, length};
ghost use Rattle.srv6_rules.specs.Packet.{V6};
ghost use Rattle.node_stage.specs.Fronted.{fronted};
ghost use Rattle.node_stage.specs.declared.stage_result.Staged.TheVariants.{Drops};

use crate::content_buf::ContentBuf;
use crate::ip6_packet::Packet;
use ip6_headers::Fault;
use srv6_rules::Reason;
use srv6_rules::numbers::IPV6_HEADER_LEN;
use walk_rules::Outcome;

/// What a stage gives.
#[derive(Debug, Drop)]
pub(crate) enum Staged {
    /// An outcome that is no drop, and what stands there after it.
    Goes {
        outcome: Outcome,
        after: ContentBuf,
    },
    /// What stands there is dropped as it is, with the reason's detail: the fault's place in bytes
    /// from its first, or a link's MTU in bytes, and 0 where the reason has none.
    Drops {
        reason: Reason,
        detail: u32,
        content: ContentBuf,
    },
}

/// A packet is dropped as it is, for a fault at a place of it.
pub(crate) fn refused(fault: Fault, packet: Packet) -> Staged
    requires { fault.at ≤ IPV6_HEADER_LEN + length packet.packet.payload }
    ensures { result
        ≡ Drops fault.reason fault.at (fronted (V6 packet.packet) packet.front) }
{
    packet.keeps_rules();
    Staged::Drops {
        reason: fault.reason,
        detail: fault.at as u32,
        content: ContentBuf::of(packet),
    }
}

/// What stands at a node is dropped as it is, for a reason that has no detail.
pub(crate) fn dropped_for(reason: Reason, content: ContentBuf) -> Staged
    ensures { result ≡ Drops reason 0 content }
{
    Staged::Drops {
        reason,
        detail: 0,
        content,
    }
}

/// What stands at a node is dropped as it is, since it is longer than the MTU of the link that was
/// taken (RFC 8200 section 5).
pub(crate) fn too_long(mtu: u32, content: ContentBuf) -> Staged
    ensures { result ≡ Drops Reason.MtuExceeded mtu content }
{
    Staged::Drops {
        reason: Reason::MtuExceeded,
        detail: mtu,
        content,
    }
}
