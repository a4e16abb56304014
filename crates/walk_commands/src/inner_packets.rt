//! The inner packets that a frame's bytes begin with, lent.

ghost use Rattle.std.specs.Prelude.{◌≡◌, ◌≤◌, MatchResult, length, take};
ghost use Rattle.srv6_rules.specs.Packet.{most_len};
ghost use Rattle.srv6_rules.specs.declared.family.Family.TheVariants as families;
ghost use Rattle.walk_commands.specs.Headend.{AreDropped, IsInnerOf};

use ip6_headers::{Ip4View, Ip6View};
use srv6_rules::numbers::{IPV6_HEADER_LEN, MAX_PACKET_LEN};
use srv6_rules::{Family, Reason};

/// The bytes that may be a packet's: at most those of a longest one.
fn at_most(bytes: &[u8]) -> &[u8]
    ensures front { result.now ≡ take most_len bytes.now }
    ensures short { length result.now ≤ most_len }
{
    if bytes.len() < MAX_PACKET_LEN {
        bytes
    } else {
        bytes.split_at(MAX_PACKET_LEN).0
    }
}

/// The IPv6 packet that bytes begin with, without what stands after its end, or why they do not
/// read as one.
fn inner6(bytes: &[u8]) -> Result<&[u8], Reason>
    ensures { MatchResult result (λ packet. IsInnerOf families.V6 packet.now bytes.now)
        (λ reason. AreDropped families.V6 reason bytes.now) }
{
    let most = at_most(bytes);
    let len = match Ip6View::read(most) {
        Ok(view) => IPV6_HEADER_LEN + usize::from(view.payload_len()),
        Err(fault) => return Err(fault.reason()),
    };
    Ok(most.split_at(len).0)
}

/// The IPv4 packet that bytes begin with, in the same way.
fn inner4(bytes: &[u8]) -> Result<&[u8], Reason>
    ensures { MatchResult result (λ packet. IsInnerOf families.V4 packet.now bytes.now)
        (λ reason. AreDropped families.V4 reason bytes.now) }
{
    let most = at_most(bytes);
    let len = match Ip4View::read(most) {
        Ok(view) => usize::from(view.total_len()),
        Err(fault) => return Err(fault.reason()),
    };
    Ok(most.split_at(len).0)
}

/// The packet of a family that bytes begin with, without what stands after its end, or the reason
/// for which they are dropped at the headend. Nothing is copied.
pub(crate) fn inner_packet(family: Family, bytes: &[u8]) -> Result<&[u8], Reason>
    ensures { MatchResult result (λ packet. IsInnerOf family packet.now bytes.now)
        (λ reason. AreDropped family reason bytes.now) }
{
    match family {
        Family::V6 => inner6(bytes),
        Family::V4 => inner4(bytes),
    }
}
