//! Packets that enter at a node as they come.

ghost use Rattle.std.specs.Prelude.{◌≡◌, IfOk, ⊤};
ghost use Rattle.srv6_rules.specs.Packet.{entered};
ghost use Rattle.run_commands.specs.AtNode.{admission_place};
ghost use Rattle.run_commands.specs.AtNodeTerms.{admission_at};

use crate::enters::{EarlyEnd, Enters, Entrant};
use crate::handed_on::refilled;
use base::NoMemory;
use command_output::Unread;
use node_stage::Content;
use pcap_io::{LentBody, LentFrame};
use pkt_buf::PktBuf;
use policy_encap::MAX_FRONT;
use srv6_rules::Family;
use srv6_rules::numbers::MAX_PACKET_LEN;
use walk_rules::{How, Place};

/// A node, at which packets enter.
#[derive(Clone, Copy, Debug, Drop)]
pub(crate) struct AtNode {
    pub(crate) node: u32,
}

impl AtNode {
    /// Where a packet of a family enters.
    fn place(&self, family: Family) -> Place
        ensures { result ≡ admission_place self.now.node family }
    {
        Place {
            node: self.node,
            how: How::Arrived { table: 0 },
            family,
        }
    }
}

/// A copy of bytes in a buffer, with room in front, as they enter a node as a packet of a family.
fn copied(family: Family, bytes: &[u8], buf: &mut PktBuf) -> Result<Content, NoMemory>
    ensures { IfOk result (λ content. content ≡ entered family bytes.now) }
{
    let len = MAX_PACKET_LEN.min(bytes.len());
    let packet = refilled(buf, MAX_FRONT, bytes.split_at(len).0)?;
    Ok(Content::enter_buf(family, packet))
}

impl Enters for AtNode {
    ghost ready = { λ _. ⊤ };

    ghost entry = { admission_at };

    fn stays(&self, frame: &LentFrame<'_>) -> Option<EarlyEnd> {
        match frame.body() {
            LentBody::V6(_) | LentBody::V4(_) => None,
            LentBody::ShortFrame => Some(EarlyEnd::NotRead(Unread::ShortFrame)),
            LentBody::NotIp => Some(EarlyEnd::NotRead(Unread::NotIp)),
        }
    }

    fn enter(&self, frame: &LentFrame<'_>, buf: &mut PktBuf) -> Result<Option<Entrant>, NoMemory> {
        let (family, bytes) = match frame.body() {
            LentBody::V6(bytes) => (Family::V6, bytes),
            LentBody::V4(bytes) => (Family::V4, bytes),
            LentBody::ShortFrame | LentBody::NotIp => return Ok(None),
        };
        Ok(Some(Entrant {
            place: self.place(family),
            content: copied(family, bytes, buf)?,
        }))
    }
}
