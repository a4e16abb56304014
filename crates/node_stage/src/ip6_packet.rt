//! An IPv6 packet in its bytes.

ghost use Rattle.std.specs.Prelude.{◌≡◌, ◌-◌, ◌<◌, ◌≤◌, length, max, IfOk, OnErr, OnOk};
ghost use Rattle.srv6_rules.specs.Packet.{IsSpellable, packet_at, spelling};
ghost use Rattle.ip6_headers.specs.Ip6Reading.{HoldsPacket};
ghost use Rattle.endpoint_chain.specs.Outcomes.{HoldsAlone};

use base::NoMemory;
use ip6_headers::Ip6View;
use pkt_buf::PktBuf;
use policy_encap::MAX_FRONT;
use srv6_rules::numbers::{HOP_LIMIT_AT, IPV6_HEADER_LEN};
use std::alloc::{AllocError, Global};
use std::marker::Model;
use v6_addr::Addr;

/// An IPv6 packet (RFC 8200 section 3) in a buffer with bytes that spell it: nothing stands after
/// its end.
#[derive(Debug, Drop)]
pub(crate) struct Packet {
    bytes: PktBuf,
}

impl Model for Packet {
    ghost use Rattle.srv6_rules.specs.Packet.{packet_at};
    ghost use Rattle.endpoint_chain.specs.Outcomes.{HoldsAlone};
    ghost use Rattle.node_stage.specs.FrontedTerms.{FrontedPacket};

    ghost Value = { FrontedPacket };

    ghost view = { λ p. record { packet = packet_at p.bytes.bytes; front = p.bytes.front } };

    ghost invariant = { λ p. HoldsAlone p.bytes.bytes };
}

impl Packet {
    /// The packet that bytes begin with, in place: what stands after its end is cut.
    pub(crate) fn at_front(mut bytes: PktBuf) -> Packet
        requires { HoldsPacket bytes.bytes }
        ensures { result ≡ record { packet = packet_at bytes.bytes; front = bytes.front } }
    {
        let len = Ip6View::over(bytes.view()).payload_len();
        bytes.truncate(IPV6_HEADER_LEN + usize::from(len));
        Packet { bytes }
    }

    /// The packet in bytes that hold it alone.
    pub(crate) fn alone(bytes: PktBuf) -> Packet
        requires { HoldsAlone bytes.bytes }
        ensures { result ≡ record { packet = packet_at bytes.bytes; front = bytes.front } }
    {
        Packet { bytes }
    }

    /// The packet as a view of its bytes.
    pub(crate) fn view(&self) -> Ip6View<'_>
        ensures { result ≡ self.now.packet }
    {
        Ip6View::over(self.bytes.view())
    }

    /// The hop limit.
    pub(crate) fn hop_limit(&self) -> u8
        ensures { result ≡ self.now.packet.hop_limit }
    {
        self.view().hop_limit()
    }

    /// The destination address.
    pub(crate) fn destination(&self) -> Addr
        ensures { result.value ≡ self.now.packet.destination }
    {
        self.view().destination()
    }

    /// The packet's bytes, which spell it.
    pub(crate) fn bytes(&self) -> &[u8]
        ensures spelled { result.now ≡ spelling self.now.packet }
        ensures packet { packet_at result.now ≡ self.now.packet }
        ensures alone { HoldsAlone result.now }
    {
        self.bytes.view()
    }

    /// How many bytes the packet has, its header among them.
    pub(crate) fn len(&self) -> usize
        ensures { result ≡ length (spelling self.now.packet) }
    {
        self.bytes().len()
    }

    /// The packet's bytes, in place.
    pub(crate) fn into_bytes(self) -> PktBuf
        ensures packet { packet_at result.bytes ≡ self.packet }
        ensures spelled { result.bytes ≡ spelling self.packet }
        ensures alone { HoldsAlone result.bytes }
        ensures front { result.front ≡ self.front }
    {
        self.bytes
    }

    /// How many bytes are spare in front.
    pub(crate) fn front(&self) -> usize
        ensures { result ≡ self.now.front }
    {
        self.bytes.front()
    }

    /// Gives room in front for the longest header of a policy; with want of memory, which comes
    /// only where there is less, nothing changes.
    pub(crate) fn reserve(&mut self) -> Result<(), NoMemory>
        ensures packet { self.new.packet ≡ self.old.packet }
        ensures room { OnOk result (self.new.front ≡ max MAX_FRONT self.old.front) }
        ensures err { OnErr result (self.new.front ≡ self.old.front) }
        ensures want { OnErr result (self.old.front < MAX_FRONT) }
    {
        self.bytes.reserve_front(MAX_FRONT)
    }

    /// The packet once more, in memory of its own, with none spare in front.
    pub(crate) fn copy(&self, alloc: Global) -> Result<Packet, AllocError>
        ensures { IfOk result (λ copy. copy ≡ record { packet = self.now.packet; front = 0 }) }
    {
        let bytes = self.bytes().to_vec(alloc)?;
        Ok(Packet {
            bytes: PktBuf::of(bytes),
        })
    }

    /// The fields fit their widths, so that bytes can spell the packet. For the callers' proofs.
    pub(crate) fn keeps_rules(&self)
        ensures { IsSpellable self.now.packet }
    {
        self.view().keeps_rules();
    }

    /// Lowers the hop limit by one, in place.
    pub(crate) fn lower_hop_limit(&mut self)
        requires { 1 ≤ self.old.packet.hop_limit }
        ensures packet { self.new.packet
            ≡ record self.old.packet { hop_limit = self.old.packet.hop_limit - 1 } }
        ensures front { self.new.front ≡ self.old.front }
    {
        let hop_limit = self.hop_limit() - 1;
        self.bytes.set(HOP_LIMIT_AT, hop_limit);
    }
}
