//! An IPv4 packet in its bytes.

ghost use Rattle.std.specs.Prelude.{◌≡◌, ◌<◌, ◌≤◌, length, max, IfOk, OnErr, OnOk};
ghost use Rattle.srv6_rules.specs.Packet4.{IsSpellable4, destination4, lowered4, packet4_at, spelling4, ttl};
ghost use Rattle.ip6_headers.specs.Ip4Reading.{HoldsPacket4};

use base::NoMemory;
use ip6_headers::{Ip4View, lower_ttl};
use pkt_buf::PktBuf;
use policy_encap::MAX_FRONT;
use std::alloc::{AllocError, Global};
use std::marker::Model;
use v6_addr::Addr;

/// An IPv4 packet (RFC 791 section 3.1) in a buffer with bytes that spell it: nothing stands after
/// its end.
#[derive(Debug, Drop)]
pub(crate) struct Packet4 {
    bytes: PktBuf,
}

impl Model for Packet4 {
    ghost use Rattle.srv6_rules.specs.Packet4.{packet4_at};
    ghost use Rattle.node_stage.specs.Alone4.{HoldsAlone4};
    ghost use Rattle.node_stage.specs.FrontedTerms.{FrontedPacket4};

    ghost Value = { FrontedPacket4 };

    ghost view = { λ p. record { packet = packet4_at p.bytes.bytes; front = p.bytes.front } };

    ghost invariant = { λ p. HoldsAlone4 p.bytes.bytes };
}

/// The packet in bytes that hold one.
fn view_of(bytes: &[u8]) -> Ip4View<'_>
    requires { HoldsPacket4 bytes.now }
    ensures { result ≡ packet4_at bytes.now }
{
    let Ok(view) = Ip4View::read(bytes) else {
        unreachable!()
    };
    view
}

impl Packet4 {
    /// The packet that bytes begin with, in place: what stands after its end is cut.
    pub(crate) fn at_front(mut bytes: PktBuf) -> Packet4
        requires { HoldsPacket4 bytes.bytes }
        ensures { result ≡ record { packet = packet4_at bytes.bytes; front = bytes.front } }
    {
        let len = view_of(bytes.view()).total_len();
        bytes.truncate(usize::from(len));
        Packet4 { bytes }
    }

    /// The packet as a view of its bytes.
    fn view(&self) -> Ip4View<'_>
        ensures { result ≡ self.now.packet }
    {
        view_of(self.bytes.view())
    }

    /// The time to live.
    pub(crate) fn ttl(&self) -> u8
        ensures { result ≡ ttl self.now.packet }
    {
        self.view().ttl()
    }

    /// The destination address, in the highest 32 bits.
    pub(crate) fn destination(&self) -> Addr
        ensures { result.value ≡ destination4 self.now.packet }
    {
        self.view().destination()
    }

    /// The packet's bytes, which spell it.
    pub(crate) fn bytes(&self) -> &[u8]
        ensures { result.now ≡ spelling4 self.now.packet }
    {
        self.bytes.view()
    }

    /// How many bytes the packet has, its header among them.
    pub(crate) fn len(&self) -> usize
        ensures { result ≡ length (spelling4 self.now.packet) }
    {
        self.bytes().len()
    }

    /// The packet's bytes, which spell it, in place.
    pub(crate) fn into_bytes(self) -> PktBuf
        ensures spelled { result.bytes ≡ spelling4 self.packet }
        ensures front { result.front ≡ self.front }
    {
        self.bytes
    }

    /// How many bytes are spare in front.
    pub(crate) fn front(&self) -> usize
        ensures { result ≡ self.now.front }
    {
        self.bytes.front()
    }

    /// Gives room in front for the longest header of a policy; with want of memory, which comes
    /// only where there is less, nothing changes.
    pub(crate) fn reserve(&mut self) -> Result<(), NoMemory>
        ensures packet { self.new.packet ≡ self.old.packet }
        ensures room { OnOk result (self.new.front ≡ max MAX_FRONT self.old.front) }
        ensures err { OnErr result (self.new.front ≡ self.old.front) }
        ensures want { OnErr result (self.old.front < MAX_FRONT) }
    {
        self.bytes.reserve_front(MAX_FRONT)
    }

    /// The packet once more, in memory of its own, with none spare in front.
    pub(crate) fn copy(&self, alloc: Global) -> Result<Packet4, AllocError>
        ensures { IfOk result (λ copy. copy ≡ record { packet = self.now.packet; front = 0 }) }
    {
        let bytes = self.bytes.view().to_vec(alloc)?;
        Ok(Packet4 {
            bytes: PktBuf::of(bytes),
        })
    }

    /// Bytes can spell the packet: its header is as long as it states, and states the packet's
    /// length. For the callers' proofs.
    pub(crate) fn keeps_rules(&self)
        ensures { IsSpellable4 self.now.packet }
    {
        let _bytes = &self.bytes;
    }

    /// Lowers the time to live by one, in place; the checksum follows (RFC 1624 section 3).
    pub(crate) fn lower_ttl(&mut self)
        requires { 1 ≤ ttl self.old.packet }
        ensures packet { self.new.packet ≡ lowered4 self.old.packet }
        ensures front { self.new.front ≡ self.old.front }
    {
        lower_ttl(self.bytes.view_mut());
    }
}
