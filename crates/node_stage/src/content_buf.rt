//! What a node holds, in a buffer.

ghost use Rattle.std.specs.Prelude.{◌≡◌, ◌^◌, ◌<◌, max, All, IfOk, OnErr, OnOk};
ghost use Rattle.srv6_rules.specs.Packet.{bytes_of};
ghost use Rattle.srv6_rules.specs.PacketTerms.{IsContent};
ghost use Rattle.node_stage.specs.Fronted.{fronted};

use crate::ip4_packet::Packet4;
use crate::ip6_packet::Packet;
use base::NoMemory;
use pkt_buf::PktBuf;
use policy_encap::MAX_FRONT;
use srv6_rules::Reason;
use std::alloc::{AllocError, Global};
use std::marker::Model;
use std::mem;

#[derive(Debug, Drop)]
pub(crate) enum Held {
    V6(Packet),
    V4(Packet4),
    Unreadable(PktBuf, Reason),
}

/// A packet of IPv6 or IPv4, or bytes that do not read as one and why, with how many bytes are
/// spare in front.
#[derive(Debug, Drop)]
pub struct ContentBuf {
    pub(crate) held: Held,
}

impl Model for ContentBuf {
    ghost use Rattle.node_stage.specs.Fronted.{FrontedContent};
    ghost use Rattle.node_stage.specs.ContentView.{content_view};

    ghost Value = { FrontedContent };

    ghost view = { λ c. content_view c.held };
}

/// Each byte is below 256.
fn are_bytes(bytes: &[u8])
    ensures { All (λ b. b < 2 ^ 8) bytes.now }
{}

impl ContentBuf {
    ghost use Rattle.srv6_rules.specs.Packet.{V6, V4, Unreadable};

    /// The content that an IPv6 packet is.
    pub(crate) fn of(packet: Packet) -> ContentBuf
        ensures { result ≡ fronted (V6 packet.packet) packet.front }
    {
        ContentBuf {
            held: Held::V6(packet),
        }
    }

    /// The content that an IPv4 packet is.
    pub(crate) fn of4(packet: Packet4) -> ContentBuf
        ensures { result ≡ fronted (V4 packet.packet) packet.front }
    {
        ContentBuf {
            held: Held::V4(packet),
        }
    }

    /// Bytes that do not read, for a reason.
    pub(crate) fn unreadable(bytes: PktBuf, reason: Reason) -> ContentBuf
        ensures { result ≡ fronted (Unreadable bytes.bytes reason) bytes.front }
    {
        ContentBuf {
            held: Held::Unreadable(bytes, reason),
        }
    }

    /// Takes the content out without taking memory; what is left is no use.
    pub(crate) fn take(&mut self, alloc: Global) -> ContentBuf
        ensures { result ≡ self.old }
    {
        let empty = PktBuf::of(Vec::new(alloc));
        mem::replace(self, ContentBuf::unreadable(empty, Reason::Truncated))
    }

    /// The same content once more, in memory of its own, with none spare in front.
    pub fn copy(&self, alloc: Global) -> Result<ContentBuf, AllocError>
        ensures { IfOk result (λ copy. copy ≡ fronted self.now.content 0) }
    {
        match &self.held {
            Held::V6(packet) => Ok(ContentBuf::of(packet.copy(alloc)?)),
            Held::V4(packet) => Ok(ContentBuf::of4(packet.copy(alloc)?)),
            Held::Unreadable(bytes, reason) => {
                let bytes = bytes.view().to_vec(alloc)?;
                Ok(ContentBuf::unreadable(PktBuf::of(bytes), *reason))
            }
        }
    }

    /// The bytes in their buffer: those that spell the packet, or those that do not read.
    pub fn into_bytes(self) -> PktBuf
        ensures bytes { result.bytes ≡ bytes_of self.content }
        ensures front { result.front ≡ self.front }
    {
        match self.held {
            Held::V6(packet) => packet.into_bytes(),
            Held::V4(packet) => packet.into_bytes(),
            Held::Unreadable(bytes, _) => bytes,
        }
    }

    /// The bytes: those that spell the packet, or those that do not read.
    pub fn bytes(&self) -> &[u8]
        ensures { result.now ≡ bytes_of self.now.content }
    {
        match &self.held {
            Held::V6(packet) => packet.bytes(),
            Held::V4(packet) => packet.bytes(),
            Held::Unreadable(bytes, _) => bytes.view(),
        }
    }

    /// How many bytes are spare in front.
    pub fn front(&self) -> usize
        ensures { result ≡ self.now.front }
    {
        match &self.held {
            Held::V6(packet) => packet.front(),
            Held::V4(packet) => packet.front(),
            Held::Unreadable(bytes, _) => bytes.front(),
        }
    }

    /// Gives at least 2,080 spare bytes in front, as many as the longest header of a policy has;
    /// what is held stays. Where as many are spare nothing changes and no memory is taken; with
    /// want of memory nothing changes either.
    pub fn reserve(&mut self) -> Result<(), NoMemory>
        ensures content { self.new.content ≡ self.old.content }
        ensures room { OnOk result (self.new.front ≡ max MAX_FRONT self.old.front) }
        ensures err { OnErr result (self.new.front ≡ self.old.front) }
        ensures want { OnErr result (self.old.front < MAX_FRONT) }
    {
        match &mut self.held {
            Held::V6(packet) => packet.reserve(),
            Held::V4(packet) => packet.reserve(),
            Held::Unreadable(bytes, _) => bytes.reserve_front(MAX_FRONT),
        }
    }

    /// Bytes can spell what is held: a packet's fields fit their widths, and each byte is a byte
    ///. For the callers' proofs.
    pub fn keeps_rules(&self)
        ensures { IsContent self.now.content }
    {
        match &self.held {
            Held::V6(packet) => packet.keeps_rules(),
            Held::V4(packet) => packet.keeps_rules(),
            Held::Unreadable(bytes, _) => are_bytes(bytes.view()),
        }
    }
}
