//! What a node holds: a packet of either family, or bytes that do not read as one.

ghost use Rattle.std.specs.Prelude.{◌≡◌, length, IfOk};
ghost use Rattle.srv6_rules.specs.Packet.{bytes_of, entered};
ghost use Rattle.srv6_rules.specs.PacketTerms.{IsContent};

use crate::content_buf::ContentBuf;
use pkt_buf::PktBuf;
use srv6_rules::Family;
use std::alloc::{AllocError, Global};
use std::marker::Model;

/// A packet of IPv6 or IPv4, or bytes that do not read as one and why, whatever is spare in front
#[derive(Debug, Drop)]
pub struct Content {
    pub(crate) buf: ContentBuf,
}

impl Model for Content {
    ghost use Rattle.srv6_rules.specs.Packet.{Content as ContentValue};

    ghost Value = { ContentValue };

    ghost view = { λ c. c.buf.content };
}

impl Content {
    /// What enters a node with the bytes of a buffer as a packet of a family, in place: of bytes
    /// that do not read at most 65,575 are kept.
    pub fn enter_buf(family: Family, buf: PktBuf) -> Content
        ensures { result ≡ entered family buf.bytes }
    {
        Content {
            buf: ContentBuf::enter_buf(family, buf),
        }
    }

    /// What enters a node with these bytes as a packet of a family, in place, as from a buffer.
    pub fn enter(family: Family, bytes: Vec<u8>) -> Content
        ensures { result ≡ entered family bytes.items }
    {
        Content::enter_buf(family, PktBuf::of(bytes))
    }

    /// The same, with what is spare in front of it, in place.
    pub fn into_buf(self) -> ContentBuf
        ensures { result.content ≡ self }
    {
        self.buf
    }

    /// The bytes in their buffer: those that spell the packet, or those that do not read.
    pub fn into_bytes(self) -> PktBuf
        ensures { result.bytes ≡ bytes_of self }
    {
        self.buf.into_bytes()
    }

    /// The same once more, in memory of its own.
    pub fn copy(&self, alloc: Global) -> Result<Content, AllocError>
        ensures { IfOk result (λ copy. copy ≡ self.now) }
    {
        let buf = self.buf.copy(alloc)?;
        Ok(Content { buf })
    }

    /// The bytes: those that spell the packet, or those that do not read.
    pub fn bytes(&self) -> &[u8]
        ensures { result.now ≡ bytes_of self.now }
    {
        self.buf.bytes()
    }

    /// The length of the bytes.
    pub fn len(&self) -> usize
        ensures { result ≡ length (bytes_of self.now) }
    {
        self.bytes().len()
    }

    /// Bytes can spell what is held: a packet's fields fit their widths, and each byte is a byte
    ///. For the callers' proofs.
    pub fn keeps_rules(&self)
        ensures { IsContent self.now }
    {
        self.buf.keeps_rules();
    }
}
