//! Why bytes do not read as a packet.

use srv6_rules::Reason;

/// Why bytes do not read as a packet of a family (RFC 8200 section 3, RFC 791 section 3.1).
#[derive(Clone, Copy, Debug, PartialEq, Eq)]
pub enum ReadFault {
    /// Fewer bytes than a header has, or than it states; or lengths of IPv4 that do not fit one
    /// another.
    Truncated,
    /// The first half byte is not the family's version, 6 or 4.
    BadVersion,
}

impl ReadFault {
    ghost use Rattle.std.specs.Prelude.{◌≡◌, ℕ, List};
    ghost use Rattle.srv6_rules.specs.Packet.{Unreadable};
    ghost use Rattle.ip6_headers.specs.Ip6Reading.{unreadable};

    /// The reason for which a node drops bytes that do not read.
    pub fn reason(self) -> Reason
        ensures { (bytes : List ℕ) → Unreadable bytes result ≡ unreadable bytes self }
    {
        match self {
            ReadFault::Truncated => Reason::Truncated,
            ReadFault::BadVersion => Reason::BadVersion,
        }
    }
}
