//! The family of a packet.

/// The family of a packet (RFC 8200, RFC 791).
#[derive(Clone, Copy, Debug, PartialEq, Eq)]
pub enum Family {
    /// IPv6 (RFC 8200).
    V6,
    /// IPv4 (RFC 791).
    V4,
}
