/// An IPv6 address (RFC 4291 section 2): a number of 128 bits, where bit 0 is the highest.
#[derive(Clone, Copy, Debug, PartialEq, Eq, PartialOrd, Ord, Hash)]
pub struct Addr {
    /// The address as a number.
    pub value: u128,
}
