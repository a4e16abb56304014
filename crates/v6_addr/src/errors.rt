/// A text that is outside the grammar of addresses, or of prefixes (RFC 4291 sections 2.2 and 2.3,
/// RFC 6943 section 3.1.1, RFC 4632 section 3.1).
#[derive(Debug, Clone, Copy, PartialEq, Eq)]
pub struct BadAddr {
    /// The place of the fault: the length in bytes of the text's longest beginning that
    /// some accepted text begins with. It is the whole text's length where the text is an address,
    /// a slash and a good length, and only a bit of the address after that length is wrong.
    pub at: usize,
}
