//! How a SID of a description stands, as far as its entry does not tell.

/// Which keys a SID of a description has, and whether it has a flavour twice: what judging needs to
/// know of it beside its entry.
#[derive(Clone, Copy, Debug, PartialEq, Eq)]
pub struct Standing {
    /// It has `links`.
    pub links: bool,
    /// It has `table`.
    pub table: bool,
    /// It has `policy`.
    pub policy: bool,
    /// One of its flavours stands twice.
    pub double_flavour: bool,
}
