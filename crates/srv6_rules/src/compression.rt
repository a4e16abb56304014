//! How a SID's part of a segment list is compressed.

ghost use Rattle.std.specs.Prelude.{◌≡◌, ◌<◌, ◌≤◌};
ghost use Rattle.srv6_rules.specs.Compressed.{csid_count};
ghost use Rattle.srv6_rules.specs.CompressedSteps.{csid_len_of};

use crate::sid::Csid;

/// How a SID is compressed: the front that it shares with the other SIDs of its block, and after
/// it, up to the SID's end, its CSID (RFC 9800 section 3). Lengths are in bits.
#[derive(Clone, Copy, Debug, PartialEq, Eq)]
pub struct Compression {
    /// In which way, if at all.
    pub kind: Csid,
    /// The length of the SID, as a prefix.
    pub prefix_len: u8,
    /// The length of its block.
    pub block_len: u8,
}

impl Compression {
    /// The length of the SID's CSID, in bits (RFC 9800 section 3).
    pub fn csid_len(self) -> u8
        requires { self.block_len ≤ self.prefix_len }
        ensures { result ≡ csid_len_of self }
    {
        self.prefix_len - self.block_len
    }

    /// How many CSIDs of this length an entry of the segment list has room for (RFC 9800 section
    /// 4.2).
    pub fn csid_count(self) -> u8
        requires { self.block_len < self.prefix_len }
        ensures { result ≡ csid_count (csid_len_of self) }
    {
        128 / self.csid_len()
    }
}
