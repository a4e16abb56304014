//! CSIDs and indexes in addresses.

ghost use Rattle.std.specs.Prelude.{◌≡◌, ◌+◌, ◌^◌, ◌<◌};
ghost use Rattle.srv6_rules.specs.Srh.{entries_of};
ghost use Rattle.srv6_rules.specs.Compressed.{csid_count, replace_of, with_index};
ghost use Rattle.srv6_rules.specs.CompressedSteps.{csid_len_of, index_in, is_ended, lacks_entry, listed_csid};
ghost use Rattle.srv6_rules.specs.CompressedStepsTerms.{IsReplace};

use srh_codec::SrhView;
use srv6_rules::Compression;
use v6_addr::{Addr, field, with_field};

/// The index of a destination, below the number of CSIDs in an entry.
#[tactic(auto, unfolding(srv6_rules::specs::Compressed::index_of))]
pub(crate) fn index_in(compression: Compression, destination: Addr) -> u8
    requires { IsReplace compression }
    ensures value { result ≡ index_in compression destination.value }
    ensures below { result < csid_count (csid_len_of compression) }
{
    (destination.value % u128::from(compression.csid_count())) as u8
}

/// The CSID at an index of the segment list's entry at a place.
#[tactic(auto, unfolding(srv6_rules::specs::Compressed::csid_at))]
pub(crate) fn listed_csid(compression: Compression, srh: &SrhView<'_>, entry: u8, index: u8) -> u128
    requires replace { IsReplace compression }
    requires entry { entry < entries_of srh.now }
    requires index { index < csid_count (csid_len_of compression) }
    ensures value { result ≡ listed_csid compression srh.now entry index }
    ensures fits { result < 2 ^ csid_len_of compression }
{
    let csid_len = compression.csid_len();
    field(srh.entry(usize::from(entry)), index * csid_len, csid_len)
}

/// The address with an index in its lowest bits.
#[tactic(auto, unfolding(srv6_rules::specs::Compressed::with_index))]
fn with_index(compression: Compression, destination: Addr, index: u8) -> Addr
    requires replace { IsReplace compression }
    requires index { index < csid_count (csid_len_of compression) }
    ensures { result.value ≡ with_index (csid_len_of compression) destination.value index }
{
    let count = u128::from(compression.csid_count());
    Addr {
        value: destination.value / count * count + u128::from(index),
    }
}

/// The address with another CSID after its block and another index.
#[tactic(auto, unfolding(srv6_rules::specs::Compressed::replace_of))]
pub(crate) fn replaced(compression: Compression, destination: Addr, csid: u128, index: u8) -> Addr
    requires replace { IsReplace compression }
    requires csid { csid < 2 ^ csid_len_of compression }
    requires index { index < csid_count (csid_len_of compression) }
    ensures { result.value
        ≡ replace_of destination.value compression.block_len (csid_len_of compression) csid index }
{
    let written = with_field(
        destination,
        compression.block_len,
        compression.csid_len(),
        csid,
    );
    with_index(compression, written, index)
}

/// The test for the end of the segment list has to read an entry where there is none.
pub(crate) fn lacks_entry(compression: Compression, srh: &SrhView<'_>, destination: Addr) -> bool
    requires { IsReplace compression }
    ensures { result ≡ lacks_entry compression srh.now destination.value }
{
    srh.segments_left() == 0 && index_in(compression, destination) != 0 && srh.entries() == 0
}

/// No segment is left: the entry at 0 is in use, and it has no CSID after the active one.
pub(crate) fn is_ended(
    compression: Compression,
    srh: &SrhView<'_>,
    segments_left: u8,
    destination: Addr,
) -> bool
    requires replace { IsReplace compression }
    requires entry { segments_left ≡ 0 → 0 < index_in compression destination.value
        → 0 < entries_of srh.now }
    ensures { result ≡ is_ended compression srh.now segments_left destination.value }
{
    if segments_left != 0 {
        return false;
    }
    let index = index_in(compression, destination);
    index == 0 || listed_csid(compression, srh, 0, index - 1) == 0
}
