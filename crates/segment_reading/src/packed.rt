//! REPLACE containers, read back from their addresses.

ghost use Rattle.std.specs.Prelude.{◌≡◌, ◌-◌, ◌*◌, ◌<◌, ◌↔◌, IsTrue, List, length, IfOk, Some};
ghost use Rattle.v6_addr.specs.Address.{PrefixValue, field_of};
ghost use Rattle.v6_addr.specs.AddressTerms.{IsPrefix};
ghost use Rattle.srv6_rules.specs.Compressed.{csid_count};
ghost use Rattle.list_pack.specs.SidLists.{sid_block};
ghost use Rattle.segment_reading.specs.Readings.{HasCsid, IsPackedAt, IsSized, PrefixWith};

use crate::asked::csids_of;
use base::NoMemory;
use net_model::{Block, Net};
use std::alloc::Global;
use v6_addr::{Addr, Prefix, field};

/// A prefix lies strictly inside a block, is as much longer as the block's CSIDs are, and has a CSID
fn has_csid(block: &Block, csid: u128, prefix: &Prefix) -> bool
    requires { IsSized block.now }
    ensures is_prefix { IsPrefix prefix.now }
    ensures fact { IsTrue result ↔ HasCsid block.now.prefix block.now.csid csid prefix.now }
{
    let at = block.prefix.len();
    let len = prefix.len();
    prefix.inside(&block.prefix)
        && len == at + block.csid
        && field(prefix.value(), at, block.csid) == csid
}

/// The prefix of a SID of a block with a CSID
fn prefix_with(net: &Net, block: &Block, csid: u128) -> Option<Prefix>
    requires { IsSized block.now }
    ensures { PrefixWith net.now.sids (length net.now.sids) block.now csid result }
{
    for n in 0..net.sids() {
        let prefix = &net.sid(n).prefix;
        if has_csid(block, csid, prefix) {
            return Some(*prefix);
        }
    }
    None
}

/// The CSID at a place of a REPLACE container, the first at the greatest index (RFC 9800 section
/// 4.2)
fn csid_at(block: &Block, address: Addr, place: u8) -> u128
    requires sized { IsSized block.now }
    requires below { place < csid_count block.now.csid }
    ensures { result ≡ field_of address.value ((csid_count block.now.csid - 1 - place)
        * block.now.csid) block.now.csid }
{
    field(
        address,
        (csids_of(block) - 1 - place) * block.csid,
        block.csid,
    )
}

/// The prefixes of a REPLACE container of a block
pub(crate) fn packed_at(
    alloc: Global,
    net: &Net,
    block: &Block,
    address: Addr,
) -> Result<Vec<Prefix>, NoMemory>
    requires sized { IsSized block.now }
    ensures { IfOk result (λ prefixes. (sids : List PrefixValue)
        → IsPackedAt net.now (sid_block block.now) sids address.value → prefixes.items ≡ sids) }
{
    let mut prefixes = Vec::new(alloc);
    for place in 0..csids_of(block) {
        let csid = csid_at(block, address, place);
        if csid == 0 {
            return Ok(prefixes);
        }
        let Some(prefix) = prefix_with(net, block, csid) else {
            return Ok(prefixes);
        };
        prefixes.push(prefix)?;
    }
    Ok(prefixes)
}
