//! What a node finds for an address; entries that are hidden and shown again; which lengths a
//! compressed SID may have.

use crate::networks::{TWO_NODES, network, read};
use net_model::{EntryId, Hit, Net};
use srv6_rules::Family;
use std::alloc::{AllocError, Global};
use std::process::Abort;
use std::test::Fail;
use v6_addr::Addr;

/// 2001:db8::1 and 2001:db8::2, the nodes' own
const OWN_A: u128 = 0x2001_0db8_0000_0000_0000_0000_0000_0001;

const OWN_B: u128 = 0x2001_0db8_0000_0000_0000_0000_0000_0002;
/// 10.0.0.0, in the first 32 bits
const NET_10: u128 = 0x0a00_0000_0000_0000_0000_0000_0000_0000;
/// Fcbb:bb00:2:: and fcbb:bb00:2:e001::
const SID: u128 = 0xfcbb_bb00_0002_0000_0000_0000_0000_0000;

const INNER_SID: u128 = 0xfcbb_bb00_0002_e001_0000_0000_0000_0000;

/// A default route and one on A's own address, one of IPv4, SIDs one in the other, and one on B's
/// own address.
const ENTRIES: &str = r#"
route = [
    { node = "A", prefix = "::/0", via = ["ab"] },
    { node = "A", prefix = "2001:db8::1/128", via = ["ab"] },
    { node = "A", prefix = "10.0.0.0/8", via = ["ab"] },
]
sid = [
    { node = "B", prefix = "fcbb:bb00:2::/48", behaviour = "End" },
    { node = "B", prefix = "fcbb:bb00:2:e001::/64", behaviour = "End" },
    { node = "B", prefix = "2001:db8::2/128", behaviour = "End" },
]
"#;

/// What a node finds for an address of a family in a table.
const FOUND: &[(u32, u32, Family, u128, Hit)] = &[
    (0, 0, Family::V6, INNER_SID, Hit::Route(0)),
    (0, 1, Family::V6, INNER_SID, Hit::Nothing),
    (1, 0, Family::V6, INNER_SID, Hit::Sid(1)),
    (1, 0, Family::V6, SID, Hit::Sid(0)),
    (1, 0, Family::V6, OWN_A, Hit::Nothing),
    // of equal prefixes a SID stays, then the address
    (0, 0, Family::V6, OWN_A, Hit::Address),
    (1, 0, Family::V6, OWN_B, Hit::Sid(2)),
    // IPv4 has tables of its own
    (0, 0, Family::V6, NET_10, Hit::Route(0)),
    (0, 0, Family::V4, NET_10, Hit::Route(2)),
    (0, 0, Family::V4, OWN_A, Hit::Nothing),
];

fn found(rt: &impl Abort, net: &Net, at: (u32, u32, Family), value: u128) -> Hit {
    let (node, table, family) = at;
    assert!(rt; node < net.nodes());
    net.lookup(node, table, family, Addr { value })
}

#[test]
fn nodes_look_addresses_up(rt: HostRuntime) -> Result<(), Fail> {
    let net = network(&rt, rt.alloc(), TWO_NODES, ENTRIES);
    for (node, table, family, value, hit) in FOUND {
        let is = found(&rt, &net, (*node, *table, *family), *value);
        assert!(rt; is == *hit, "{value:x}");
    }
    Ok(())
}

/// A has a SID on the prefix of its route, and one on its own address.
const SHADOWED: &str = r#"
route = [{ node = "A", prefix = "fcbb:bb00:2::/48", via = ["ab"] }]
sid = [
    { node = "A", prefix = "fcbb:bb00:2::/48", behaviour = "End" },
    { node = "A", prefix = "2001:db8::1/128", behaviour = "End" },
]
"#;

/// Entries that are shown or hidden one after the other, and what A finds then for the SID's prefix
/// and for its own address.
const MOVES: &[(bool, EntryId, Hit, Hit)] = &[
    (false, EntryId::Sid(0), Hit::Route(0), Hit::Sid(1)),
    (false, EntryId::Sid(1), Hit::Route(0), Hit::Address),
    (false, EntryId::Route(0), Hit::Nothing, Hit::Address),
    (true, EntryId::Sid(0), Hit::Sid(0), Hit::Address),
    (true, EntryId::Route(0), Hit::Sid(0), Hit::Address),
    (false, EntryId::Route(0), Hit::Sid(0), Hit::Address),
    (false, EntryId::Sid(0), Hit::Nothing, Hit::Address),
    (true, EntryId::Route(0), Hit::Route(0), Hit::Address),
    (true, EntryId::Sid(0), Hit::Sid(0), Hit::Address),
    (true, EntryId::Sid(1), Hit::Sid(0), Hit::Sid(1)),
];

fn turn(
    rt: &impl Abort,
    alloc: Global,
    net: &mut Net,
    shown: bool,
    entry: EntryId,
) -> Result<(), AllocError> {
    assert!(rt; net.can_hide(entry));
    assert!(rt; net.is_shown(entry) != shown);
    if shown {
        net.show(alloc, entry)?;
    } else {
        net.hide(entry);
    }
    Ok(())
}

#[test]
fn what_stands_behind_a_hidden_entry_comes_forth(rt: HostRuntime) -> Result<(), Fail> {
    let mut net = network(&rt, rt.alloc(), TWO_NODES, SHADOWED);
    for (shown, entry, sid, own) in MOVES {
        turn(&rt, rt.alloc(), &mut net, *shown, *entry)?;
        assert!(rt; found(&rt, &net, (0, 0, Family::V6), SID) == *sid);
        assert!(rt; found(&rt, &net, (0, 0, Family::V6), OWN_A) == *own);
    }
    assert!(rt; net.is_whole());
    Ok(())
}

/// A block of 32 bits, whose compressed SIDs have 16.
const BLOCK: &str = r#"block = [{ prefix = "fcbb:bb00::/32", kind = "next", csid = 16 }]"#;

/// Whether B may have an End of NEXT-CSID on a prefix of so many bits in the block.
fn takes_next(alloc: Global, len: u8) -> Result<bool, AllocError> {
    let sid = format!(in alloc;
        "{BLOCK}
sid = [{{ node = \"B\", prefix = \"fcbb:bb00::/{len}\", behaviour = \"End\", csid = \"next\" }}]"
    )?;
    Ok(read(alloc, TWO_NODES, sid.as_str()).is_ok())
}

#[test]
fn compressed_sids_lie_strictly_inside_a_block(rt: HostRuntime) -> Result<(), Fail> {
    for (len, takes) in &[
        (32, false),
        (33, false),
        (48, true),
        (64, true),
        (80, false),
    ] {
        assert!(rt; takes_next(rt.alloc(), *len)? == *takes, "{len}");
    }
    Ok(())
}
