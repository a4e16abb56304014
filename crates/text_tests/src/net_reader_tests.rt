//! A description with each part, and first faults, each with a later one after it; more of these
//! are rows of the program.

use crate::networks::{network, refusal};
use net_model::{Net, Route};
use srv6_rules::{Behaviour, Csid, Family, SidEntry};
use std::test::Fail;

const DESCRIPTION: &str = r#"
[[block]]
prefix = "fcbb:bb00::/32"
kind = "next"
csid = 16

[[node]]
name = "A"
address = "2001:db8::a"

[[node]]
name = "B"
address = "2001:DB8:0:0::b"
allow = [17, 6]

[[link]]
name = "ab"
from = "A"
to = "B"

[[link]]
name = "out1"
from = "B"

[[link]]
name = "out2"
from = "B"

[[route]]
node = "A"
prefix = "fcbb:bb00:4::/48"
via = ["ab"]

[[route]]
node = "B"
table = 100
prefix = "10.1.0.0/16"
via = ["out2", "out1"]

[[policy]]
name = "first"
source = "2001:db8::b"
segments = ["fcbb:bb00:2::"]

[[policy]]
name = "second"
source = "2001:db8::b"
segments = ["fcbb:bb00:2::", "fcbb:bb00:4::"]
flow_label = 1048575

[[sid]]
node = "B"
prefix = "fcbb:bb00:2::/48"
behaviour = "End"
csid = "next"
flavours = ["usd", "psp"]
title = "mark"

[[sid]]
node = "B"
prefix = "fcbb:bb00:e001::/48"
behaviour = "End.X"
links = ["out2"]

[[sid]]
node = "A"
prefix = "fc00::/16"
behaviour = "End.B6.Encaps.Red"
title = "binding"
policy = "second"

[[sid]]
node = "B"
prefix = "fcbb:bb00:f001::/48"
behaviour = "End.DT6"
title = "vpn"
table = 100
"#;

fn has_the_nodes(net: &Net) -> bool {
    match net.parts().nodes.as_slice() {
        [a, b] => {
            a.name.as_bytes() == b"A".as_slice()
                && b.address.value == 0x2001_0db8_0000_0000_0000_0000_0000_000b
                && matches!(b.allow.as_slice(), [17, 6])
        }
        _ => false,
    }
}

fn has_the_links(net: &Net) -> bool {
    match net.parts().links.as_slice() {
        [ab, _, out2] => { ab.from == 0 && ab.to == Some(1) && out2.from == 1 && out2.to.is_none() }
        _ => false,
    }
}

fn is_route(route: &Route, at: (u32, u32), family: Family, via: &[u32]) -> bool {
    route.node == at.0
        && route.table == at.1
        && route.family == family
        && route.via.as_slice() == via
}

fn has_the_routes(net: &Net) -> bool {
    match net.parts().routes.as_slice() {
        [first, second] => {
            is_route(first, (0, 0), Family::V6, &[0])
                && is_route(second, (1, 100), Family::V4, &[2, 1])
        }
        _ => false,
    }
}

fn has_the_policies(net: &Net) -> bool {
    match net.parts().policies.as_slice() {
        [_, second] => {
            second.policy.segments.as_slice().len() == 2 && second.policy.flow_label == 1_048_575
        }
        _ => false,
    }
}

fn is_sid(sid: &SidEntry, node: u32, behaviour: Behaviour, title: Option<u32>) -> bool {
    sid.node == node && sid.behaviour == behaviour && sid.title == title
}

fn is_compressed(sid: &SidEntry) -> bool {
    sid.csid == Csid::Next && sid.block_len == 32 && sid.psp && !sid.usp && sid.usd
}

fn has_the_sids(net: &Net) -> bool {
    match net.parts().sids.as_slice() {
        [mark, cross, binding, vpn] => {
            is_compressed(mark)
                && is_sid(mark, 1, Behaviour::End, Some(0))
                && is_sid(cross, 1, Behaviour::EndX, None)
                && matches!(cross.links.as_slice(), [2])
                && is_sid(binding, 0, Behaviour::B6Red { policy: 1 }, Some(1))
                && is_sid(vpn, 1, Behaviour::Dt6 { table: 100 }, Some(2))
        }
        _ => false,
    }
}

#[test]
fn reads_a_network(rt: HostRuntime) {
    let net = network(&rt, rt.alloc(), DESCRIPTION, "");
    assert!(rt; has_the_nodes(&net));
    assert!(rt; has_the_links(&net));
    assert!(rt; has_the_routes(&net));
    assert!(rt; has_the_policies(&net));
    assert!(rt; has_the_sids(&net));
    assert!(rt; network(&rt, rt.alloc(), "block = []\n", "sid = []\n").nodes() == 0);
}

/// Nothing, and a node with a link that leaves it.
const NOTHING: &str = "";

const NODE: &str = r#"
node = [{ name = "A", address = "::a" }]
link = [{ name = "l", from = "A" }]
"#;

/// What stands in front, a text, and its refusal.
const REFUSED: &[(&str, &str, &str)] = &[
    // of shape
    (NOTHING, "x = 1\n=", "21 NotToml"),
    (NOTHING, "x = 1\nblock = 1", "24 UnknownKey net 0"),
    (NOTHING, "block = 1\nnode = [{}]", "23 WrongKind block 0"),
    (
        NOTHING,
        r#"node = [{ name = "A", x = 1 }]"#,
        "24 UnknownKey node 1",
    ),
    (
        NOTHING,
        "node = [{ name = \"A\" }]\nlink = [{ x = 1 }]",
        "22 MissingKey node 1 address",
    ),
    (
        NOTHING,
        r#"node = [{ name = 1, address = "x" }]"#,
        "23 WrongKind node 1",
    ),
    (
        NOTHING,
        r#"node = [{ name = "A b", address = "x" }]"#,
        "25 BadName node 1",
    ),
    (
        NOTHING,
        r#"node = [{ name = "A", address = "x", allow = [256] }]"#,
        "28 BadAddress node 1",
    ),
    (
        NOTHING,
        "node = [{ name = \"A\", address = \"::a\", allow = [256] }]\nlink = [{}]",
        "32 Limit node 1",
    ),
    (
        NOTHING,
        "block = [{ prefix = \"fc00::/16\", kind = \"x\", csid = 16 }]\nnode = [{}]",
        "29 BadFlavour block 1",
    ),
    // of shape before those of parts
    (
        r#"node = [{ name = "A", address = "::a" }, { name = "A", address = "::a" }]"#,
        "\nsid = [{}]",
        "22 MissingKey sid 1 node",
    ),
    // of nodes and links
    (
        NOTHING,
        r#"node = [{ name = "A", address = "::a" }, { name = "A", address = "::a" }]"#,
        "27 DoubleName node 2",
    ),
    (
        r#"node = [{ name = "A", address = "::a" }, { name = "B", address = "::a" }]"#,
        "\nlink = [{ name = \"l\", from = \"X\" }]",
        "31 DoublePrefix node 2",
    ),
    (
        NOTHING,
        r#"link = [{ name = "l", from = "X", to = "X" }]"#,
        "26 UnknownName link 1",
    ),
    (
        "node = [{ name = \"A\", address = \"::a\" }]\n\
         link = [{ name = \"l\", from = \"A\", to = \"A\" }]\n",
        r#"route = [{ node = "X", prefix = "::/0", via = [] }]"#,
        "30 BadStructure link 1",
    ),
    // of routes
    (
        NODE,
        r#"route = [{ node = "A", prefix = "::/0", via = ["l", "l", "x"] }]"#,
        "26 UnknownName route 1",
    ),
    (
        NODE,
        r#"route = [{ node = "A", prefix = "::/0", via = ["l", "l"] }]"#,
        "30 BadStructure route 1",
    ),
    // of SIDs
    (
        NODE,
        "[[sid]]\nnode = \"A\"\nprefix = \"fc00::/16\"\nbehaviour = \"End\"\ntable = 0\n\
         flavours = [\"psp\", \"psp\"]",
        "30 BadStructure sid 1",
    ),
    (
        NODE,
        "[[sid]]\nnode = \"A\"\nprefix = \"fc00::/16\"\nbehaviour = \"End\"\n\
         flavours = [\"psp\", \"psp\"]\n\
         [[sid]]\nnode = \"A\"\nprefix = \"fc00::/16\"\nbehaviour = \"End\"",
        "29 BadFlavour sid 1",
    ),
    (
        NODE,
        "[[sid]]\nnode = \"A\"\nprefix = \"fc00::/16\"\nbehaviour = \"End.B6.Encaps\"\n\
         policy = \"x\"\nflavours = [\"psp\"]",
        "26 UnknownName sid 1",
    ),
    (
        NODE,
        "[[sid]]\nnode = \"A\"\nprefix = \"fc00::/16\"\nbehaviour = \"End\"\ntitle = \"t\"\n\
         [[sid]]\nnode = \"A\"\nprefix = \"fc00::/16\"\nbehaviour = \"End\"\ntitle = \"t\"",
        "27 DoubleName sid 2",
    ),
];

#[test]
fn first_faults_are_told(rt: HostRuntime) -> Result<(), Fail> {
    for (first, second, told) in REFUSED {
        let said = refusal(rt.alloc(), first, second)?;
        assert!(rt; said.as_str() == *told, "{second}");
    }
    Ok(())
}
