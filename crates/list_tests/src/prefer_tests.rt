//! How many SIDs a compiled list has by the intent's preference. A report counts them with `sids` alone.

use intent_compiler::compile;
use intent_reader::read_intent;
use net_reader::read_net;
use std::alloc::Global;
use std::test::Fail;
use test_networks::ROW;

/// NEXT-CSIDs of 16 bits: B's End, and its End.X over the first of the two links; D's End, and its
/// End.DT6
const SIDS: &str = r#"
[[block]]
prefix = "fcbb:bb00::/32"
kind = "next"
csid = 16

[[sid]]
node = "B"
prefix = "fcbb:bb00:2::/48"
behaviour = "End"
csid = "next"

[[sid]]
node = "B"
prefix = "fcbb:bb00:e001::/48"
behaviour = "End.X"
csid = "next"
links = ["bc1"]

[[sid]]
node = "D"
prefix = "fcbb:bb00:4::/48"
behaviour = "End"
csid = "next"

[[sid]]
node = "D"
prefix = "fcbb:bb00:f001::/48"
behaviour = "End.DT6"
title = "vpn"
table = 100
"#;

const INTENT: &str = r#"
headend = "A"
source = "2001:db8::a"
inner = "ipv6"
mode = "reduced"
"#;

/// The containers, the SIDs and the need of the list along the row that crosses these links from B to
/// C, by a preference
fn numbers(alloc: Global, prefer: &str, links: &str) -> Result<(u32, u64, u32), Fail> {
    let net = format!(in alloc; "{ROW}{SIDS}")?;
    let net = read_net(alloc, net.as_bytes())?;
    let intent = format!(in alloc;
        "{INTENT}prefer = \"{prefer}\"\nstep = [{{ links = [\"ab\"] }}, {{ links = [{links}] }},
        {{ links = [\"cd\"] }}, {{ function = \"vpn\" }}]\n"
    )?;
    let intent = read_intent(alloc, intent.as_bytes(), &net)?;
    let list = compile(alloc, &net, &intent).ok().ok_or("a list")?;
    Ok((list.containers, list.sids, list.need))
}

/// Routes go from A to D over either link, so D's End and its End.DT6 are enough. All lists need as
/// much, and the first of them has B's End too.
#[test]
fn equal_next_hops_are_left_to_routes(rt: HostRuntime) -> Result<(), Fail> {
    let both = "\"bc1\", \"bc2\"";
    assert_eq!(rt; numbers(rt.alloc(), "need", both)?, (1, 3, 3));
    assert_eq!(rt; numbers(rt.alloc(), "sids", both)?, (1, 2, 3));
    Ok(())
}

/// One link of the two takes B's End.X, to which no route leads but from B, so its End too.
#[test]
fn one_link_of_two_is_bound(rt: HostRuntime) -> Result<(), Fail> {
    for prefer in ["need", "sids"] {
        assert_eq!(rt; numbers(rt.alloc(), prefer, "\"bc1\"")?, (1, 4, 4));
    }
    Ok(())
}
