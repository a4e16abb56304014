//! Planned routes of a small network that was worked by hand.

ghost use Rattle.std.specs.Prelude.{◌≡◌};

use net_reader::read_net;
use planned_routes::{Owner, planned_routes};
use srv6_rules::Family;
use std::process::Abort;
use v6_addr::parse_prefix;

/// A triangle of A, B and C with a link out of it, and a route of A to B over C.
const TEXT: &str = r#"
node = [
    { name = "A", address = "2001:db8::a" },
    { name = "B", address = "2001:db8::b" },
    { name = "C", address = "2001:db8::c" },
]
link = [
    { name = "ab", from = "A", to = "B" },
    { name = "ac", from = "A", to = "C" },
    { name = "out", from = "A" },
    { name = "bc", from = "B", to = "C" },
    { name = "cb", from = "C", to = "B" },
]
route = [{ node = "A", prefix = "fc00:0:b::/48", via = ["ac"] }]
"#;

/// The metrics of the links; the link from C to B is down.
const METRICS: &[Option<u32>] = &[Some(10), Some(20), Some(1), Some(10), None];

/// That a node has a prefix, which routes of table 0 lead to.
fn owner(rt: &impl Abort, prefix: &str, node: u32) -> Owner
    ensures { result.node ≡ node }
{
    let prefix = parse_prefix(prefix.as_bytes()).ok().expect(rt, "a prefix");
    Owner {
        table: 0,
        family: Family::V6,
        prefix,
        node,
    }
}

#[test]
fn routes_that_are_missing_are_planned(rt: HostRuntime) {
    let alloc = rt.alloc();
    let net = read_net(alloc, TEXT.as_bytes())
        .ok()
        .expect(&rt, "a network");
    let b = owner(&rt, "fc00:0:b::/48", 1);
    let c = owner(&rt, "fc00:0:c::/48", 2);
    assert!(rt; b.node < net.nodes() && c.node < net.nodes());
    let there = net.parts().routes.as_slice();
    let routes = planned_routes(alloc, &net, METRICS, &[b, c], there)
        .ok()
        .expect(&rt, "memory");
    assert_eq!(rt; routes.len(), 2);
    assert!(rt; routes[0].node == 0 && matches!(routes[0].via.as_slice(), [0, 1]));
    assert!(rt; routes[1].node == 1 && matches!(routes[1].via.as_slice(), [3]));
}
