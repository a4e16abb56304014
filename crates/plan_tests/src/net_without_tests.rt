//! Networks without parts: the links of the routes that are left, in a row of four nodes.

ghost use Rattle.std.specs.Prelude.{◌≡◌, [], IfOk};

use net_model::{MAX_TEXT_BYTES, Net};
use net_reader::read_net;
use net_without::without;
use std::alloc::Global;
use std::process::Abort;
use std::test::Fail;
use test_networks::ROW;

/// The row, none of whose entries is hidden.
fn row(rt: &impl Abort, alloc: Global) -> Net
    ensures { result.hidden ≡ [] }
{
    assert!(rt; ROW.len() <= MAX_TEXT_BYTES);
    let net = read_net(alloc, ROW.as_bytes()).ok().expect(rt, "a network");
    assert!(rt; net.is_whole());
    net
}

/// Links 1 and 2 lead from the second node to the third, whose number is 2. The routes are told by
/// the links that they have left.
#[test]
fn routes_keep_the_links_that_are_up(rt: HostRuntime) -> Result<(), Fail> {
    let net = row(&rt, rt.alloc());
    let cases: [(&[u32], &[u32], &[&[u32]]); 4] = [
        (&[], &[], &[&[0], &[0], &[1, 2], &[3], &[4]]),
        (&[1], &[], &[&[0], &[0], &[2], &[3], &[4]]),
        (&[1, 2], &[], &[&[0], &[0], &[3], &[4]]),
        (&[], &[2], &[&[0], &[0], &[4]]),
    ];
    for (links, nodes, routes) in cases {
        let left = without(rt.alloc(), &net, links, nodes)?;
        assert_eq!(&rt; left.links(), 5);
        assert_eq!(&rt; left.routes() as usize, routes.len());
        for (number, via) in routes.iter().enumerate() {
            let number = number as u32;
            assert!(&rt; number < left.routes());
            assert_eq!(&rt; left.route(number).via.as_slice(), *via);
        }
    }
    Ok(())
}
