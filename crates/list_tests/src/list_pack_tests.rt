//! Rooms and costs.

use list_pack::{Cost, PathStep, Shape, full_room, is_below, move_cost, plus, step_before};
use srv6_rules::Csid;
use std::test::Fail;
use v6_addr::{Addr, Prefix};

/// A SID of a block of 32 bits, with one 16-bit unit after them
fn unit(csid: Csid) -> Option<Shape> {
    let value = 0xfcbb_bb00_0001_0000_0000_0000_0000_0000;
    let prefix = Prefix::new(Addr { value }, 48)?;
    Some(Shape {
        prefix,
        block: Some(0),
        lbl: 32,
        csid,
        middle: true,
    })
}

/// A cost
fn cost(containers: u32, sids: u32, hops: u32) -> Cost {
    Cost {
        containers,
        sids,
        hops,
    }
}

#[test]
fn next_leaves_what_is_behind_its_prefix(rt: HostRuntime) -> Result<(), Fail> {
    let shape = unit(Csid::Next).ok_or("a prefix")?;
    assert_eq!(rt; full_room(&shape), 5);
    Ok(())
}

#[test]
fn costs_and_steps(rt: HostRuntime) -> Result<(), Fail> {
    let shape = unit(Csid::Plain).ok_or("a prefix")?;
    let one = move_cost(1, false, 3);
    let two = plus(one, move_cost(1, true, 9));
    assert!(rt; two == cost(1, 2, 12));
    assert!(rt; plus(move_cost(0, false, 3), move_cost(0, true, 9)) == cost(1, 0, 12));
    assert!(rt; is_below(one, two));
    let stays = PathStep {
        stays: true,
        prefix: shape.prefix,
    };
    let opens = PathStep {
        stays: false,
        prefix: shape.prefix,
    };
    assert!(rt; step_before(&stays, &opens));
    Ok(())
}

/// Containers are compared first, then SIDs, then hops.
#[test]
fn costs_in_their_order(rt: HostRuntime) -> Result<(), Fail> {
    let one = cost(1, 2, 9);
    for more in [cost(2, 1, 1), cost(1, 3, 1), cost(1, 2, 10)] {
        assert!(rt; is_below(one, more));
        assert!(rt; !is_below(more, one));
    }
    assert!(rt; !is_below(one, one));
    Ok(())
}
