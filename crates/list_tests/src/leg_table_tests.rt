//! Tables of strict legs, of positions, SIDs and numbers that there aren't too.

use intent_reader::read_intent;
use leg_table::StrictLegs;
use list_pack::{Legs, Shape};
use net_flatness::compilable;
use net_reader::read_net;
use srv6_rules::Csid;
use std::alloc::Global;
use std::process::Abort;
use std::test::Fail;
use test_networks::ROW;

/// B's End.X over the first of the two links, B's End, D's End and D's End.DT6
const SIDS: &str = r#"
sid = [
    { node = "B", prefix = "fcbb:bb00:e001::/48", behaviour = "End.X", links = ["bc1"] },
    { node = "B", prefix = "fcbb:bb00:2::/48", behaviour = "End" },
    { node = "D", prefix = "fcbb:bb00:4::/48", behaviour = "End" },
    { node = "D", prefix = "fcbb:bb00:f001::/48", behaviour = "End.DT6", title = "vpn", table = 100 },
]
"#;

const ROW_INTENT: &str = r#"
headend = "A"
source = "2001:db8::a"
inner = "ipv6"
mode = "reduced"
step = [{ links = ["ab"] }, { links = ["bc1"] }, { links = ["cd"] }, { function = "vpn" }]
"#;

/// Two nodes that route a SID of a third to each other, and that have a SID of one prefix
const LOOP: &str = r#"
node = [
    { name = "A", address = "2001:db8::a" },
    { name = "B", address = "2001:db8::b" },
    { name = "C", address = "2001:db8::c" },
]
link = [
    { name = "ab", from = "A", to = "B" },
    { name = "ba", from = "B", to = "A" },
]
route = [
    { node = "A", prefix = "fcbb:1::/48", via = ["ab"] },
    { node = "B", prefix = "fcbb:1::/48", via = ["ba"] },
]
sid = [
    { node = "C", prefix = "fcbb:1::/48", behaviour = "End" },
    { node = "B", prefix = "fcbb:2::/48", behaviour = "End" },
    { node = "A", prefix = "fcbb:2::/48", behaviour = "End" },
    { node = "A", prefix = "fcbb:3::/48", behaviour = "End.DT6", title = "vpn", table = 7 },
]
"#;

const LOOP_INTENT: &str = r#"
headend = "A"
source = "2001:db8::a"
inner = "ipv6"
mode = "full"
step = [{ links = ["ab"] }, { links = ["ba"] }, { function = "vpn" }]
"#;

/// The same row with a SID of each kind: at B an End with PSP, an End.X, an End.T with a table of its
/// own and one that binds a policy; at D an End, an End with USD and those that decapsulate
const KINDS: &str = r#"
node = [
  { name = "A", address = "2001:db8::a" },
  { name = "B", address = "2001:db8::b" },
  { name = "C", address = "2001:db8::c" },
  { name = "D", address = "2001:db8::d" },
]
link = [
  { name = "ab", from = "A", to = "B" },
  { name = "bc1", from = "B", to = "C" },
  { name = "bc2", from = "B", to = "C" },
  { name = "cd", from = "C", to = "D" },
  { name = "ce", from = "D" },
]
route = [
  { node = "A", prefix = "fcbb:2::/32", via = ["ab"] },
  { node = "B", prefix = "fcbb:4::/32", via = ["bc1", "bc2"] },
  { node = "B", table = 5, prefix = "fcbb:4::/32", via = ["bc1"] },
  { node = "C", prefix = "fcbb:4::/32", via = ["cd"] },
]
policy = [{ name = "over", source = "2001:db8::b", segments = ["fcbb:4:1::"] }]
sid = [
  { node = "B", prefix = "fcbb:2:1::/48", behaviour = "End", flavours = ["psp"] },
  { node = "B", prefix = "fcbb:2:2::/48", behaviour = "End.X", links = ["bc1"] },
  { node = "B", prefix = "fcbb:2:3::/48", behaviour = "End.T", table = 5 },
  { node = "B", prefix = "fcbb:2:4::/48", behaviour = "End.B6.Encaps", policy = "over" },
  { node = "D", prefix = "fcbb:4:1::/48", behaviour = "End", flavours = ["psp"] },
  { node = "D", prefix = "fcbb:4:2::/48", behaviour = "End", flavours = ["usd"], title = "usd" },
  { node = "D", prefix = "fcbb:4:3::/48", behaviour = "End.DX6", links = ["ce"], title = "dx6" },
  { node = "D", prefix = "fcbb:4:4::/48", behaviour = "End.DX4", links = ["ce"], title = "dx4" },
  { node = "D", prefix = "fcbb:4:5::/48", behaviour = "End.DT6", table = 9, title = "dt6" },
  { node = "D", prefix = "fcbb:4:6::/48", behaviour = "End.DT4", table = 9, title = "dt4" },
  { node = "D", prefix = "fcbb:4:7::/48", behaviour = "End.DT46", table = 9, title = "dt46" },
]
"#;

const KINDS_INTENT: &str = r#"
headend = "A"
source = "2001:db8::a"
mode = "reduced"
step = [{ links = ["ab"] }, { links = ["bc1"] }, { links = ["cd"] }, { function = "#;

/// A block of NEXT SIDs after one of REPLACE; 4 decapsulates
const NEXT: &str = r#"
block = [
  { prefix = "fd00::/16", kind = "replace", csid = 16 },
  { prefix = "fcbb:bb00::/32", kind = "next", csid = 16 },
]
sid = [
  { node = "B", prefix = "fcbb:bb00:2::/48", behaviour = "End", csid = "next" },
  { node = "B", prefix = "fcbb:bb00:e1::/48", behaviour = "End.X", csid = "next", links = ["bc1"] },
  { node = "B", prefix = "fcbb:bb00:e2::/48", behaviour = "End", csid = "next", title = "mark" },
  { node = "D", prefix = "fcbb:bb00:4::/48", behaviour = "End", csid = "next" },
  { node = "D", prefix = "fcbb:bb00:f1::/48", behaviour = "End.DT6", title = "vpn", table = 100 },
  { node = "D", prefix = "2001:db8:1::/48", behaviour = "End" },
]
"#;

/// B's End, an End.X nested in it, and one whose bits after the block's are those of the nested one
/// after the End's
const NESTED: &str = r#"
block = [{ prefix = "fcbb:bb00::/32", kind = "next", csid = 16 }]
sid = [
  { node = "B", prefix = "fcbb:bb00:e001::/48", behaviour = "End.X", csid = "next", links = ["bc2"] },
  { node = "B", prefix = "fcbb:bb00:2::/48", behaviour = "End", csid = "next" },
  { node = "B", prefix = "fcbb:bb00:2:e001::/64", behaviour = "End.X", csid = "next", links = ["bc1"] },
  { node = "D", prefix = "fcbb:bb00:4::/48", behaviour = "End", csid = "next" },
  { node = "D", prefix = "fcbb:bb00:f001::/48", behaviour = "End.DT6", title = "vpn", table = 100 },
]
"#;

/// What legs are to answer.
#[derive(Drop)]
struct Want<'a> {
    /// The SIDs at a position.
    sids: &'a [(u32, &'a [u32])],
    /// The leg from a position and the SID that was executed last to the next SID: how many steps are
    /// done after it, and how often the hop limit is lowered.
    legs: &'a [(u32, Option<u32>, u32, Option<(u32, u32)>)],
    /// How often it is lowered where the next SID ends the walk.
    ends: &'a [(u32, Option<u32>, u32, Option<u32>)],
    /// Whether a SID of a position may stay after another, by their places there.
    stays: &'a [(u32, usize, usize, bool)],
    /// The shape of a SID of a position, by its place there: block, bits, kind, whether it goes on.
    shapes: &'a [(u32, usize, (Option<u32>, u8, Csid, bool))],
}

/// Nothing is asked
const NOTHING: Want<'static> = Want {
    sids: &[],
    legs: &[],
    ends: &[],
    stays: &[],
    shapes: &[],
};

/// The leg, as two numbers
fn leg_of<L: Legs>(legs: &L, position: u32, via: Option<u32>, next: u32) -> Option<(u32, u32)> {
    match legs.leg(position, via, next) {
        Some(leg) => Some((leg.to, leg.hops)),
        None => None,
    }
}

/// The shape of a SID of a position, by its place there
fn shape_at<L: Legs>(rt: &impl Abort, legs: &L, position: u32, place: usize) -> Shape {
    assert!(rt; position <= legs.steps());
    let sids = legs.sids_at(position);
    assert!(rt; place < sids.len());
    let sid = sids[place];
    legs.shape(sid)
}

/// Whether a SID of a position may come directly after another in its container, by their places
fn stays_at<L: Legs>(rt: &impl Abort, legs: &L, position: u32, place: usize, next: usize) -> bool {
    assert!(rt; position <= legs.steps());
    let sids = legs.sids_at(position);
    assert!(rt; place < sids.len() && next < sids.len());
    let sid = sids[place];
    let next = sids[next];
    legs.stays(sid, next)
}

fn assert_sids<L: Legs>(rt: &impl Abort, legs: &L, position: u32, want: &[u32]) {
    assert!(rt; position <= legs.steps());
    assert!(rt; legs.sids_at(position) == want, "at {position}");
}

/// Legs answer so
fn assert_answers<L: Legs>(rt: &impl Abort, legs: &L, want: &Want<'_>) {
    for (position, sids) in want.sids {
        assert_sids(rt, legs, *position, *sids);
    }
    for (position, via, next, leg) in want.legs {
        assert_eq!(rt;
            leg_of(legs, *position, *via, *next),
            *leg,
            "{position} {via:?} {next}"
        );
    }
    for (position, via, next, lowered) in want.ends {
        assert_eq!(rt;
            legs.finish(*position, *via, *next),
            *lowered,
            "{position} {via:?} {next}"
        );
    }
    for (position, place, next, stays) in want.stays {
        assert_eq!(rt;
            stays_at(rt, legs, *position, *place, *next),
            *stays,
            "{position} {place} {next}"
        );
    }
    for (position, place, shape) in want.shapes {
        let got = shape_at(rt, legs, *position, *place);
        assert_eq!(rt;
            (got.block, got.lbl, got.csid, got.middle),
            *shape,
            "{position} {place}"
        );
    }
}

/// The legs of an intent in a network, of these texts, answer so
fn assert_legs(
    rt: &impl Abort,
    alloc: Global,
    net: &str,
    intent: &str,
    want: &Want<'_>,
) -> Result<(), Fail> {
    let net = read_net(alloc, net.as_bytes())?;
    let intent = read_intent(alloc, intent.as_bytes(), &net)?;
    assert!(rt; compilable(alloc, &net).is_ok());
    let legs = StrictLegs::build(alloc, &net, &intent)?;
    assert_answers(rt, &legs, want);
    Ok(())
}

#[test]
fn legs_of_a_row(rt: HostRuntime) -> Result<(), Fail> {
    let text = format!(in rt.alloc(); "{ROW}{SIDS}")?;
    let want = Want {
        sids: &[(0, &[]), (1, &[1, 0]), (2, &[]), (3, &[2]), (4, &[2, 3])],
        legs: &[
            // the path of need 4: 1 and 1 and 2 and 0 lowerings
            (0, None, 1, Some((1, 1))),
            (1, Some(1), 0, Some((1, 1))),
            (1, Some(0), 2, Some((3, 2))),
            // of two equal next hops one is outside the step
            (1, Some(1), 2, None),
            // no position, no SID at a later position, no SID of the position, no SID
            (5, Some(1), 2, None),
            (1, None, 1, None),
            (0, Some(1), 0, None),
            (0, None, 4, None),
            // from and to a SID that decapsulates
            (4, Some(3), 2, None),
            (3, Some(2), 3, None),
        ],
        ends: &[
            (3, Some(2), 3, Some(0)),
            (1, Some(0), 3, None),
            (3, Some(2), 2, None),
            (4, Some(2), 3, None),
            (5, Some(2), 3, None),
        ],
        ..NOTHING
    };
    assert_legs(&rt, rt.alloc(), text.as_str(), ROW_INTENT, &want)
}

/// A packet to 0 goes round for ever, and to 1 it is executed at the headend, whose SID has the same
/// prefix.
#[test]
fn legs_of_a_loop(rt: HostRuntime) -> Result<(), Fail> {
    let want = Want {
        sids: &[(0, &[2]), (1, &[1]), (2, &[2]), (3, &[2, 3])],
        legs: &[
            (0, None, 0, None),
            (0, None, 1, None),
            (0, None, 2, Some((0, 1))),
        ],
        ..NOTHING
    };
    assert_legs(&rt, rt.alloc(), LOOP, LOOP_INTENT, &want)
}

#[test]
fn legs_of_kinds(rt: HostRuntime) -> Result<(), Fail> {
    let intent = format!(in rt.alloc(); "{KINDS_INTENT}\"dx6\" }}]\ninner = \"ipv6\"\n")?;
    let want = Want {
        legs: &[
            // PSP takes nothing away
            (0, None, 0, Some((1, 1))),
            (1, Some(0), 1, Some((1, 1))),
            (1, Some(1), 4, Some((3, 2))),
            // one of two equal next hops is outside the step, but in the table of End.T there is one
            (1, Some(0), 4, None),
            (1, Some(2), 4, Some((3, 2))),
            // to and from a binding SID
            (0, None, 3, None),
            (1, Some(3), 4, None),
            // a function counts once
            (3, Some(4), 5, None),
        ],
        shapes: &[(3, 0, (None, 0, Csid::Plain, true))],
        ..NOTHING
    };
    assert_legs(&rt, rt.alloc(), KINDS, intent.as_str(), &want)
}

/// A SID that ends the walk of a family does so at its position alone, and no other does
fn assert_end(
    rt: &impl Abort,
    alloc: Global,
    title: &str,
    inner: &str,
    sid: u32,
    ends: bool,
) -> Result<(), Fail> {
    let intent = format!(in alloc; "{KINDS_INTENT}\"{title}\" }}]\ninner = \"{inner}\"\n")?;
    let lowered = if ends { Some(0) } else { None };
    let want = Want {
        ends: &[
            (3, Some(4), sid, lowered),
            (2, Some(4), sid, None),
            (3, Some(4), 4, None),
        ],
        ..NOTHING
    };
    assert_legs(rt, alloc, KINDS, intent.as_str(), &want)
}

#[test]
fn finishes_by_family(rt: HostRuntime) -> Result<(), Fail> {
    for (title, sid, six, four) in [
        ("usd", 5, true, true),
        ("dx6", 6, true, false),
        ("dx4", 7, false, true),
        ("dt6", 8, true, false),
        ("dt4", 9, false, true),
        ("dt46", 10, true, true),
    ] {
        assert_end(&rt, rt.alloc(), title, "ipv6", sid, six)?;
        assert_end(&rt, rt.alloc(), title, "ipv4", sid, four)?;
    }
    Ok(())
}

#[test]
fn legs_of_a_block(rt: HostRuntime) -> Result<(), Fail> {
    let text = format!(in rt.alloc(); "{ROW}{NEXT}")?;
    let want = Want {
        sids: &[(1, &[0, 1]), (3, &[5, 3])],
        legs: &[
            (0, None, 0, Some((1, 1))),
            (1, Some(0), 1, Some((1, 1))),
            (1, Some(1), 3, Some((3, 2))),
            (1, Some(0), 3, None),
        ],
        ends: &[(3, Some(3), 4, Some(0))],
        shapes: &[
            (1, 0, (Some(1), 32, Csid::Next, true)),
            (4, 2, (Some(1), 32, Csid::Plain, false)),
            (3, 0, (None, 0, Csid::Plain, true)),
        ],
        ..NOTHING
    };
    assert_legs(&rt, rt.alloc(), text.as_str(), ROW_INTENT, &want)
}

#[test]
fn who_stays_beside_nested_sids(rt: HostRuntime) -> Result<(), Fail> {
    let text = format!(in rt.alloc(); "{ROW}{NESTED}")?;
    let want = Want {
        sids: &[(1, &[1, 2, 0])],
        stays: &[
            (1, 0, 0, true),
            (1, 0, 1, true),
            // the address would be the nested SID's
            (1, 0, 2, false),
            (1, 1, 0, true),
            (1, 1, 2, true),
            (1, 2, 0, true),
            (1, 2, 2, true),
        ],
        // to the nested SID, and to the one around it
        legs: &[(0, None, 2, Some((1, 1))), (0, None, 1, Some((1, 1)))],
        ..NOTHING
    };
    assert_legs(&rt, rt.alloc(), text.as_str(), ROW_INTENT, &want)
}
