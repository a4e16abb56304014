//! Lists by their paths and their segments: which are legal, and what stands in them.

ghost use Rattle.std.specs.Prelude.{◌≡◌, []};

use list_pack::{PathStep, SidList, header_bytes, is_legal, list_of, values};
use net_flatness::compilable;
use net_model::Net;
use net_reader::read_net;
use std::alloc::Global;
use std::process::Abort;
use std::test::Fail;
use v6_addr::{Addr, parse_addr, parse_prefix};

/// SIDs of NEXT-CSIDs of 16 bits, and one of their block that is not compressed
const NEXT: &str = r#"
node = [{ name = "A", address = "2001:db8::a" }]
block = [{ prefix = "fcbb:bb00::/32", kind = "next", csid = 16 }]
[[sid]]
node = "A"
prefix = "fcbb:bb00:2::/48"
behaviour = "End"
csid = "next"
[[sid]]
node = "A"
prefix = "fcbb:bb00:e001::/48"
behaviour = "End"
csid = "next"
[[sid]]
node = "A"
prefix = "fcbb:bb00:e002::/48"
behaviour = "End"
csid = "next"
[[sid]]
node = "A"
prefix = "fcbb:bb00:4::/48"
behaviour = "End"
csid = "next"
[[sid]]
node = "A"
prefix = "fcbb:bb00:f001::/48"
behaviour = "End.DT6"
title = "vpn"
table = 9
"#;

/// A SID nested in one of them
const INNER: &str = r#"
[[sid]]
node = "A"
prefix = "fcbb:bb00:2:e001::/64"
behaviour = "End"
csid = "next"
"#;

/// SIDs of REPLACE-CSIDs of 32 bits
const REPLACE: &str = r#"
node = [{ name = "A", address = "2001:db8::a" }]
block = [{ prefix = "2001:db8:b::/48", kind = "replace", csid = 32 }]
sid = [
  { node = "A", prefix = "2001:db8:b:1:1::/80", behaviour = "End", csid = "replace" },
  { node = "A", prefix = "2001:db8:b:2:1::/80", behaviour = "End", csid = "replace" },
  { node = "A", prefix = "2001:db8:b:3:1::/80", behaviour = "End", csid = "replace" },
  { node = "A", prefix = "2001:db8:b:4:f1::/80", behaviour = "End.DT6", csid = "replace",
    title = "vpn", table = 9 },
]
"#;

/// A path of SIDs by the texts of their prefixes; the ones with `true` stay in the container
fn path_of(alloc: Global, steps: &[(bool, &str)]) -> Result<Vec<PathStep>, Fail> {
    let mut path = Vec::new(alloc);
    for (stays, text) in steps {
        path.push(PathStep {
            stays: *stays,
            prefix: parse_prefix((*text).as_bytes())?,
        })?;
    }
    Ok(path)
}

/// The segments of a list, where it is a legal one of a flat network
fn segments(alloc: Global, net: &Net, list: &SidList) -> Option<Vec<Addr>>
    requires { net.now.hidden ≡ [] }
{
    net.keeps_rules();
    if !is_legal(net, list) {
        return None;
    }
    match compilable(alloc, net) {
        Err(_) => None,
        Ok(()) => values(alloc, net, list).ok(),
    }
}

/// The list of a path in the network of a text is legal, with these segments; or it isn't, where
/// there are none.
fn assert_list(
    rt: &impl Abort,
    alloc: Global,
    net: &str,
    steps: &[(bool, &str)],
    want: &[&str],
) -> Result<(), Fail> {
    let net = read_net(alloc, net.as_bytes())?;
    let path = path_of(alloc, steps)?;
    let list = list_of(alloc, &net, path.as_slice())?;
    assert_eq!(rt; is_legal(&net, &list), !want.is_empty(), "{want:?}");
    if want.is_empty() {
        return Ok(());
    }
    let got = segments(alloc, &net, &list).ok_or("no segments")?;
    assert_eq!(rt; got.len(), want.len(), "{want:?}");
    for (segment, text) in got.iter().zip(want) {
        assert_eq!(rt;
            segment.value,
            parse_addr((*text).as_bytes())?.value,
            "{text}"
        );
    }
    Ok(())
}

const B: &str = "fcbb:bb00:2::/48";

const BC1: &str = "fcbb:bb00:e001::/48";

const MARK: &str = "fcbb:bb00:e002::/48";

const D: &str = "fcbb:bb00:4::/48";

const VPN: &str = "fcbb:bb00:f001::/48";

const IN_B: &str = "fcbb:bb00:2:e001::/64";

/// NEXT-CSIDs stand one behind the other, and behind a full container comes another. Behind a SID
/// that is not compressed none stands.
#[test]
fn lists_of_next_sids(rt: HostRuntime) -> Result<(), Fail> {
    let cases: [(&[(bool, &str)], &[&str]); 4] = [
        (
            &[(false, B), (true, BC1), (true, D), (true, VPN)],
            &["fcbb:bb00:2:e001:4:f001::"],
        ),
        (
            &[
                (false, B),
                (true, MARK),
                (true, MARK),
                (true, BC1),
                (true, D),
                (true, VPN),
            ],
            &["fcbb:bb00:2:e002:e002:e001:4:f001"],
        ),
        (
            &[
                (false, B),
                (true, MARK),
                (true, MARK),
                (true, MARK),
                (true, BC1),
                (true, D),
                (false, VPN),
            ],
            &["fcbb:bb00:2:e002:e002:e002:e001:4", "fcbb:bb00:f001::"],
        ),
        (&[(false, VPN), (true, B)], &[]),
    ];
    for (steps, want) in cases {
        assert_list(&rt, rt.alloc(), NEXT, steps, want)?;
    }
    Ok(())
}

/// After B may not come directly a SID that would make the address that of the SID nested in B.
#[test]
fn lists_beside_a_nested_sid(rt: HostRuntime) -> Result<(), Fail> {
    let net = format!(in rt.alloc(); "{NEXT}{INNER}")?;
    let cases: [(&[(bool, &str)], &[&str]); 5] = [
        (
            &[(false, IN_B), (true, D), (true, VPN)],
            &["fcbb:bb00:2:e001:4:f001::"],
        ),
        (
            &[(false, B), (true, MARK), (true, BC1)],
            &["fcbb:bb00:2:e002:e001::"],
        ),
        (&[(false, B), (true, BC1), (true, VPN)], &[]),
        (&[(false, D), (true, B), (true, BC1)], &[]),
        (
            &[(false, B), (false, BC1), (true, VPN)],
            &["fcbb:bb00:2::", "fcbb:bb00:e001:f001::"],
        ),
    ];
    for (steps, want) in cases {
        assert_list(&rt, rt.alloc(), net.as_str(), steps, want)?;
    }
    Ok(())
}

/// Behind a REPLACE SID comes a container of CSIDs, from the last place on.
#[test]
fn lists_of_replace_sids(rt: HostRuntime) -> Result<(), Fail> {
    let steps = [
        (false, "2001:db8:b:1:1::/80"),
        (false, "2001:db8:b:2:1::/80"),
        (true, "2001:db8:b:3:1::/80"),
        (true, "2001:db8:b:4:f1::/80"),
    ];
    let want = ["2001:db8:b:1:1::", "::4:f1:3:1:2:1"];
    assert_list(&rt, rt.alloc(), REPLACE, &steps, &want)
}

/// In the reduced form one container takes no routing header, and the first of more stands in the
/// destination alone.
#[test]
fn bytes_of_headers(rt: HostRuntime) {
    for (containers, reduced, want) in [
        (1, true, 40),
        (2, true, 64),
        (4, true, 96),
        (1, false, 64),
        (4, false, 112),
    ] {
        assert_eq!(rt; header_bytes(containers, reduced), want, "{containers}");
    }
}
