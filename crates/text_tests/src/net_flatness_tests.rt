//! Networks that are flat, and the first refusal of those that are not; more of these are rows of
//! the program.

use crate::networks::{TWO_NODES, network};
use net_flatness::{NotFlat, compilable};
use std::alloc::{AllocError, Global};
use std::process::Abort;
use std::test::Fail;
use v6_addr::{Prefix, parse_prefix};

/// A NEXT block of 32 bits, whose compressed SIDs have 16, and a REPLACE block of 32 bits, whose
/// compressed SIDs have 32.
const BLOCKS: &str = r#"
block = [
    { prefix = "fcbb:bb00::/32", kind = "next", csid = 16 },
    { prefix = "fd00:1::/32", kind = "replace", csid = 32 },
]
"#;

/// What a SID does, and how it is compressed.
const PLAIN: &str = r#"behaviour = "End""#;

const NEXT: &str = "behaviour = \"End\"\ncsid = \"next\"";

const REPLACE: &str = "behaviour = \"End\"\ncsid = \"replace\"";

const EXIT: &str = "behaviour = \"End.DT6\"\ntable = 0";

/// SIDs that many cases have: their node, their prefix and their kind.
type Sid = (&'static str, &'static str, &'static str);

const OUTER: Sid = ("B", "fcbb:bb00:2::/48", NEXT);

const INNER: Sid = ("B", "fcbb:bb00:2:e001::/64", PLAIN);

const LATER: Sid = ("B", "fcbb:bb00:2:e002::/64", PLAIN);

const APART: Sid = ("A", "fcbb:bb00:e001::/48", NEXT);

const INNER_AT_A: Sid = ("A", "fcbb:bb00:2:e001::/64", PLAIN);

/// What is said of a network: it is flat, or the refusal with prefixes and nodes.
#[derive(Clone, Copy)]
enum Wanted {
    Flat,
    Nested(&'static str, &'static str),
    ZeroCsid(&'static str),
    MixedBlock(&'static str, &'static str),
    Clash(&'static str, u32, u32),
}

/// The prefix of a route of A, SIDs, and what is said of the network.
const CASES: &[(&str, &[Sid], Wanted)] = &[
    // SIDs that fit their blocks
    (
        "::/0",
        &[OUTER, ("A", "fcbb:bb00:2::/48", NEXT)],
        Wanted::Flat,
    ),
    (
        "::/0",
        &[OUTER, ("A", "fcbb:bb00:2::/48", EXIT)],
        Wanted::Flat,
    ),
    (
        "::/0",
        &[
            ("B", "fcbb:bb00:2::/80", PLAIN),
            ("A", "fd00:1:2::/64", REPLACE),
        ],
        Wanted::Flat,
    ),
    // SIDs that are nested at one node
    ("fcbb:bb00:2::/48", &[OUTER, INNER, LATER], Wanted::Flat),
    (
        "fcbb:bb00:2::/48",
        &[OUTER, ("B", "fcbb:bb00:2:e001::/64", NEXT), LATER],
        Wanted::Flat,
    ),
    (
        "fcbb:bb00:2::/48",
        &[OUTER, ("B", "fcbb:bb00:2:e001::/64", EXIT), LATER],
        Wanted::Flat,
    ),
    (
        "::/0",
        &[("B", "fcbb:bb00:2:e001::/64", NEXT), OUTER],
        Wanted::Flat,
    ),
    // other nests: of two nodes, of a plain SID, or with a prefix that stands twice
    (
        "::/0",
        &[OUTER, INNER_AT_A, APART],
        Wanted::Nested("fcbb:bb00:2::/48", "fcbb:bb00:2:e001::/64"),
    ),
    (
        "::/0",
        &[("B", "fcbb:bb00:2::/48", PLAIN), INNER, APART],
        Wanted::Nested("fcbb:bb00:2::/48", "fcbb:bb00:2:e001::/64"),
    ),
    (
        "::/0",
        &[OUTER, INNER, ("A", "fcbb:bb00:2::/48", NEXT)],
        Wanted::Nested("fcbb:bb00:2::/48", "fcbb:bb00:2:e001::/64"),
    ),
    (
        "::/0",
        &[OUTER, INNER, INNER_AT_A],
        Wanted::Nested("fcbb:bb00:2::/48", "fcbb:bb00:2:e001::/64"),
    ),
    (
        "fcbb:bb00:2:e001::/64",
        &[OUTER, INNER],
        Wanted::Nested("fcbb:bb00:2::/48", "fcbb:bb00:2:e001::/64"),
    ),
    // the inner SID's own bits are 0, or are more than 16, or are inside a longer one's
    (
        "::/0",
        &[OUTER, INNER, ("B", "fcbb:bb00:2::/64", NEXT)],
        Wanted::Nested("fcbb:bb00:2::/48", "fcbb:bb00:2::/64"),
    ),
    (
        "::/0",
        &[OUTER, ("B", "fcbb:bb00:2:e001::/80", PLAIN)],
        Wanted::Nested("fcbb:bb00:2::/48", "fcbb:bb00:2:e001::/80"),
    ),
    (
        "::/0",
        &[
            ("B", "fcbb:bb00:2:e001::/64", NEXT),
            ("B", "fcbb:bb00:2:e001::/80", PLAIN),
        ],
        Wanted::Nested("fcbb:bb00:2:e001::/64", "fcbb:bb00:2:e001::/80"),
    ),
    // each refusal before those behind it
    (
        "::/0",
        &[
            ("B", "fcbb:bb00::/48", PLAIN),
            ("A", "fcbb:bb00:0:e001::/64", PLAIN),
        ],
        Wanted::Nested("fcbb:bb00::/48", "fcbb:bb00:0:e001::/64"),
    ),
    (
        "::/0",
        &[
            ("B", "fd00:1:2::/48", PLAIN),
            ("A", "fcbb:bb00::/48", PLAIN),
        ],
        Wanted::ZeroCsid("fcbb:bb00::/48"),
    ),
    (
        "::/0",
        &[
            ("B", "fd00:1:2::/64", PLAIN),
            ("A", "fcbb:bb00::/32", PLAIN),
        ],
        Wanted::MixedBlock("fcbb:bb00::/32", "fcbb:bb00::/32"),
    ),
    (
        "::/0",
        &[("B", "fd00:1:2::/64", PLAIN), ("A", "fcbb::/16", PLAIN)],
        Wanted::MixedBlock("fcbb:bb00::/32", "fcbb::/16"),
    ),
    (
        "::/0",
        &[OUTER, ("A", "fd00:1:2::/48", PLAIN)],
        Wanted::MixedBlock("fd00:1::/32", "fd00:1:2::/48"),
    ),
    (
        "::/0",
        &[
            ("B", "fd00:1:2::/48", PLAIN),
            ("A", "fcbb:bb00:2::/56", PLAIN),
        ],
        Wanted::MixedBlock("fcbb:bb00::/32", "fcbb:bb00:2::/56"),
    ),
    (
        "::/0",
        &[OUTER, ("A", "fcbb:bb00:2::/48", PLAIN)],
        Wanted::Clash("fcbb:bb00:2::/48", 1, 0),
    ),
];

/// The blocks, the route and the SIDs as a text.
fn entries(alloc: Global, to: &str, sids: &[Sid]) -> Result<String, AllocError> {
    let mut text = format!(in alloc;
        "{BLOCKS}[[route]]\nnode = \"A\"\nprefix = \"{to}\"\nvia = [\"ab\"]\n"
    )?;
    for (node, prefix, kind) in sids {
        let sid = format!(in alloc; "[[sid]]\nnode = \"{node}\"\nprefix = \"{prefix}\"\n{kind}\n")?;
        text.push_str(sid.as_str())?;
    }
    Ok(text)
}

fn prefix(rt: &impl Abort, text: &str) -> Prefix {
    parse_prefix(text.as_bytes()).ok().expect(rt, "a prefix")
}

/// What `compilable` should answer.
fn answer(rt: &impl Abort, wanted: Wanted) -> Result<(), NotFlat> {
    match wanted {
        Wanted::Flat => Ok(()),
        Wanted::Nested(outer, inner) => Err(NotFlat::Nested {
            outer: prefix(rt, outer),
            inner: prefix(rt, inner),
        }),
        Wanted::ZeroCsid(sid) => Err(NotFlat::ZeroCsid {
            prefix: prefix(rt, sid),
        }),
        Wanted::MixedBlock(block, sid) => Err(NotFlat::MixedBlock {
            block: prefix(rt, block),
            prefix: prefix(rt, sid),
        }),
        Wanted::Clash(sid, first, second) => Err(NotFlat::Clash {
            prefix: prefix(rt, sid),
            first,
            second,
        }),
    }
}

#[test]
fn networks_are_flat_or_refused(rt: HostRuntime) -> Result<(), Fail> {
    for (to, sids, wanted) in CASES {
        let text = entries(rt.alloc(), to, sids)?;
        let net = network(&rt, rt.alloc(), TWO_NODES, text.as_str());
        assert!(rt;
            compilable(rt.alloc(), &net) == answer(&rt, *wanted),
            "{text}"
        );
    }
    Ok(())
}
