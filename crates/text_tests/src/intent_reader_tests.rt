//! Intents in a network of four nodes: their values, and first faults, each with a later one after
//! it; more of these are rows of the program.

use crate::networks::network;
use intent_reader::{Intent, IntentFault, Prefer, Step, is_intent, read_intent};
use net_model::Net;
use srv6_rules::Family;
use std::alloc::{AllocError, Global};
use std::process::Abort;
use std::test::Fail;
use text_faults::OrNoMemory;
use text_faults::OrNoMemory::{Fault, NoMemory};

/// Two links from B to C, one past B, and one out of the network from D.
const NODES: &str = r#"
node = [
    { name = "A", address = "2001:db8::a" },
    { name = "B", address = "2001:db8::b" },
    { name = "C", address = "2001:db8::c" },
    { name = "D", address = "2001:db8::d" },
]
link = [
    { name = "ab", from = "A", to = "B" },
    { name = "bc1", from = "B", to = "C" },
    { name = "bc2", from = "B", to = "C" },
    { name = "cd", from = "C", to = "D" },
    { name = "ac", from = "A", to = "C" },
    { name = "out", from = "D" },
]
"#;

/// A function at B and one at D.
const FUNCTIONS: &str = r#"
sid = [
    { node = "B", prefix = "fcbb:bb00:2::/128", behaviour = "End", title = "mark" },
    { node = "D", prefix = "fcbb:bb00:f001::/128", behaviour = "End", title = "vpn" },
]
"#;

/// The keys of an intent at A but for its steps.
const FROM_A: &str = r#"
headend = "A"
source = "2001:db8::a"
inner = "ipv6"
mode = "reduced"
"#;

/// The same at a node that is not there.
const FROM_NOWHERE: &str = r#"
headend = "Z"
source = "2001:db8::a"
inner = "ipv6"
mode = "reduced"
"#;

/// Each number at its greatest.
const FROM_D: &str = r#"
headend = "D"
source = "::1"
inner = "ipv4"
mode = "full"
hop_limit = 255
max_containers = 127
traffic_class = 255
flow_label = 1048575
"#;

fn read(
    alloc: Global,
    net: &Net,
    words: &str,
    steps: &str,
) -> Result<Intent, OrNoMemory<IntentFault>> {
    let text = format!(in alloc; "{words}{steps}")?;
    read_intent(alloc, text.as_bytes(), net)
}

/// What a step is to do, with the numbers of links, of a SID or of a node.
#[derive(Clone, Copy)]
enum Wanted {
    Over(&'static [u32]),
    At(u32),
    To(u32),
}

fn is_step(step: &Step, wanted: Wanted) -> bool {
    match (step, wanted) {
        (Step::Links(set), Wanted::Over(links)) => set.as_slice() == links,
        (Step::Function(sid), Wanted::At(number)) => *sid == number,
        (Step::Reach(node), Wanted::To(number)) => *node == number,
        (Step::Links(_) | Step::Function(_) | Step::Reach(_), _) => false,
    }
}

fn has_steps(intent: &Intent, wanted: &[Wanted]) -> bool {
    let steps = intent.steps.as_slice();
    if steps.len() != wanted.len() {
        return false;
    }
    for (step, want) in steps.iter().zip(wanted) {
        if !is_step(step, *want) {
            return false;
        }
    }
    true
}

/// The numbers of the headend, of the hop limit, of containers, of the traffic class and of the
/// flow label.
fn numbers_of(intent: &Intent) -> [u32; 5] {
    [
        intent.headend,
        u32::from(intent.hop_limit),
        u32::from(intent.max_containers),
        u32::from(intent.traffic_class),
        intent.flow_label,
    ]
}

/// The keys, the steps, the numbers that are read, and the steps that are.
const INTENTS: &[(&str, &str, [u32; 5], &[Wanted])] = &[
    (
        FROM_A,
        r#"step = [{ links = ["ab"] }, { function = "mark" },
            { links = ["bc2", "bc1"] }, { links = ["cd"] }, { function = "vpn" }]"#,
        [0, 64, 10, 0, 0],
        &[
            Wanted::Over(&[0]),
            Wanted::At(0),
            Wanted::Over(&[2, 1]),
            Wanted::Over(&[3]),
            Wanted::At(1),
        ],
    ),
    (
        FROM_A,
        r#"step = [{ reach = "C" }, { links = ["cd"] }, { function = "vpn" }]"#,
        [0, 64, 10, 0, 0],
        &[Wanted::To(2), Wanted::Over(&[3]), Wanted::At(1)],
    ),
    (
        FROM_D,
        r#"step = [{ function = "vpn" }]"#,
        [3, 255, 127, 255, 1_048_575],
        &[Wanted::At(1)],
    ),
];

/// The intent of a text in a network.
fn intent_of(rt: &impl Abort, alloc: Global, net: &Net, words: &str, steps: &str) -> Intent {
    let intent = read(alloc, net, words, steps).ok().expect(rt, "an intent");
    assert!(rt; is_intent(net, &intent));
    intent
}

#[test]
fn intents_are_read(rt: HostRuntime) {
    let net = network(&rt, rt.alloc(), NODES, FUNCTIONS);
    for (words, steps, numbers, wanted) in INTENTS {
        let intent = intent_of(&rt, rt.alloc(), &net, words, steps);
        assert!(rt; numbers_of(&intent) == *numbers, "{steps}");
        assert!(rt; has_steps(&intent, wanted), "{steps}");
    }
    let intent = intent_of(
        &rt,
        rt.alloc(),
        &net,
        FROM_D,
        r#"step = [{ function = "vpn" }]"#,
    );
    assert!(rt; intent.source.value == 1 && intent.inner == Family::V4 && !intent.reduced);
}

/// The steps with what stands before them, the preference that is read, and what a SID costs by it.
const PREFERENCES: &[(&str, Prefer, u32)] = &[
    (r#"step = [{ function = "vpn" }]"#, Prefer::Need, 0),
    (
        r#"prefer = "need"
            step = [{ function = "vpn" }]"#,
        Prefer::Need,
        0,
    ),
    (
        r#"prefer = "sids"
            step = [{ function = "vpn" }]"#,
        Prefer::Sids,
        1,
    ),
];

#[test]
fn preferences_are_read(rt: HostRuntime) {
    let net = network(&rt, rt.alloc(), NODES, FUNCTIONS);
    for (steps, wanted, cost) in PREFERENCES {
        let intent = intent_of(&rt, rt.alloc(), &net, FROM_D, steps);
        assert!(rt; intent.prefer == *wanted, "{steps}");
        assert!(rt; intent.prefer.sid_cost() == *cost, "{steps}");
    }
}

/// The keys, the steps, and the refusal.
const REFUSED: &[(&str, &str, &str)] = &[
    ("headend =", "", "33 Text NotToml"),
    // a list of links is empty; no node is Z
    (
        FROM_NOWHERE,
        r#"step = [{ links = ["zz"] }, { links = [] }]"#,
        "33 Text Limit step 2",
    ),
    // another word, an empty one, a number and a list stand at `prefer`; there are no steps
    (FROM_A, r#"prefer = "hops""#, "33 Text BadFlavour intent 0"),
    (FROM_A, r#"prefer = """#, "33 Text BadFlavour intent 0"),
    (FROM_A, "prefer = 1", "33 Text WrongKind intent 0"),
    (FROM_A, r#"prefer = ["sids"]"#, "33 Text WrongKind intent 0"),
    // a flow label has 21 bits; another word stands at `prefer`
    (
        FROM_A,
        r#"prefer = "hops"
            flow_label = 1048576"#,
        "33 Text Limit intent 0",
    ),
    // a word stands at `prefer`; there are no steps
    (
        FROM_A,
        r#"prefer = "sids""#,
        "33 Text MissingKey intent 0 step",
    ),
    // there is no key `prefers`; a number stands at `prefer`
    (
        FROM_A,
        r#"prefer = 1
            prefers = "sids""#,
        "33 Text UnknownKey intent 0",
    ),
    // a step has no key `prefer`
    (
        FROM_A,
        r#"step = [{ prefer = "sids" }]"#,
        "33 Text UnknownKey step 1",
    ),
    // no node is Z; no link is zz
    (
        FROM_NOWHERE,
        r#"step = [{ links = ["zz"] }]"#,
        "34 UnknownName 0",
    ),
    // no link is zz; bc1 stands twice
    (
        FROM_A,
        r#"step = [{ links = ["ab"] }, { links = ["bc1", "bc1", "zz"] }]"#,
        "34 UnknownName 2",
    ),
    // cd stands twice; it does not start at B
    (
        FROM_A,
        r#"step = [{ links = ["ab"] }, { links = ["cd", "cd"] }]"#,
        "38 DoubleLink 2",
    ),
    // bc1 does not start at A; no link is zz
    (
        FROM_A,
        r#"step = [{ links = ["bc1"] }, { links = ["zz"] }]"#,
        "35 Broken 1",
    ),
    // ab and ac end apart; cd stands twice
    (
        FROM_A,
        r#"step = [{ links = ["ab", "ac"] }, { links = ["cd", "cd"] }]"#,
        "35 Broken 1",
    ),
    // out leaves the network; no SID is `other`
    (
        FROM_A,
        r#"step = [{ links = ["ac"] }, { links = ["cd"] }, { links = ["out"] },
            { function = "other" }]"#,
        "35 Broken 3",
    ),
    // no SID is `other`; bc1 does not start at A
    (
        FROM_A,
        r#"step = [{ function = "other" }, { links = ["bc1"] }]"#,
        "36 NoFunction 1",
    ),
    // `vpn` is not at B; no link is zz
    (
        FROM_A,
        r#"step = [{ links = ["ab"] }, { function = "vpn" }, { links = ["zz"] }]"#,
        "36 NoFunction 2",
    ),
    // no node is Z; no link is zz
    (
        FROM_A,
        r#"step = [{ reach = "Z" }, { links = ["zz"] }]"#,
        "34 UnknownName 1",
    ),
    // the walk stands at B already; no link is zz
    (
        FROM_A,
        r#"step = [{ links = ["ab"] }, { reach = "B" }, { links = ["zz"] }]"#,
        "35 Broken 2",
    ),
    (
        FROM_A,
        r#"step = [{ links = ["ab"] }]"#,
        "37 NotFunctionLast",
    ),
    (FROM_A, r#"step = [{ reach = "D" }]"#, "37 NotFunctionLast"),
];

fn refusal(alloc: Global, net: &Net, words: &str, steps: &str) -> Result<String, AllocError> {
    match read(alloc, net, words, steps) {
        Ok(_) => format!(in alloc; "none"),
        Err(Fault(fault)) => format!(in alloc; "{} {fault}", fault.number()),
        Err(NoMemory) => Err(AllocError),
    }
}

#[test]
fn first_faults_are_told(rt: HostRuntime) -> Result<(), Fail> {
    let net = network(&rt, rt.alloc(), NODES, FUNCTIONS);
    for (words, steps, told) in REFUSED {
        let said = refusal(rt.alloc(), &net, words, steps)?;
        assert!(rt; said.as_str() == *told, "{steps}");
    }
    Ok(())
}
