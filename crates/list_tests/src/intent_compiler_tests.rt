//! The laws of all legs at those of an intent, of strict ones and of those through binding SIDs.

use intent_compiler::IntentLegs;
use intent_reader::read_intent;
use list_pack::Legs;
use net_flatness::compilable;
use net_reader::read_net;
use path_compiler::laws::{
    a_certificate_tells_what_was_found, legs_have_one_answer,
    what_is_said_holds_of_lists_that_hand_over,
};
use std::alloc::Global;
use std::process::Abort;
use std::test::Fail;
use test_networks::ROW;

/// A policy that goes over the first of the two links by B's End.X and ends at D's End with USD; and
/// D's End.DT6
const SIDS: &str = r#"
[[policy]]
name = "over"
source = "2001:db8::b"
segments = ["fcbb:bb00:e001::", "fcbb:bb00:4::"]

[[sid]]
node = "B"
prefix = "fcbb:bb00:e001::/48"
behaviour = "End.X"
links = ["bc1"]

[[sid]]
node = "D"
prefix = "fcbb:bb00:4::/48"
behaviour = "End"
flavours = ["usd"]

[[sid]]
node = "D"
prefix = "fcbb:bb00:f001::/48"
behaviour = "End.DT6"
title = "vpn"
table = 100
"#;

/// B's End.B6.Encaps
const BINDING: &str = r#"
[[sid]]
node = "B"
prefix = "fcbb:bb00:2::/48"
behaviour = "End.B6.Encaps"
policy = "over"
"#;

/// B's End on the same prefix
const PLAIN: &str = r#"
[[sid]]
node = "B"
prefix = "fcbb:bb00:2::/48"
behaviour = "End"
"#;

const INTENT: &str = r#"
headend = "A"
source = "2001:db8::a"
inner = "ipv6"
mode = "reduced"
step = [{ links = ["ab"] }, { links = ["bc1"] }, { links = ["cd"] }, { function = "vpn" }]
"#;

/// The laws
fn keep_laws(legs: &IntentLegs<'_>) {
    a_certificate_tells_what_was_found(legs);
    legs_have_one_answer(legs);
    what_is_said_holds_of_lists_that_hand_over(legs);
}

/// Whether a leg to B's End.X goes on from B's other SID, in the network of a text
fn goes_on(rt: &impl Abort, alloc: Global, net: &str) -> Result<bool, Fail> {
    let net = read_net(alloc, net.as_bytes())?;
    let intent = read_intent(alloc, INTENT.as_bytes(), &net)?;
    assert!(rt; compilable(alloc, &net).is_ok());
    let legs = IntentLegs::build(alloc, &net, &intent)?;
    keep_laws(&legs);
    assert_eq!(rt; legs.steps(), 4);
    Ok(legs.leg(1, Some(3), 0).is_some())
}

/// From B's End it goes on, and not from End.B6.Encaps: the header of the policy comes to D.
#[test]
fn legs_of_both_kinds(rt: HostRuntime) -> Result<(), Fail> {
    for (at_b, want) in [(BINDING, false), (PLAIN, true)] {
        let text = format!(in rt.alloc(); "{ROW}{SIDS}{at_b}")?;
        assert_eq!(&rt; goes_on(&rt, rt.alloc(), text.as_str())?, want);
    }
    Ok(())
}
