//! The sums of `gen` over the texts that it writes, and over an intent of the other family, which
//! it writes none of.

use crate::outside::{NET, NONE, serve_words};
use intent_reader::read_intent;
use net_reader::read_net;
use srv6_cli::{MAX_PACKETS, Summary, summary};
use std::alloc::Global;
use std::process::Abort;
use std::test::Fail;

/// The sum of so many packets over the texts of a description and an intent.
fn summed(
    rt: &impl Abort,
    alloc: Global,
    net: &[u8],
    intent: &[u8],
    packets: u32,
) -> Result<Summary, Fail> {
    assert!(rt; packets <= MAX_PACKETS);
    let net = read_net(alloc, net)?;
    let intent = read_intent(alloc, intent, &net)?;
    match summary(alloc, &net, &intent, packets) {
        Ok(summed) => Ok(summed),
        Err(_) => panic!(rt; "not compiled"),
    }
}

/// Three lowerings up to End.X over `a3`, then one at each of n3 and n4, where it goes on over
/// End.X. Each packet is sent over six links.
#[test]
fn a_summary_of_the_texts_has_the_numbers(rt: HostRuntime) -> Result<(), Fail> {
    let alloc = rt.alloc();
    let net = serve_words(alloc, &["gen", "5", "net"], &NONE)?;
    let intent = serve_words(alloc, &["gen", "5", "intent"], &NONE)?;
    let sum = summed(&rt, alloc, net.out.as_slice(), intent.out.as_slice(), 1000)?;
    let want = Summary {
        nodes: 6,
        links: 11,
        routes: 16,
        sids: 11,
        containers: 1,
        header: 40,
        need: 5,
        packets: 1000,
        frames: 6000,
        left: 1000,
    };
    assert_eq!(&rt; sum, want);
    Ok(())
}

/// No generated packet is of this intent's family.
const OF_IPV4: &str = r#"
headend = "A"
source = "2001:db8::a"
inner = "ipv4"
mode = "reduced"
step = [{ links = ["ab"] }, { links = ["bc"] }, { function = "vpn" }]
"#;

#[test]
fn packets_of_another_family_have_no_walk(rt: HostRuntime) -> Result<(), Fail> {
    let sum = summed(
        &rt,
        rt.alloc(),
        NET.as_bytes(),
        OF_IPV4.as_bytes(),
        MAX_PACKETS,
    )?;
    assert_eq!(&rt; (sum.packets, sum.frames, sum.left), (MAX_PACKETS, 0, 0));
    Ok(())
}
