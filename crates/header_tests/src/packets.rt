//! What a packet at a SID takes: bytes that hold a packet and nothing else, and a SID.

ghost use Rattle.std.specs.Prelude.{◌≡◌, false};
ghost use Rattle.srv6_rules.specs.CompressedSteps.{is_next};
ghost use Rattle.srv6_rules.specs.CompressedStepsTerms.{SuitsCompression};
ghost use Rattle.endpoint_chain.specs.Outcomes.{HoldsAlone};

use ip6_headers::Ip6View;
use srv6_rules::{Behaviour, Csid, LinkSet, SidEntry};
use std::alloc::Global;
use std::process::Abort;
use v6_addr::{Addr, Prefix};

/// The bytes hold an IPv6 packet, and nothing stands after its end.
#[tactic(auto, using(crate::proofs::PacketLengths::lengths))]
pub(crate) fn is_whole(rt: &impl Abort, bytes: &[u8])
    ensures { HoldsAlone bytes.now }
{
    let Ok(view) = Ip6View::read(bytes) else {
        panic!(rt; "no packet")
    };
    assert_eq!(rt; bytes.len(), 40 + usize::from(view.payload_len()));
}

/// fc00:0:b:d::/64 of the block fc00:0:b::/48, without a flavour but perhaps USP.
pub(crate) fn sid(rt: &impl Abort, alloc: Global, behaviour: Behaviour, usp: bool) -> SidEntry
    ensures suits { SuitsCompression result }
    ensures usp { result.usp ≡ usp }
    ensures next { is_next result.csid ≡ false }
{
    let value = 0xfc00_0000_000b_000d_0000_0000_0000_0000;
    SidEntry {
        node: 0,
        prefix: Prefix::new(Addr { value }, 64).expect(rt, "a prefix"),
        behaviour,
        csid: Csid::Plain,
        block_len: 48,
        psp: false,
        usp,
        usd: false,
        title: None,
        links: LinkSet::new(Vec::new(alloc)),
    }
}
