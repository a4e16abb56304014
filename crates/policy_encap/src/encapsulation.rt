//! Headers of policies put in front of packets (RFC 8986 sections 4.13, 4.14, 5.1 and 5.2).

ghost use Rattle.std.specs.Prelude.{◌≡◌, ◌-◌, ◌<◌, ◌≤◌, ℕ, List, nat_lt, length, IfErr, OnErr, OnOk};
ghost use Rattle.srv6_rules.specs.Encapsulation.{header_bytes};
ghost use Rattle.srv6_rules.specs.Policies.{most_payload, outer_by, pushed_by};
ghost use Rattle.srv6_rules.specs.PoliciesTerms.{IsPolicy, encapsulated_by};
ghost use Rattle.srv6_rules.specs.declared.family.Family.{Family as FamilyValue};
ghost use Rattle.policy_encap.specs.EncapAnswers.{IsPushed, IsEncapsulated, IsFaultOf, judged_by};
ghost use Rattle.policy_encap.specs.Inner.{HoldsInner};
ghost use Rattle.policy_encap.specs.declared.faults.PushFault.TheVariants as pushing;
ghost use Rattle.policy_encap.specs.declared.faults.EncapFault.TheVariants as encapsulating;

use crate::faults::{EncapFault, PushFault};
use crate::inner::{inner_hop, inner_len, lower};
use crate::policy_headers::{
    MAX_PAYLOAD_LEN, bytes_fit, front_len, outer_fits, payload_len, put_headers,
};
use pkt_buf::PktBuf;
use srv6_rules::numbers::MAX_PACKET_LEN;
use srv6_rules::{Family, Policy};

/// Puts a policy's header in front of the bytes of a packet of a family, in the reduced form
/// exactly where `reduced` says so, whatever form the policy has. The outer header has the policy's
/// source, traffic class, flow label and hop limit, and the first segment as its destination; the
/// reduced form of one segment has no segment routing header. `TooBig` comes exactly where the
/// outer packet's payload would pass 65,535 bytes (RFC 8986 sections 4.13, 4.14, 5.1 and 5.2).
/// `NoMemory` comes only where fewer bytes are spare than the header has; where they are enough it
/// takes their place. On a fault nothing changes.
pub fn push(
    policy: &Policy,
    reduced: bool,
    inner: Family,
    buf: &mut PktBuf,
) -> Result<(), PushFault>
    requires policy { IsPolicy policy.now }
    requires packet { length buf.old.bytes ≤ MAX_PACKET_LEN }
    ensures answer { IsPushed (pushed_by policy.now reduced inner buf.old.bytes)
        buf.old.bytes buf.new.bytes result }
    ensures memory { IfErr result (λ fault. fault ≡ pushing.NoMemory
        → buf.old.front < header_bytes reduced (length policy.now.segments)) }
    ensures front { header_bytes reduced (length policy.now.segments) ≤ buf.old.front
        → OnOk result (buf.new.front
        ≡ buf.old.front - header_bytes reduced (length policy.now.segments)) }
    ensures err { OnErr result (buf.new ≡ buf.old) }
{
    let length = payload_len(policy, reduced, buf.len());
    if length > MAX_PAYLOAD_LEN {
        return Err(PushFault::TooBig {
            length: length as u32,
        });
    }
    buf.reserve_front(front_len(policy, reduced))?;
    put_headers(buf, policy, reduced, inner);
    // Fields and bytes fit their widths, so the outer packet is one that bytes can spell.
    outer_fits(policy);
    bytes_fit(buf.view());
    Ok(())
}

/// Whether a payload length is more than a header can state.
fn passes_most(len: usize) -> bool
    ensures { result ≡ nat_lt most_payload len }
{
    len > MAX_PAYLOAD_LEN
}

/// Whether `push` would answer `TooBig` for a packet of so many bytes: the outer packet's payload
/// would pass 65,535 bytes. No memory is taken (RFC 8986 sections 4.13 and 4.14).
pub fn is_too_big(policy: &Policy, reduced: bool, len: usize) -> bool
    requires policy { IsPolicy policy.now }
    requires packet { len ≤ MAX_PACKET_LEN }
    ensures { (inner : FamilyValue) (bytes : List ℕ) → length bytes ≡ len
        → pushed_by policy.now reduced inner bytes
        ≡ judged_by result (outer_by policy.now reduced inner bytes) }
{
    passes_most(payload_len(policy, reduced, len))
}

/// Why `encap` would answer a fault of the packet of a family that bytes hold, if it would:
/// `InnerHop` exactly where the hop limit or TTL is at most 1, and else `TooBig` exactly where the
/// outer packet's payload would pass 65,535 bytes; never `NoMemory`. No memory is taken (RFC 8986
/// sections 5.1 and 5.2).
pub fn encap_fault(policy: &Policy, inner: Family, bytes: &[u8]) -> Option<EncapFault>
    requires policy { IsPolicy policy.now }
    requires packet { HoldsInner inner bytes.now }
    ensures { IsFaultOf (encapsulated_by policy.now inner bytes.now) result }
{
    if inner_hop(inner, bytes) <= 1 {
        return Some(EncapFault::InnerHop);
    }
    let length = payload_len(policy, policy.reduced, inner_len(inner, bytes));
    if length > MAX_PAYLOAD_LEN {
        return Some(EncapFault::TooBig {
            length: length as u32,
        });
    }
    None
}

/// Encapsulates a packet of a family with a policy, in the policy's own form: H.Encaps or
/// H.Encaps.Red (RFC 8986 sections 5.1 and 5.2). An IPv6 packet's hop limit or an IPv4 packet's TTL
/// is lowered by one, the checksum of an IPv4 packet follows, no other byte of the packet changes,
/// and the policy's header stands in front. `InnerHop` comes exactly where the hop limit or TTL is
/// at most 1, and else `TooBig` exactly where the outer packet's payload would pass 65,535 bytes.
/// `NoMemory` comes only where fewer bytes are spare than the header has; where they are enough it
/// takes their place. On a fault nothing changes.
pub fn encap(policy: &Policy, inner: Family, buf: &mut PktBuf) -> Result<(), EncapFault>
    requires policy { IsPolicy policy.now }
    requires packet { HoldsInner inner buf.old.bytes }
    ensures answer { IsEncapsulated (encapsulated_by policy.now inner buf.old.bytes)
        buf.old.bytes buf.new.bytes result }
    ensures memory { IfErr result (λ fault. fault ≡ encapsulating.NoMemory
        → buf.old.front < header_bytes policy.now.reduced (length policy.now.segments)) }
    ensures front { header_bytes policy.now.reduced (length policy.now.segments) ≤ buf.old.front
        → OnOk result (buf.new.front
        ≡ buf.old.front - header_bytes policy.now.reduced (length policy.now.segments)) }
    ensures err { OnErr result (buf.new ≡ buf.old) }
{
    if inner_hop(inner, buf.view()) <= 1 {
        return Err(EncapFault::InnerHop);
    }
    let inner_len = inner_len(inner, buf.view());
    let length = payload_len(policy, policy.reduced, inner_len);
    if length > MAX_PAYLOAD_LEN {
        return Err(EncapFault::TooBig {
            length: length as u32,
        });
    }
    buf.reserve_front(front_len(policy, policy.reduced))?;
    lower(inner, buf.view_mut());
    put_headers(buf, policy, policy.reduced, inner);
    // Fields and bytes fit their widths, so the outer packet is one that bytes can spell.
    outer_fits(policy);
    bytes_fit(buf.view());
    Ok(())
}
