//! A packet at the node's own address and at its SIDs.

ghost use Rattle.std.specs.Prelude.{◌≡◌, ℕ, true, false, ◌<◌, ◌≤◌, ◌-◌, List, Some, None, length, max, slice_get};
ghost use Rattle.srv6_rules.specs.Behaviours.{behaviour_policy, behaviour_reduces, goes_on};
ghost use Rattle.srv6_rules.specs.CompressedSteps.{is_next};
ghost use Rattle.srv6_rules.specs.CompressedStepsTerms.{SuitsCompression};
ghost use Rattle.srv6_rules.specs.Endpoint.{Onward, at_address, at_sid};
ghost use Rattle.srv6_rules.specs.Packet.{Packet as PacketValue, V6, content_of, packet_at};
ghost use Rattle.srv6_rules.specs.Encapsulation.{header_bytes};
ghost use Rattle.srv6_rules.specs.declared.family.Family.TheVariants.{V6 as V6Family};
ghost use Rattle.srv6_rules.specs.Policies.{Outer, pushed_by};
ghost use Rattle.srv6_rules.specs.PoliciesTerms.{IsPolicy};
ghost use Rattle.net_model.specs.Network.{Network};
ghost use Rattle.pkt_buf.specs.BufferView.{Buffer};
ghost use Rattle.net_model.specs.declared.parts.NamedPolicy.{NamedPolicy};
ghost use Rattle.walk_rules.specs.Treatment.{allow_of, goes, onward_from, treated_at_address, treated_at_sid, treated_in};
ghost use Rattle.walk_rules.specs.declared.place.Outcome.TheVariants.{Again};
ghost use Rattle.endpoint_chain.specs.declared.outcome.EndOutcome.TheVariants.{On};
ghost use Rattle.endpoint_chain.specs.ChainFronts.{FrontAfter};
ghost use Rattle.endpoint_chain.specs.Outcomes.{ComesOf, HoldsAlone};
ghost use Rattle.policy_encap.specs.EncapAnswers.{Makes};
ghost use Rattle.node_stage.specs.declared.stage_result.Staged.TheVariants.{Drops};
ghost use Rattle.node_stage.specs.Fronted.{FrontedContent, front_behind, fronted};
ghost use Rattle.node_stage.specs.FrontedTerms.{fronted_at};
ghost use Rattle.node_stage.specs.StageAnswers.{FrontOf, IsBigAfter, Stages, StagesAll, gave_of};

use crate::content_buf::ContentBuf;
use crate::ip6_packet::Packet;
use crate::stage_result::{Staged, dropped_for, refused};
use base::NoMemory;
use decap_behaviours::decap_step;
use end_behaviours::{end_step, onward_len};
use endpoint_chain::{EndOutcome, fault_at_address};
use net_model::Net;
use pkt_buf::PktBuf;
use policy_encap::{MAX_FRONT, is_too_big, push};
use srv6_rules::numbers::MAX_PACKET_LEN;
use srv6_rules::{Family, Policy, Reason, SidEntry};
use walk_rules::{Outcome, exposed_from, onward_from};

/// At the node's own address.
pub(crate) fn treated_at_address(packet: Packet) -> Staged
    ensures gave { (net : Network) (node : ℕ) → gave_of net node result
        ≡ treated_at_address net node packet.packet (at_address packet.packet) }
    ensures front { (net : Network) (node : ℕ) → FrontOf net node
        (fronted (V6 packet.packet) packet.front) result }
{
    match fault_at_address(&packet.view()) {
        Some(fault) => refused(fault, packet),
        None => Staged::Goes {
            outcome: Outcome::Local,
            after: ContentBuf::of(packet),
        },
    }
}

/// What comes of a packet at a SID of a node that takes some upper layers at its SIDs, in its
/// bytes.
fn step_at_sid(sid: &SidEntry, allow: &[u8], bytes: &mut PktBuf) -> EndOutcome
    requires suits { SuitsCompression sid.now }
    requires usp { goes_on sid.now ≡ false → sid.now.usp ≡ false }
    requires next { goes_on sid.now ≡ false → is_next sid.now.csid ≡ false }
    requires packet { HoldsAlone bytes.old.bytes }
    ensures outcome { ComesOf (at_sid sid.now allow.now (packet_at bytes.old.bytes)) bytes.old.bytes
        bytes.new.bytes result }
    ensures front { FrontAfter bytes.old bytes.new result }
{
    if sid.goes_on() {
        end_step(sid, allow, bytes)
    } else {
        decap_step(sid, allow, bytes)
    }
}

/// A packet goes on from a SID with a number and stays at the node.
fn again(sid: u32, entry: &SidEntry, bytes: PktBuf) -> Staged
    ensures gave { (net : Network) (node : ℕ) → gave_of net node result
        ≡ goes (Again sid (onward_from sid entry.now.behaviour)) (content_of bytes.bytes) }
    ensures front { (net : Network) (node : ℕ) (before : FrontedContent)
        → bytes.front ≡ front_behind net (slice_get net.sids sid) before.front
        → FrontOf net node before result }
{
    Staged::Goes {
        outcome: Outcome::Again {
            sid,
            how: onward_from(sid, &entry.behaviour),
        },
        after: ContentBuf::read(bytes),
    }
}

/// What a stage gives of a packet at a SID with a number by what came of it in its bytes, where no
/// policy's header is put in front (RFC 8986 section 4); what is exposed is read as a packet of its
/// family.
fn given(sid: u32, entry: &SidEntry, outcome: EndOutcome, bytes: PktBuf) -> Staged
    ensures gave { (net : Network) (node : ℕ) (allow old : List ℕ) → HoldsAlone old
        → (outcome ≡ On → behaviour_policy entry.now.behaviour ≡ None)
        → ComesOf (at_sid entry.now allow (packet_at old)) old bytes.bytes outcome
        → gave_of net node result
        ≡ treated_at_sid net node sid entry.now.behaviour (packet_at old)
        (at_sid entry.now allow (packet_at old)) }
    ensures front { (net : Network) (node : ℕ) (allow : List ℕ) (old : Buffer)
        → slice_get net.sids sid ≡ Some entry.now → allow ≡ allow_of (slice_get net.nodes node)
        → HoldsAlone old.bytes → (outcome ≡ On → behaviour_policy entry.now.behaviour ≡ None)
        → ComesOf (at_sid entry.now allow (packet_at old.bytes)) old.bytes bytes.bytes outcome
        → FrontAfter old bytes outcome → FrontOf net node (fronted_at old) result }
{
    match outcome {
        EndOutcome::On => again(sid, entry, bytes),
        EndOutcome::Hand { family } => Staged::Goes {
            outcome: Outcome::Hand {
                sid,
                how: exposed_from(sid, &entry.behaviour),
                family,
            },
            after: ContentBuf::read_as(family, bytes),
        },
        EndOutcome::Local => Staged::Goes {
            outcome: Outcome::Local,
            after: ContentBuf::read(bytes),
        },
        EndOutcome::Drop { reason, at } => Staged::Drops {
            reason,
            detail: at,
            content: ContentBuf::read(bytes),
        },
    }
}

/// At a SID with a number, of a node that takes some upper layers at its SIDs; the packet does not
/// go on from the SID where it is a binding SID.
fn treated_at_sid(sid: u32, entry: &SidEntry, allow: &[u8], packet: Packet) -> Staged
    requires unbound { (q : PacketValue) → at_sid entry.now allow.now packet.packet ≡ Onward q
        → behaviour_policy entry.now.behaviour ≡ None }
    requires suits { SuitsCompression entry.now }
    requires usp { goes_on entry.now ≡ false → entry.now.usp ≡ false }
    requires next { goes_on entry.now ≡ false → is_next entry.now.csid ≡ false }
    ensures { (net : Network) (node : ℕ) → slice_get net.sids sid ≡ Some entry.now
        → allow.now ≡ allow_of (slice_get net.nodes node)
        → StagesAll net node (fronted (V6 packet.packet) packet.front) result
        (treated_at_sid net node sid entry.now.behaviour packet.packet
        (at_sid entry.now allow.now packet.packet)) }
{
    let mut bytes = packet.into_bytes();
    let outcome = step_at_sid(entry, allow, &mut bytes);
    given(sid, entry, outcome, bytes)
}

/// Whether a policy's header would make the packet in these bytes too long after the step of a SID
/// that binds the policy; none where no packet goes on. It is known before anything is written.
fn is_too_big_after(entry: &SidEntry, policy: &Policy, allow: &[u8], bytes: &[u8]) -> Option<bool>
    requires goes_on { goes_on entry.now ≡ true }
    requires suits { SuitsCompression entry.now }
    requires policy { IsPolicy policy.now }
    requires packet { HoldsAlone bytes.now }
    ensures { IsBigAfter (at_sid entry.now allow.now (packet_at bytes.now)) policy.now
        (behaviour_reduces entry.now.behaviour) result }
{
    match onward_len(entry, allow, bytes) {
        Some(len) => Some(is_too_big(policy, entry.behaviour.reduces(), len)),
        None => None,
    }
}

/// Puts a policy's header in front of an IPv6 packet's bytes, for which there is room and which it
/// does not make too long; so it takes no memory.
fn push_in_room(policy: &Policy, reduced: bool, bytes: &mut PktBuf)
    requires policy { IsPolicy policy.now }
    requires packet { length bytes.old.bytes ≤ MAX_PACKET_LEN }
    requires room { MAX_FRONT ≤ bytes.old.front }
    requires fits { (outer : PacketValue)
        × (pushed_by policy.now reduced V6Family bytes.old.bytes ≡ Outer outer) }
    ensures packet { Makes (pushed_by policy.now reduced V6Family bytes.old.bytes) bytes.new.bytes }
    ensures front { bytes.new.front
        ≡ bytes.old.front - header_bytes reduced (length policy.now.segments) }
{
    match push(policy, reduced, Family::V6, bytes) {
        Ok(()) => {}
        Err(_) => unreachable!(),
    }
}

/// A packet is dropped as it came, since a policy's header would make it too long.
fn too_big(packet: Packet) -> Staged
    ensures { result ≡ Drops Reason.TooBig 0 (fronted (V6 packet.packet) packet.front) }
{
    dropped_for(Reason::TooBig, ContentBuf::of(packet))
}

/// At a SID with a number that binds a policy, in bytes with room for the policy's header, which
/// does not make the packet too long that goes on from the SID.
fn bound_in_room(
    sid: u32,
    entry: &SidEntry,
    policy: &Policy,
    allow: &[u8],
    mut bytes: PktBuf,
) -> Staged
    requires goes_on { goes_on entry.now ≡ true }
    requires suits { SuitsCompression entry.now }
    requires policy { IsPolicy policy.now }
    requires packet { HoldsAlone bytes.bytes }
    requires room { MAX_FRONT ≤ bytes.front }
    requires fits { IsBigAfter (at_sid entry.now allow.now (packet_at bytes.bytes)) policy.now
        (behaviour_reduces entry.now.behaviour) (Some false) }
    ensures { (net : Network) (node number front : ℕ) (named : NamedPolicy)
        → slice_get net.sids sid ≡ Some entry.now
        → behaviour_policy entry.now.behaviour ≡ Some number
        → slice_get net.policies number ≡ Some named → policy.now ≡ named.policy
        → bytes.front ≡ max MAX_FRONT front
        → StagesAll net node (fronted (V6 (packet_at bytes.bytes)) front) result
        (treated_at_sid net node sid entry.now.behaviour (packet_at bytes.bytes)
        (at_sid entry.now allow.now (packet_at bytes.bytes))) }
{
    let outcome = end_step(entry, allow, &mut bytes);
    match outcome {
        EndOutcome::On => {
            push_in_room(policy, entry.behaviour.reduces(), &mut bytes);
            again(sid, entry, bytes)
        }
        EndOutcome::Hand { .. } => unreachable!(),
        EndOutcome::Local => unreachable!(),
        EndOutcome::Drop { .. } => unreachable!(),
    }
}

/// At a SID with a number that binds a policy, for a packet that goes on from it; whether the
/// policy's header would make it too long is known. For want of memory, which comes only where
/// there is less room than the longest header has, the packet is given back as it was.
fn bound_by(
    sid: u32,
    entry: &SidEntry,
    policy: &Policy,
    allow: &[u8],
    big: bool,
    packet: Packet,
) -> Result<Staged, ContentBuf>
    requires goes_on { goes_on entry.now ≡ true }
    requires suits { SuitsCompression entry.now }
    requires policy { IsPolicy policy.now }
    requires big { IsBigAfter (at_sid entry.now allow.now packet.packet) policy.now
        (behaviour_reduces entry.now.behaviour) (Some big) }
    ensures { (net : Network) (node number : ℕ) (named : NamedPolicy)
        → slice_get net.sids sid ≡ Some entry.now
        → behaviour_policy entry.now.behaviour ≡ Some number
        → slice_get net.policies number ≡ Some named → policy.now ≡ named.policy
        → Stages net node (fronted (V6 packet.packet) packet.front) result
        (treated_at_sid net node sid entry.now.behaviour packet.packet
        (at_sid entry.now allow.now packet.packet)) }
{
    if big {
        return Ok(too_big(packet));
    }
    let mut bytes = packet.into_bytes();
    match bytes.reserve_front(MAX_FRONT) {
        Ok(()) => Ok(bound_in_room(sid, entry, policy, allow, bytes)),
        Err(NoMemory) => Err(ContentBuf::of(Packet::alone(bytes))),
    }
}

/// At a SID with a number that binds a policy: after the SID's own step the policy's header is put
/// in front, in the form of the SID's behaviour, and a packet for which it would be too long is
/// dropped as it came (RFC 8986 sections 4.13 and 4.14). All is done in the packet's own bytes:
/// that the packet goes on, and that the header would be too long, is known before the step, and
/// room in front of the packet is made before it.
fn bound_at_sid(
    sid: u32,
    entry: &SidEntry,
    policy: &Policy,
    allow: &[u8],
    packet: Packet,
) -> Result<Staged, ContentBuf>
    requires goes_on { goes_on entry.now ≡ true }
    requires suits { SuitsCompression entry.now }
    requires policy { IsPolicy policy.now }
    ensures { (net : Network) (node number : ℕ) (named : NamedPolicy)
        → slice_get net.sids sid ≡ Some entry.now
        → behaviour_policy entry.now.behaviour ≡ Some number
        → slice_get net.policies number ≡ Some named → policy.now ≡ named.policy
        → allow.now ≡ allow_of (slice_get net.nodes node)
        → Stages net node (fronted (V6 packet.packet) packet.front) result
        (treated_at_sid net node sid entry.now.behaviour packet.packet
        (at_sid entry.now allow.now packet.packet)) }
{
    match is_too_big_after(entry, policy, allow, packet.bytes()) {
        Some(big) => bound_by(sid, entry, policy, allow, big, packet),
        None => Ok(treated_at_sid(sid, entry, allow, packet)),
    }
}

/// At a SID of a node of the network.
pub(crate) fn treated_in(
    net: &Net,
    node: u32,
    sid: u32,
    packet: Packet,
) -> Result<Staged, ContentBuf>
    requires node { node < length net.now.nodes }
    requires sid { sid < length net.now.sids }
    ensures { Stages net.now node (fronted (V6 packet.packet) packet.front) result
        (treated_in net.now node sid (slice_get net.now.sids sid) packet.packet) }
{
    net.keeps_rules();
    let entry = net.sid(sid);
    let allow = net.node(node).allow.as_slice();
    match entry.behaviour.policy() {
        Some(policy) => { bound_at_sid(sid, entry, net.policy(policy), allow, packet) }
        None => Ok(treated_at_sid(sid, entry, allow, packet)),
    }
}
