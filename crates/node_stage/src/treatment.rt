//! The stage: what one node does with what stands at a place.

ghost use Rattle.std.specs.Prelude.{◌≡◌, ◌<◌, [], length, IfOk, IfSome, OnErr, OnOk};
ghost use Rattle.srv6_rules.specs.Packet.{V4, V6};
ghost use Rattle.icmp6_errors.specs.Answer.{error_bytes};
ghost use Rattle.walk_rules.specs.WalkLawsTerms.{TellsOfError};
ghost use Rattle.walk_rules.specs.Relation.{IsPlace, IsStage};
ghost use Rattle.walk_rules.specs.Treatment.{judged, step_of, treated, treated4};
ghost use Rattle.walk_rules.specs.Walk.{next_place};
ghost use Rattle.walk_rules.specs.WayTerms.{IsWayFrom, way_in};
ghost use Rattle.policy_encap.specs.declared.policy_headers.TheConstants.{MAX_FRONT};
ghost use Rattle.node_stage.specs.Fronted.{front_after, fronted};
ghost use Rattle.node_stage.specs.StageAnswers.{FrontOf, PutsPolicy, Stages, TellsOrKeeps, gave_of};

use crate::content::Content;
use crate::content_buf::{ContentBuf, Held};
use crate::endpoint::{treated_at_address, treated_in};
use crate::ip4_packet::Packet4;
use crate::ip6_packet::Packet;
use crate::sending::{sent, sent4};
use crate::stage_error::{StageResult, dropped};
use crate::stage_result::{Staged, dropped_for};
use base::NoMemory;
use icmp6_errors::IcmpSlot;
use net_model::Net;
use srv6_rules::Reason;
use std::alloc::Global;
use walk_rules::{Outcome, Place, Way, way_of};

/// An IPv6 packet on a way.
fn treated(
    net: &Net,
    node: u32,
    way: Way<'_>,
    packet: Packet,
    choice: u32,
) -> Result<Staged, ContentBuf>
    requires node { node < length net.now.nodes }
    requires leads { IsWayFrom net.now node (way_in way) }
    ensures { Stages net.now node (fronted (V6 packet.packet) packet.front) result
        (judged net.now node (V6 packet.packet)
        (treated net.now node (way_in way.entry) packet.packet choice)) }
{
    match way {
        Way::NoWay { reason } => Ok(dropped_for(reason, ContentBuf::of(packet))),
        Way::Over { links, lower } => Ok(sent(net, links, lower, packet, choice)),
        Way::Own => Ok(treated_at_address(packet)),
        Way::Into { sid } => treated_in(net, node, sid, packet),
    }
}

/// An IPv4 packet on a way of a node of a network: none leads to an address or into a SID, and
/// these would be as where there is no way.
fn treated4(net: &Net, node: u32, way: Way<'_>, packet: Packet4, choice: u32) -> Staged
    requires { IsWayFrom net.now node (way_in way) }
    ensures gave { gave_of net.now node result
        ≡ judged net.now node (V4 packet.packet)
        (treated4 net.now node (way_in way.entry) packet.packet choice) }
    ensures front { FrontOf net.now node (fronted (V4 packet.packet) packet.front) result }
{
    match way {
        Way::NoWay { reason } => dropped_for(reason, ContentBuf::of4(packet)),
        Way::Over { links, lower } => sent4(net, links, lower, packet, choice),
        Way::Own | Way::Into { .. } => dropped_for(Reason::NoRoute, ContentBuf::of4(packet)),
    }
}

/// What stands at a place, treated; for want of memory it is given back.
fn treat(net: &Net, place: &Place, content: ContentBuf, choice: u32) -> Result<Staged, ContentBuf>
    requires { IsPlace net.now place.now }
    ensures { Stages net.now place.now.node content result
        (step_of net.now place.now content.content choice) }
{
    match content.held {
        Held::V6(packet) => {
            let way = way_of(net, place, packet.destination());
            treated(net, place.node, way, packet, choice)
        }
        Held::V4(packet) => {
            let way = way_of(net, place, packet.destination());
            Ok(treated4(net, place.node, way, packet, choice))
        }
        Held::Unreadable(bytes, reason) => Ok(dropped_for(
            reason,
            ContentBuf::unreadable(bytes, reason),
        )),
    }
}

/// What a stage gives, with the error about what it drops in the slot, whose bytes go; for want of
/// memory what stands there is given back, and the slot stays.
fn stage_result(
    net: &Net,
    place: &Place,
    content: ContentBuf,
    choice: u32,
    slot: &mut IcmpSlot,
) -> Result<StageResult, ContentBuf>
    requires { IsPlace net.now place.now }
    ensures { TellsOrKeeps net.now place.now.node content slot.old.items result slot.new.items
        (step_of net.now place.now content.content choice) }
{
    let staged = treat(net, place, content, choice)?;
    slot.clear();
    match staged {
        Staged::Goes { outcome, after } => Ok(StageResult { outcome, after }),
        Staged::Drops {
            reason,
            detail,
            content,
        } => Ok(dropped(reason, detail, content, net.node(place.node).address, slot)),
    }
}

/// One node's treatment of what stands at a place, under a choice among equal next hops; what
/// stands there afterwards takes its place, a dropped packet as it was (RFC 8200 section 3, RFC
/// 8754 section 4.3, RFC 8986 section 4). A Send, or a drop for a link's MTU, takes the member of
/// its set at `choice` modulo the number of members. The slot holds the ICMPv6 error that the node
/// sends about what it drops, from its own address, exactly where the outcome says so, and else
/// nothing; what it held is gone. The error's pointer counts in bytes from the first of the packet
/// as it was (RFC 4443 section 3).
///
/// What is spare in front stays as it was, but for two: the bytes in front of a packet that a SID
/// exposes are spare then, and where a packet goes on from a binding SID the header
/// takes its place of what is spare, at least 2,080 bytes first. `NoMemory` comes only where such a
/// header is to be put in front and fewer than 2,080 bytes are spare, and leaves what stands there
/// as it was, and the slot too.
pub fn stage_buf(
    alloc: Global,
    net: &Net,
    place: &Place,
    content: &mut ContentBuf,
    choice: u32,
    error: &mut IcmpSlot,
) -> Result<Outcome, NoMemory>
    requires { IsPlace net.now place.now }
    ensures function { IfOk result (λ outcome.
        let gave = step_of net.now place.now content.old.content choice in
        record { outcome = outcome; after = content.new.content; error = gave.error } ≡ gave) }

    // The slot has the bytes of that error, and the outcome says whether there is one.
    ensures error { OnOk result (error.new.items
        ≡ error_bytes (step_of net.now place.now content.old.content choice).error) }
    ensures tells { IfOk result (λ outcome.
        TellsOfError outcome (step_of net.now place.now content.old.content choice).error) }
    ensures relation { IfOk result (λ outcome.
        IsStage net.now place.now content.old.content outcome content.new.content
        (step_of net.now place.now content.old.content choice).error) }

    // Where the packet stands next is a place too.
    ensures next { IfOk result (λ outcome.
        IfSome (next_place net.now place.now outcome) (IsPlace net.now)) }
    ensures front { IfOk result (λ outcome.
        content.new.front ≡ front_after net.now place.now.node content.old outcome) }
    ensures room { OnErr result (content.old.front < MAX_FRONT) }
    ensures binds { OnErr result (PutsPolicy net.now
        (step_of net.now place.now content.old.content choice).outcome) }
    ensures kept { OnErr result (content.new ≡ content.old) }
    ensures last { OnErr result (error.new.items ≡ error.old.items) }
{
    net.keeps_rules();
    match stage_result(net, place, content.take(alloc), choice, error) {
        Ok(StageResult { outcome, after }) => {
            *content = after;
            Ok(outcome)
        }
        Err(kept) => {
            *content = kept;
            Err(NoMemory)
        }
    }
}

/// The same of a content whatever is spare in front of it; `NoMemory` comes only where a packet
/// goes on from a binding SID, and leaves what stands there as it was, and the slot too
pub fn stage(
    alloc: Global,
    net: &Net,
    place: &Place,
    content: &mut Content,
    choice: u32,
    error: &mut IcmpSlot,
) -> Result<Outcome, NoMemory>
    requires { IsPlace net.now place.now }
    ensures function { IfOk result (λ outcome.
        let gave = step_of net.now place.now content.old choice in
        record { outcome = outcome; after = content.new; error = gave.error } ≡ gave) }

    // The slot has the bytes of that error, and the outcome says whether there is one.
    ensures error { OnOk result (error.new.items
        ≡ error_bytes (step_of net.now place.now content.old choice).error) }
    ensures tells { IfOk result (λ outcome.
        TellsOfError outcome (step_of net.now place.now content.old choice).error) }
    ensures relation { IfOk result (λ outcome.
        IsStage net.now place.now content.old outcome content.new
        (step_of net.now place.now content.old choice).error) }

    // Where the packet stands next is a place too.
    ensures next { IfOk result (λ outcome.
        IfSome (next_place net.now place.now outcome) (IsPlace net.now)) }
    ensures binds { OnErr result (PutsPolicy net.now
        (step_of net.now place.now content.old choice).outcome) }
    ensures kept { OnErr result (content.new ≡ content.old) }
    ensures last { OnErr result (error.new.items ≡ error.old.items) }
{
    stage_buf(alloc, net, place, &mut content.buf, choice, error)
}
