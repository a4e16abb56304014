//! Laws about the definitions, each the contract of a function that does nothing.

ghost use Rattle.std.specs.Prelude.{◌≡◌, ◌≢◌, ℕ, ◌+◌, ◌<◌, ◌≤◌, ◌⊎◌, ◌↔◌, Bool, true, false, is_some, List, [], Option, ◌∷◌, ◌++◌, length, slice_get, take, Contains, IsSome};
ghost use Rattle.net_model.specs.Best.{lookup_of};
ghost use Rattle.net_model.specs.NetworkKeeps.{Keeps, StartsAt};
ghost use Rattle.net_model.specs.Network.{Network};
ghost use Rattle.net_model.specs.declared.parts.Link.{Link};
ghost use Rattle.srv6_rules.specs.Packet.{Content, Packet, V4, V6, bytes_of, read_as};
ghost use Rattle.srv6_rules.specs.PacketTerms.{IsContent};
ghost use Rattle.srv6_rules.specs.Packet4.{IsSpellable4, Packet4, total_len, ttl};
ghost use Rattle.srv6_rules.specs.Behaviours.{behaviour_policy};
ghost use Rattle.srv6_rules.specs.declared.sid.Behaviour.TheVariants.{B6, B6Red, Dt4, Dt46, Dt6, Dx4, Dx6, End, EndT, EndX};
ghost use Rattle.srv6_rules.specs.declared.family.Family.{Family};
ghost use Rattle.srv6_rules.specs.declared.reason.Reason.{Reason};
ghost use Rattle.srv6_rules.specs.declared.sid.SidEntry.{SidEntry};
ghost use Rattle.walk_rules.specs.WalkLaws.{hops_at};
ghost use Rattle.walk_rules.specs.WalkLawsTerms.{AreStages, Executes, IsDeliveredBehindUsp, IsLoweredByOne, PushesOne, TakenApart, TellsOfError, family_after};
ghost use Rattle.walk_rules.specs.Relation.{IsFreeStage, IsHow, IsPlace, IsStage};
ghost use Rattle.walk_rules.specs.Treatment.{dropped, exposed_from, free_step_of, goes, lowered, member_of, mtu_at, onward_from, over_link, own_len, sent, sent4, step_of, ttl_lowered};
ghost use Rattle.walk_rules.specs.Walk.{Stage, choice_at, decisions, end_of, next_place, place_after, stage_of, walk_of};
ghost use Rattle.walk_rules.specs.WalkTerms.{IsWalk, content_after, taken_after, walk_on};
ghost use Rattle.walk_rules.specs.Way.{Into, way_of};
ghost use Rattle.walk_rules.specs.WayTerms.{IsThere, IsWayFrom, StandsAt};
ghost use Rattle.walk_rules.specs.declared.place.Ended.{Ended};
ghost use Rattle.walk_rules.specs.declared.place.How.{How};
ghost use Rattle.walk_rules.specs.declared.place.How.TheVariants.{Arrived, Submitted, Through};
ghost use Rattle.walk_rules.specs.declared.place.Outcome.{Outcome};
ghost use Rattle.walk_rules.specs.declared.place.Place.{Place};

use crate::limits::MAX_STAGES;

/// What a look-up finds is there, and the node's; the SID that a way leads into stands at the node,
/// and from a place of a network the links that it goes over are a set of the node's.
pub fn a_way_leads_from_its_place()
    ensures hit { (net : Network) (node table : ℕ) (family : Family) (destination : ℕ) →
        IsThere net node (lookup_of net node table family destination) }
    ensures into { (net : Network) (place : Place) (destination n : ℕ) →
        way_of net place destination ≡ Into n → StandsAt net place.node n }
    ensures way { (net : Network) (place : Place) (destination : ℕ) →
        Keeps net → IsHow net place.node place.how →
        IsWayFrom net place.node (way_of net place destination) }
{}

/// Where the hop limit, or the TTL of an IPv4 packet, is lowered, a packet for which it is at most
/// 1 is dropped, and where no link has an MTU each other is sent on the member that the choice
/// names (RFC 8200 section 3, RFC 791 section 3.2).
pub fn a_low_hop_limit_is_not_sent()
    ensures low { (net : Network) (node : ℕ) (set : List ℕ) (p : Packet) (choice : ℕ) →
        p.hop_limit ≤ 1 →
        sent net node set true p choice ≡ dropped net node Reason.HopLimit 0 (V6 p) }
    ensures high { (net : Network) (node : ℕ) (set : List ℕ) (p : Packet) (choice : ℕ) →
        1 < p.hop_limit →
        sent net node set true p choice
        ≡ goes (Outcome.Send (member_of set choice)) (V6 (lowered true p)) }
    ensures low4 { (net : Network) (node : ℕ) (set : List ℕ) (p : Packet4) (choice : ℕ) →
        ttl p ≤ 1 → sent4 net node set true p choice ≡ dropped net node Reason.Ttl 0 (V4 p) }
    ensures high4 { (net : Network) (node : ℕ) (set : List ℕ) (p : Packet4) (choice : ℕ) →
        1 < ttl p →
        sent4 net node set true p choice
        ≡ goes (Outcome.Send (member_of set choice)) (V4 (ttl_lowered true p)) }
{}

/// Where a stage would take a link, it does so where the packet that came has at most as many bytes
/// as the link's MTU says, its own header among them; else the packet is dropped as it came, and
/// told of that MTU. Each other stage is as where no link has an MTU (RFC 8200 section 5, RFC 4443
/// section 3.2).
pub fn a_long_packet_is_not_sent()
    ensures fits { (net : Network) (place : Place) (content : Content) (choice link : ℕ) →
        (free_step_of net place content choice).outcome ≡ Outcome.Send link →
        own_len content ≤ mtu_at net link →
        step_of net place content choice ≡ free_step_of net place content choice }
    ensures long { (net : Network) (place : Place) (content : Content) (choice link : ℕ) →
        (free_step_of net place content choice).outcome ≡ Outcome.Send link →
        mtu_at net link < own_len content →
        step_of net place content choice
        ≡ dropped net place.node Reason.MtuExceeded (mtu_at net link) content }
    ensures other { (net : Network) (place : Place) (content : Content) (choice : ℕ) →
        ((link : ℕ) → (free_step_of net place content choice).outcome ≢ Outcome.Send link) →
        step_of net place content choice ≡ free_step_of net place content choice }
    ensures len6 { (p : Packet) → own_len (V6 p) ≡ 40 + length p.payload }
    ensures len4 { (p : Packet4) → IsSpellable4 p → own_len (V4 p) ≡ total_len p.header }
    ensures mtu { (net : Network) (n : ℕ) (l : Link) → slice_get net.links n ≡ Some l →
        mtu_at net n ≡ l.mtu }
{}

/// A walk from a place is the stage there, and then the walk from the next place; a walk from no
/// place, and one that may have no stages, has none.
pub fn a_walk_unfolds()
    ensures stage { (more : ℕ) (net : Network) (place : Place) (content : Content) →
        (pick : ℕ → ℕ) (taken : ℕ) →
        let s = stage_of net place content (pick taken) in
        walk_of (more + 1) net (Some place) content pick taken ≡ s ∷ walk_on more net s pick taken }
    ensures nowhere { (fuel : ℕ) (net : Network) (content : Content) (pick : ℕ → ℕ) (taken : ℕ) →
        walk_of fuel net None content pick taken ≡ [] }
    ensures none { (net : Network) (place : Option Place) (content : Content) →
        (pick : ℕ → ℕ) (taken : ℕ) →
        walk_of 0 net place content pick taken ≡ [] }
{}

/// Each outcome that there is at a place is the one of some choice.
pub fn an_outcome_has_a_choice()
    ensures { (net : Network) (place : Place) (content : Content) →
        (outcome : Outcome) (after : Content) (error : Option Packet) →
        IsStage net place content outcome after error →
        (choice : ℕ) ×
        (step_of net place content choice
        ≡ record { outcome = outcome; after = after; error = error }) }
{}

/// Each choice has an outcome that there is at the place.
pub fn a_choice_has_an_outcome()
    ensures { (net : Network) (place : Place) (content : Content) (choice : ℕ) →
        Keeps net → IsPlace net place →
        let gave = step_of net place content choice in
        IsStage net place content gave.outcome gave.after gave.error }
{}

/// A stage sends on members of its set of equal next hops alone. Where it would send on one if no
/// link had an MTU, each member has its outcome: Send where the packet goes over that link, and
/// else the drop with its MTU. Each member is there and starts at the node.
pub fn each_next_hop_is_an_outcome()
    ensures member { (net : Network) (place : Place) (content : Content) (link : ℕ) →
        (after : Content) (error : Option Packet) →
        IsStage net place content (Outcome.Send link) after error →
        Contains (hops_at net place content) link }
    ensures each { (net : Network) (place : Place) (content : Content) (link other : ℕ) →
        (after : Content) (error : Option Packet) →
        IsFreeStage net place content (Outcome.Send link) after error →
        Contains (hops_at net place content) other →
        let gave = over_link net place.node content (goes (Outcome.Send other) after) other in
        IsStage net place content gave.outcome gave.after gave.error }
    ensures starts { (net : Network) (place : Place) (content : Content) (link : ℕ) →
        Keeps net → IsPlace net place → Contains (hops_at net place content) link →
        StartsAt net.links place.node link }
{}

/// A stage has several outcomes only where a set of equal next hops has several members, and each
/// is that of its member.
pub fn outcomes_differ_in_the_member()
    ensures { (net : Network) (place : Place) (content : Content) →
        (one : Outcome) (after : Content) (error : Option Packet) →
        (other : Outcome) (later : Content) (told : Option Packet) →
        IsStage net place content one after error → IsStage net place content other later told →
        ((one ≡ other) × ((after ≡ later) × (error ≡ told)))
        ⊎ TakenApart net place content one after error other later told }
{}

/// The choice tells at most the member that a stage takes, which is the one that it names: choices
/// that name one member give one stage.
pub fn only_the_member_depends_on_the_choice()
    ensures named { (net : Network) (place : Place) (content : Content) (choice link : ℕ) →
        (step_of net place content choice).outcome ≡ Outcome.Send link →
        link ≡ member_of (hops_at net place content) choice }
    ensures same { (net : Network) (place : Place) (content : Content) (choice other : ℕ) →
        member_of (hops_at net place content) choice
        ≡ member_of (hops_at net place content) other →
        step_of net place content choice ≡ step_of net place content other }
{}

/// A member that is taken is one decision: a Send, and a drop for the link's MTU. Nothing else is
/// one.
pub fn a_member_taken_is_one_decision()
    ensures one { (outcome : Outcome) →
        (decisions outcome ≡ 1)
        ↔ (((link : ℕ) × (outcome ≡ Outcome.Send link))
        ⊎ ((told : Bool) × (outcome ≡ Outcome.Drop Reason.MtuExceeded told))) }
    ensures zero { (outcome : Outcome) →
        ((link : ℕ) → outcome ≢ Outcome.Send link) →
        ((told : Bool) → outcome ≢ Outcome.Drop Reason.MtuExceeded told) →
        decisions outcome ≡ 0 }
{}

/// An execution after which the packet stays at the node lowers its hop limit by one, from above 1,
/// whichever flavour the SID has (RFC 8986 section 4.1); that of a binding SID then pushes exactly
/// one header (RFC 8986 sections 4.13 and 4.14).
pub fn an_execution_lowers_the_hop_limit()
    ensures lowers { (net : Network) (place : Place) (content : Content) (choice n : ℕ) (how : How)
        →
        (s : SidEntry) → slice_get net.sids n ≡ Some s → behaviour_policy s.behaviour ≡ None →
        let gave = step_of net place content choice in
        gave.outcome ≡ Outcome.Again n how → IsLoweredByOne content gave.after }
    ensures pushes { (net : Network) (place : Place) (content : Content) (choice n : ℕ) (how : How)
        →
        (s : SidEntry) (number : ℕ) → slice_get net.sids n ≡ Some s →
        behaviour_policy s.behaviour ≡ Some number →
        let gave = step_of net place content choice in
        gave.outcome ≡ Outcome.Again n how → PushesOne net place content gave.after n }
{}

/// After a drop what stands there is what stood there before, and so where an upper layer took it,
/// but that a SID with USP, into which the way led, may have taken out segment routing headers:
/// then the next header and the payload alone are others (RFC 8986 section 4.16.2).
pub fn an_end_leaves_what_stood_there()
    ensures dropped { (net : Network) (place : Place) (content : Content) (choice : ℕ) →
        (reason : Reason) (error : Bool) →
        let gave = step_of net place content choice in
        gave.outcome ≡ Outcome.Drop reason error → gave.after ≡ content }
    ensures local { (net : Network) (place : Place) (content : Content) (choice : ℕ) →
        let gave = step_of net place content choice in
        gave.outcome ≡ Outcome.Local →
        (gave.after ≡ content) ⊎ IsDeliveredBehindUsp net place content gave.after }
{}

/// A drop tells whether an ICMPv6 error is sent about it, and none is sent about anything else
/// (RFC 4443 section 2.4).
pub fn a_drop_tells_of_its_error()
    ensures { (net : Network) (place : Place) (content : Content) (choice : ℕ) →
        let gave = step_of net place content choice in
        TellsOfError gave.outcome gave.error }
{}

/// Where a SID was executed, the outcome names it: the way leads into it, it stands at the node and
/// the packet, or what was exposed, goes on in its way.
pub fn an_execution_names_its_sid()
    ensures again { (net : Network) (place : Place) (content : Content) (choice : ℕ) →
        (n : ℕ) (how : How) →
        let gave = step_of net place content choice in
        gave.outcome ≡ Outcome.Again n how → Executes onward_from net place content gave n how }
    ensures hand { (net : Network) (place : Place) (content : Content) (choice : ℕ) →
        (n : ℕ) (how : How) (family : Family) →
        let gave = step_of net place content choice in
        gave.outcome ≡ Outcome.Hand n how family →
        Executes exposed_from net place content gave n how }
{}

/// From a place a packet goes on to a place, and from a SID it goes on in a way that there is at
/// the SID's node.
pub fn a_place_leads_to_a_place()
    ensures next { (net : Network) (place : Place) (content : Content) (choice : ℕ) (next : Place) →
        Keeps net → IsPlace net place →
        next_place net place (step_of net place content choice).outcome ≡ Some next →
        IsPlace net next }
    ensures sid { (net : Network) (n : ℕ) (s : SidEntry) → Keeps net →
        slice_get net.sids n ≡ Some s → IsHow net s.node (onward_from n s.behaviour) }
    ensures exposed { (net : Network) (n : ℕ) (s : SidEntry) → Keeps net →
        slice_get net.sids n ≡ Some s → IsHow net s.node (exposed_from n s.behaviour) }
{}

/// How packets go on from SIDs: from End and binding SIDs by table 0, from End.T by its table, and
/// from End.X over the SID's links without another lowering. What is exposed arrives, from End with
/// USD by table 0, from End.T with USD and from End.DT6, End.DT4 and End.DT46 by the SID's table,
/// and goes from End.X with USD, End.DX6 and End.DX4 over the SID's links with a lowering (RFC 8986
/// sections 4.1 to 4.8, 4.13, 4.14 and 4.16.3).
pub fn ways_on_are_by_behaviour()
    ensures end { (n : ℕ) → onward_from n End ≡ Submitted 0 }
    ensures end_x { (n : ℕ) → onward_from n EndX ≡ Through n false }
    ensures end_t { (n table : ℕ) → onward_from n (EndT table) ≡ Submitted table }
    ensures b6 { (n policy : ℕ) → onward_from n (B6 policy) ≡ Submitted 0 }
    ensures b6_red { (n policy : ℕ) → onward_from n (B6Red policy) ≡ Submitted 0 }
    ensures end_usd { (n : ℕ) → exposed_from n End ≡ Arrived 0 }
    ensures end_x_usd { (n : ℕ) → exposed_from n EndX ≡ Through n true }
    ensures end_t_usd { (n table : ℕ) → exposed_from n (EndT table) ≡ Arrived table }
    ensures dx6 { (n : ℕ) → exposed_from n Dx6 ≡ Through n true }
    ensures dx4 { (n : ℕ) → exposed_from n Dx4 ≡ Through n true }
    ensures dt6 { (n table : ℕ) → exposed_from n (Dt6 table) ≡ Arrived table }
    ensures dt4 { (n table : ℕ) → exposed_from n (Dt4 table) ≡ Arrived table }
    ensures dt46 { (n table : ℕ) → exposed_from n (Dt46 table) ≡ Arrived table }
{}

/// In a network that keeps the rules, where SIDs suit their compression, what bytes can spell stays
/// so in a stage, and what reads as itself from its bytes, as a packet of the place's family, does
/// so after it. The next place has the family of what stands there then.
pub fn a_stage_keeps_a_content()
    ensures content { (net : Network) (place : Place) (content : Content) (choice : ℕ) →
        Keeps net → IsContent content → IsContent (step_of net place content choice).after }
    ensures back { (net : Network) (place : Place) (content : Content) (choice : ℕ) →
        Keeps net → IsContent content → read_as place.family (bytes_of content) ≡ content →
        let gave = step_of net place content choice in
        read_as (family_after place gave.outcome) (bytes_of gave.after) ≡ gave.after }
    ensures family { (net : Network) (place next : Place) (outcome : Outcome) →
        next_place net place outcome ≡ Some next → next.family ≡ family_after place outcome }
{}

/// The stages of a walk begin at its place and follow one another, and are fewer than they may be
/// only where they ended; no other stages do so.
pub fn a_walk_follows_its_stages()
    ensures is { (fuel : ℕ) (net : Network) (place : Option Place) (content : Content) →
        (pick : ℕ → ℕ) (taken : ℕ) →
        IsWalk fuel net place content pick taken (walk_of fuel net place content pick taken) }
    ensures one { (fuel : ℕ) (net : Network) (place : Option Place) (content : Content) →
        (pick : ℕ → ℕ) (taken : ℕ) (steps : List Stage) →
        IsWalk fuel net place content pick taken steps →
        steps ≡ walk_of fuel net place content pick taken }
{}

/// A walk of fewer stages is the beginning of one of more, which goes on from where it stopped.
pub fn a_walk_is_a_beginning()
    ensures front { (m n : ℕ) (net : Network) (place : Option Place) (content : Content) →
        (pick : ℕ → ℕ) (taken : ℕ) →
        take m (walk_of (m + n) net place content pick taken)
        ≡ walk_of m net place content pick taken }
    ensures rest { (m n : ℕ) (net : Network) (place : Option Place) (content : Content) →
        (pick : ℕ → ℕ) (taken : ℕ) →
        let w = walk_of m net place content pick taken in
        let next = place_after net place w in
        walk_of (m + n) net place content pick taken
        ≡ w ++ walk_of n net next (content_after content w) pick (taken_after taken w) }
{}

/// A walk that ended stays as it is, however many stages it may have more.
pub fn an_ended_walk_stays()
    ensures { (m n : ℕ) (net : Network) (place : Option Place) (content : Content) →
        (pick : ℕ → ℕ) (taken : ℕ) →
        let w = walk_of m net place content pick taken in
        place_after net place w ≡ None → walk_of (m + n) net place content pick taken ≡ w }
{}

/// A walk depends on the choices of the decisions that it may take alone, so each walk is that of
/// some list of choices.
pub fn a_walk_is_of_some_list()
    ensures same { (fuel : ℕ) (net : Network) (place : Option Place) (content : Content) →
        (pick other : ℕ → ℕ) (taken : ℕ) →
        ((d : ℕ) → taken ≤ d → d < taken + fuel → pick d ≡ other d) →
        walk_of fuel net place content pick taken ≡ walk_of fuel net place content other taken }
    ensures list { (fuel : ℕ) (net : Network) (place : Option Place) (content : Content) →
        (pick : ℕ → ℕ) →
        (choices : List ℕ) × (0 < length choices) ×
        (walk_of fuel net place content pick 0
        ≡ walk_of fuel net place content (choice_at choices) 0) }
{}

/// A walk has no more stages than it may have, so a run has at most 10,000.
pub fn a_run_has_few_stages()
    ensures each { (fuel : ℕ) (net : Network) (place : Option Place) (content : Content) →
        (pick : ℕ → ℕ) (taken : ℕ) →
        length (walk_of fuel net place content pick taken) ≤ fuel }
    ensures run { (fuel : ℕ) (net : Network) (place : Option Place) (content : Content) →
        (pick : ℕ → ℕ) (taken : ℕ) →
        fuel ≤ MAX_STAGES → length (walk_of fuel net place content pick taken) ≤ MAX_STAGES }
{}

/// Each stage of a walk from a place of a network is at a place, and gives an outcome that there
/// is.
pub fn a_walk_stays_at_places()
    ensures { (fuel : ℕ) (net : Network) (place : Place) (content : Content) →
        (pick : ℕ → ℕ) (taken : ℕ) → Keeps net → IsPlace net place →
        AreStages net (walk_of fuel net (Some place) content pick taken) }
{}

/// Where the packet could go on after the last stage the stages were used, and only there; a walk
/// of fewer stages than it may have has another end.
pub fn a_walk_that_could_go_on_used_its_stages()
    ensures goes_on { (net : Network) (place : Option Place) (s : Stage) (more : List Stage) →
        (end_of net (s ∷ more) ≡ Ended.Stages) ↔ IsSome (place_after net place (s ∷ more)) }
    ensures short { (fuel : ℕ) (net : Network) (place : Place) (content : Content) →
        (pick : ℕ → ℕ) (taken : ℕ) →
        let w = walk_of fuel net (Some place) content pick taken in
        length w < fuel → end_of net w ≢ Ended.Stages }
{}
