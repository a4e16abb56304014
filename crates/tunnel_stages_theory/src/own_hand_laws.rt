//! Laws of the definitions: each is the contract of an empty function.

ghost use Rattle.std.specs.Prelude.{◌≡◌, ◌<◌, ◌≤◌, ◌↔◌, List, [], ℕ, Option, Some, length, map};
ghost use Rattle.srv6_rules.specs.Packet.{Content};
ghost use Rattle.srv6_rules.specs.PacketTerms.{IsContent};
ghost use Rattle.net_model.specs.NetworkKeeps.{Keeps};
ghost use Rattle.net_model.specs.Network.{Network};
ghost use Rattle.walk_rules.specs.Walk.{Stage, free_walk_of, walk_of};
ghost use Rattle.walk_rules.specs.declared.place.Place.{Place};
ghost use Rattle.intent_reader.specs.declared.intent.Intent.{Intent};
ghost use Rattle.leg_table.specs.WalkTrace.{Handed, handed_over};
ghost use Rattle.leg_table.specs.Realizes.{HandsOver, IsInner, Realizes};
ghost use Rattle.leg_table.specs.RealizesTerms.{Executes};
ghost use Rattle.tunnel_stages_theory.specs.TunnelStagesTerms.{NothingBinds};
ghost use Rattle.tunnel_stages_theory.specs.TunnelLayersTerms.{AreSmall};
ghost use Rattle.binding_spec.specs.TunnelWalks.{TunnelStage, tunnel_walk, through_own};
ghost use Rattle.tunnel_stages_theory.specs.TunnelWalksTerms.{alone};
ghost use Rattle.binding_spec.specs.OwnHandCounting.{handed_at_depth};
ghost use Rattle.binding_spec.specs.OwnHands.{handed_own};
ghost use Rattle.tunnel_stages_theory.specs.OwnHandSentence.{IsOwnHand};
ghost use Rattle.binding_spec.specs.BindingSmall.{FitAll, IsSmall};
ghost use Rattle.tunnel_stages_theory.specs.BindingSmallTerms.{KeepsTo};
ghost use Rattle.binding_spec.specs.BindingRealizes.{OwnExecutes, OwnHandsOver, OwnRealizes, RealizesBy};

/// What stages hand over of a packet is what the first of them without a header in front hands
/// over, where nothing was taken away before and at most 1,000 stages lie from a binding SID to the
/// hand-over that takes off the last header in front, both counted. The trace up to there has each
/// link and each function, the SIDs are those that the packet executed without a header in front
/// (RFC 8986 sections 4.13, 4.14 and 4.16.3; the limit is an own rule).
pub fn an_own_hand_over_is_the_first_without_headers()
    ensures { (net : Network) (stages : List TunnelStage) (handed : Handed) →
        (handed_own net 0 stages ≡ Some handed) ↔ IsOwnHand net stages handed }
{}

/// Where up to a packet's own hand-over the payload of each header that is pushed fits, the walk of
/// the bytes hands over the same, with the same trace and SIDs, where its depth is counted by
/// outcomes: it rises by one with each binding SID that is executed and falls by one with each
/// hand-over at a depth above 0, and the own hand-over is the first at depth 0. So it is where no
/// link has an MTU, and in a walk that may have so many stages where each packet fits the link that
/// it is sent on (RFC 8986 sections 4.13, 4.14 and 4.16.3, RFC 8200 section 5).
pub fn bytes_hand_over_as_values_do()
    ensures free { (fuel : ℕ) (net : Network) (place : Option Place) (content : Content) →
        (pick : ℕ → ℕ) (taken : ℕ) (handed : Handed) → Keeps net → IsContent content →
        AreSmall (through_own (tunnel_walk fuel net place content [] pick taken)) →
        handed_own net 0 (tunnel_walk fuel net place content [] pick taken) ≡ Some handed →
        handed_at_depth net 0 (free_walk_of fuel net place content pick taken) ≡ Some handed }
    ensures fits { (fuel room : ℕ) (net : Network) (place : Option Place) (content : Content) →
        (pick : ℕ → ℕ) (taken : ℕ) (handed : Handed) →
        length (through_own (tunnel_walk fuel net place content [] pick taken)) ≤ room →
        Keeps net → IsContent content →
        FitAll net (through_own (tunnel_walk fuel net place content [] pick taken)) →
        handed_own net 0 (tunnel_walk fuel net place content [] pick taken) ≡ Some handed →
        handed_at_depth net 0 (walk_of room net place content pick taken) ≡ Some handed }
{}

/// Where a list realizes an intent through binding SIDs, every inner packet that may be
/// encapsulated, at an outer hop limit above the need, and that is small, keeps to the intent for
/// every list of choices: in the walk of its bytes, with all MTUs and at most 10,000 stages.
pub fn what_is_small_keeps_to_the_intent()
    ensures { (net : Network) (intent : Intent) (segments : List ℕ) (inner : Content) →
        (need hop : ℕ) (choices : List ℕ) → Keeps net → OwnRealizes net intent segments need →
        IsInner intent.inner inner → need < hop → IsSmall net intent segments inner hop →
        0 < length choices → KeepsTo net intent segments inner hop choices }
{}

/// In a network without a binding SID a packet's own hand-over is the first one of its walk, so a
/// list realizes an intent, with its need and as many SIDs, exactly where it does so by the first
/// hand-over.
pub fn without_binding_sids_hand_overs_are_the_first()
    ensures stages { (net : Network) (stages : List Stage) →
        handed_own net 0 (map alone stages) ≡ handed_over net stages }
    ensures walk { (fuel : ℕ) (net : Network) (place : Option Place) (content : Content) →
        (pick : ℕ → ℕ) (taken : ℕ) → NothingBinds net →
        handed_own net 0 (tunnel_walk fuel net place content [] pick taken)
        ≡ handed_over net (free_walk_of fuel net place content pick taken) }
    ensures hands { (net : Network) (intent : Intent) (segments : List ℕ) (inner : Content) →
        (hop : ℕ) (choices : List ℕ) → NothingBinds net →
        OwnHandsOver net intent segments inner hop choices
        ↔ HandsOver net intent segments inner hop choices }
    ensures realizes { (net : Network) (intent : Intent) (segments : List ℕ) (need : ℕ) →
        NothingBinds net →
        OwnRealizes net intent segments need ↔ Realizes net intent segments need }
    ensures executes { (net : Network) (intent : Intent) (segments : List ℕ) (count : ℕ) →
        NothingBinds net →
        OwnExecutes net intent segments count ↔ Executes net intent segments count }
{}

/// To realize an intent is said once, over any relation of packets, hop limits and choices that
/// says what handing over is.
pub fn realizing_is_said_once()
    ensures { (net : Network) (intent : Intent) (segments : List ℕ) (need : ℕ) →
        RealizesBy (HandsOver net intent segments) intent.inner need
        ↔ Realizes net intent segments need }
{}
