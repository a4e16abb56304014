//! Laws of the definitions: each is the contract of an empty function.

ghost use Rattle.std.specs.Prelude.{◌≡◌, true, List, [], ℕ, Option, length, map, take};
ghost use Rattle.srv6_rules.specs.Packet.{Content, Packet};
ghost use Rattle.srv6_rules.specs.PacketTerms.{IsContent};
ghost use Rattle.net_model.specs.NetworkKeeps.{Keeps};
ghost use Rattle.net_model.specs.Network.{Network};
ghost use Rattle.walk_rules.specs.Treatment.{free_step_of, goes};
ghost use Rattle.walk_rules.specs.Walk.{free_walk_of};
ghost use Rattle.walk_rules.specs.declared.place.Place.{Place};
ghost use Rattle.binding_spec.specs.TunnelLayers.{PushFits, spelled_content};
ghost use Rattle.tunnel_stages_theory.specs.TunnelLayersTerms.{AreLayersOf, AreSmall, goes_further, in_bytes};
ghost use Rattle.binding_spec.specs.TunnelStages.{tunnel_step, over};
ghost use Rattle.tunnel_stages_theory.specs.TunnelStagesTerms.{NothingBinds};
ghost use Rattle.binding_spec.specs.TunnelWalks.{tunnel_walk, depth_after, through_own};
ghost use Rattle.tunnel_stages_theory.specs.TunnelWalksTerms.{AreDepths, alone};

/// In a network without a binding SID a stage of a packet that carries none is the stage of a
/// packet alone, where no link has an MTU, and so are all stages of its walk: nothing is ever below
pub fn without_binding_sids_nothing_is_below()
    ensures stage { (net : Network) (place : Place) (content : Content) (choice : ℕ) →
        NothingBinds net →
        tunnel_step net place content [] choice ≡ over [] (free_step_of net place content choice) }
    ensures walk { (fuel : ℕ) (net : Network) (place : Option Place) (content : Content) →
        (pick : ℕ → ℕ) (taken : ℕ) → NothingBinds net →
        tunnel_walk fuel net place content [] pick taken
        ≡ map alone (free_walk_of fuel net place content pick taken) }
{}

/// The depth that rises by one where a binding SID was executed and the packet stays at the node,
/// and falls by one with each hand-over at a depth above 0, is the number of packets below: after
/// a stage, and before each stage of a walk (RFC 8986 sections 4.13, 4.14 and 4.16.3).
pub fn a_depth_is_the_packets_below()
    ensures stage { (net : Network) (place : Place) (content : Content) (below : List Packet) →
        (choice : ℕ) →
        let gave = tunnel_step net place content below choice in
        length gave.below ≡ depth_after net (length below) gave.outcome }
    ensures walk { (fuel : ℕ) (net : Network) (place : Option Place) (content : Content) →
        (below : List Packet) (pick : ℕ → ℕ) (taken : ℕ) →
        AreDepths net (length below) (tunnel_walk fuel net place content below pick taken) }
{}

/// Where a stage takes nothing away, and a header that it pushes can state its payload's length,
/// the node does to the bytes of a header and of the packets below it what it does to these as
/// values: the outcome is the same, no error is sent, and what stands there after is spelled by
/// what the values spell; its headers are again such headers (RFC 8986 sections 4.13 and 4.14, RFC
/// 8200 section 4).
pub fn bytes_go_as_values_do()
    ensures gives { (net : Network) (place : Place) (content : Content) (below : List Packet) →
        (choice : ℕ) → Keeps net →
        AreLayersOf content below → IsContent (spelled_content content below) →
        let deep = tunnel_step net place content below choice in
        goes_further deep.outcome ≡ true → PushFits below deep →
        free_step_of net place (spelled_content content below) choice
        ≡ goes deep.outcome (spelled_content deep.after deep.below) }
    ensures layers { (net : Network) (place : Place) (content : Content) (below : List Packet) →
        (choice : ℕ) → Keeps net →
        AreLayersOf content below → IsContent (spelled_content content below) →
        let deep = tunnel_step net place content below choice in
        goes_further deep.outcome ≡ true → PushFits below deep →
        AreLayersOf deep.after deep.below }
{}

/// So it is along a walk: where up to and with the packet's own hand-over no stage takes anything
/// away and the payload of each header that is pushed fits, the walk of the bytes has the same
/// stages.
pub fn bytes_walk_as_values_do()
    ensures { (fuel : ℕ) (net : Network) (place : Option Place) (content : Content) →
        (below : List Packet) (pick : ℕ → ℕ) (taken : ℕ) → Keeps net →
        AreLayersOf content below → IsContent (spelled_content content below) →
        let deep = through_own (tunnel_walk fuel net place content below pick taken) in
        AreSmall deep →
        take (length deep)
        (free_walk_of fuel net place (spelled_content content below) pick taken)
        ≡ map in_bytes deep }
{}
