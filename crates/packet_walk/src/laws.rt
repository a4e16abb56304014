//! Laws about the definitions, each the contract of a function that does nothing.

ghost use Rattle.std.specs.Prelude.{◌≡◌, ◌≢◌, ℕ, ◌<◌, ◌++◌, ◌∷◌, [], IsSome, List, None, Option, Some, flat_map, length, map, nat_eq, sum_by, take};
ghost use Rattle.std.specs.List.{IsDistinct};
ghost use Rattle.std.specs.List.Sorted.{IsStrictlyIncreasing};
ghost use Rattle.net_model.specs.Network.{Network};
ghost use Rattle.node_stage.specs.Fronted.{FrontedContent};
ghost use Rattle.walk_rules.specs.Walk.{choice_at, end_of, walk_of};
ghost use Rattle.walk_rules.specs.declared.place.Ended.{Ended};
ghost use Rattle.walk_rules.specs.declared.place.Place.{Place};
ghost use Rattle.packet_walk.specs.Flight.{Flight, InFlight, entering, packet_of, stage_in, staged, turned, with_front};
ghost use Rattle.packet_walk.specs.FlightTerms.{IsCounted, entered};
ghost use Rattle.packet_walk.specs.Rest.{Move, end_from, given_to, rest_of, turns_of};
ghost use Rattle.packet_walk.specs.Schedule.{Coming, all_of, frame_of, scheduled, steps_of, stages_of};
ghost use Rattle.packet_walk.specs.ScheduleTerms.{comings_of, steps_in};

use walk_rules::MAX_STAGES;

/// The rest of a packet's walk is its next stage, and then the rest of the walk after it, and both
/// end alike; of a packet that has ended there is none. The rest of one that enters is its walk of
/// at most 10,000 stages.
pub fn a_turn_takes_the_next_stage()
    ensures next { (net : Network) (p : InFlight) → IsCounted p → p.ended ≡ None →
        rest_of net p ≡ stage_in net p ∷ rest_of net (staged net p) }
    ensures end { (net : Network) (p : InFlight) → IsCounted p → p.ended ≡ None →
        end_from net (staged net p) ≡ end_from net p }
    ensures over { (net : Network) (p : InFlight) (end : Ended) → p.ended ≡ Some end →
        rest_of net p ≡ [] }
    ensures over_end { (net : Network) (p : InFlight) (end : Ended) → p.ended ≡ Some end →
        end_from net p ≡ end }
    ensures first { (net : Network) (content : FrontedContent) (place : Place) (choices : List ℕ) →
        let walk = walk_of MAX_STAGES net (Some place) content.content (choice_at choices) 0 in
        let p = entering content place choices in
        (rest_of net p ≡ walk) × (end_from net p ≡ end_of net walk) }
{}

/// A turn of a packet, and one that enters, change nothing of another, and the network stays.
pub fn a_turn_changes_one_packet()
    ensures turn { (f : Flight) (number other : ℕ) → number ≢ other →
        packet_of (turned number f) other ≡ packet_of f other }
    ensures enter { (f : Flight) (p q : InFlight) (number : ℕ) → packet_of f number ≡ Some p →
        packet_of (entered f q) number ≡ Some p }
    ensures network { (f : Flight) (number : ℕ) → (turned number f).net ≡ f.net }
{}

/// Room in front of a packet changes nothing of its walk.
pub fn room_changes_no_walk()
    ensures rest { (net : Network) (front : ℕ) (p : InFlight) →
        rest_of net (with_front front p) ≡ rest_of net p }
    ensures end { (net : Network) (front : ℕ) (p : InFlight) →
        end_from net (with_front front p) ≡ end_from net p }
{}

/// Over any sequence of turns, and of packets that enter, the stages that are given to a packet are
/// the beginning of the rest of its own walk, as many as it had turns; so from its entry they are
/// the beginning of its walk of at most 10,000 stages.
pub fn a_packet_takes_its_own_walk()
    ensures rest { (f : Flight) (number : ℕ) (p : InFlight) (moves : List Move) →
        packet_of f number ≡ Some p → IsCounted p →
        given_to number f moves ≡ take (turns_of number moves) (rest_of f.net p) }
    ensures walk { (f : Flight) (number : ℕ) (moves : List Move) →
        (content : FrontedContent) (place : Place) (choices : List ℕ) → 0 < length choices →
        packet_of f number ≡ Some (entering content place choices) →
        given_to number f moves
        ≡ take (turns_of number moves)
        (walk_of MAX_STAGES f.net (Some place) content.content (choice_at choices) 0) }
{}

/// Whatever the schedule, a packet takes all the steps of its walk that were still to come, in
/// their order, and no other; so two schedules give it the same stages in the same order. The
/// packets' numbers differ; those of a flight's packets rise.
pub fn a_schedule_gives_each_packet_its_walk()
    ensures steps { (number : ℕ) (schedule : List ℕ) (comings : List Coming) →
        IsDistinct nat_eq (map (λ c. c.number) comings) →
        steps_in number (scheduled schedule comings) ≡ steps_of number comings }
    ensures stages { (number : ℕ) (schedule : List ℕ) (comings : List Coming) →
        IsDistinct nat_eq (map (λ c. c.number) comings) →
        stages_of number (scheduled schedule comings) ≡ all_of number (steps_of number comings) }
    ensures same { (number : ℕ) (one other : List ℕ) (comings : List Coming) →
        IsDistinct nat_eq (map (λ c. c.number) comings) →
        stages_of number (scheduled one comings) ≡ stages_of number (scheduled other comings) }
    ensures flight { (f : Flight) (numbers schedule : List ℕ) (number : ℕ) (p : InFlight) →
        IsStrictlyIncreasing numbers → length numbers ≡ length f.packets
        → packet_of f number ≡ Some p →
        let frame = frame_of numbers number in
        stages_of frame (scheduled schedule (comings_of numbers f))
        ≡ all_of frame (rest_of f.net p) }
{}

/// With the empty schedule the stages are all of the first packet, then all of the second, and so
/// on.
pub fn no_schedule_takes_packets_one_by_one()
    ensures stages { (comings : List Coming) →
        scheduled [] comings ≡ flat_map (λ c. all_of c.number c.steps) comings }
    ensures steps { (comings : List Coming) →
        map (λ t. t.step) (scheduled [] comings) ≡ flat_map (λ c. c.steps) comings }
{}

/// Whatever the schedule, there are as many stages as steps to come.
pub fn a_schedule_takes_all_steps()
    ensures { (schedule : List ℕ) (comings : List Coming) →
        length (scheduled schedule comings) ≡ sum_by (λ c. length c.steps) comings }
{}

/// A packet's stage is its last, with no step after it, exactly where it has ended after it.
pub fn the_last_stage_ends_a_packet()
    ensures last { (net : Network) (p : InFlight) → IsCounted p → p.ended ≡ None →
        rest_of net (staged net p) ≡ [] → IsSome (staged net p).ended }
    ensures ended { (net : Network) (p : InFlight) →
        IsSome (staged net p).ended → rest_of net (staged net p) ≡ [] }
{}
