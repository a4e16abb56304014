//! Laws of the definitions: each is the contract of an empty function.

ghost use Rattle.std.specs.Prelude.{◌≡◌, ◌+◌, ◌<◌, ◌≤◌, ◌↔◌, ℕ, List, [], None, Some};
ghost use Rattle.tunnel_walks_theory.specs.TunnelChoices.{EndsWith, ForAllChoices, ForAllRows, OneWalk, Reaches, SameEnd};
ghost use Rattle.tunnel_walks_theory.specs.CountedExample.{counting};
ghost use Rattle.binding_spec.specs.TunnelPackets.{World, tunnel_of};
ghost use Rattle.tunnel_walks_theory.specs.TunnelPacketsTerms.{AreJoined, Bared, Tunnelled, Met, tunnel_move, met_move, open_at, own_move, pushed_at};
ghost use Rattle.tunnel_walks_theory.specs.TunnelLegs.{AlwaysHands, BehindHeader, HasPath, LegBehind, Path, transit_of};
ghost use Rattle.binding_spec.specs.Machines.{End, Events, Move, end_of, end_with};
ghost use Rattle.tunnel_walks_theory.specs.MachinesTerms.{AllJoined, Got, got_of};
ghost use Rattle.tunnel_walks_theory.specs.HopNeeds.{Forms};
ghost use Rattle.tunnel_walks_theory.specs.WalkRests.{Opened, RestEnds, open_move, rest_of, rest_open};

/// A machine that is done along a beginning of the steps for all choices is so by the one walk that
/// asks that all links of a set lie in the step. Where the links of a step lead a state to one next
/// state, it is so too the other way round, and each choice then ends as that walk does. Lists of
/// choices are as good as endless rows of them.
pub fn all_choices_are_one_walk<L, E, N, T, S, R>()
    ensures one { (events : Events L E T) (move : S → Move L E N S R) (ts : List T) (s : S) →
        ForAllChoices events move ts s → OneWalk events move ts s }
    ensures all { (events : Events L E T) (move : S → Move L E N S R) (ts : List T) (s : S) →
        AllJoined events move ts → OneWalk events move ts s → ForAllChoices events move ts s }
    ensures agree { (events : Events L E T) (move : S → Move L E N S R) (ts : List T) (s : S) →
        AllJoined events move ts → (w : OneWalk events move ts s) →
        (pick : ℕ → ℕ) (r : Reaches events move ts s pick) → SameEnd w.end r }
    ensures rows { (events : Events L E T) (move : S → Move L E N S R) (ts : List T) (s : S) →
        ForAllChoices events move ts s ↔ ForAllRows events move ts s }
{}

/// A header that is executed n times after its push, and then taken off, walks alone exactly where
/// the limit allows n + 2 stages: its push and the stage that takes it off are counted.
pub fn the_limit_is_to_one_stage()
    ensures fits { (limit n place : ℕ) → n + 2 ≤ limit →
        tunnel_of (counting limit) [] place n ≡ Some (end_with [] place []) }
    ensures short { (limit n place : ℕ) → limit < n + 2 →
        tunnel_of (counting limit) [] place n ≡ None }
{}

/// A packet right below a header that was just pushed ends so exactly where the header, walking
/// alone within the limit of stages, comes to a place behind it, and the packet ends so from there;
/// whatever is done with the own packet.
pub fn a_pushed_header_walks_alone<L, E, T, N, P, H, X, R>()
    ensures { (w : World L E T N P H X) (bottom : P → H → Move L E N (Tunnelled P H) R) (ts : List T) →
        (place : P) (new own : H) (e : End T N R) →
        EndsWith w.events (tunnel_move w bottom) ts (pushed_at place new own) e
        ↔ BehindHeader w bottom ts place new own e }
{}

/// Where links of a step lead to one place, a packet with nothing below comes to its next
/// execution, along a beginning of the steps and for all choices, exactly where there is a transit;
/// and all choices then come to the execution at the transit's end, with its steps left.
pub fn a_transit_is_for_all_choices<L, E, T, N, P, H, X>()
    ensures all { (w : World L E T N P H X) (ts : List T) (place : P) (own : H) → AreJoined w ts →
        ForAllChoices w.events (met_move w) ts (open_at place own)
        ↔ ((e : End T N (Met P H X)) × (transit_of w ts place own ≡ Some e)) }
    ensures each { (w : World L E T N P H X) (ts : List T) (place : P) (own : H) → AreJoined w ts →
        (e : End T N (Met P H X)) → transit_of w ts place own ≡ Some e →
        (pick : ℕ → ℕ) (r : Reaches w.events (met_move w) ts (open_at place own) pick) →
        SameEnd e r }
{}

/// A walk up to the own hand-over is the walk to the first execution on the own packet, or the one
/// to where that packet is on top, and what is left of it from there: under choices, whatever
/// number of moves is left; and along steps.
pub fn a_walk_goes_on_behind_its_first_execution<L, E, T, N, P, H, X>()
    ensures on { (w : World L E T N P H X) (n : ℕ) (s : Tunnelled P H) (pick : ℕ → ℕ) (taken : ℕ) →
        (g : Got E N (Met P H X)) → got_of w.events (met_move w) n s pick taken ≡ Some g →
        (count : ℕ) × (chosen : ℕ) × ((more : ℕ) →
        got_of w.events (own_move w) (count + more) s pick taken
        ≡ rest_of w more pick chosen g.trace g.sids g.result) }
    ensures opened { (w : World L E T N P H X) (n : ℕ) (s : Tunnelled P H) (pick : ℕ → ℕ) (taken : ℕ) →
        (g : Got E N (Opened P H)) → got_of w.events (open_move w) n s pick taken ≡ Some g →
        (count : ℕ) × (chosen : ℕ) × ((more : ℕ) →
        got_of w.events (own_move w) (count + more) s pick taken
        ≡ rest_open w more pick chosen g.trace g.sids g.result) }
    ensures ends { (w : World L E T N P H X) (n : ℕ) (ts : List T) (s : Tunnelled P H) →
        (e : End T N (Bared P X)) → end_of w.events (own_move w) n ts s ≡ Some e →
        (first : End T N (Met P H X)) × (end_of w.events (met_move w) n ts s ≡ Some first)
        × RestEnds w first.left first.sids first.result e }
{}

/// Where links of a step lead to one place, a packet right below a header that was just pushed
/// comes to an execution of its own, along a beginning of the steps and for all choices, exactly
/// where the header walks alone to a place and the packet transits from there; and all choices then
/// come to the same execution with the same steps left.
pub fn a_leg_behind_a_header_is_for_all_choices<L, E, T, N, P, H, X>()
    ensures all { (w : World L E T N P H X) (ts : List T) (place : P) (new own : H) →
        AreJoined w ts →
        ForAllChoices w.events (met_move w) ts (pushed_at place new own)
        ↔ LegBehind w ts place new own }
    ensures each { (w : World L E T N P H X) (ts : List T) (place : P) (new own : H) →
        AreJoined w ts → (leg : LegBehind w ts place new own) →
        (pick : ℕ → ℕ) (r : Reaches w.events (met_move w) ts (pushed_at place new own) pick) →
        SameEnd leg.end r }
{}

/// Where links of a step lead to one place, a packet is bared with no step left, for all choices,
/// exactly where there is a path of legs and a finish along the steps; and each choice then
/// executes the SIDs of the path on the own packet, and bares it where the path does.
pub fn a_packet_hands_over_exactly_along_a_path<L, E, T, N, P, H, X>()
    ensures has { (w : World L E T N P H X) (ts : List T) (place : P) (own : H) →
        AreJoined w ts → AlwaysHands w ts place own →
        (path : Path N P X) × HasPath w ts place own path }
    ensures hands { (w : World L E T N P H X) (ts : List T) (place : P) (own : H) →
        AreJoined w ts → (path : Path N P X) → HasPath w ts place own path →
        AlwaysHands w ts place own }
    ensures each { (w : World L E T N P H X) (ts : List T) (place : P) (own : H) →
        AreJoined w ts → (path : Path N P X) → HasPath w ts place own path →
        (pick : ℕ → ℕ) (r : Reaches w.events (own_move w) ts (open_at place own) pick) →
        SameEnd (end_with path.sids path.bared []) r }
{}

/// Where links of a step lead to one place, and a packet of a form is bared with no step left, for
/// all choices, at one hop limit above 0, there is a number so that it is at just the hop limits
/// above that number. Its path is the same at all of them.
pub fn a_packet_has_a_need<L, E, T, N, P, H, X, F>()
    ensures need { (w : World L E T N P H X) (forms : Forms w F) (ts : List T) →
        (place : P) (form : F) (hop : ℕ) →
        AreJoined w ts → 0 < hop → AlwaysHands w ts place (forms.packet form hop) →
        (n : ℕ) × ((other : ℕ) → 0 < other →
        (n < other) ↔ AlwaysHands w ts place (forms.packet form other)) }
    ensures same { (w : World L E T N P H X) (forms : Forms w F) (ts : List T) →
        (place : P) (form : F) (hop other : ℕ) (one two : Path N P X) → 0 < hop → 0 < other →
        HasPath w ts place (forms.packet form hop) one →
        HasPath w ts place (forms.packet form other) two → one ≡ two }
{}
