//! Legs as a search sees them.

ghost use Rattle.std.specs.Prelude.{◌≡◌, ◌≤◌, ℕ, List};
ghost use Rattle.net_model.specs.Network.{Network};
ghost use Rattle.list_pack.specs.declared.types.Container.{Container};
ghost use Rattle.list_pack.specs.Meaning.{Means};
ghost use Rattle.list_pack.specs.LegsValue.{LegsValue};
ghost use Rattle.list_pack.specs.LegsValueTerms.{IsSid, KeepsLaws};

use crate::types::{Leg, Shape};

/// The legs of an intent: the SIDs of each position and the ways between them. Positions count the
/// steps that are done, from 0. No call takes memory.
pub trait Legs {
    ghost seen: { Self → LegsValue };

    /// How many steps the intent has, at most 48. What is seen keeps the laws of legs.
    fn steps(&self) -> u32
        ensures value { result ≡ (seen self.now).steps }
        ensures laws { KeepsLaws (seen self.now) };

    /// What each SID of a list costs, between its containers and its hops: 1 where lists of fewer
    /// SIDs are preferred, else 0.
    fn sid_cost(&self) -> u32
        ensures { result ≡ (seen self.now).sid_cost };

    /// The SIDs that may be executed last at a position, at most `steps`: each once, in the order
    /// of prefix value, prefix length and node; at most 128. Who implements this says which they
    /// are.
    fn sids_at(&self, position: u32) -> &[u32]
        requires { position ≤ (seen self.now).steps }
        ensures { result.now ≡ (seen self.now).sids_at position };

    /// What a SID of some position is to the search.
    fn shape(&self, sid: u32) -> Shape
        requires { IsSid (seen self.now) sid }
        ensures { result ≡ (seen self.now).shape sid };

    /// The leg from the SID that was executed last at a position, none at the start, to a next SID,
    /// if there is one; who implements this says when, as for all choices of equal next hops. Both
    /// SIDs are middle. By the laws of legs there is none for a position above `steps`, for no SID
    /// at a position above 0, for a SID that is not one of the position, and for a next SID of no
    /// position.
    fn leg(&self, position: u32, via: Option<u32>, next: u32) -> Option<Leg>
        ensures { result ≡ (seen self.now).leg position via next };

    /// How often the hop limit is lowered on the way to the last SID, if there is a way; who
    /// implements this says when. None for the arguments for which `leg` is by the laws of legs,
    /// and for a next SID that is not one of the last position.
    fn finish(&self, position: u32, via: Option<u32>, next: u32) -> Option<u32>
        ensures { result ≡ (seen self.now).finish position via next };

    /// Whether `next` may come directly after `sid` in its container, as far as the SIDs nested in
    /// `sid` go; who implements this says when.
    fn stays(&self, sid: u32, next: u32) -> bool
        requires sid { IsSid (seen self.now) sid }
        requires next { IsSid (seen self.now) next }
        ensures { result ≡ (seen self.now).stays sid next };
}

/// Legs that mean something: each path of theirs is a legal list of a network that realizes what
/// the legs are for with the path's hops as its need, and for each legal list that realizes it
/// there is a path of as many containers, of no more SIDs and of no more hops. So the least path is
/// the least list. What the search and certificates do needs no meaning.
pub trait ListLegs: Legs {
    /// The network of the lists.
    ghost network: { Self → Network };

    /// That a list of the network realizes what the legs are for, and needs such a hop limit.
    ghost realizes: { Self → List Container → ℕ → Type 0 };

    /// That as many SIDs of a list are executed wherever it hands a packet over.
    ghost executes: { Self → List Container → ℕ → Type 0 };

    /// That a list hands over even one packet at such a hop limit, as what the legs are for asks.
    ///
    ghost hands: { Self → List Container → ℕ → Type 0 };

    /// That the legs mean this: a call for the callers' proofs alone.
    fn keeps_meaning(&self)
        ensures { Means (Self.seen self.now) (network self.now) (realizes self.now)
            (executes self.now) (hands self.now) };
}
