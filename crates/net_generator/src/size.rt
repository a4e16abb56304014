//! How large a generated network is.

ghost use Rattle.std.specs.Prelude.{◌≡◌, ◌↔◌, ℕ, IsSome, IfSome, is_some};
ghost use Rattle.net_generator.specs.GeneratedWords.{is_size};
ghost use Rattle.net_generator.specs.GeneratedWordsTerms.{IsSize};

use std::marker::Model;

/// The least size: 2.
pub const MIN_NODES: u32 = 2;

/// The greatest size: 47.
pub const MAX_NODES: u32 = 47;

/// The size of a generated network, from 2 to 47: the number of its last node, of which the first
/// has number 0.
#[derive(Clone, Copy, Debug, PartialEq, Eq)]
pub struct Size {
    last: u32,
}

impl Model for Size {
    ghost Value = { ℕ };

    ghost view = { λ s. s.last };

    ghost invariant = { λ s. IsSize s.last };

    ghost inverse = { λ n. record { last = n } };
}

impl Size {
    /// The size that a number is. `None` exactly where the number isn't from 2 to 47.
    #[tactic(auto, unfolding(crate::specs::GeneratedWords::is_size))]
    pub fn new(last: u32) -> Option<Size>
        ensures test { is_some result ≡ is_size last }
        ensures fact { IsSome result ↔ IsSize last }
        ensures value { IfSome result (λ s. s ≡ last) }
    {
        if last < MIN_NODES || MAX_NODES < last {
            return None;
        }
        Some(Size { last })
    }

    /// The number, from 2 to 47.
    pub fn get(self) -> u32
        ensures value { result ≡ self }
        ensures is_size { IsSize self }
    {
        self.last
    }
}
