//! The numbers by which members of equal next hops are taken.

ghost use Rattle.std.specs.Prelude.{◌≡◌, [], ◌∷◌, IfOk};
ghost use Rattle.pce_protocol.specs.Kinds.{choices_of, are_choices};

use crate::kind::Kind;
use crate::limits::MAX_CHOICES;
use base::Seq;
use serde_json::Value;
use std::alloc::{AllocError, Global};
use std::marker::Model;

/// The numbers by which members of equal next hops are taken: 1 to 4,096 of them.
#[derive(Debug, Drop)]
pub struct Choices {
    numbers: Vec<u32>,
}

impl Model for Choices {
    ghost use Rattle.std.specs.Prelude.{◌≡◌, true, List, ℕ};
    ghost use Rattle.pce_protocol.specs.Kinds.{are_choices as have_count};

    ghost Value = { List ℕ };

    ghost view = { λ c. c.numbers.items };

    ghost invariant = { λ c. have_count c.numbers.items ≡ true };
}

impl Choices {
    ghost use Rattle.std.specs.Prelude.{true};

    /// The choice 0 alone, where a request names none.
    pub fn zero(alloc: Global) -> Result<Choices, AllocError>
        ensures { IfOk result (λ c. c ≡ 0 ∷ []) }
    {
        let mut numbers = Vec::new(alloc);
        numbers.push(0)?;
        Ok(Choices { numbers })
    }

    /// The numbers.
    pub fn as_slice(&self) -> &[u32]
        ensures value { result.now ≡ self.now }
        ensures count { are_choices self.now ≡ true }
    {
        self.numbers.as_slice()
    }
}

/// An array of 1 to 4,096 numbers of 32 bits.
impl Kind for Choices {
    ghost kind = { choices_of };

    fn of(alloc: Global, value: &Value) -> Result<Option<Choices>, AllocError> {
        let Some(numbers) = Seq::<u32>::of(alloc, value)? else {
            return Ok(None);
        };
        let numbers = numbers.into_vec();
        if numbers.is_empty() || numbers.len() > MAX_CHOICES {
            return Ok(None);
        }
        Ok(Some(Choices { numbers }))
    }
}
