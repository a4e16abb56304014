//! The numbers of names.

ghost use Rattle.std.specs.Prelude.{◌≡◌, ◌<◌, ◌^◌, List, ℕ, IfOk, map, length};
ghost use Rattle.net_reader.specs.Numbering.{number_of};
ghost use Rattle.net_reader.specs.NumberingTerms.{HasNumbers};

use net_model::Name;
use net_syntax::{DescribedLink, DescribedNode, DescribedPolicy};
use std::alloc::{AllocError, Global};
use std::collections::BTreeMap;
use std::marker::Model;

/// What has a name.
pub trait Named {
    /// The name.
    ghost name: { Self → List ℕ };

    /// The name.
    fn name(&self) -> &Name
        ensures { result.now ≡ name self.now };
}

impl Named for DescribedNode {
    ghost name = { λ n. n.name };

    fn name(&self) -> &Name {
        &self.name
    }
}

impl Named for DescribedLink {
    ghost name = { λ l. l.name };

    fn name(&self) -> &Name {
        &self.name
    }
}

impl Named for DescribedPolicy {
    ghost name = { λ p. p.name };

    fn name(&self) -> &Name {
        &self.name
    }
}

/// The names of items, in their order.
fn names_of<'a, X: Named>(alloc: Global, items: &'a [X]) -> Result<Vec<&'a str>, AllocError>
    ensures { IfOk result (λ names. map (λ s. s.now) names.items ≡ map X.name items.now) }
{
    let mut names = Vec::new(alloc);
    for item in items {
        names.push(item.name().as_str())?;
    }
    Ok(names)
}

/// The numbers of names, in their order from 0; of one that stands twice the first.
fn numbers_of<'a>(alloc: Global, names: &[&'a str]) -> Result<BTreeMap<&'a str, u32>, AllocError>
    requires { length names.now < 2 ^ 32 }
    ensures { IfOk result (λ numbers. HasNumbers numbers (map (λ s. s.now) names.now)) }
{
    let mut numbers = BTreeMap::new(alloc);
    for (i, name) in names.iter().enumerate() {
        if !numbers.contains_key(*name) {
            numbers.insert(*name, i as u32)?;
        }
    }
    Ok(numbers)
}

/// The number that a map has for a name, and the count where it has none.
#[tactic(auto, using(crate::proofs::ReaderNumberLemmas::looking))]
fn number_in(numbers: &BTreeMap<&str, u32>, count: u32, name: &str) -> u32
    ensures { (names : List (List ℕ)) → HasNumbers numbers.now names → length names ≡ count
        → result ≡ number_of names name.now }
{
    match numbers.get(name) {
        Some(number) => *number,
        None => count,
    }
}

/// The names of the items of a kind. Contracts see them as a list, in the order of the
/// items.
#[derive(Debug, Drop)]
pub struct Numbering<'a> {
    names: Vec<&'a str>,
    numbers: BTreeMap<&'a str, u32>,
}

impl<'a> Model for Numbering<'a> {
    ghost use Rattle.std.specs.Prelude.{List, ℕ, ◌<◌, ◌^◌, map, length};
    ghost use Rattle.net_reader.specs.NumberingTerms.{HasNumbers};

    ghost Value = { List (List ℕ) };

    ghost view = { λ n. map (λ s. s.now) n.names.items };

    ghost invariant = { λ n. (length n.names.items < 2 ^ 32)
        × HasNumbers n.numbers (map (λ s. s.now) n.names.items) };
}

impl<'a> Numbering<'a> {
    ghost use Rattle.std.specs.Prelude.{◌≡◌, ◌<◌, ◌^◌, IfOk, map, length};
    ghost use Rattle.net_reader.specs.Numbering.{number_of};

    /// The names of items.
    pub fn of<X: Named>(alloc: Global, items: &'a [X]) -> Result<Numbering<'a>, AllocError>
        requires { length items.now < 2 ^ 32 }
        ensures { IfOk result (λ names. names ≡ map X.name items.now) }
    {
        let names = names_of::<X>(alloc, items)?;
        let numbers = numbers_of(alloc, names.as_slice())?;
        Ok(Numbering { names, numbers })
    }

    /// The number of a name: the place of the first item that has it, and the count of the items
    /// where none has it.
    pub fn number(&self, name: &Name) -> u32
        ensures { result ≡ number_of self.now name.now }
    {
        number_in(&self.numbers, self.names.len() as u32, name.as_str())
    }
}
