//! The search.

ghost use Rattle.std.specs.Prelude.{IfOk};
ghost use Rattle.list_pack.specs.Least.{IsSolution};
ghost use Rattle.list_encoder.specs.Listing.{ListsFewContainers};

use crate::cells::cells_of;
use crate::least_costs::table_of;
use crate::listing::listing_of;
use crate::search_path::path_of;
use base::{NoMemory, Seq};
use list_pack::{Legs, Solution};
use std::alloc::Global;

/// What a search over legs finds: the states from which a path leads to the end, each once and in
/// order, with the least cost of a path; and of all least paths from the start the first, empty
/// exactly where there is none. No cost has more than `MAX_PATH_CONTAINERS` containers. Only want
/// of memory is an error.
pub fn solve<L: Legs>(alloc: Global, legs: &L) -> Result<Solution, NoMemory>
    ensures solution { IfOk result (IsSolution (L.seen legs.now)) }
    ensures few { IfOk result (λ s. ListsFewContainers s.potentials) }
{
    let cells = cells_of(alloc, legs)?;
    let table = table_of(alloc, legs, cells.as_slice())?;
    let potentials = listing_of(alloc, legs, cells.as_slice(), table.as_slice())?;
    let path = path_of(alloc, legs, cells.as_slice(), table.as_slice())?;
    Ok(Solution {
        potentials: Seq::new(potentials),
        path: Seq::new(path),
    })
}
