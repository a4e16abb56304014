//! Least lists of segments over legs.

ghost use Rattle.std.specs.Prelude.{◌≡◌, ◌<◌, [], length, slice_get, Some, IfOk, Ok};
ghost use Rattle.std.specs.Option.{option_map};
ghost use Rattle.net_flatness.specs.Flat.{flatness_of};
ghost use Rattle.list_pack.specs.Least.{IsSolution};
ghost use Rattle.path_compiler.specs.Compiled.{AnswersOver, IsFound, NoneLessOver};
ghost use Rattle.path_compiler.specs.CompiledTerms.{IsListIn, cost_in};

use crate::compiled::{CompileFault, Compiled};
use base::NoMemory;
use intent_reader::Intent;
use list_encoder::solve;
use list_pack::{Cost, ListLegs, Potential, Solution, header_bytes, list_of};
use net_model::Net;
use std::alloc::Global;

/// The cost of the state that is listed first: the start, where a path leads from it to the end.
fn first_cost(potentials: &[Potential]) -> Cost
    requires { 0 < length potentials.now }
    ensures { option_map cost_in (slice_get potentials.now 0) ≡ Some result }
{
    potentials[0].cost
}

/// The list of a solution's path, with its numbers.
fn compiled_of(
    alloc: Global,
    net: &Net,
    reduced: bool,
    solution: Solution,
) -> Result<Compiled, NoMemory>
    requires { 0 < length solution.potentials }
    ensures { IfOk result (IsListIn net.now reduced solution) }
{
    let cost = first_cost(solution.potentials.as_slice());
    let list = list_of(alloc, net, solution.path.as_slice())?;
    Ok(Compiled {
        list,
        containers: cost.containers,
        sids: solution.path.as_slice().len() as u64,
        header: header_bytes(cost.containers, reduced),
        need: cost.hops,
        solution,
    })
}

/// The chosen list, where there is a path.
fn found_over<L: ListLegs>(
    alloc: Global,
    net: &Net,
    reduced: bool,
    legs: &L,
    solution: Solution,
) -> Result<Compiled, NoMemory>
    requires network { L.network legs.now ≡ net.now }
    requires solution { IsSolution (L.seen legs.now) solution }
    requires path { 0 < length solution.path }
    ensures { IfOk result (IsFound (L.seen legs.now) net.now (L.realizes legs.now)
        (L.executes legs.now) reduced) }
{
    legs.keeps_meaning();
    compiled_of(alloc, net, reduced, solution)
}

/// The answer over any legs of a flat network.
fn answer_over<L: ListLegs>(
    alloc: Global,
    net: &Net,
    intent: &Intent,
    legs: &L,
) -> Result<Compiled, CompileFault>
    requires network { L.network legs.now ≡ net.now }
    requires whole { net.now.hidden ≡ [] }
    requires flat { flatness_of net.now ≡ Ok tt }
    ensures { AnswersOver (L.seen legs.now) net.now (L.realizes legs.now) (L.executes legs.now)
        intent.now result }
{
    legs.keeps_meaning();
    let solution = match solve(alloc, legs) {
        Ok(solution) => solution,
        Err(NoMemory) => return Err(CompileFault::NoMemory),
    };
    if solution.path.as_slice().is_empty() {
        return Err(CompileFault::NoList { solution });
    }
    let found = match found_over(alloc, net, intent.reduced, legs, solution) {
        Ok(found) => found,
        Err(NoMemory) => return Err(CompileFault::NoMemory),
    };
    if found.containers > intent.max_containers {
        return Err(CompileFault::TooLong { found });
    }
    if found.need >= u32::from(intent.hop_limit) {
        return Err(CompileFault::HopLimit { found });
    }
    Ok(found)
}

/// Compiles to the least list over any legs of a flat network that mean what their lists realize:
/// no legal list of the network that realizes it has fewer containers of 16 bytes, or as many and,
/// where the legs count SIDs, fewer SIDs, or as many of both and a smaller need, and of equal ones
/// all of whose SIDs are executed it is the first, SID by SID (own rule; containers are those of
/// RFC 9800 sections 6.2 to 6.4, the header is that of RFC 8986 sections 5.1 and 5.2). The intent
/// gives the form of the header and the bounds: `NoList` exactly where no legal list realizes it,
/// else `TooLong` where the least list has more than `max_containers` containers, else `HopLimit`
/// where its need is not below `hop_limit`. Of the legal lists that hand over even one packet at
/// one hop limit none is less either: none needs fewer header bytes, nor has fewer containers, or
/// as many and fewer SIDs where these count, or as many of both at a hop limit that is not above
/// the need; and with `NoList` there are none.
pub fn compile_over<L: ListLegs>(
    alloc: Global,
    net: &Net,
    intent: &Intent,
    legs: &L,
) -> Result<Compiled, CompileFault>
    requires network { L.network legs.now ≡ net.now }
    requires whole { net.now.hidden ≡ [] }
    requires flat { flatness_of net.now ≡ Ok tt }
    ensures answer { AnswersOver (L.seen legs.now) net.now (L.realizes legs.now)
        (L.executes legs.now) intent.now result }
    ensures handing { NoneLessOver (L.seen legs.now).sid_cost net.now (L.hands legs.now)
        intent.now.reduced result }
{
    legs.keeps_meaning();
    answer_over(alloc, net, intent, legs)
}
