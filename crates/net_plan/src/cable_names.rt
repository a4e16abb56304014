//! The names of the links of cables.

ghost use Rattle.std.specs.Prelude.{◌≡◌, ◌<◌, ◌^◌, IfOk, length};
ghost use Rattle.net_plan.specs.CableLinks.{are_these, lies_between, cable_number, made_name, names_made, link_names};

use net_model::Name;
use plan_syntax::{DescribedCable, TwoNames};
use std::alloc::{AllocError, Global};

/// A name once more.
pub(crate) fn same_name(alloc: Global, name: &Name) -> Result<Name, AllocError>
    ensures { IfOk result (λ same. same ≡ name.now) }
{
    Ok(Name::new(name.as_str().to_string(alloc)?))
}

/// Whether two names are these.
fn are_these(names: &TwoNames, a: &Name, b: &Name) -> bool
    ensures { result ≡ are_these names.now a.now b.now }
{
    names.first.as_bytes() == a.as_bytes() && names.second.as_bytes() == b.as_bytes()
}

/// Whether a cable without names lies between two nodes, either way.
fn lies_between(nodes: &TwoNames, cable: &DescribedCable) -> bool
    ensures { result ≡ lies_between nodes.now cable.now }
{
    !cable.links.is_some()
        && (are_these(&cable.nodes, &nodes.first, &nodes.second)
            || are_these(&cable.nodes, &nodes.second, &nodes.first))
}

/// The number of a cable among those without names between its nodes, counted from 1.
fn cable_number(before: &[DescribedCable], cable: &DescribedCable) -> u32
    requires { length before.now < 2 ^ 31 }
    ensures { result ≡ cable_number before.now cable.now }
{
    let count = before
        .iter()
        .filter(|other| lies_between(&cable.nodes, other))
        .count();
    count as u32 + 1
}

/// The name of a link from a node to another, of a cable with a number.
fn made_name(alloc: Global, number: u32, a: &Name, b: &Name) -> Result<Name, AllocError>
    ensures { IfOk result (λ name. name ≡ made_name number a.now b.now) }
{
    if number == 1 {
        return Ok(Name::new(format!(in alloc; "{a}-{b}")?));
    }
    Ok(Name::new(format!(in alloc; "{a}-{b}-{number}")?))
}

/// The names of both links of a cable with a number.
fn names_made(alloc: Global, number: u32, nodes: &TwoNames) -> Result<TwoNames, AllocError>
    ensures { IfOk result (λ names. names ≡ names_made number nodes.now) }
{
    let first = made_name(alloc, number, &nodes.first, &nodes.second)?;
    let second = made_name(alloc, number, &nodes.second, &nodes.first)?;
    Ok(TwoNames { first, second })
}

/// The names of the links of a cable, behind those before it: those that it has, or its nodes' with
/// a dash between them.
pub(crate) fn link_names(
    alloc: Global,
    before: &[DescribedCable],
    cable: &DescribedCable,
) -> Result<TwoNames, AllocError>
    requires { length before.now < 2 ^ 31 }
    ensures { IfOk result (λ names. names ≡ link_names before.now cable.now) }
{
    match &cable.links {
        Some(names) => {
            let first = same_name(alloc, &names.first)?;
            let second = same_name(alloc, &names.second)?;
            Ok(TwoNames { first, second })
        }
        None => names_made(alloc, cable_number(before, cable), &cable.nodes),
    }
}
