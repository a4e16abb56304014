//! The first item that is not equal in both descriptions.

ghost use Rattle.std.specs.Prelude.{◌≡◌, ◌-◌, ◌<◌, ◌^◌, length, Ok, Err};
ghost use Rattle.net_model.specs.NetworkTerms.{network_of};
ghost use Rattle.update_spec.specs.Planning.{first_difference, differing};
ghost use Rattle.update_joined.specs.JoinedEntries.{AreFew, differences};

use crate::equal::{Blocks, Equality, Links, Nodes, Policies};
use net_model::{Block, Link, NamedPolicy, NetParts, Node};
use text_faults::TableKind;
use update_spec::PlanFault;

/// The first place, counted from 1, at which two lists differ; a list that ends differs there.
fn first_difference<X, E: Equality<X>>(xs: &[X], ys: &[X]) -> Option<u32>
    requires { length xs.now < 2 ^ 32 - 1 }
    ensures { result ≡ first_difference E.equal 1 xs.now ys.now }
{
    let mut place = 1u32;
    let mut x_rest = xs;
    let mut y_rest = ys;
    while let [x, x_more @ ..] = x_rest {
        let [y, y_more @ ..] = y_rest else {
            return Some(place);
        };
        if !E::are_equal(x, y) {
            return Some(place);
        }
        place += 1;
        x_rest = x_more;
        y_rest = y_more;
    }
    if y_rest.len() == 0 { None } else { Some(place) }
}

/// Refuses the first item of a table that is not equal in both, or that one of them lacks.
fn refuse_difference<X, E: Equality<X>>(
    table: TableKind,
    xs: &[X],
    ys: &[X],
) -> Result<(), PlanFault>
    requires { length xs.now < 2 ^ 32 - 1 }
    ensures { result ≡ differing table E.equal xs.now ys.now }
{
    match first_difference::<X, E>(xs, ys) {
        None => Ok(()),
        Some(item) => Err(PlanFault::Differs { table, item }),
    }
}

/// Refuses the first block, node, link or policy, in this order of tables, that is not equal in
/// both.
pub(crate) fn refuse_differences(old: &NetParts, new: &NetParts) -> Result<(), PlanFault>
    requires { AreFew (network_of old.now) }
    ensures { result ≡ differences (network_of old.now) (network_of new.now) }
{
    refuse_difference::<Block, Blocks>(
        TableKind::Block,
        old.blocks.as_slice(),
        new.blocks.as_slice(),
    )?;
    refuse_difference::<Node, Nodes>(TableKind::Node, old.nodes.as_slice(), new.nodes.as_slice())?;
    refuse_difference::<Link, Links>(TableKind::Link, old.links.as_slice(), new.links.as_slice())?;
    refuse_difference::<NamedPolicy, Policies>(
        TableKind::Policy,
        old.policies.as_slice(),
        new.policies.as_slice(),
    )
}
