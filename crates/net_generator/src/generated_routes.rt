//! The routes of a generated network.

ghost use Rattle.std.specs.Prelude.{◌≡◌, ◌++◌, ◌<◌, ◌≤◌, OnOk, string_bytes};
ghost use Rattle.net_generator.specs.Networks.{last_route_table, route_table, route_tables, routes_in_block, routes_of};
ghost use Rattle.net_generator.specs.declared.size.TheConstants.{MAX_NODES};

use crate::size::Size;
use std::alloc::AllocError;

/// Appends the table of node i's route to node j.
#[tactic(auto, unfolding(crate::specs::Networks::route_table))]
fn append_route(i: u32, j: u32, out: &mut String) -> Result<(), AllocError>
    requires { i < MAX_NODES }
    ensures { OnOk result (string_bytes out.new ≡ string_bytes out.old ++ route_table i j) }
{
    let next = i + 1;
    write!(
        out,
        "[[route]]\nnode = \"n{i}\"\nprefix = \"fcbb:bb00:{j:x}::/48\"\nvia = [\"a{next}\", \"b{next}\"]\n\n"
    )
}

/// Appends the tables of node i's routes to the nodes after it, of which n is the last.
fn append_routes_of(n: u32, i: u32, out: &mut String) -> Result<(), AllocError>
    requires { i < MAX_NODES }
    ensures { OnOk result (string_bytes out.new ≡ string_bytes out.old ++ routes_of n i) }
{
    for j in i + 1..=n {
        append_route(i, j, out)?;
    }
    Ok(())
}

/// Appends the table of the last node's route of table 100.
#[tactic(auto, unfolding(crate::specs::Networks::last_route_table))]
fn append_last_route(n: u32, out: &mut String) -> Result<(), AllocError>
    ensures { OnOk result (string_bytes out.new ≡ string_bytes out.old ++ last_route_table n) }
{
    write!(
        out,
        "[[route]]\nnode = \"n{n}\"\ntable = 100\nprefix = \"::/0\"\nvia = [\"out\"]\n\n"
    )
}

/// Appends the tables of all nodes' routes in the block.
fn append_routes_in_block(n: u32, out: &mut String) -> Result<(), AllocError>
    requires least { 1 ≤ n }
    requires most { n ≤ MAX_NODES }
    ensures { OnOk result (string_bytes out.new ≡ string_bytes out.old ++ routes_in_block n) }
{
    for i in 0..n {
        append_routes_of(n, i, out)?;
    }
    Ok(())
}

/// Appends the tables of the routes.
#[tactic(auto, using(std::proofs::Common::append_assoc))]
pub(crate) fn append_routes(size: Size, out: &mut String) -> Result<(), AllocError>
    ensures { OnOk result (string_bytes out.new ≡ string_bytes out.old ++ route_tables size) }
{
    let n = size.get();
    append_routes_in_block(n, out)?;
    append_last_route(n, out)
}
