//! The SIDs of a generated network.

ghost use Rattle.std.specs.Prelude.{◌≡◌, ◌++◌, ◌<◌, ◌≤◌, OnOk, string_bytes};
ghost use Rattle.net_generator.specs.Networks.{end_table, end_tables, end_x_table, end_x_tables, sid_tables, vpn_table};
ghost use Rattle.net_generator.specs.declared.size.TheConstants.{MAX_NODES};

use crate::size::Size;
use std::alloc::AllocError;

/// Appends the table of node i's own SID.
#[tactic(auto, unfolding(crate::specs::Networks::end_table))]
fn append_end(i: u32, out: &mut String) -> Result<(), AllocError>
    ensures { OnOk result (string_bytes out.new ≡ string_bytes out.old ++ end_table i) }
{
    write!(
        out,
        "[[sid]]\nnode = \"n{i}\"\nprefix = \"fcbb:bb00:{i:x}::/48\"\nbehaviour = \"End\"\ncsid = \"next\"\n\n"
    )
}

/// Appends the table of node i's SID through the first link to the next node.
#[tactic(auto, unfolding(crate::specs::Networks::end_x_table))]
fn append_end_x(i: u32, out: &mut String) -> Result<(), AllocError>
    requires { i < MAX_NODES }
    ensures { OnOk result (string_bytes out.new ≡ string_bytes out.old ++ end_x_table i) }
{
    let csid = 0xe000 + i;
    let next = i + 1;
    write!(
        out,
        "[[sid]]\nnode = \"n{i}\"\nprefix = \"fcbb:bb00:{csid:x}::/48\"\nbehaviour = \"End.X\"\ncsid = \"next\"\nlinks = [\"a{next}\"]\n\n"
    )
}

/// Appends the table of the last node's SID that hands packets over to table 100.
#[tactic(auto, unfolding(crate::specs::Networks::vpn_table))]
fn append_vpn(n: u32, out: &mut String) -> Result<(), AllocError>
    ensures { OnOk result (string_bytes out.new ≡ string_bytes out.old ++ vpn_table n) }
{
    write!(
        out,
        "[[sid]]\nnode = \"n{n}\"\nprefix = \"fcbb:bb00:f001::/48\"\nbehaviour = \"End.DT6\"\ntitle = \"vpn\"\ntable = 100\n\n"
    )
}

/// Appends the tables of the nodes' own SIDs, but for the first node, which has none.
fn append_ends(n: u32, out: &mut String) -> Result<(), AllocError>
    requires { n ≤ MAX_NODES }
    ensures { OnOk result (string_bytes out.new ≡ string_bytes out.old ++ end_tables n) }
{
    for i in 1..=n {
        append_end(i, out)?;
    }
    Ok(())
}

/// Appends the tables of the nodes' SIDs through links, but for the last node, which has none.
fn append_end_xs(n: u32, out: &mut String) -> Result<(), AllocError>
    requires least { 1 ≤ n }
    requires most { n ≤ MAX_NODES }
    ensures { OnOk result (string_bytes out.new ≡ string_bytes out.old ++ end_x_tables n) }
{
    for i in 0..n {
        append_end_x(i, out)?;
    }
    Ok(())
}

/// Appends the tables of the SIDs.
#[tactic(auto, using(std::proofs::Common::append_assoc))]
pub(crate) fn append_sids(size: Size, out: &mut String) -> Result<(), AllocError>
    ensures { OnOk result (string_bytes out.new ≡ string_bytes out.old ++ sid_tables size) }
{
    let n = size.get();
    append_ends(n, out)?;
    append_end_xs(n, out)?;
    append_vpn(n, out)
}
