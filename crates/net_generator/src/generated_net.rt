//! The description of a generated network.

ghost use Rattle.std.specs.Prelude.{◌≡◌, ◌++◌, ◌≤◌, IfOk, OnErr, OnOk, flat_map, string_bytes};
ghost use Rattle.net_generator.specs.declared.size.TheConstants.{MAX_NODES};
ghost use Rattle.net_generator.specs.Networks.{all_link_tables, block_table, chain_tables, link_table, link_tables, net_text, node_table, node_tables, out_table};

use crate::generated_routes::append_routes;
use crate::generated_sids::append_sids;
use crate::size::Size;
use base::NoMemory;
use std::alloc::{AllocError, Global};

/// Appends the table of the block.
#[tactic(auto, unfolding(crate::specs::Networks::block_table))]
fn append_block(out: &mut String) -> Result<(), AllocError>
    ensures { OnOk result (string_bytes out.new ≡ string_bytes out.old ++ block_table) }
{
    out.push_str("[[block]]\nprefix = \"fcbb:bb00::/32\"\nkind = \"next\"\ncsid = 16\n\n")
}

/// Appends the table of node i.
#[tactic(auto, unfolding(crate::specs::Networks::node_table))]
fn append_node(i: u32, out: &mut String) -> Result<(), AllocError>
    ensures { OnOk result (string_bytes out.new ≡ string_bytes out.old ++ node_table i) }
{
    write!(
        out,
        "[[node]]\nname = \"n{i}\"\naddress = \"2001:db8:0:{i:x}::1\"\n\n"
    )
}

/// Appends the tables of the nodes, of which n is the last.
fn append_nodes(n: u32, out: &mut String) -> Result<(), AllocError>
    requires { n ≤ MAX_NODES }
    ensures { OnOk result (string_bytes out.new ≡ string_bytes out.old ++ node_tables n) }
{
    for i in 0..=n {
        append_node(i, out)?;
    }
    Ok(())
}

/// Appends the table of a link to node i; the link's name is a text with i after it.
#[tactic(auto, unfolding(crate::specs::Networks::link_table))]
fn append_link(name: &str, i: u32, out: &mut String) -> Result<(), AllocError>
    requires { 1 ≤ i }
    ensures { OnOk result (string_bytes out.new ≡ string_bytes out.old ++ link_table name.now i) }
{
    let before = i - 1;
    write!(
        out,
        "[[link]]\nname = \"{name}{i}\"\nfrom = \"n{before}\"\nto = \"n{i}\"\n\n"
    )
}

/// Appends the tables of both links to node i.
#[tactic(auto, using(std::proofs::Common::append_assoc))]
fn append_links_to(i: u32, out: &mut String) -> Result<(), AllocError>
    requires { 1 ≤ i }
    ensures { OnOk result (string_bytes out.new ≡ string_bytes out.old ++ link_tables i) }
{
    append_link("a", i, out)?;
    append_link("b", i, out)
}

/// Appends the table of the link that leaves from the last node.
#[tactic(auto, unfolding(crate::specs::Networks::out_table))]
fn append_out(n: u32, out: &mut String) -> Result<(), AllocError>
    ensures { OnOk result (string_bytes out.new ≡ string_bytes out.old ++ out_table n) }
{
    write!(out, "[[link]]\nname = \"out\"\nfrom = \"n{n}\"\n\n")
}

/// Appends the tables of the links from node to node.
fn append_chain(n: u32, out: &mut String) -> Result<(), AllocError>
    requires { n ≤ MAX_NODES }
    ensures { OnOk result (string_bytes out.new ≡ string_bytes out.old ++ chain_tables n) }
{
    for i in 1..=n {
        append_links_to(i, out)?;
    }
    Ok(())
}

/// Appends the tables of the links.
#[tactic(auto, using(std::proofs::Common::append_assoc))]
fn append_links(size: Size, out: &mut String) -> Result<(), AllocError>
    ensures { OnOk result (string_bytes out.new ≡ string_bytes out.old ++ all_link_tables size) }
{
    let n = size.get();
    append_chain(n, out)?;
    append_out(n, out)
}

/// The description's text.
#[tactic(auto, using(std::proofs::Common::append_assoc))]
fn text_of_net(alloc: Global, size: Size) -> Result<String, AllocError>
    ensures { IfOk result (λ text. string_bytes text ≡ net_text size) }
{
    let mut text = String::new(alloc);
    append_block(&mut text)?;
    append_nodes(size.get(), &mut text)?;
    append_links(size, &mut text)?;
    append_routes(size, &mut text)?;
    append_sids(size, &mut text)?;
    Ok(text)
}

/// Appends the description of the network of a size, in TOML: nodes `n0` to `nN` in a chain, links
/// `a` and `b` of its number to each next node, and a link `out` that leaves from the last; each
/// node's routes to the nodes after it, its SIDs End and End.X, and the last node's End.DT6 with
/// the title `vpn`. `NoMemory` leaves the bytes as they were.
pub fn write_net(alloc: Global, size: Size, out: &mut Vec<u8>) -> Result<(), NoMemory>
    ensures ok { OnOk result (out.new.items ≡ out.old.items ++ net_text size) }
    ensures err { OnErr result (out.new.items ≡ out.old.items) }
{
    let text = text_of_net(alloc, size)?;
    out.extend_from_slice(text.as_bytes())?;
    Ok(())
}
