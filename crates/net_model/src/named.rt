//! Items by their names.

ghost use Rattle.std.specs.Prelude.{◌≡◌, bytes_eq};
ghost use Rattle.net_model.specs.Named.{node_numbered, link_numbered};
ghost use Rattle.net_model.specs.NamedTerms.{IsNodeNumbered, IsLinkNumbered};

use crate::parts::{Link, Name, Node};

fn is_called(name: &Name, text: &[u8]) -> bool
    ensures { result ≡ bytes_eq name.now text.now }
{
    name.as_bytes() == text
}

fn first_node(nodes: &[Node], name: &[u8]) -> Option<usize>
    ensures { result ≡ node_numbered name.now nodes.now }
{
    nodes.iter().position(|n| is_called(&n.name, name))
}

fn first_link(links: &[Link], name: &[u8]) -> Option<usize>
    ensures { result ≡ link_numbered name.now links.now }
{
    links.iter().position(|l| is_called(&l.name, name))
}

/// The place of the first node with a name, counted from 0; `None` exactly where no node has it
pub fn place_of_node(nodes: &[Node], name: &[u8]) -> Option<usize>
    ensures number { result ≡ node_numbered name.now nodes.now }
    ensures meaning { IsNodeNumbered name.now nodes.now result }
{
    first_node(nodes, name)
}

/// The place of the first link with a name, counted from 0; `None` exactly where no link has it
pub fn place_of_link(links: &[Link], name: &[u8]) -> Option<usize>
    ensures number { result ≡ link_numbered name.now links.now }
    ensures meaning { IsLinkNumbered name.now links.now result }
{
    first_link(links, name)
}
