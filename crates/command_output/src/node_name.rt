//! The names of nodes in refusals.

ghost use Rattle.std.specs.Prelude.{◌≡◌, slice_get};
ghost use Rattle.trace_replay.specs.TraceLines.{name_of_node};

use arrayvec::ArrayString;
use net_model::{MAX_NAME_BYTES, Net};
use std::fmt;
use std::marker::Model;

/// A node's name, held in place. Contracts see its bytes.
#[derive(Debug, Drop)]
pub struct NodeName {
    text: ArrayString<MAX_NAME_BYTES>,
}

impl Model for NodeName {
    ghost use Rattle.std.specs.Prelude.{List, ℕ};

    ghost Value = { List ℕ };

    ghost view = { λ n. n.text.bytes };
}

impl NodeName {
    /// The name of the node with a number, counted from 0; no bytes where there is no such node.
    #[tactic(auto, using(crate::proofs::NodeNames::name_fits))]
    pub fn of_node(net: &Net, node: u32) -> NodeName
        ensures { result ≡ name_of_node (slice_get net.now.nodes node) }
    {
        net.keeps_rules();
        if net.nodes() <= node {
            return NodeName {
                text: ArrayString::new(),
            };
        }
        match ArrayString::from(net.node(node).name.as_str()) {
            Ok(text) => NodeName { text },
            Err(_) => NodeName {
                text: ArrayString::new(),
            },
        }
    }
}

impl PartialEq for NodeName {
    ghost use Rattle.std.specs.Prelude.{nat_eq};
    ghost use Rattle.std.specs.Cmp.{partial_equiv_from_equiv};
    ghost use Rattle.std.specs.Cmp.Lexicographic.{pointwise, nat_list_eq_equiv};

    ghost eq = { λ m n. pointwise nat_eq m n };

    ghost laws = { partial_equiv_from_equiv nat_list_eq_equiv };

    fn eq(&self, other: &NodeName) -> bool {
        self.text.as_str() == other.text.as_str()
    }
}

impl Eq for NodeName {
    ghost use Rattle.std.specs.Cmp.Lexicographic.{nat_list_eq_equiv};

    ghost laws = { nat_list_eq_equiv };
}

/// The text of a name as it stands.
impl fmt::Display for NodeName {
    ghost use Rattle.std.specs.Prelude.{Some};

    ghost output = { λ n. Some n };

    fn fmt<W: fmt::Write>(&self, f: &mut fmt::Formatter<W>) -> fmt::Result {
        f.pad(self.text.as_str())
    }
}
