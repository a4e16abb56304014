//! The fields of requests.

ghost use Rattle.std.specs.Prelude.{◌≡◌};
ghost use Rattle.pce_protocol.specs.Fields.{field_name};

/// A field of a request.
#[derive(Clone, Copy, Debug, PartialEq, Eq)]
pub enum Field {
    /// What names the request in its reply.
    Id,
    /// What is to be done.
    Do,
    /// The name by which a network comes to be held, or is dropped.
    As,
    /// The text of a description.
    Network,
    /// The path of a description.
    File,
    /// The text of a plan.
    Plan,
    /// The path of a plan.
    PlanFile,
    /// The name of the network from which parts are taken.
    From,
    /// The names of links.
    Links,
    /// The names of nodes.
    Nodes,
    /// Whether routes are kept or found again.
    Routes,
    /// The name of the network that is asked about.
    In,
    /// The text of an intent.
    Intent,
    /// Whether a certificate is wanted.
    Certificate,
    /// The segments of a list.
    List,
    /// The name of a node.
    Node,
    /// The bytes of a packet.
    Packet,
    /// The numbers by which members of equal next hops are taken.
    Choices,
}

impl Field {
    /// The field's name, as it stands in a request.
    #[tactic(auto, unfolding(crate::specs::Fields::field_name))]
    pub fn name(&self) -> &'static str
        ensures { result.now ≡ field_name self.now }
    {
        match self {
            Field::Id => "id",
            Field::Do => "do",
            Field::As => "as",
            Field::Network => "network",
            Field::File => "file",
            Field::Plan => "plan",
            Field::PlanFile => "plan_file",
            Field::From => "from",
            Field::Links => "links",
            Field::Nodes => "nodes",
            Field::Routes => "routes",
            Field::In => "in",
            Field::Intent => "intent",
            Field::Certificate => "certificate",
            Field::List => "list",
            Field::Node => "node",
            Field::Packet => "packet",
            Field::Choices => "choices",
        }
    }
}
