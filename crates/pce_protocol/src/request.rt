//! Requests.

ghost use Rattle.std.specs.Prelude.{◌≡◌};

use crate::choices::Choices;
use crate::field::Field;
use crate::packet::Packet;
use crate::text::Text;
use base::Seq;
use net_model::Name;
use text_faults::OrNoMemory;
use v6_addr::Addr;

/// A text that a request has, or names.
#[derive(Debug, Drop)]
pub enum TextSource {
    /// The text itself.
    Here(Text),
    /// The path of a file that has it.
    File(Text),
}

/// To hold a network that is described.
#[derive(Debug, Drop)]
pub struct Load {
    /// The name by which it comes to be held.
    pub name: Name,
    /// Its description.
    pub network: TextSource,
    /// The plan that finds its routes.
    pub plan: Option<TextSource>,
}

/// What becomes of routes over parts that are taken away.
#[derive(Clone, Copy, Debug, PartialEq, Eq)]
pub enum Routes {
    /// They keep their links that are left.
    Keep,
    /// They are found again by the network's plan.
    Again,
}

/// To hold a network without some of its parts.
#[derive(Debug, Drop)]
pub struct Without {
    /// The name of the network from which parts are taken.
    pub from: Name,
    /// The name by which what is left comes to be held.
    pub name: Name,
    /// The names of the links that are down.
    pub links: Seq<Name>,
    /// The names of the nodes whose links are down.
    pub nodes: Seq<Name>,
    /// What becomes of routes.
    pub routes: Routes,
}

/// To compile an intent.
#[derive(Debug, Drop)]
pub struct Compile {
    /// The name of the network.
    pub network: Name,
    /// The intent.
    pub intent: Text,
    /// Whether a certificate is wanted.
    pub certificate: bool,
}

/// To judge a list.
#[derive(Debug, Drop)]
pub struct Judge {
    /// The name of the network.
    pub network: Name,
    /// The intent.
    pub intent: Text,
    /// The list's segments in the order in which they are visited.
    pub list: Seq<Addr>,
}

/// To trace a packet.
#[derive(Debug, Drop)]
pub struct Trace {
    /// The name of the network.
    pub network: Name,
    /// The name of the node that the packet reaches first.
    pub node: Name,
    /// The packet.
    pub packet: Packet,
    /// By which members of equal next hops are taken, in their order.
    pub choices: Choices,
}

/// What is asked for.
#[derive(Debug, Drop)]
pub enum Request {
    /// The program and the version of the protocol.
    Version,
    /// A network is to be held.
    Load(Load),
    /// A network without some of its parts is to be held.
    Without(Without),
    /// The network of this name is to be held no longer.
    Drop(Name),
    /// An intent is to be compiled.
    Compile(Compile),
    /// A list is to be judged.
    Judge(Judge),
    /// A packet is to be traced.
    Trace(Trace),
}

/// Why a line asks for nothing.
#[derive(Debug, Drop)]
pub enum RequestFault {
    /// It is no JSON object.
    BadJson,
    /// A field that isn't there, or whose value it may not have.
    BadField(Field),
    /// A field with this name, which no such request has.
    UnknownField(Text),
}

impl From<RequestFault> for OrNoMemory<RequestFault> {
    ghost use Rattle.text_faults.specs.declared.fault.OrNoMemory.TheVariants.{Fault};

    ghost from_gives = { λ fault why. why ≡ Fault fault };

    fn from(fault: RequestFault) -> OrNoMemory<RequestFault> {
        OrNoMemory::Fault(fault)
    }
}
