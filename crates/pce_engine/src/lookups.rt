//! Networks, links and nodes by their names.

ghost use Rattle.std.specs.Prelude.{◌≡◌};
ghost use Rattle.pce_engine.specs.EngineReplies.{held_as, numbers_of, room_for};
ghost use Rattle.pce_engine.specs.EngineTerms.{Makes, numbered};

use crate::copying::unknown;
use crate::limits::MAX_NETWORKS;
use crate::networks::Networks;
use net_model::{Name, Net};
use pce_answers::HeldNet;
use pce_protocol::ReplyError;
use std::alloc::Global;

/// A part of a network that a request takes away.
#[derive(Clone, Copy, Debug, PartialEq, Eq)]
pub(crate) enum Part {
    /// A link.
    Link,
    /// A node.
    Node,
}

/// The network that is held by this name; else `UnknownName`.
pub(crate) fn held_as<'a>(
    alloc: Global,
    networks: &'a Networks,
    name: &Name,
) -> Result<&'a HeldNet, ReplyError>
    ensures { Makes (λ net. net.now) result (held_as name.now networks.now) }
{
    match networks.named(name) {
        Some(network) => Ok(network),
        None => Err(unknown(alloc, name)),
    }
}

/// That a name may come to hold a network; else `TooBig`.
pub(crate) fn room_for(networks: &Networks, name: &Name) -> Result<(), ReplyError>
    ensures { result ≡ room_for name.now networks.now }
{
    if networks.has_room(name) {
        return Ok(());
    }
    Err(ReplyError::TooBig(MAX_NETWORKS))
}

/// The number of the link or node with this name.
fn number_of(net: &Net, part: Part, name: &Name) -> Option<u32>
    ensures { result ≡ numbered net.now part name.now }
{
    match part {
        Part::Link => net.link_named(name.as_bytes()),
        Part::Node => net.node_named(name.as_bytes()),
    }
}

/// The numbers of the links or nodes with these names; `UnknownName` with the first that none has.
pub(crate) fn numbers_of(
    alloc: Global,
    net: &Net,
    part: Part,
    names: &[Name],
) -> Result<Vec<u32>, ReplyError>
    ensures { Makes (λ numbers. numbers.items) result
        (numbers_of (numbered net.now part) names.now) }
{
    let mut numbers = Vec::new(alloc);
    for name in names {
        let Some(number) = number_of(net, part, name) else {
            return Err(unknown(alloc, name));
        };
        if numbers.push(number).is_err() {
            return Err(ReplyError::NoMemory);
        }
    }
    Ok(numbers)
}
