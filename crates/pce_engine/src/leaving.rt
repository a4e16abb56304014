//! Networks without some of their parts.

ghost use Rattle.std.specs.Prelude.{◌≡◌, [], IfOk};
ghost use Rattle.pce_protocol.specs.declared.request.Request.TheVariants as requests;
ghost use Rattle.srx_edge.specs.FilesRead.{FilesSeen};
ghost use Rattle.pce_engine.specs.EngineReplies.{kept, left};
ghost use Rattle.pce_engine.specs.EngineTerms.{Makes, IsDone};

use crate::done::Done;
use crate::holding::hold_made;
use crate::lookups::{Part, held_as, numbers_of, room_for};
use crate::networks::Networks;
use base::NoMemory;
use net_model::Net;
use pce_protocol::{Field, ReplyError, RequestFault, Routes, Without};
use std::alloc::Global;

/// That routes keep their links that are left.
fn kept(routes: Routes) -> Result<(), ReplyError>
    ensures { result ≡ kept routes }
{
    match routes {
        Routes::Keep => Ok(()),
        Routes::Again => Err(ReplyError::Request(RequestFault::BadField(Field::Routes))),
    }
}

/// The network that is left.
fn left(alloc: Global, networks: &Networks, without: &Without) -> Result<Net, ReplyError>
    ensures made { Makes (λ net. net) result (left without.now networks.now) }
    ensures whole { IfOk result (λ net. net.hidden ≡ []) }
{
    let held = held_as(alloc, networks, &without.from)?;
    let net = held.net();
    kept(without.routes)?;
    let links = numbers_of(alloc, net, Part::Link, without.links.as_slice())?;
    let nodes = numbers_of(alloc, net, Part::Node, without.nodes.as_slice())?;
    room_for(networks, &without.name)?;
    match net_without::without(alloc, net, links.as_slice(), nodes.as_slice()) {
        Ok(net) => Ok(net),
        Err(NoMemory) => Err(ReplyError::NoMemory),
    }
}

/// Holds a network without some of its parts.
pub(crate) fn leave_out(alloc: Global, networks: &Networks, without: &Without) -> Done
    ensures { (files : FilesSeen)
        → IsDone (requests.Without without.now) networks.now files result files }
{
    let made = left(alloc, networks, without);
    hold_made(alloc, &without.name, made)
}
