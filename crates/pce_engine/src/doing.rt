//! What requests give and do.

ghost use Rattle.std.specs.Prelude.{◌≡◌, Result, Err};
ghost use Rattle.text_faults.specs.TextReading.{Gives};
ghost use Rattle.text_faults.specs.declared.fault.OrNoMemory.TheVariants as reads;
ghost use Rattle.srx_edge.specs.FilesRead.{FilesSeen};
ghost use Rattle.pce_protocol.specs.declared.request.Request.{Request as Wanted};
ghost use Rattle.pce_protocol.specs.declared.request.Request.TheVariants as requests;
ghost use Rattle.pce_protocol.specs.declared.request.RequestFault.{RequestFault as Fault};
ghost use Rattle.pce_engine.specs.EngineTerms.{IsDone, IsReplied, Starves};

use crate::asking::{compile, judge, trace};
use crate::copying::{copy_name, faulty};
use crate::done::{Change, Done};
use crate::leaving::leave_out;
use crate::loading::load;
use crate::lookups::held_as;
use crate::networks::Networks;
use base::NoMemory;
use net_model::Name;
use pce_protocol::{Answer, ReplyError, Request, RequestError};
use srx_edge::Files;
use std::alloc::Global;
use text_faults::OrNoMemory;

/// Lets go of a network.
fn release(alloc: Global, networks: &Networks, name: &Name) -> Done
    ensures { (files : FilesSeen)
        → IsDone (requests.Drop name.now) networks.now files result files }
{
    if let Err(error) = held_as(alloc, networks, name) {
        return Done::failed(error);
    }
    match copy_name(alloc, name) {
        Ok(name) => Done {
            reply: Ok(Answer::Dropped),
            change: Change::Release(name),
        },
        Err(NoMemory) => Done::failed(ReplyError::NoMemory),
    }
}

/// What a request gives and does.
fn done_by<F: Files>(alloc: Global, networks: &Networks, files: &mut F, request: &Request) -> Done
    ensures { IsDone request.now networks.now (F.seen files.old) result (F.seen files.new) }
{
    match request {
        Request::Version => Done::replied(Ok(Answer::Version)),
        Request::Load(request) => load(alloc, networks, files, request),
        Request::Without(request) => leave_out(alloc, networks, request),
        Request::Drop(name) => release(alloc, networks, name),
        Request::Compile(request) => Done::replied(compile(alloc, networks, request)),
        Request::Judge(request) => Done::replied(judge(alloc, networks, request)),
        Request::Trace(request) => Done::replied(trace(alloc, networks, request)),
    }
}

/// What a line gives and does, by the request that was read of it.
pub(crate) fn replied<F: Files>(
    alloc: Global,
    networks: &Networks,
    files: &mut F,
    request: &Result<Request, RequestError>,
) -> Done
    ensures done { (asked : Result Wanted Fault) → Gives (λ r. r) request.now asked
        → IsReplied asked networks.now (F.seen files.old) result (F.seen files.new) }
    ensures wanting { request.now ≡ Err reads.NoMemory → Starves result }
{
    match request {
        Ok(request) => done_by(alloc, networks, files, request),
        Err(OrNoMemory::Fault(fault)) => Done::failed(faulty(alloc, fault)),
        Err(OrNoMemory::NoMemory) => Done::failed(ReplyError::NoMemory),
    }
}
