//! Networks that are loaded.

ghost use Rattle.std.specs.Prelude.{◌≡◌, [], Result, Ok, List, ℕ, IfOk};
ghost use Rattle.std.specs.Global.{Vec as Bytes};
ghost use Rattle.srx_edge.specs.FilesRead.{ReadsFile};
ghost use Rattle.srx_edge.specs.declared.file_access.FileFault.{FileFault as Fault};
ghost use Rattle.pce_protocol.specs.declared.reply.ReplyError.{ReplyError as Error};
ghost use Rattle.pce_protocol.specs.declared.request.Request.TheVariants as requests;
ghost use Rattle.pce_engine.specs.declared.limits.TheConstants.{MAX_TEXT};
ghost use Rattle.pce_engine.specs.EngineReplies.{short_enough, file_text, Gives, loaded};
ghost use Rattle.pce_engine.specs.EngineTerms.{text_items, IsErrorOfNet, Makes, IsDone};

use crate::done::{Done, bad_field};
use crate::holding::hold_made;
use crate::limits::MAX_TEXT;
use crate::lookups::room_for;
use crate::networks::Networks;
use command_output::Refusal;
use net_model::{Name, Net};
use net_reader::read_net;
use pce_answers::why_refused;
use pce_protocol::{Field, Load, ReplyError, Text, TextSource};
use srx_edge::{FileFault, Files};
use std::alloc::Global;
use text_faults::{NetFault, OrNoMemory};

/// The error of a description that gives no network.
fn error_of_net(alloc: Global, fault: NetFault) -> ReplyError
    ensures { IsErrorOfNet fault result }
{
    let OrNoMemory::Fault(fault) = fault else {
        return ReplyError::NoMemory;
    };
    match why_refused(alloc, &Refusal::Net(fault)) {
        Ok(why) => ReplyError::Refused(why),
        Err(_) => ReplyError::NoMemory,
    }
}

/// The network that a text describes, where it may be held by this name.
fn described(
    alloc: Global,
    networks: &Networks,
    name: &Name,
    text: &[u8],
) -> Result<Net, ReplyError>
    ensures made { Makes (λ net. net) result
        (loaded name.now networks.now (short_enough text.now)) }
    ensures whole { IfOk result (λ net. net.hidden ≡ []) }
{
    if text.len() > MAX_TEXT {
        return Err(ReplyError::TooBig(MAX_TEXT));
    }
    room_for(networks, name)?;
    match read_net(alloc, text) {
        Ok(net) => Ok(net),
        Err(fault) => Err(error_of_net(alloc, fault)),
    }
}

/// The text of the file at a path.
fn file_text<F: Files>(alloc: Global, files: &mut F, path: &Text) -> Result<Vec<u8>, ReplyError>
    ensures { (answer : Result (Bytes ℕ) Fault)
        × ReadsFile path.now MAX_TEXT answer (F.seen files.old) (F.seen files.new)
        × (text_items result ≡ file_text answer) }
{
    match files.read(alloc, path.as_str(), MAX_TEXT) {
        Ok(text) => Ok(text),
        Err(FileFault::Failed) => Err(ReplyError::BadFile),
        Err(FileFault::TooBig { limit }) => Err(ReplyError::TooBig(limit)),
        Err(FileFault::NoMemory) => Err(ReplyError::NoMemory),
    }
}

/// The network that a request describes, or a file that it names.
fn network_of<F: Files>(
    alloc: Global,
    networks: &Networks,
    files: &mut F,
    load: &Load,
) -> Result<Net, ReplyError>
    ensures made { (given : Result (List ℕ) Error)
        × Gives load.now.network (F.seen files.old) given (F.seen files.new)
        × Makes (λ net. net) result (loaded load.now.name networks.now given) }
    ensures whole { IfOk result (λ net. net.hidden ≡ []) }
{
    match &load.network {
        TextSource::Here(text) => described(alloc, networks, &load.name, text.as_bytes()),
        TextSource::File(path) => match file_text(alloc, files, path) {
            Ok(text) => described(alloc, networks, &load.name, text.as_slice()),
            Err(error) => Err(error),
        },
    }
}

/// Loads a network: it comes to be held by its name.
pub(crate) fn load<F: Files>(alloc: Global, networks: &Networks, files: &mut F, load: &Load) -> Done
    ensures { IsDone (requests.Load load.now) networks.now (F.seen files.old)
        result (F.seen files.new) }
{
    match &load.plan {
        None => {
            let made = network_of(alloc, networks, files, load);
            hold_made(alloc, &load.name, made)
        }
        Some(TextSource::Here(_)) => bad_field(Field::Plan),
        Some(TextSource::File(_)) => bad_field(Field::PlanFile),
    }
}
