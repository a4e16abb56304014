//! Networks that come to be held.

ghost use Rattle.std.specs.Prelude.{◌≡◌, [], Ok, Result, IfOk};
ghost use Rattle.net_model.specs.Network.{Network};
ghost use Rattle.pce_protocol.specs.declared.reply.ReplyError.{ReplyError as Error};
ghost use Rattle.pce_engine.specs.EngineTerms.{Makes, ComesToHold};

use crate::copying::copy_name;
use crate::done::{Change, Done};
use base::NoMemory;
use net_model::{Name, Net};
use pce_answers::HeldNet;
use pce_protocol::{Answer, ReplyError};
use std::alloc::Global;

/// What a network gives and does that comes to be held by a name.
fn hold(alloc: Global, name: &Name, net: Net) -> Result<Done, NoMemory>
    requires { net.hidden ≡ [] }
    ensures { IfOk result (ComesToHold name.now (Ok net)) }
{
    let network = HeldNet::new(alloc, net);
    let told = network.told(alloc)?;
    let name = copy_name(alloc, name)?;
    Ok(Done {
        reply: Ok(Answer::Held(told)),
        change: Change::Hold(name, network),
    })
}

/// What a network gives and does that comes to be held by a name, where it could be made; else why
/// it couldn't.
pub(crate) fn hold_made(alloc: Global, name: &Name, made: Result<Net, ReplyError>) -> Done
    requires { IfOk made (λ net. net.hidden ≡ []) }
    ensures { (wanted : Result Network Error) → Makes (λ net. net) made wanted
        → ComesToHold name.now wanted result }
{
    match made {
        Ok(net) => match hold(alloc, name, net) {
            Ok(done) => done,
            Err(NoMemory) => Done::failed(ReplyError::NoMemory),
        },
        Err(error) => Done::failed(error),
    }
}
