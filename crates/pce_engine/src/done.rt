//! What a request gives, and what it does to the networks that are held.

ghost use Rattle.std.specs.Prelude.{◌≡◌, OnOk, OnErr};
ghost use Rattle.pce_engine.specs.EngineTerms.{changed, IsBad};

use crate::networks::Networks;
use base::NoMemory;
use net_model::Name;
use pce_answers::HeldNet;
use pce_protocol::{Field, Reply, ReplyError, RequestFault};

/// What a request does to the networks that are held.
#[derive(Drop)]
pub(crate) enum Change {
    /// All stays.
    Nothing,
    /// A network comes to be held by a name.
    Hold(Name, HeldNet),
    /// The network with a name is held no longer.
    Release(Name),
}

/// What a request gives, and what it does to the networks that are held.
#[derive(Drop)]
pub(crate) struct Done {
    /// What it gives, or why it gives nothing.
    pub reply: Reply,
    /// What it does.
    pub change: Change,
}

impl Done {
    ghost use Rattle.std.specs.Prelude.{Err};
    ghost use Rattle.pce_engine.specs.declared.done.Change.TheVariants as changes;

    /// The reply is all.
    pub(crate) fn replied(reply: Reply) -> Done
        ensures reply { result.reply ≡ reply }
        ensures change { result.change ≡ changes.Nothing }
    {
        Done {
            reply,
            change: Change::Nothing,
        }
    }

    /// Nothing is given, for this reason.
    pub(crate) fn failed(error: ReplyError) -> Done
        ensures reply { result.reply ≡ Err error }
        ensures change { result.change ≡ changes.Nothing }
    {
        Done::replied(Err(error))
    }
}

/// What a request gives with a field that it may not have, or not with this value.
pub(crate) fn bad_field(field: Field) -> Done
    ensures { IsBad field result }
{
    Done::failed(ReplyError::Request(RequestFault::BadField(field)))
}

/// Changes what is held. After want of memory all is held as it was.
pub(crate) fn make(networks: &mut Networks, change: Change) -> Result<(), NoMemory>
    ensures ok { OnOk result (networks.new ≡ changed change networks.old) }
    ensures err { OnErr result (networks.new ≡ networks.old) }
{
    match change {
        Change::Nothing => Ok(()),
        Change::Hold(name, network) => networks.hold(name, network),
        Change::Release(name) => {
            networks.release(&name);
            Ok(())
        }
    }
}
