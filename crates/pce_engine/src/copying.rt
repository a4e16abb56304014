//! Copies of names, and of what is told of requests.

ghost use Rattle.std.specs.Prelude.{◌≡◌, IfOk};
ghost use Rattle.pce_protocol.specs.declared.reply.ReplyError.TheVariants as errors;
ghost use Rattle.pce_engine.specs.EngineTerms.{IsUnlessWanting};

use base::NoMemory;
use net_model::Name;
use pce_protocol::{ReplyError, RequestFault, Text};
use std::alloc::Global;

/// A copy of a name.
pub(crate) fn copy_name(alloc: Global, name: &Name) -> Result<Name, NoMemory>
    ensures { IfOk result (λ copy. copy ≡ name.now) }
{
    Ok(Name::new(name.as_str().to_string(alloc)?))
}

/// A copy of a fault.
fn copy_fault(alloc: Global, fault: &RequestFault) -> Result<RequestFault, NoMemory>
    ensures { IfOk result (λ copy. copy ≡ fault.now) }
{
    match fault {
        RequestFault::BadJson => Ok(RequestFault::BadJson),
        RequestFault::BadField(field) => Ok(RequestFault::BadField(*field)),
        RequestFault::UnknownField(name) => {
            let name = Text::new(name.as_str().to_string(alloc)?);
            Ok(RequestFault::UnknownField(name))
        }
    }
}

/// The error of a name that nothing has.
pub(crate) fn unknown(alloc: Global, name: &Name) -> ReplyError
    ensures { IsUnlessWanting (errors.UnknownName name.now) result }
{
    match copy_name(alloc, name) {
        Ok(name) => ReplyError::UnknownName(name),
        Err(NoMemory) => ReplyError::NoMemory,
    }
}

/// The error of a line that asks for nothing.
pub(crate) fn faulty(alloc: Global, fault: &RequestFault) -> ReplyError
    ensures { IsUnlessWanting (errors.Request fault.now) result }
{
    match copy_fault(alloc, fault) {
        Ok(fault) => ReplyError::Request(fault),
        Err(NoMemory) => ReplyError::NoMemory,
    }
}
