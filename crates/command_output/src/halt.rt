//! Why a command ends before its end.

ghost use Rattle.std.specs.Prelude.{◌≡◌};

use crate::refusal::Refusal;
use base::NoMemory;
use intent_reader::IntentFault;
use list_certificate::CertFault;
use srx_edge::{DrawFault, FileFault, PourFault};
use std::alloc::AllocError;
use text_faults::{OrNoMemory, TextFault};
use trace_replay::TraceFault;

/// Why a step was not done, whatever it is given.
#[derive(Clone, Copy, Debug)]
pub enum Failure {
    /// A fault of the files, the input or a sink.
    Fault,
    /// Want of memory.
    NoMemory,
}

/// Why a command ends before its end.
#[derive(Debug, Drop)]
pub enum Halt {
    /// What was judged is refused.
    Refused(Refusal),
    /// A step was not done.
    Failed(Failure),
}

impl From<AllocError> for Failure {
    ghost use Rattle.command_output.specs.HaltsTerms.{memory_fails};

    ghost from_gives = { λ _ failure. failure ≡ memory_fails };

    fn from(_: AllocError) -> Failure {
        Failure::NoMemory
    }
}

impl From<NoMemory> for Failure {
    ghost use Rattle.command_output.specs.HaltsTerms.{memory_fails};

    ghost from_gives = { λ _ failure. failure ≡ memory_fails };

    fn from(_: NoMemory) -> Failure {
        Failure::NoMemory
    }
}

impl From<PourFault> for Failure {
    ghost use Rattle.command_output.specs.HaltsTerms.{failure_of_pour};

    ghost from_gives = { λ fault failure. failure ≡ failure_of_pour fault };

    fn from(fault: PourFault) -> Failure {
        match fault {
            PourFault::Failed { .. } => Failure::Fault,
            PourFault::NoMemory { .. } => Failure::NoMemory,
        }
    }
}

impl From<Failure> for Halt {
    ghost use Rattle.command_output.specs.HaltsTerms.{halt_of_failure};

    ghost from_gives = { λ failure halt. halt ≡ halt_of_failure failure };

    fn from(failure: Failure) -> Halt {
        Halt::Failed(failure)
    }
}

impl From<AllocError> for Halt {
    ghost use Rattle.command_output.specs.HaltsTerms.{halt_of_failure, memory_fails};

    ghost from_gives = { λ _ halt. halt ≡ halt_of_failure memory_fails };

    fn from(_: AllocError) -> Halt {
        Halt::Failed(Failure::NoMemory)
    }
}

impl From<NoMemory> for Halt {
    ghost use Rattle.command_output.specs.HaltsTerms.{halt_of_failure, memory_fails};

    ghost from_gives = { λ _ halt. halt ≡ halt_of_failure memory_fails };

    fn from(_: NoMemory) -> Halt {
        Halt::Failed(Failure::NoMemory)
    }
}

impl From<Refusal> for Halt {
    ghost use Rattle.command_output.specs.HaltsTerms.{halt_of_refusal};

    ghost from_gives = { λ refusal halt. halt ≡ halt_of_refusal refusal };

    fn from(refusal: Refusal) -> Halt {
        Halt::Refused(refusal)
    }
}

impl From<FileFault> for Halt {
    ghost use Rattle.command_output.specs.HaltsTerms.{halt_of_file};

    ghost from_gives = { λ fault halt. halt ≡ halt_of_file fault };

    fn from(fault: FileFault) -> Halt {
        match fault {
            FileFault::Failed => Halt::Failed(Failure::Fault),
            FileFault::TooBig { limit } => Halt::Refused(Refusal::TooBig { limit }),
            FileFault::NoMemory => Halt::Failed(Failure::NoMemory),
        }
    }
}

impl From<DrawFault> for Halt {
    ghost use Rattle.command_output.specs.HaltsTerms.{halt_of_draw};

    ghost from_gives = { λ fault halt. halt ≡ halt_of_draw fault };

    fn from(fault: DrawFault) -> Halt {
        match fault {
            DrawFault::Failed => Halt::Failed(Failure::Fault),
            DrawFault::TooBig { limit } => Halt::Refused(Refusal::TooBig { limit }),
            DrawFault::NoMemory => Halt::Failed(Failure::NoMemory),
        }
    }
}

impl From<OrNoMemory<TextFault>> for Halt {
    ghost use Rattle.command_output.specs.HaltsTerms.{halt_of_net};

    ghost from_gives = { λ why halt. halt ≡ halt_of_net why };

    fn from(why: OrNoMemory<TextFault>) -> Halt {
        match why {
            OrNoMemory::Fault(fault) => Halt::Refused(Refusal::Net(fault)),
            OrNoMemory::NoMemory => Halt::Failed(Failure::NoMemory),
        }
    }
}

impl From<OrNoMemory<IntentFault>> for Halt {
    ghost use Rattle.command_output.specs.HaltsTerms.{halt_of_intent};

    ghost from_gives = { λ why halt. halt ≡ halt_of_intent why };

    fn from(why: OrNoMemory<IntentFault>) -> Halt {
        match why {
            OrNoMemory::Fault(fault) => Halt::Refused(Refusal::Intent(fault)),
            OrNoMemory::NoMemory => Halt::Failed(Failure::NoMemory),
        }
    }
}

impl From<CertFault> for Halt {
    ghost use Rattle.command_output.specs.HaltsTerms.{halt_of_cert};

    ghost from_gives = { λ fault halt. halt ≡ halt_of_cert fault };

    fn from(fault: CertFault) -> Halt {
        match fault {
            CertFault::NoMemory => Halt::Failed(Failure::NoMemory),
            CertFault::BadCert { line } => Halt::Refused(Refusal::BadCert { line }),
        }
    }
}

impl From<TraceFault> for Halt {
    ghost use Rattle.command_output.specs.HaltsTerms.{halt_of_trace};

    ghost from_gives = { λ fault halt. halt ≡ halt_of_trace fault };

    fn from(fault: TraceFault) -> Halt {
        match fault {
            TraceFault::NoMemory => Halt::Failed(Failure::NoMemory),
            TraceFault::BadTrace { line } => Halt::Refused(Refusal::BadTrace { line }),
        }
    }
}
