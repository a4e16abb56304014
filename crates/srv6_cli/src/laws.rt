//! What the contract of `serve` says of each fault and of each want of memory in a sink by itself.
//! Each law is of every call, also over files, an input and sinks that tell nothing.

ghost use Rattle.std.specs.Prelude.{◌≡◌, ◌≢◌, ℕ, List};
ghost use Rattle.generate_commands.specs.declared.gen_command.Made.{Made};
ghost use Rattle.srv6_cli.specs.ServeLaws.{OfServe, HadFault, HadWant, AfterFilesFault, AfterInputFault, AfterOutFault, AfterOutWant, HasOneOutput, InputIsWhole, NoFault, NoWant, NoneFailsOverSure, OneFault, StandAtZero};
ghost use Rattle.srv6_cli.specs.Commands.{spec_of};
ghost use Rattle.srv6_cli.specs.Complete.{FilesAreSure};
ghost use Rattle.srv6_cli.specs.CommandWords as commands;

use command_output::Status;

/// Where a count of faults changed, it went on by one. After a fault of the files no name was asked
/// for, and the input and both sinks are as they were. After one of the input no later read gave
/// anything, and both sinks are as they were. After one of a sink no later write to it sent
/// anything; where that is `out`, `err` had no fault and no want, and is as it was where the
/// command's lines stand after all of `out`.
pub fn a_fault_is_the_last_thing()
    ensures files { OfServe (λ command status old new.
        new.files.faults ≢ old.files.faults → AfterFilesFault old new) }
    ensures input { OfServe (λ command status old new.
        new.input.faults ≢ old.input.faults → AfterInputFault old new) }
    ensures out { OfServe (λ command status old new.
        new.sinks.out.faults ≢ old.sinks.out.faults → AfterOutFault command old new) }
    ensures err { OfServe (λ command status old new.
        new.sinks.err.faults ≢ old.sinks.err.faults → HadFault old.sinks.err new.sinks.err) }
{}

/// Where a sink's count of wants changed, it went on by one, the sink had no fault, and no later
/// write to it sent anything. Where it is `out`, `err` had no fault and no want, and is as it was
/// where the command's lines stand after all of `out`.
pub fn a_want_in_a_sink_is_the_last_thing()
    ensures out { OfServe (λ command status old new.
        new.sinks.out.wants ≢ old.sinks.out.wants → AfterOutWant command old new) }
    ensures err { OfServe (λ command status old new.
        new.sinks.err.wants ≢ old.sinks.err.wants → HadWant old.sinks.err new.sinks.err) }
{}

/// With OutsideFault at least one of the four counts of faults went on by one (one alone by
/// `Serves`, where the call stops at one place), and with every other status none changed; with
/// every status but NoMemory no count of wants changed.
pub fn counts_go_with_their_status()
    ensures fault { OfServe (λ command status old new.
        status ≡ Status.OutsideFault → OneFault old new) }
    ensures no_fault { OfServe (λ command status old new.
        status ≢ Status.OutsideFault → NoFault old new) }
    ensures no_want { OfServe (λ command status old new.
        status ≢ Status.NoMemory → NoWant old new) }
{}

/// Over files that are sure and hold each name that the command comes to, an input and sinks whose
/// counts of faults are 0 at the end, as those of sure ones always are, no call ends with
/// OutsideFault; so over `MemFiles` without failing reads, a `SureSource` and two of `SureSink`.
pub fn a_sure_outside_has_no_fault()
    ensures sure { OfServe (λ command status old new. FilesAreSure (spec_of command) old.files
        → StandAtZero new → status ≢ Status.OutsideFault) }
    ensures memory { NoneFailsOverSure }
{}

/// With a status other than OutsideFault and NoMemory the input is as it was, or it was read to its
/// end, or, where it has more bytes than it may, one byte past the limit and no more; so also where
/// it was refused.
pub fn an_input_is_read_whole_or_not_at_all()
    ensures { OfServe (λ command status old new. status ≢ Status.OutsideFault
        → status ≢ Status.NoMemory → InputIsWhole old new) }
{}

/// The output that `serve` wants of a command that compiles an intent is one: with one content of
/// the files and one input there are no two.
pub fn each_compiling_command_has_one_output()
    ensures compile { (file intent : List ℕ) → HasOneOutput (commands.Compile file intent) }
    ensures walk { (file intent choices schedule : List ℕ) →
        HasOneOutput (commands.Walk file intent choices schedule) }
    ensures update { (old new intent events : List ℕ) →
        HasOneOutput (commands.Update old new intent events) }
    ensures generates { (n : ℕ) (made : Made) → HasOneOutput (commands.Gen n made) }
{}
