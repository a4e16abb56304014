//! What never fails, as the contract of a function that does nothing.

ghost use Rattle.std.specs.Prelude.{ℕ, List, Err};
ghost use Rattle.srx_edge.specs.declared.input.Failed.{Failed};
ghost use Rattle.srx_edge.specs.declared.output.SinkFault.TheVariants as faults;
ghost use Rattle.srx_edge.specs.Fakes.{SureSourceState, SureSinkState, sure_source_seen, sure_sink_seen};
ghost use Rattle.srx_edge.specs.Sources.{Reads};
ghost use Rattle.srx_edge.specs.Sinks.{Writes};

/// Where the count of faults stays, no call fails: none of `SureSource` and `SureSink`, whether
/// slowed or not.
pub fn sure_ends_never_fail()
    ensures source { (into filled : List ℕ) (fault : Failed) (old new : SureSourceState)
        → Reads into filled (Err fault) (sure_source_seen old) (sure_source_seen new) → ⊥ }
    ensures sink { (piece : List ℕ) (old new : SureSinkState)
        → Writes piece (Err faults.Failed) (sure_sink_seen old) (sure_sink_seen new) → ⊥ }
{}
