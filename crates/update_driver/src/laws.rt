//! Laws about the definitions, each the contract of a function that does nothing.

ghost use Rattle.std.specs.Prelude.{ℕ, List};
ghost use Rattle.pcap_io.specs.declared.frame.Frame.{Frame};
ghost use Rattle.update_plan.specs.UpdateState.{Plan};
ghost use Rattle.update_driver.specs.Events.{events_and_rest, starting};
ghost use Rattle.update_driver.specs.Moving.{Sides};
ghost use Rattle.update_driver.specs.Over.{IsOver, after_all};

/// Whatever the events are, after them and what is asked for behind them nothing is left: each packet
/// stayed or has ended, and all edits are done.
pub fn all_packets_end_and_all_edits_are_done()
    ensures { (sides : Sides) (plan : Plan) (frames : List Frame) (events : List ℕ) →
        let start = starting sides plan frames in
        IsOver (after_all sides start (events_and_rest start frames events)) }
{}
