//! What a schedule changes of a run.

ghost use Rattle.std.specs.Prelude.{◌≡◌, ◌<◌, ℕ, All, List, length};
ghost use Rattle.std.specs.List.{flat_map};
ghost use Rattle.net_model.specs.Network.{Network};
ghost use Rattle.packet_walk.specs.Schedule.{Coming, scheduled, steps_of};
ghost use Rattle.command_inputs.specs.declared.input_packets.Packets.{Packets};
ghost use Rattle.command_inputs.specs.InputPackets.{reading_of};
ghost use Rattle.command_output.specs.OutputPieces.{bytes_for_err, bytes_for_out};
ghost use Rattle.run_commands.specs.WrittenCapture.{frames_of};
ghost use Rattle.run_commands.specs.RunCommandTerms.{comings_from};
ghost use Rattle.run_commands.specs.Scheduled.{frame_of_stage, line_of_stage, line_of_walk, scheduled_pieces, frames_sent};
ghost use Rattle.run_commands.specs.ScheduledTerms.{lines_told};

/// What is for `out` of the pieces in the order of a schedule are the frames that the stages send,
/// in that order, and what is for `err` the lines after the packets' last stages.
pub fn pieces_are_those_of_stages()
    ensures out { (net : Network) (schedule : List ℕ) (comings : List Coming) →
        bytes_for_out (scheduled_pieces net schedule comings)
        ≡ flat_map frame_of_stage (scheduled schedule comings) }
    ensures err { (net : Network) (schedule : List ℕ) (comings : List Coming) →
        bytes_for_err (scheduled_pieces net schedule comings)
        ≡ flat_map (line_of_stage net) (scheduled schedule comings) }
{}

/// Whatever the schedule, the frames of a packet are those of its own walk, in their order, and it
/// has one line, that of its own walk's end; for its walk has a stage. So two schedules give each
/// packet the same frames in the same order and the same line, and only their mixing differs. The
/// packets are those of a capture, or the bare one.
pub fn a_schedule_mixes_walks()
    ensures frames { (net : Network) (node number : ℕ) (choices schedule : List ℕ)
        (packets : Packets) →
        let comings = comings_from net node choices (reading_of packets).frames in
        frames_sent number (scheduled schedule comings)
        ≡ frames_of number (steps_of number comings) }
    ensures lines { (net : Network) (node number : ℕ) (choices schedule : List ℕ)
        (packets : Packets) →
        let comings = comings_from net node choices (reading_of packets).frames in
        lines_told net number (scheduled schedule comings)
        ≡ line_of_walk net number (steps_of number comings) }
    ensures walks { (net : Network) (node : ℕ) (choices : List ℕ) (packets : Packets) →
        All (λ c. 0 < length c.steps) (comings_from net node choices (reading_of packets).frames) }
{}
