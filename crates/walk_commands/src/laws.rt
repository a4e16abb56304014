//! What walks from the headend keep to, and what a schedule changes of them.

ghost use Rattle.std.specs.Prelude.{◌≡◌, ◌<◌, ◌^◌, ℕ, All, IsTrue, List, length};
ghost use Rattle.srv6_rules.specs.Packet.{Content, IsSpellable};
ghost use Rattle.net_model.specs.Network.{Network};
ghost use Rattle.net_model.specs.NetworkRulesTerms.{IsNetwork};
ghost use Rattle.intent_reader.specs.declared.intent.Intent.{Intent};
ghost use Rattle.intent_reader.specs.IntentRules.{has_reach};
ghost use Rattle.list_pack.specs.SidLists.{list_values};
ghost use Rattle.leg_table.specs.Realizes.{IsInner, ListRealizes, encapsulated_for};
ghost use Rattle.path_compiler.specs.declared.compiled.Compiled.{Compiled};
ghost use Rattle.compile_commands.specs.CompiledLists.{IsCompiledFor, BindsNothing, IsSmallFor};
ghost use Rattle.packet_walk.specs.Schedule.{scheduled, steps_of};
ghost use Rattle.command_inputs.specs.declared.input_packets.Packets.{Packets};
ghost use Rattle.command_inputs.specs.InputPackets.{reading_of};
ghost use Rattle.run_commands.specs.WrittenCapture.{frames_of};
ghost use Rattle.run_commands.specs.Scheduled.{line_of_walk, frames_sent};
ghost use Rattle.run_commands.specs.ScheduledTerms.{lines_told};
ghost use Rattle.command_output.specs.OutputPieces.{Output};
ghost use Rattle.command_output.specs.CommandSpec.{Held};
ghost use Rattle.walk_commands.specs.declared.headend.Headend.{Headend};
ghost use Rattle.walk_commands.specs.WalkCommand.{IsEncapsulated, KeepsTo, KeepsToAtFirst, walk_spec, comings_at_headend};

/// An inner packet of the intent's family whose hop limit or TTL is at least 2, and that is small,
/// enters at the headend. It is small where bytes spell it with its first header, the payload of
/// each header that a binding SID pushes in front of it fits, each packet fits the link that it is
/// sent on, with all headers in front, and there are fewer stages than a walk may have, up to the
/// hand-over that is told below. Its walk, which `walk` writes, keeps to the intent's steps up to
/// its own hand-over, whatever is chosen: the first that takes off no header of a binding SID.
/// Where no step is loose, it crosses and executes exactly the steps, in order; where one
/// is, its trace splits into the steps' parts. What is handed over there is the inner packet with
/// its hop limit or TTL lowered by one (with IPv4 the checksum that follows too) and nothing else
/// changed. Where the list realizes the intent without binding SIDs, and so wherever a
/// step is to reach a node, it is so, with the first hand-over of the walk, of every such packet
/// whose outer packet is not too big and no longer than the MTU of each link that a step may cross.
/// In a network without binding SIDs every list does so, and that packet is small, where
/// bytes spell it with its first header. (RFC 8986 sections 4.13, 4.14, 4.16.3, 5.1 and 5.2)
pub fn a_walk_keeps_to_the_intent()
    ensures small { (net : Network) (intent : Intent) (c : Compiled) (choices : List ℕ) →
        (inner : Content) → IsNetwork net → IsCompiledFor net intent c → 0 < length choices →
        IsInner intent.inner inner →
        IsSmallFor net intent (list_values net c.list) inner intent.hop_limit →
        KeepsTo net intent c choices inner }
    ensures strict { (net : Network) (intent : Intent) (c : Compiled) (choices : List ℕ) →
        (inner : Content) → ListRealizes net intent c.list c.need → intent.hop_limit < 2 ^ 8 →
        IsCompiledFor net intent c → 0 < length choices → IsEncapsulated net intent c inner →
        KeepsToAtFirst net intent c choices inner }
    ensures plain { (net : Network) (intent : Intent) (c : Compiled) (choices : List ℕ) →
        (inner : Content) → BindsNothing net → intent.hop_limit < 2 ^ 8 →
        IsCompiledFor net intent c → 0 < length choices → IsEncapsulated net intent c inner →
        KeepsToAtFirst net intent c choices inner }
    ensures loose { (net : Network) (intent : Intent) (c : Compiled) (choices : List ℕ) →
        (inner : Content) → IsTrue (has_reach intent.steps) → intent.hop_limit < 2 ^ 8 →
        IsCompiledFor net intent c → 0 < length choices → IsEncapsulated net intent c inner →
        KeepsToAtFirst net intent c choices inner }
    ensures fits { (net : Network) (intent : Intent) (c : Compiled) (inner : Content) →
        BindsNothing net → intent.hop_limit < 2 ^ 8 → IsCompiledFor net intent c →
        IsEncapsulated net intent c inner →
        IsSpellable (encapsulated_for intent (list_values net c.list) inner intent.hop_limit) →
        IsSmallFor net intent (list_values net c.list) inner intent.hop_limit }
    ensures loose_fits { (net : Network) (intent : Intent) (c : Compiled) (inner : Content) →
        IsTrue (has_reach intent.steps) → intent.hop_limit < 2 ^ 8 → IsCompiledFor net intent c →
        IsEncapsulated net intent c inner →
        IsSpellable (encapsulated_for intent (list_values net c.list) inner intent.hop_limit) →
        IsSmallFor net intent (list_values net c.list) inner intent.hop_limit }
{}

/// Whatever the schedule, the frames of a packet that the headend encapsulates are those of its own
/// walk, in their order, and it has one line, that of its own walk's end; for its walk has a stage.
/// So two schedules give each packet the same frames in the same order and the same line, and only
/// their mixing differs. The packets are those of a capture, or the bare one.
pub fn a_schedule_mixes_walks()
    ensures frames { (net : Network) (headend : Headend) (number : ℕ)
        (choices schedule : List ℕ) (packets : Packets) →
        let comings = comings_at_headend net headend choices (reading_of packets).frames in
        frames_sent number (scheduled schedule comings)
        ≡ frames_of number (steps_of number comings) }
    ensures lines { (net : Network) (headend : Headend) (number : ℕ)
        (choices schedule : List ℕ) (packets : Packets) →
        let comings = comings_at_headend net headend choices (reading_of packets).frames in
        lines_told net number (scheduled schedule comings)
        ≡ line_of_walk net number (steps_of number comings) }
    ensures walks { (net : Network) (headend : Headend) (choices : List ℕ)
        (packets : Packets) → All (λ c. 0 < length c.steps)
        (comings_at_headend net headend choices (reading_of packets).frames) }
{}

/// With one description, one intent and one input `walk` has one output, by its choices and its
/// schedule.
pub fn walk_has_one_output()
    ensures { (file intent choices schedule : List ℕ) (held : Held) (input : List ℕ) (a b : Output)
        → (walk_spec file intent choices schedule).wants held input a
        → (walk_spec file intent choices schedule).wants held input b → a ≡ b }
{}
