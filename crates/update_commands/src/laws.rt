//! Laws about the definitions, each the contract of a function that does nothing.

ghost use Rattle.std.specs.Prelude.{◌≡◌, List, None, Ok, ℕ};
ghost use Rattle.pcap_io.specs.declared.frame.Body.{Body};
ghost use Rattle.srv6_rules.specs.Packet.{Content};
ghost use Rattle.net_model.specs.Network.{Network};
ghost use Rattle.leg_table.specs.Realizes.{IsInner};
ghost use Rattle.path_compiler.specs.declared.compiled.Compiled.{Compiled};
ghost use Rattle.command_output.specs.OutputPieces.{Output};
ghost use Rattle.command_output.specs.CommandSpec.{Held};
ghost use Rattle.command_inputs.specs.declared.file_judge.BothIntents.{BothIntents};
ghost use Rattle.command_inputs.specs.Judgements.{intents_in};
ghost use Rattle.update_driver.specs.Arriving.{early_at};
ghost use Rattle.update_commands.specs.UpdateCommand.{update_spec};
ghost use Rattle.update_commands.specs.WholeUpdate.{HasInner, sides_of};

/// A frame's inner packet of the intent's family whose hop limit or TTL is at least 2 is to come:
/// it is not turned away before the first event of an update, whatever the lists are. (RFC 8986
/// section 5.1; own rule)
pub fn an_inner_packet_is_to_come()
    ensures { (old new : Network) (both : BothIntents) (before after : Compiled) (body : Body) →
        (inner : Content) → HasInner both.before.inner body inner →
        IsInner both.before.inner inner →
        early_at (sides_of old new both before after).old body ≡ None }
{}

/// The intent of a text has one family of inner packets in both descriptions of an update.
pub fn an_intent_has_one_family_in_both()
    ensures { (old new : Network) (text : List ℕ) (both : BothIntents) →
        intents_in old new text ≡ Ok both → both.before.inner ≡ both.after.inner }
{}

/// With two descriptions, one intent and one input `update` has one output, by its events.
pub fn update_has_one_output()
    ensures { (old new intent events : List ℕ) (held : Held) (input : List ℕ) (a b : Output)
        → (update_spec old new intent events).wants held input a
        → (update_spec old new intent events).wants held input b → a ≡ b }
{}
