//! The headline: what the contract of `serve` says of the command `walk`, once and whole.

ghost use Rattle.std.specs.Prelude.{Result};
ghost use Rattle.net_model.specs.Network.{Network};
ghost use Rattle.intent_reader.specs.declared.intent.Intent.{Intent};
ghost use Rattle.path_compiler.specs.declared.compiled.Compiled.{Compiled};
ghost use Rattle.path_compiler.specs.declared.compiled.CompileFault.{CompileFault};
ghost use Rattle.compile_commands.specs.CompiledLists.{IntentAnswers};
ghost use Rattle.srv6_cli.specs.Headline.{ComesTo, WalkRun};

use net_reader::networks_keep_the_rules;
use walk_commands::laws::a_walk_keeps_to_the_intent;

/// For every flat network and every intent that reads in it, a run of `walk` whose files and input
/// tell their bytes, and that found memory, comes to one of these. There is a compiled list: it is
/// legal, and every inner packet with enough hop limit and small enough that the headend
/// encapsulates with it crosses exactly the intended links and functions, in order, whichever of
/// equal next hops is taken, and is handed over with only the fields changed that H.Encaps names,
/// the hop limit, or with IPv4 the TTL and the checksum that follows it; no legal list over the
/// network's SIDs that hands over even one inner packet so needs fewer header bytes, nor has fewer
/// containers, or, where the intent prefers few SIDs, as many containers and fewer SIDs; and what
/// `out` received is the capture of the walks of the input's packets. Or there is none that may be
/// used, and `err` received the line that says why: no legal list hands over even one inner packet,
/// or the least that does has more containers than the intent allows, or needs a hop limit that is
/// not below the intent's. (RFC 8986 sections 4, 5.1 and 5.2)
pub fn the_headline()
    ensures { (net : Network) (intent : Intent) (run : WalkRun net intent)
        → (answer : Result Compiled CompileFault) × IntentAnswers net intent answer
        × ComesTo net intent run answer }
{
    networks_keep_the_rules();
    a_walk_keeps_to_the_intent();
}
