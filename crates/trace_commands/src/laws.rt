//! What `replay` says of what `trace` wrote.

ghost use Rattle.trace_commands.specs.Replaying.{OutReceives, UnendedTracesAreRefused, WholeTracesAreRight};

use net_reader::networks_keep_the_rules;

/// What `trace` writes for `out` of bytes as input, where its status is Done and the text has no
/// more bytes than a file may have: `replay`, given the same description and this text as its
/// trace, has `ok` with the numbers of the packets that were read and of their lines as its one
/// output. Where `trace` refuses what is after the packets, and what it wrote before that has no
/// more bytes than a file may have either, `replay` refuses what was written at the line after its
/// last one. Of what is refused before the packets, as a head, nothing is said. What is said to be
/// for `out` is what `out` receives.
pub fn what_is_traced_is_replayed()
    ensures out { OutReceives }
    ensures whole { WholeTracesAreRight }
    ensures unended { UnendedTracesAreRefused }
{
    networks_keep_the_rules();
}
