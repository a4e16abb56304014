//! The lines of a trace, read.

ghost use Rattle.std.specs.Prelude.{◌≡◌, ◌<◌, ◌∷◌, [], IfOk, Some, None, bytes_eq, if◌then◌else◌, length, map};
ghost use Rattle.trace_replay.specs.TraceGrammar.{line_read, packet_by, packet_read, words_of, words_read};
ghost use Rattle.trace_replay.specs.TraceGrammarTerms.{IsLine};
ghost use Rattle.net_model.specs.Network.{Network};
ghost use Rattle.trace_replay.specs.TraceLines.{end_text, stages_text};

use crate::numbers::is_number;
use crate::stage_words::is_stage;
use crate::trace_words::{family_of, hex_of};
use base::{NoMemory, Seq};
use net_model::Net;
use node_stage::Content;
use srv6_rules::Family;
use srv6_rules::numbers::MAX_PACKET_LEN;
use std::alloc::{AllocError, Global};
use std::str;

/// What a line of a trace is, but for the first.
#[derive(Debug, Drop)]
pub(crate) enum Line {
    /// A packet begins.
    Packet {
        /// Its family.
        family: Family,
        /// The number of the node where it enters.
        node: u32,
        /// Its bytes.
        packet: Seq<u8>,
    },
    /// A stage of the packet.
    Stage,
    /// The packet used all its stages.
    Stages,
    /// The trace ends.
    End,
}

/// A packet's first line, where the packet is not longer than one can be and, where it reads as
/// one, has nothing after its end.
fn entering(
    alloc: Global,
    net: &Net,
    family: Family,
    node: u32,
    packet: Vec<u8>,
) -> Result<Option<Line>, NoMemory>
    requires { node < length net.now.nodes }
    ensures line { IfOk result (λ line.
        line ≡ packet_by (Some family) (Some node) (Some packet.items)) }
    ensures there { IfOk result (IsLine net.now) }
{
    if packet.len() > MAX_PACKET_LEN {
        return Ok(None);
    }
    let len = packet.len();
    let content = Content::enter(family, packet.to_vec(alloc)?);
    if content.len() != len {
        return Ok(None);
    }
    Ok(Some(Line::Packet {
        family,
        node,
        packet: Seq::new(packet),
    }))
}

/// Five words that are no stage's line.
#[tactic(auto, using(crate::proofs::WordLemmas::nodes))]
fn packet_of(
    alloc: Global,
    net: &Net,
    verb: &str,
    number: &str,
    family: &str,
    node: &str,
    hex: &str,
) -> Result<Option<Line>, NoMemory>
    ensures line { IfOk result (λ line. line ≡ packet_read net.now
        (verb.now ∷ number.now ∷ family.now ∷ node.now ∷ hex.now ∷ [])) }
    ensures there { IfOk result (IsLine net.now) }
{
    if verb != "packet" || !is_number(u32::MAX, number) {
        return Ok(None);
    }
    let Some(family) = family_of(family) else {
        return Ok(None);
    };
    let Some(node) = net.node_named(node.as_bytes()) else {
        return Ok(None);
    };
    match hex_of(alloc, hex)? {
        Some(packet) => entering(alloc, net, family, node, packet),
        None => Ok(None),
    }
}

/// What the one word of a line is, where the line is no stage's.
#[tactic(auto, unfolding(crate::specs::TraceLines::stages_text, crate::specs::TraceLines::end_text))]
fn only_word(word: &str) -> Option<Line>
    ensures line { result ≡ (if bytes_eq word.now stages_text then Some Line.Stages
        else if bytes_eq word.now end_text then Some Line.End else None) }
    ensures there { (network : Network) → IsLine network result }
{
    if word == "stages" {
        return Some(Line::Stages);
    }
    if word == "end" {
        return Some(Line::End);
    }
    None
}

/// What words are.
fn read_words(alloc: Global, net: &Net, words: &[&str]) -> Result<Option<Line>, NoMemory>
    ensures line { IfOk result (λ line.
        line ≡ words_read net.now (map (λ word. word.now) words.now)) }
    ensures there { IfOk result (IsLine net.now) }
{
    if is_stage(words) {
        return Ok(Some(Line::Stage));
    }
    match words {
        [word] => Ok(only_word(*word)),
        [verb, number, family, node, hex] => {
            packet_of(alloc, net, *verb, *number, *family, *node, *hex)
        }
        _ => Ok(None),
    }
}

/// The words of a line, between its spaces.
fn words_of(alloc: Global, line: &str) -> Result<Vec<&str>, AllocError>
    ensures { IfOk result (λ words. map (λ word. word.now) words.items ≡ words_of line.now) }
{
    line.split(' ').collect(alloc)
}

/// What a line is, if it is one.
pub(crate) fn read_line(alloc: Global, net: &Net, line: &[u8]) -> Result<Option<Line>, NoMemory>
    ensures line { IfOk result (λ read. read ≡ line_read net.now line.now) }
    ensures there { IfOk result (IsLine net.now) }
{
    let Ok(text) = str::from_utf8(line) else {
        return Ok(None);
    };
    let words = words_of(alloc, text)?;
    read_words(alloc, net, words.as_slice())
}
