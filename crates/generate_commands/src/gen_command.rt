//! The command `gen`: the texts of a generated network and of the intent over it, and what the
//! walks of generated packets through it come to.

ghost use Rattle.std.specs.Prelude.{◌≡◌, [], IfOk, Some, string_bytes};
ghost use Rattle.net_generator.specs.Intents.{intent_text};
ghost use Rattle.net_generator.specs.Networks.{net_text};
ghost use Rattle.intent_reader.specs.IntentRulesTerms.{IsIntent};
ghost use Rattle.command_output.specs.CommandAnswers.{CommandsAlone};
ghost use Rattle.walk_commands.specs.WalkLists.{CompiledWants, IntentWants};
ghost use Rattle.generate_commands.specs.GenCommand.{GenWants, SumWants, gen_spec, gen_words, list_lines, made_in, network_lines, size_in, summary_lines, walks_lines};
ghost use Rattle.generate_commands.specs.GenCommandTerms.{Generates, gen_asked};
ghost use Rattle.command_inputs.specs.Judgements.{intent_in};
ghost use Rattle.command_output.specs.Verbs.{words_of};

use crate::summed::Summary;
use crate::summing::summary;
use base::NoMemory;
use command_inputs::{intent_of_text, network_of_text};
use command_output::{
    Conclusion, Failure, Halt, Status, Text, refusal_of_not_flat, two_words_after, write_all,
};
use intent_reader::Intent;
use net_generator::{Size, write_intent, write_net};
use net_model::Net;
use path_compiler::CompileFault;
use srx_edge::Sink;
use std::alloc::{AllocError, Global};
use trace_replay::number_of_word;
use walk_commands::walk_lists::{line_of_hop_limit, line_of_none, line_of_too_long};

/// The packets of which a summary tells.
pub const PACKETS: u32 = 1_000;

/// What is generated.
#[derive(Clone, Copy, Debug, PartialEq, Eq)]
pub enum Made {
    /// The description of a network.
    Net,
    /// The intent over it.
    Intent,
    /// What the walks of generated packets through it come to.
    Sum,
}

/// What `gen` has to write.
#[derive(Drop)]
pub enum Generated {
    /// Text for `out`.
    Report(Text),
    /// There is no list; the line says why.
    NoList(Text),
}

/// The size that a word is.
fn size_of_word(word: &str) -> Option<Size>
    ensures { result ≡ size_in word.now }
{
    match number_of_word(word) {
        Some(number) => Size::new(number),
        None => None,
    }
}

/// What a word asks to generate.
fn made_of_word(word: &str) -> Option<Made>
    ensures { result ≡ made_in word.now }
{
    match word {
        "net" => Some(Made::Net),
        "intent" => Some(Made::Intent),
        "sum" => Some(Made::Sum),
        _ => None,
    }
}

/// What the words of `gen` ask for.
#[derive(Debug, Drop)]
pub struct GenWords {
    /// The network's size.
    pub size: Size,
    /// What is generated.
    pub made: Made,
}

/// What these words ask for, if they are those of `gen`.
pub fn gen_of_words(words: &[String]) -> Option<GenWords>
    ensures { gen_asked result ≡ gen_words (words_of words.now) }
{
    let two = two_words_after("gen", words)?;
    let size = size_of_word(two.first)?;
    let made = made_of_word(two.second)?;
    if !two.more.is_empty() {
        return None;
    }
    Some(GenWords { size, made })
}

/// The lines of a network's numbers.
#[tactic(auto, unfolding(crate::specs::GenCommand::network_lines))]
fn lines_of_network(
    alloc: Global,
    nodes: u32,
    links: u32,
    routes: u32,
    sids: u32,
) -> Result<String, AllocError>
    ensures { IfOk result (λ lines. string_bytes lines ≡ network_lines nodes links routes sids) }
{
    format!(in alloc; "nodes {nodes}\nlinks {links}\nroutes {routes}\nsids {sids}\n")
}

/// The lines of a list's numbers.
#[tactic(auto, unfolding(crate::specs::GenCommand::list_lines))]
fn lines_of_list(
    alloc: Global,
    containers: u32,
    header: u64,
    need: u32,
) -> Result<String, AllocError>
    ensures { IfOk result (λ lines. string_bytes lines ≡ list_lines containers header need) }
{
    format!(in alloc; "containers {containers}\nheader {header}\nneed {need}\n")
}

/// The lines of the walks' numbers.
#[tactic(auto, unfolding(crate::specs::GenCommand::walks_lines))]
fn lines_of_walks(alloc: Global, packets: u32, frames: u32, left: u32) -> Result<String, AllocError>
    ensures { IfOk result (λ lines. string_bytes lines ≡ walks_lines packets frames left) }
{
    format!(in alloc; "packets {packets}\nframes {frames}\nleft {left}\n")
}

/// The lines of a summary.
#[tactic(auto, using(std::proofs::Common::append_assoc))]
fn lines_of_summary(alloc: Global, s: &Summary) -> Result<String, AllocError>
    ensures { IfOk result (λ lines. string_bytes lines ≡ summary_lines s.now) }
{
    let mut lines = lines_of_network(alloc, s.nodes, s.links, s.routes, s.sids)?;
    let list = lines_of_list(alloc, s.containers, s.header, s.need)?;
    lines.push_str(&list)?;
    let walks = lines_of_walks(alloc, s.packets, s.frames, s.left)?;
    lines.push_str(&walks)?;
    Ok(lines)
}

/// What is to be written of an intent in a network.
#[tactic(auto, using(crate::proofs::Generating::summaries))]
fn summary_for(alloc: Global, net: &Net, intent: &Intent) -> Result<Generated, Halt>
    requires whole { net.now.hidden ≡ [] }
    requires intent { IsIntent net.now intent.now }
    ensures { Generates (CompiledWants SumWants net.now intent.now) result }
{
    match summary(alloc, net, intent, PACKETS) {
        Ok(summed) => {
            let lines = lines_of_summary(alloc, &summed)?;
            Ok(Generated::Report(Text::Made(lines)))
        }
        Err(CompileFault::NotFlat(why)) => Err(Halt::Refused(refusal_of_not_flat(net, &why))),
        Err(CompileFault::NoList { .. }) => Ok(Generated::NoList(line_of_none())),
        Err(CompileFault::TooLong { found }) => {
            let line = line_of_too_long(alloc, found.containers)?;
            Ok(Generated::NoList(line))
        }
        Err(CompileFault::HopLimit { found }) => {
            let line = line_of_hop_limit(alloc, found.need)?;
            Ok(Generated::NoList(line))
        }
        Err(CompileFault::NoMemory) => Err(Halt::Failed(Failure::NoMemory)),
    }
}

/// The text of a generated network.
fn text_of_net(alloc: Global, size: Size) -> Result<Vec<u8>, NoMemory>
    ensures { IfOk result (λ text. text.items ≡ net_text size) }
{
    let mut text = Vec::new(alloc);
    write_net(alloc, size, &mut text)?;
    Ok(text)
}

/// The text of a generated intent.
fn text_of_intent(alloc: Global, size: Size) -> Result<Vec<u8>, NoMemory>
    ensures { IfOk result (λ text. text.items ≡ intent_text size) }
{
    let mut text = Vec::new(alloc);
    write_intent(alloc, size, &mut text)?;
    Ok(text)
}

/// What is to be written of the generated intent in a network.
#[tactic(auto, using(crate::proofs::Generating::summaries))]
fn sum_in(alloc: Global, net: &Net, size: Size) -> Result<Generated, Halt>
    requires { net.now.hidden ≡ [] }
    ensures { Generates (IntentWants SumWants net.now (intent_in net.now (intent_text size)))
        result }
{
    let text = text_of_intent(alloc, size)?;
    let intent = intent_of_text(alloc, net, text.as_slice())?;
    summary_for(alloc, net, &intent)
}

/// What is to be written of the walks through a generated network.
#[tactic(auto, using(crate::proofs::Generating::summaries))]
fn sum_of(alloc: Global, size: Size) -> Result<Generated, Halt>
    ensures { Generates (GenWants size Made.Sum) result }
{
    let text = text_of_net(alloc, size)?;
    let net = network_of_text(alloc, text.as_slice())?;
    sum_in(alloc, &net, size)
}

/// What is to be written of a size.
fn made_for(alloc: Global, size: Size, made: Made) -> Result<Generated, Halt>
    ensures { Generates (GenWants size made) result }
{
    match made {
        Made::Net => Ok(Generated::Report(Text::Bytes(text_of_net(alloc, size)?))),
        Made::Intent => Ok(Generated::Report(Text::Bytes(text_of_intent(alloc, size)?))),
        Made::Sum => sum_of(alloc, size),
    }
}

/// Writes the description of the generated network of a size, or the intent over it, or what 1,000
/// generated packets come to that are walked through it from the intent's headend with the list
/// that the intent is compiled to. No file is read, and no input. What is written is made before
/// any of it goes out.
pub fn generate<O: Sink>(
    alloc: Global,
    size: Size,
    made: Made,
    out: &mut O,
) -> Result<Conclusion, Halt>
    ensures { CommandsAlone (gen_spec size made) result (O.seen out.old) (O.seen out.new) }
{
    match made_for(alloc, size, made)? {
        Generated::Report(text) => {
            write_all(out, text.as_bytes())?;
            Ok(Conclusion {
                line: Text::Fixed(b""),
                status: Status::Done,
            })
        }
        Generated::NoList(line) => Ok(Conclusion {
            line,
            status: Status::NoAnswer,
        }),
    }
}
