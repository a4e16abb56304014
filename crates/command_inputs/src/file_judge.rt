//! The judgements of a command: its files and its node's name.

ghost use Rattle.std.specs.Prelude.{◌≡◌, ◌<◌, ◌≤◌, [], IfOk, length};
ghost use Rattle.intent_reader.specs.IntentRulesTerms.{IsIntent};
ghost use Rattle.list_certificate.specs.CertsTerms.{IsCert};
ghost use Rattle.list_certificate.specs.CertificateReadingTerms.{IsNetworkOf};
ghost use Rattle.command_output.specs.CommandAnswers.{JudgesFile, JudgesText};
ghost use Rattle.command_inputs.specs.Judgements.{network_in, node_in, intent_in, intents_in, cert_in, trace_in};
ghost use Rattle.trace_replay.specs.TraceReadingTerms.{IsTrace};

use command_output::{Halt, Refusal};
use intent_reader::{Intent, read_intent};
use list_certificate::{Cert, read};
use list_pack::Legs;
use net_model::{MAX_TEXT_BYTES, Net};
use net_reader::read_net;
use srx_edge::Files;
use std::alloc::Global;
use trace_replay::{Trace, read_trace};

/// The network that a text within the limit describes.
#[tactic(auto, using(crate::proofs::InputJudging::texts))]
fn network_of(alloc: Global, text: &[u8]) -> Result<Net, Halt>
    requires { length text.now ≤ MAX_TEXT_BYTES }
    ensures judged { JudgesText network_in text.now result }
    ensures whole { IfOk result (λ net. net.hidden ≡ []) }
{
    Ok(read_net(alloc, text)?)
}

/// The network that a text describes, as that of a file; nothing of it is hidden.
#[tactic(auto, using(crate::proofs::InputJudging::texts))]
pub fn network_of_text(alloc: Global, text: &[u8]) -> Result<Net, Halt>
    ensures judged { JudgesText network_in text.now result }
    ensures whole { IfOk result (λ net. net.hidden ≡ []) }
{
    if text.len() > MAX_TEXT_BYTES {
        return Err(Halt::Refused(Refusal::TooBig {
            limit: MAX_TEXT_BYTES,
        }));
    }
    network_of(alloc, text)
}

/// The network that the file of this name describes; nothing of it is hidden.
#[tactic(auto, using(crate::proofs::InputJudging::files))]
pub fn network_of_file<F: Files>(alloc: Global, files: &mut F, name: &str) -> Result<Net, Halt>
    ensures judged { JudgesFile network_in name.now result (F.seen files.old) (F.seen files.new) }
    ensures whole { IfOk result (λ net. net.hidden ≡ []) }
{
    let text = files.read(alloc, name, MAX_TEXT_BYTES)?;
    network_of(alloc, text.as_slice())
}

/// The intent that a text within the limit gives in a network.
#[tactic(auto, using(crate::proofs::InputJudging::texts))]
fn intent_of(alloc: Global, net: &Net, text: &[u8]) -> Result<Intent, Halt>
    requires { length text.now ≤ MAX_TEXT_BYTES }
    ensures judged { JudgesText (intent_in net.now) text.now result }
    ensures keeps { IfOk result (IsIntent net.now) }
{
    Ok(read_intent(alloc, text, net)?)
}

/// The intent that a text gives in a network, as that of a file.
#[tactic(auto, using(crate::proofs::InputJudging::texts))]
pub fn intent_of_text(alloc: Global, net: &Net, text: &[u8]) -> Result<Intent, Halt>
    ensures judged { JudgesText (intent_in net.now) text.now result }
    ensures keeps { IfOk result (IsIntent net.now) }
{
    if text.len() > MAX_TEXT_BYTES {
        return Err(Halt::Refused(Refusal::TooBig {
            limit: MAX_TEXT_BYTES,
        }));
    }
    intent_of(alloc, net, text)
}

/// The intent that the file of this name gives in a network.
#[tactic(auto, using(crate::proofs::InputJudging::files))]
pub fn intent_of_file<F: Files>(
    alloc: Global,
    files: &mut F,
    net: &Net,
    name: &str,
) -> Result<Intent, Halt>
    ensures judged { JudgesFile (intent_in net.now) name.now result
        (F.seen files.old) (F.seen files.new) }
    ensures keeps { IfOk result (IsIntent net.now) }
{
    let text = files.read(alloc, name, MAX_TEXT_BYTES)?;
    intent_of(alloc, net, text.as_slice())
}

/// An intent in an old description and in a new one.
#[derive(Debug, Drop)]
pub struct BothIntents {
    /// In the old one.
    pub before: Intent,
    /// In the new one.
    pub after: Intent,
}

/// The intent that a text gives in an old network, and then that which it gives in a new one.
#[tactic(auto, using(crate::proofs::InputJudging::boths))]
fn intents_of(alloc: Global, old: &Net, new: &Net, text: &[u8]) -> Result<BothIntents, Halt>
    ensures judged { JudgesText (intents_in old.now new.now) text.now result }
    ensures keeps { IfOk result (λ both.
        IsIntent old.now both.before × IsIntent new.now both.after) }
{
    let before = intent_of_text(alloc, old, text)?;
    let after = intent_of_text(alloc, new, text)?;
    Ok(BothIntents { before, after })
}

/// The intent that the file of this name gives in an old network, and then in a new one; the file
/// is read once.
#[tactic(auto, using(crate::proofs::InputJudging::files))]
pub fn intents_of_file<F: Files>(
    alloc: Global,
    files: &mut F,
    old: &Net,
    new: &Net,
    name: &str,
) -> Result<BothIntents, Halt>
    ensures judged { JudgesFile (intents_in old.now new.now) name.now result
        (F.seen files.old) (F.seen files.new) }
    ensures keeps { IfOk result (λ both.
        IsIntent old.now both.before × IsIntent new.now both.after) }
{
    let text = files.read(alloc, name, MAX_TEXT_BYTES)?;
    intents_of(alloc, old, new, text.as_slice())
}

/// The certificate that the file of this name gives for legs in a network.
#[tactic(auto, using(crate::proofs::Certificates::certificates))]
pub fn cert_of_file<F: Files, L: Legs>(
    alloc: Global,
    files: &mut F,
    net: &Net,
    legs: &L,
    name: &str,
) -> Result<Cert, Halt>
    requires { IsNetworkOf net.now (L.seen legs.now) }
    ensures judged { JudgesFile (cert_in net.now (L.seen legs.now)) name.now result
        (F.seen files.old) (F.seen files.new) }
    ensures cert { IfOk result (IsCert (L.seen legs.now)) }
{
    let text = files.read(alloc, name, MAX_TEXT_BYTES)?;
    Ok(read(alloc, net, legs, text.as_slice())?)
}

/// The trace that the file of this name gives for a network.
#[tactic(auto, using(crate::proofs::Tracing::traces))]
pub fn trace_of_file<F: Files>(
    alloc: Global,
    files: &mut F,
    net: &Net,
    name: &str,
) -> Result<Trace, Halt>
    ensures judged { JudgesFile (trace_in net.now) name.now result
        (F.seen files.old) (F.seen files.new) }
    ensures trace { IfOk result (IsTrace net.now) }
{
    let text = files.read(alloc, name, MAX_TEXT_BYTES)?;
    Ok(read_trace(alloc, net, text.as_slice())?)
}

/// The number of the node of this name.
pub fn node_of_name(net: &Net, name: &str) -> Result<u32, Refusal>
    ensures judged { result ≡ node_in net.now name.now }
    ensures within { IfOk result (λ node. node < length net.now.nodes) }
{
    match net.node_named(name.as_bytes()) {
        Some(node) => Ok(node),
        None => Err(Refusal::BadNode),
    }
}
