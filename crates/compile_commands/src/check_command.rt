//! The command `check`: the verdict on a certificate for the intent of a file in the network that
//! another describes.

ghost use Rattle.std.specs.Prelude.{◌≡◌, [], IfOk};
ghost use Rattle.intent_reader.specs.IntentRulesTerms.{IsIntent};
ghost use Rattle.intent_compiler.specs.IntentLegs.{intent_legs_value};
ghost use Rattle.list_certificate.specs.CertsTerms.{IsCert};
ghost use Rattle.list_certificate.specs.CertificateReadingTerms.{IsNetworkOf};
ghost use Rattle.list_certificate.specs.Spelling.{state_text};
ghost use Rattle.list_certificate.specs.SpellingTerms.{IsKnown};
ghost use Rattle.command_output.specs.CommandAnswers.{CommandsUnread};
ghost use Rattle.compile_commands.specs.CheckCommand.{check_spec, check_words, edge_line, least_line, no_list_line, path_line, tight_line, unlisted_line, verdict_line, verdict_status};
ghost use Rattle.compile_commands.specs.CheckCommandTerms.{JudgesAs, KnowsState, LegsOf, check_asked};
ghost use Rattle.command_output.specs.OutputLinesTerms.{bytes_of_text};
ghost use Rattle.command_output.specs.Verbs.{words_of};

use command_inputs::{cert_of_file, intent_of_file, network_of_file};
use command_output::{
    Conclusion, Halt, Judgement, Status, Text, refusal_of_not_flat, two_words_after, write_all,
};
use intent_compiler::IntentLegs;
use intent_reader::{Intent, Prefer};
use list_certificate::{Cert, Verdict, Why, append_state};
use list_pack::State;
use net_flatness::compilable;
use net_model::Net;
use srx_edge::{Files, Sink};
use std::alloc::{AllocError, Global};

/// What the words of `check` ask for.
#[derive(Debug, Drop)]
pub struct CheckWords<'a> {
    /// The description's name.
    pub file: &'a str,
    /// The intent's name.
    pub intent: &'a str,
    /// The certificate's name.
    pub cert: &'a str,
}

/// What these words ask for, if they are those of `check`.
pub fn check_of_words(words: &[String]) -> Option<CheckWords<'_>>
    ensures { check_asked result ≡ check_words (words_of words.now) }
{
    let two = two_words_after("check", words)?;
    match two.more {
        [cert] if !cert.is_empty() => Some(CheckWords {
            file: two.first,
            intent: two.second,
            cert: cert.as_str(),
        }),
        _ => None,
    }
}

/// The line of the least containers and need, and between them of the SIDs where few are preferred.
#[tactic(auto, unfolding(crate::specs::CheckCommand::least_line))]
fn line_of_least(
    alloc: Global,
    prefer: Prefer,
    containers: u32,
    sids: u32,
    need: u32,
) -> Result<Text, AllocError>
    ensures { IfOk result (λ line. bytes_of_text line ≡ least_line prefer containers sids need) }
{
    let line = match prefer {
        Prefer::Need => format!(in alloc; "least {containers} {need}\n")?,
        Prefer::Sids => format!(in alloc; "least {containers} {sids} {need}\n")?,
    };
    Ok(Text::Made(line))
}

/// The line that says that no list realizes the intent.
#[tactic(auto, unfolding(crate::specs::CheckCommand::no_list_line))]
fn line_of_no_list() -> Text
    ensures { bytes_of_text result ≡ no_list_line }
{
    Text::Fixed(b"none\n")
}

/// The line of an edge along which a potential falls too far.
#[tactic(auto, unfolding(crate::specs::CheckCommand::edge_line))]
fn line_of_edge(alloc: Global, number: u32) -> Result<Text, AllocError>
    ensures { IfOk result (λ line. bytes_of_text line ≡ edge_line number) }
{
    Ok(Text::Made(format!(in alloc; "no {number} edge\n")?))
}

/// The line of a state that is not listed.
#[tactic(auto, unfolding(crate::specs::CheckCommand::unlisted_line))]
fn line_of_unlisted(alloc: Global, net: &Net, number: u32, state: State) -> Result<Text, AllocError>
    requires { IsKnown net.now state }
    ensures { IfOk result (λ line. bytes_of_text line
        ≡ unlisted_line number (state_text net.now state)) }
{
    let mut text = format!(in alloc; "no {number} unlisted ")?;
    append_state(net, state, &mut text)?;
    text.push_str("\n")?;
    Ok(Text::Made(text))
}

/// The line of a path that goes along no edge.
#[tactic(auto, unfolding(crate::specs::CheckCommand::path_line))]
fn line_of_path(alloc: Global, number: u32) -> Result<Text, AllocError>
    ensures { IfOk result (λ line. bytes_of_text line ≡ path_line number) }
{
    Ok(Text::Made(format!(in alloc; "no {number} path\n")?))
}

/// The line of a path that does not cost the start's potential.
#[tactic(auto, unfolding(crate::specs::CheckCommand::tight_line))]
fn line_of_tight(alloc: Global, number: u32) -> Result<Text, AllocError>
    ensures { IfOk result (λ line. bytes_of_text line ≡ tight_line number) }
{
    Ok(Text::Made(format!(in alloc; "no {number} tight\n")?))
}

/// The line of a verdict on a certificate for an intent with a preference.
fn line_of_verdict(
    alloc: Global,
    net: &Net,
    prefer: Prefer,
    verdict: Verdict,
) -> Result<Text, AllocError>
    requires { KnowsState net.now verdict }
    ensures { IfOk result (λ line. bytes_of_text line ≡ verdict_line net.now prefer verdict) }
{
    match verdict {
        Verdict::Least {
            containers,
            sids,
            hops,
        } => line_of_least(alloc, prefer, containers, sids, hops),
        Verdict::NoList => Ok(line_of_no_list()),
        Verdict::No {
            line,
            why: Why::Edge,
        } => line_of_edge(alloc, line),
        Verdict::No {
            line,
            why: Why::Unlisted { state },
        } => line_of_unlisted(alloc, net, line, state),
        Verdict::No {
            line,
            why: Why::Path,
        } => line_of_path(alloc, line),
        Verdict::No {
            line,
            why: Why::Tight,
        } => line_of_tight(alloc, line),
    }
}

/// The status of a verdict.
fn status_of_verdict(verdict: Verdict) -> Status
    ensures { result ≡ verdict_status verdict }
{
    match verdict {
        Verdict::Least { .. } | Verdict::NoList => Status::Done,
        Verdict::No { .. } => Status::SaysNo,
    }
}

/// The legs of an intent, where the network is flat.
fn legs_of_flat<'a>(alloc: Global, net: &'a Net, intent: &'a Intent) -> Result<IntentLegs<'a>, Halt>
    requires whole { net.now.hidden ≡ [] }
    requires intent { IsIntent net.now intent.now }
    ensures legs { LegsOf net.now intent.now result }
    ensures known { IfOk result
        (λ legs. IsNetworkOf net.now (intent_legs_value net.now intent.now)) }
{
    net.keeps_rules();
    if let Err(why) = compilable(alloc, net) {
        return Err(Halt::Refused(refusal_of_not_flat(net, &why)));
    }
    Ok(IntentLegs::build(alloc, net, intent)?)
}

/// The judgement of a certificate over the legs of an intent.
#[tactic(auto, using(crate::proofs::CommandChecking::judgements))]
fn judgement_of_cert(
    alloc: Global,
    net: &Net,
    intent: &Intent,
    legs: &IntentLegs<'_>,
    cert: &Cert,
) -> Result<Judgement, AllocError>
    requires net { legs.now.net ≡ net.now }
    requires intent { legs.now.intent ≡ intent.now }
    requires cert { IsCert (intent_legs_value legs.now.net legs.now.intent) cert.now }
    ensures { IfOk result (JudgesAs net.now intent.now cert.now) }
{
    legs.keeps_rules();
    let verdict = intent_compiler::check(legs, cert);
    Ok(Judgement {
        line: line_of_verdict(alloc, net, intent.prefer, verdict)?,
        status: status_of_verdict(verdict),
    })
}

/// Checks the certificate of a file for the intent of another in the network that a third
/// describes. The description is judged, then the intent, then whether the network is flat, each
/// before the next file is read; then the certificate is read over the legs of the intent, and
/// judged: what is confirmed is the least among all legal lists that realize the intent, as
/// `compile` says which these are. What is written is made before any of it goes out.
pub fn check<F: Files, O: Sink>(
    alloc: Global,
    file: &str,
    intent: &str,
    cert: &str,
    files: &mut F,
    out: &mut O,
) -> Result<Conclusion, Halt>
    ensures { CommandsUnread (check_spec file.now intent.now cert.now) result
        (F.seen files.old) (F.seen files.new) (O.seen out.old) (O.seen out.new) }
{
    let net = network_of_file(alloc, files, file)?;
    let intent = intent_of_file(alloc, files, &net, intent)?;
    let legs = legs_of_flat(alloc, &net, &intent)?;
    let cert = cert_of_file(alloc, files, &net, &legs, cert)?;
    let judgement = judgement_of_cert(alloc, &net, &intent, &legs, &cert)?;
    write_all(out, judgement.line.as_bytes())?;
    Ok(Conclusion {
        line: Text::Fixed(b""),
        status: judgement.status,
    })
}
