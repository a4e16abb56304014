//! The command `compile`: a list for the intent of a file in the network that another describes.

ghost use Rattle.std.specs.Prelude.{◌≡◌, ◌++◌, [], IfOk, OnOk, string_bytes};
ghost use Rattle.std.specs.List.{flat_map};
ghost use Rattle.net_model.specs.NetworkRulesTerms.{IsNetwork};
ghost use Rattle.intent_compiler.specs.CompilerAnswers.{IntentAnswers};
ghost use Rattle.command_output.specs.CommandAnswers.{CommandsUnread};
ghost use Rattle.intent_reader.specs.IntentRulesTerms.{IsIntent};
ghost use Rattle.compile_commands.specs.CompileCommand.{compile_spec, compile_words, container_line, hop_limit_line, none_line, number_line, numbers_lines, printed, report_of, too_long_line};
ghost use Rattle.compile_commands.specs.CompileCommandTerms.{HasValues, KnowsStates, compile_asked};
ghost use Rattle.command_output.specs.OutputLinesTerms.{bytes_of_text};
ghost use Rattle.command_output.specs.Verbs.{words_of};

use base::NoMemory;
use command_inputs::{intent_of_file, network_of_file};
use command_output::{
    Conclusion, Failure, Halt, Status, Text, refusal_of_not_flat, two_words_after, write_all,
};
use intent_reader::{Intent, Prefer};
use list_certificate::print;
use list_pack::{Solution, values};
use net_model::Net;
use path_compiler::{CompileFault, Compiled};
use srx_edge::{Files, Sink};
use std::alloc::{AllocError, Global};
use v6_addr::Addr;

/// What the words of `compile` ask for.
#[derive(Debug, Drop)]
pub struct CompileWords<'a> {
    /// The description's name.
    pub file: &'a str,
    /// The intent's name.
    pub intent: &'a str,
}

/// What these words ask for, if they are those of `compile`.
pub fn compile_of_words(words: &[String]) -> Option<CompileWords<'_>>
    ensures { compile_asked result ≡ compile_words (words_of words.now) }
{
    let two = two_words_after("compile", words)?;
    if !two.more.is_empty() {
        return None;
    }
    Some(CompileWords {
        file: two.first,
        intent: two.second,
    })
}

/// The line of a container with its 16 bytes as an address.
#[tactic(auto, unfolding(crate::specs::CompileCommand::container_line))]
fn line_of_container(alloc: Global, value: Addr) -> Result<String, AllocError>
    ensures { IfOk result (λ line. string_bytes line ≡ container_line value.value) }
{
    format!(in alloc; "# container {value}\n")
}

/// The lines of containers, in order.
fn lines_of_containers(alloc: Global, values: &[Addr]) -> Result<String, AllocError>
    ensures { IfOk result (λ lines. string_bytes lines
        ≡ flat_map (λ a. container_line a.value) values.now) }
{
    let mut lines = String::new(alloc);
    for value in values {
        let line = line_of_container(alloc, *value)?;
        lines.push_str(&line)?;
    }
    Ok(lines)
}

/// The line of a number of the report.
#[tactic(auto, unfolding(crate::specs::CompileCommand::number_line))]
fn append_number(word: &str, number: u64, out: &mut String) -> Result<(), AllocError>
    ensures { OnOk result (string_bytes out.new
        ≡ string_bytes out.old ++ number_line word.now number) }
{
    writeln!(out, "# {word} {number}")
}

/// The lines of a list's numbers: containers, SIDs where few are preferred, header bytes and need.
fn lines_of_numbers(
    alloc: Global,
    prefer: Prefer,
    compiled: &Compiled,
) -> Result<String, AllocError>
    ensures { IfOk result (λ lines. string_bytes lines ≡ numbers_lines prefer compiled.now) }
{
    let mut lines = String::new(alloc);
    append_number("containers", u64::from(compiled.containers), &mut lines)?;
    if prefer == Prefer::Sids {
        append_number("sids", compiled.sids, &mut lines)?;
    }
    append_number("header", compiled.header, &mut lines)?;
    append_number("need", u64::from(compiled.need), &mut lines)?;
    Ok(lines)
}

/// The report of a list.
fn report_of_list(
    alloc: Global,
    net: &Net,
    prefer: Prefer,
    compiled: &Compiled,
) -> Result<String, NoMemory>
    requires { HasValues net.now compiled.now }
    ensures { IfOk result (λ report. string_bytes report ≡ report_of net.now prefer compiled.now) }
{
    let values = values(alloc, net, &compiled.list)?;
    let mut report = lines_of_containers(alloc, values.as_slice())?;
    let numbers = lines_of_numbers(alloc, prefer, compiled)?;
    report.push_str(&numbers)?;
    Ok(report)
}

/// A report, and after it the certificate of what the search found, of the form that goes with the
/// preference.
fn with_certificate(
    alloc: Global,
    net: &Net,
    prefer: Prefer,
    report: &[u8],
    solution: &Solution,
) -> Result<Text, NoMemory>
    requires { KnowsStates net.now solution.now }
    ensures { IfOk result (λ text. bytes_of_text text
        ≡ printed net.now prefer report.now solution.now) }
{
    let mut bytes = Vec::new(alloc);
    bytes.extend_from_slice(report)?;
    print(alloc, net, prefer.sid_cost(), solution, &mut bytes)?;
    Ok(Text::Bytes(bytes))
}

/// The line of an intent without a list.
#[tactic(auto, unfolding(crate::specs::CompileCommand::none_line))]
pub fn line_of_none() -> Text
    ensures { bytes_of_text result ≡ none_line }
{
    Text::Fixed(b"no answer NoList\n")
}

/// The line of a list with too many containers.
#[tactic(auto, unfolding(crate::specs::CompileCommand::too_long_line))]
pub fn line_of_too_long(alloc: Global, containers: u32) -> Result<Text, AllocError>
    ensures { IfOk result (λ line. bytes_of_text line ≡ too_long_line containers) }
{
    Ok(Text::Made(format!(in alloc; "no answer TooLong {containers}\n")?))
}

/// The line of a list that needs a greater hop limit.
#[tactic(auto, unfolding(crate::specs::CompileCommand::hop_limit_line))]
pub fn line_of_hop_limit(alloc: Global, need: u32) -> Result<Text, AllocError>
    ensures { IfOk result (λ line. bytes_of_text line ≡ hop_limit_line need) }
{
    Ok(Text::Made(format!(in alloc; "no answer HopLimit {need}\n")?))
}

/// What `compile` has to write: its report with the certificate on `out`, and what it has to say.
#[derive(Drop)]
struct Answer {
    report: Text,
    told: Conclusion,
}

impl Answer {
    ghost use Rattle.command_output.specs.Outputs.{reported};
    ghost use Rattle.compile_commands.specs.CompileCommand.{no_report};
    ghost use Rattle.compile_commands.specs.CompileCommandTerms.{output_of_answer, GivesAnswer, GivesOf};

    /// The answer of a list that was found.
    fn of_list(
        alloc: Global,
        net: &Net,
        prefer: Prefer,
        found: &Compiled,
        line: Text,
        status: Status,
    ) -> Result<Answer, NoMemory>
        requires values { HasValues net.now found.now }
        requires known { KnowsStates net.now found.now.solution }
        ensures { IfOk result (λ answer. output_of_answer answer
            ≡ reported (printed net.now prefer (report_of net.now prefer found.now) found.now.solution)
            (bytes_of_text line) status) }
    {
        let report = report_of_list(alloc, net, prefer, found)?;
        Ok(Answer {
            report: with_certificate(alloc, net, prefer, report.as_bytes(), &found.solution)?,
            told: Conclusion { line, status },
        })
    }

    /// The answer where there is no list.
    #[tactic(auto, unfolding(crate::specs::CompileCommand::no_report))]
    fn of_none(
        alloc: Global,
        net: &Net,
        prefer: Prefer,
        solution: &Solution,
    ) -> Result<Answer, NoMemory>
        requires { KnowsStates net.now solution.now }
        ensures { IfOk result (λ answer. output_of_answer answer
            ≡ reported (printed net.now prefer no_report solution.now) none_line Status.NoAnswer) }
    {
        Ok(Answer {
            report: with_certificate(alloc, net, prefer, b"# none\n", solution)?,
            told: Conclusion {
                line: line_of_none(),
                status: Status::NoAnswer,
            },
        })
    }

    /// What is to be written of the compiler's answer.
    #[tactic(auto, using(crate::proofs::Compiling::valued))]
    fn of_compiled(
        alloc: Global,
        net: &Net,
        intent: &Intent,
        compiled: &Result<Compiled, CompileFault>,
    ) -> Result<Answer, Halt>
        requires network { IsNetwork net.now }
        requires intent { IsIntent net.now intent.now }
        requires answers { IntentAnswers net.now intent.now compiled.now }
        ensures { GivesAnswer net.now intent.now compiled.now result }
    {
        let prefer = intent.prefer;
        match compiled {
            Ok(list) => {
                let line = Text::Fixed(b"");
                Ok(Answer::of_list(alloc, net, prefer, list, line, Status::Done)?)
            }
            Err(CompileFault::NotFlat(why)) => Err(Halt::Refused(refusal_of_not_flat(net, why))),
            Err(CompileFault::NoList { solution }) => {
                Ok(Answer::of_none(alloc, net, prefer, solution)?)
            }
            Err(CompileFault::TooLong { found }) => {
                let line = line_of_too_long(alloc, found.containers)?;
                Ok(Answer::of_list(alloc, net, prefer, found, line, Status::NoAnswer)?)
            }
            Err(CompileFault::HopLimit { found }) => {
                let line = line_of_hop_limit(alloc, found.need)?;
                Ok(Answer::of_list(alloc, net, prefer, found, line, Status::NoAnswer)?)
            }
            Err(CompileFault::NoMemory) => Err(Halt::Failed(Failure::NoMemory)),
        }
    }

    /// What is to be written of an intent in a network: the compiler's answer.
    #[tactic(auto, using(crate::proofs::Compiling::taken))]
    fn of_intent(alloc: Global, net: &Net, intent: &Intent) -> Result<Answer, Halt>
        requires whole { net.now.hidden ≡ [] }
        requires intent { IsIntent net.now intent.now }
        ensures { GivesOf net.now intent.now result }
    {
        net.keeps_rules();
        let compiled = intent_compiler::compile(alloc, net, intent);
        Answer::of_compiled(alloc, net, intent, &compiled)
    }
}

/// Compiles the intent of a file in the network that another describes. The description is judged,
/// then the intent, each before the next is read; what is written is made before any of it goes
/// out. A list is the least among all legal lists that realize the intent: those that execute
/// binding SIDs among them, where no step is loose, and where one is, those each of whose
/// SIDs is executed at one node and after one number of finished steps, whichever next hop is
/// chosen.
pub fn compile<F: Files, O: Sink>(
    alloc: Global,
    file: &str,
    intent: &str,
    files: &mut F,
    out: &mut O,
) -> Result<Conclusion, Halt>
    ensures { CommandsUnread (compile_spec file.now intent.now) result
        (F.seen files.old) (F.seen files.new) (O.seen out.old) (O.seen out.new) }
{
    let net = network_of_file(alloc, files, file)?;
    let intent = intent_of_file(alloc, files, &net, intent)?;
    let answer = Answer::of_intent(alloc, &net, &intent)?;
    write_all(out, answer.report.as_bytes())?;
    let Answer { told, .. } = answer;
    Ok(told)
}
