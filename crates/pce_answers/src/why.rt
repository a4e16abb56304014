//! Why something is refused, as a text.

ghost use Rattle.std.specs.Prelude.{◌≡◌, IfOk};
ghost use Rattle.pce_answers.specs.NetAnswers.{why_of};

use crate::texts::behind_refused;
use base::NoMemory;
use command_output::Refusal;
use pce_protocol::Text;
use std::alloc::Global;

/// The line that `srv6` has for a refusal behind the word `refused `, without its line feed.
#[tactic(auto, using(crate::proofs::Refusals::refusing))]
pub fn why_refused(alloc: Global, refusal: &Refusal) -> Result<Text, NoMemory>
    ensures { IfOk result (λ why. why ≡ why_of refusal.now) }
{
    let line = format!(in alloc; "{refusal}")?;
    let why = behind_refused(alloc, line.as_str())?;
    Ok(Text::new(why))
}
