//! Whether a list is as good as the chosen one.

ghost use Rattle.std.specs.Prelude.{◌≡◌, ◌↔◌, ◌*◌, [], IsTrue, List, length, IfOk};
ghost use Rattle.net_flatness.specs.Flat.{IsFlat};
ghost use Rattle.intent_reader.specs.IntentRulesTerms.{IsIntent};
ghost use Rattle.intent_reader.specs.Preferences.{sid_cost_of};
ghost use Rattle.list_pack.specs.declared.types.Container.{Container};
ghost use Rattle.list_pack.specs.SidLists.{IsLegalList, prefixes_in};
ghost use Rattle.intent_compiler.specs.IntentLegs.{ListRealizesFor};
ghost use Rattle.list_judge.specs.Judgements.{IsAsChosen};

use base::NoMemory;
use intent_compiler::IntentLegs;
use intent_reader::{Intent, Prefer};
use net_flatness::flat_networks_are_refused_for_nothing;
use net_model::Net;
use path_compiler::{CompileFault, Compiled, compile_over};
use std::alloc::Global;

/// What a list comes to.
#[derive(Clone, Copy, Debug)]
pub(crate) struct Numbers {
    /// Its containers.
    pub containers: usize,
    /// Its SIDs.
    pub sids: usize,
    /// Its need.
    pub need: u64,
}

/// The chosen list has the same numbers, by what the intent prefers
fn equals(prefer: Prefer, chosen: &Compiled, numbers: &Numbers) -> bool
    ensures { IsTrue result ↔ ((chosen.now.containers ≡ numbers.now.containers)
        × (chosen.now.need ≡ numbers.now.need)
        × (sid_cost_of prefer * chosen.now.sids ≡ sid_cost_of prefer * numbers.now.sids)) }
{
    if chosen.containers as usize != numbers.containers || u64::from(chosen.need) != numbers.need {
        return false;
    }
    match prefer {
        Prefer::Need => true,
        Prefer::Sids => chosen.sids == numbers.sids as u64,
    }
}

/// Whether a list that realizes an intent is as good as the chosen one
pub(crate) fn is_least(
    alloc: Global,
    net: &Net,
    intent: &Intent,
    legs: &IntentLegs<'_>,
    numbers: &Numbers,
) -> Result<bool, NoMemory>
    requires legs { legs.now ≡ record { net = net.now; intent = intent.now } }
    requires whole { net.now.hidden ≡ [] }
    ensures { IfOk result (λ least. (list : List Container) → IsLegalList net.now list
        → numbers.now.containers ≡ length list → numbers.now.sids ≡ length (prefixes_in list)
        → ListRealizesFor net.now intent.now list numbers.now.need
        → (IsTrue least ↔ IsAsChosen net.now intent.now list numbers.now.need)) }
{
    legs.keeps_rules();
    flat_networks_are_refused_for_nothing();
    match compile_over(alloc, net, intent, legs) {
        Ok(chosen) => Ok(equals(intent.prefer, &chosen, numbers)),
        Err(CompileFault::TooLong { found }) => Ok(equals(intent.prefer, &found, numbers)),
        Err(CompileFault::HopLimit { found }) => Ok(equals(intent.prefer, &found, numbers)),
        Err(CompileFault::NoList { .. }) => Ok(false),
        Err(CompileFault::NotFlat(_)) => Ok(false),
        Err(CompileFault::NoMemory) => Err(NoMemory),
    }
}
