//! Intents compiled, and certificates judged, over the legs that they and their networks ask for.

ghost use Rattle.std.specs.Prelude.{◌≡◌, [], Ok};
ghost use Rattle.net_flatness.specs.Flat.{flatness_of};
ghost use Rattle.intent_reader.specs.IntentRulesTerms.{IsIntent};
ghost use Rattle.list_certificate.specs.CertsTerms.{IsCert};
ghost use Rattle.list_certificate.specs.Verdicts.{IsVerdict};
ghost use Rattle.intent_compiler.specs.CompilerAnswers.{IntentAnswers, NoneLessFor};
ghost use Rattle.intent_compiler.specs.IntentLegs.{intent_legs_value};
ghost use Rattle.intent_compiler.specs.IntentVerdicts.{SaysFor, SaysOfHandingFor};

use crate::intent_legs::IntentLegs;
use base::NoMemory;
use intent_reader::Intent;
use list_certificate::{Cert, Verdict};
use net_flatness::{compilable, flat_networks_are_refused_for_nothing};
use net_model::Net;
use path_compiler::{CompileFault, Compiled, checked_over, compile_over};
use std::alloc::Global;

/// Compiles an intent that keeps the rules in a network, of which nothing is hidden, to the least
/// legal list of SIDs that realizes it, by `compile_over` over the intent's legs. Where no step is
/// to reach a node, the list takes each packet of the intent along exactly its steps up to its own
/// hand-over, whichever equal next hop is chosen, and binding SIDs may be among its SIDs. Where one
/// is, the list executes no binding SIDs, each packet's trace splits into the steps' parts, and
/// each SID is executed at one node and after one number of finished steps, whichever next hop is
/// chosen. `NotFlat` comes exactly where the network is not flat, before all other answers. Of the
/// legal lists that hand over even one inner packet at one hop limit so, none needs fewer header
/// bytes than the list that is found, nor has fewer containers, or as many and, where the intent
/// prefers few SIDs, fewer SIDs, or as many of both at a hop limit that is not above its need; where
/// none is found there are none of them.
pub fn compile(alloc: Global, net: &Net, intent: &Intent) -> Result<Compiled, CompileFault>
    requires whole { net.now.hidden ≡ [] }
    requires intent { IsIntent net.now intent.now }
    ensures answer { IntentAnswers net.now intent.now result }
    ensures handing { NoneLessFor net.now intent.now result }
{
    match compilable(alloc, net) {
        Err(why) => Err(CompileFault::NotFlat(why)),
        Ok(()) => compile_flat(alloc, net, intent),
    }
}

/// Compiles an intent as `compile` does, in a network that is known to be flat, since `compilable`
/// said so once: a network that is asked many times isn't tested anew. `NotFlat` never comes.
pub fn compile_flat(alloc: Global, net: &Net, intent: &Intent) -> Result<Compiled, CompileFault>
    requires whole { net.now.hidden ≡ [] }
    requires flat { flatness_of net.now ≡ Ok tt }
    requires intent { IsIntent net.now intent.now }
    ensures answer { IntentAnswers net.now intent.now result }
    ensures handing { NoneLessFor net.now intent.now result }
{
    net.keeps_rules();
    flat_networks_are_refused_for_nothing();
    match IntentLegs::build(alloc, net, intent) {
        Ok(legs) => compile_over(alloc, net, intent, &legs),
        Err(NoMemory) => Err(CompileFault::NoMemory),
    }
}

/// What a certificate shows over the legs of an intent, by `checked_over`: the first of its tests
/// that fails, or the least cost of a legal list that realizes the intent, by its preference, or
/// that none does. It takes no memory.
pub fn check(legs: &IntentLegs<'_>, cert: &Cert) -> Verdict
    requires { IsCert (intent_legs_value legs.now.net legs.now.intent) cert.now }
    ensures verdict { IsVerdict (intent_legs_value legs.now.net legs.now.intent) cert.now result }
    ensures says { SaysFor legs.now.net legs.now.intent result }
    ensures handing { SaysOfHandingFor legs.now.net legs.now.intent result }
{
    checked_over(legs, cert)
}
