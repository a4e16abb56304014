//! The text of a certificate.

ghost use Rattle.std.specs.Prelude.{◌≡◌, ◌++◌, ◌<◌, length, flat_map, All, OnOk, OnErr, IfOk, string_bytes};
ghost use Rattle.net_model.specs.NetworkRules.{same_prefix};
ghost use Rattle.list_pack.specs.declared.types.Potential.{Potential};
ghost use Rattle.list_certificate.specs.Spelling.{form_of, is_shared, sid_text, state_text, potential_text, potential_of_text, cost_text, placed_text, start_text, step_text, way_text, head_text, end_text, none_text, spelled};
ghost use Rattle.list_certificate.specs.SpellingTerms.{IsKnown};

use crate::certificate_types::{Form, form_of};
use base::NoMemory;
use list_pack::{Cost, PathStep, Potential, Solution, State};
use net_model::Net;
use std::alloc::{AllocError, Global};
use v6_addr::Prefix;

/// Two prefixes are one
pub(crate) fn is_same_prefix(a: &Prefix, b: &Prefix) -> bool
    ensures { result ≡ same_prefix a.now b.now }
{
    a.value().value == b.value().value && a.len() == b.len()
}

/// Two SIDs of the network or more have the prefix
pub(crate) fn is_shared(net: &Net, prefix: &Prefix) -> bool
    ensures { result ≡ is_shared net.now prefix.now }
{
    let mut count: u32 = 0;
    for n in 0..net.sids() {
        if is_same_prefix(&net.sid(n).prefix, prefix) {
            count += 1;
        }
    }
    count > 1
}

/// The text of a SID is put after the others
fn append_sid(net: &Net, n: u32, out: &mut String) -> Result<(), AllocError>
    requires { n < length net.now.sids }
    ensures { OnOk result (string_bytes out.new ≡ string_bytes out.old ++ sid_text net.now n) }
{
    net.keeps_rules();
    let sid = net.sid(n);
    let prefix = &sid.prefix;
    if is_shared(net, prefix) {
        let name = &net.node(sid.node).name;
        write!(out, "{prefix}@{name}")
    } else {
        write!(out, "{prefix}")
    }
}

#[tactic(auto, unfolding(crate::specs::Spelling::start_text))]
fn append_start(out: &mut String) -> Result<(), AllocError>
    ensures { OnOk result (string_bytes out.new ≡ string_bytes out.old ++ start_text) }
{
    write!(out, "0 - 0")
}

/// The text of a state at a SID
#[tactic(auto, unfolding(crate::specs::Spelling::placed_text))]
fn append_placed(
    net: &Net,
    position: u32,
    n: u32,
    room: u8,
    out: &mut String,
) -> Result<(), AllocError>
    requires { n < length net.now.sids }
    ensures { OnOk result (string_bytes out.new
        ≡ string_bytes out.old ++ placed_text position (sid_text net.now n) room) }
{
    write!(out, "{position} ")?;
    append_sid(net, n, out)?;
    write!(out, " {room}")
}

/// Appends the text of a state: its position, its SID and its room, or `0 - 0` for the start. A SID
/// is written by its prefix, and where another SID of the network has that prefix too, by `@` and
/// the name of its node after it. Only want of memory is an error.
pub fn append_state(net: &Net, state: State, out: &mut String) -> Result<(), AllocError>
    requires { IsKnown net.now state }
    ensures { OnOk result (string_bytes out.new
        ≡ string_bytes out.old ++ state_text net.now state) }
{
    match state.via {
        None => append_start(out),
        Some(n) => append_placed(net, state.position, n, state.room, out),
    }
}

/// The numbers of a cost
#[tactic(auto, unfolding(crate::specs::Spelling::cost_text))]
fn append_cost(form: Form, cost: Cost, out: &mut String) -> Result<(), AllocError>
    ensures { OnOk result (string_bytes out.new ≡ string_bytes out.old ++ cost_text form cost) }
{
    let containers = cost.containers;
    let sids = cost.sids;
    let hops = cost.hops;
    match form {
        Form::First => write!(out, "{containers} {hops}"),
        Form::Second => write!(out, "{containers} {sids} {hops}"),
    }
}

/// The line of a potential
#[tactic(auto, unfolding(crate::specs::Spelling::potential_of_text))]
fn append_potential(
    net: &Net,
    form: Form,
    state: State,
    cost: Cost,
    out: &mut String,
) -> Result<(), AllocError>
    requires { IsKnown net.now state }
    ensures { OnOk result (string_bytes out.new ≡ string_bytes out.old
        ++ potential_of_text (state_text net.now state) (cost_text form cost)) }
{
    write!(out, "potential ")?;
    append_state(net, state, out)?;
    write!(out, " ")?;
    append_cost(form, cost, out)?;
    writeln!(out)
}

/// The lines of potentials
fn append_potentials(
    net: &Net,
    form: Form,
    potentials: &[Potential],
    out: &mut String,
) -> Result<(), AllocError>
    requires { All (λ (q : Potential). IsKnown net.now q.state) potentials.now }
    ensures { OnOk result (string_bytes out.new
        ≡ string_bytes out.old ++ flat_map (potential_text net.now form) potentials.now) }
{
    for potential in potentials {
        append_potential(net, form, potential.state, potential.cost, out)?;
    }
    Ok(())
}

/// The line of a step of the path
#[tactic(auto, unfolding(crate::specs::Spelling::stay_text, crate::specs::Spelling::new_text))]
fn append_step(step: &PathStep, out: &mut String) -> Result<(), AllocError>
    ensures { OnOk result (string_bytes out.new ≡ string_bytes out.old ++ step_text step.now) }
{
    let prefix = &step.prefix;
    if step.stays {
        writeln!(out, "path stay {prefix}")
    } else {
        writeln!(out, "path new {prefix}")
    }
}

#[tactic(auto, unfolding(crate::specs::Spelling::none_text))]
fn append_none(out: &mut String) -> Result<(), AllocError>
    ensures { OnOk result (string_bytes out.new ≡ string_bytes out.old ++ none_text) }
{
    writeln!(out, "none")
}

fn append_steps(path: &[PathStep], out: &mut String) -> Result<(), AllocError>
    ensures { OnOk result (string_bytes out.new
        ≡ string_bytes out.old ++ flat_map step_text path.now) }
{
    for step in path {
        append_step(step, out)?;
    }
    Ok(())
}

/// The lines of the path, or the one that says that there is none
fn append_way(path: &[PathStep], out: &mut String) -> Result<(), AllocError>
    ensures { OnOk result (string_bytes out.new ≡ string_bytes out.old ++ way_text path.now) }
{
    if path.is_empty() {
        append_none(out)
    } else {
        append_steps(path, out)
    }
}

#[tactic(auto, unfolding(crate::specs::Spelling::head_text))]
fn append_head(form: Form, out: &mut String) -> Result<(), AllocError>
    ensures { OnOk result (string_bytes out.new ≡ string_bytes out.old ++ head_text form) }
{
    match form {
        Form::First => writeln!(out, "srv6 certificate 1"),
        Form::Second => writeln!(out, "srv6 certificate 2"),
    }
}

#[tactic(auto, unfolding(crate::specs::Spelling::end_text))]
fn append_end(out: &mut String) -> Result<(), AllocError>
    ensures { OnOk result (string_bytes out.new ≡ string_bytes out.old ++ end_text) }
{
    writeln!(out, "end")
}

/// The text of a solution's certificate
fn text_of(
    alloc: Global,
    net: &Net,
    sid_cost: u32,
    solution: &Solution,
) -> Result<String, AllocError>
    requires { All (λ (q : Potential). IsKnown net.now q.state) solution.now.potentials }
    ensures { IfOk result (λ text. string_bytes text ≡ spelled net.now sid_cost solution.now) }
{
    let form = form_of(sid_cost);
    let mut text = String::new(alloc);
    append_head(form, &mut text)?;
    append_potentials(net, form, solution.potentials.as_slice(), &mut text)?;
    append_way(solution.path.as_slice(), &mut text)?;
    append_end(&mut text)?;
    Ok(text)
}

/// Appends the text of a solution's certificate, for legs by which a SID costs so much: the head, a
/// line for each potential, lines `path new PREFIX` and `path stay PREFIX` for the path or the line
/// `none`, and `end`. Where SIDs cost nothing it has the first form: the head is
/// `srv6 certificate 1`, the line of a potential
/// `potential POSITION PREFIX ROOM CONTAINERS HOPS`. Else it has the second: the head is
/// `srv6 certificate 2`, the line of a potential
/// `potential POSITION PREFIX ROOM CONTAINERS SIDS HOPS`. `NoMemory` leaves the bytes as they were.
pub fn print(
    alloc: Global,
    net: &Net,
    sid_cost: u32,
    solution: &Solution,
    out: &mut Vec<u8>,
) -> Result<(), NoMemory>
    requires { All (λ (q : Potential). IsKnown net.now q.state) solution.now.potentials }
    ensures ok { OnOk result (out.new.items ≡ out.old.items ++ spelled net.now sid_cost solution.now) }
    ensures err { OnErr result (out.new.items ≡ out.old.items) }
{
    let text = text_of(alloc, net, sid_cost, solution)?;
    out.extend_from_slice(text.as_bytes())?;
    Ok(())
}
