//! What was read so far of a certificate.

ghost use Rattle.std.specs.Prelude.{◌≡◌, Some, None, Ok, IfOk};
ghost use Rattle.list_pack.specs.ListOrder.{lex_before};
ghost use Rattle.list_pack.specs.Costs.{IsState};
ghost use Rattle.list_pack.specs.Least.{state_key};
ghost use Rattle.list_certificate.specs.CertificateReading as reading;
ghost use Rattle.list_certificate.specs.CertificateReadingTerms as reading_terms;

use crate::certificate_types::{PathLine, PotentialLine};
use crate::item::Item;
use base::NoMemory;
use list_pack::{Legs, PathStep, Potential, State};
use net_model::Net;
use std::alloc::Global;

/// What the next line may be.
#[derive(Clone, Copy, Debug, PartialEq, Eq)]
pub enum Progress {
    /// A comment or the head.
    BeforeHead,
    /// A potential, a step of the path, or that there is none.
    AfterHead,
    /// A step of the path or the end.
    InPath,
    /// The end.
    BeforeEnd,
    /// None.
    AtEnd,
}

/// What was read so far.
#[derive(Debug, Drop)]
pub struct Draft {
    /// What the next line may be.
    pub stage: Progress,
    /// The line of the head, 0 before it.
    pub head: u32,
    /// The potentials.
    pub potentials: Vec<PotentialLine>,
    /// The steps of the path.
    pub path: Vec<PathLine>,
    /// The line that says that there is no path.
    pub none: Option<u32>,
    /// The line of the end, 0 before it.
    pub end: u32,
}

impl Draft {
    /// Nothing read.
    pub fn new(alloc: Global) -> Draft
        ensures { reading_terms.read_value result ≡ reading.nothing_read }
    {
        Draft {
            stage: Progress::BeforeHead,
            head: 0,
            potentials: Vec::new(alloc),
            path: Vec::new(alloc),
            none: None,
            end: 0,
        }
    }
}

/// What the order of states goes by, but for the start.
#[derive(Clone, Copy, Debug)]
struct Key {
    position: u32,
    value: u128,
    len: u8,
    node: u32,
    room: u8,
}

/// The key of a state at a SID
fn key_of<L: Legs>(net: &Net, legs: &L, state: State, n: u32) -> Key
    requires net { reading_terms.IsNetworkOf net.now (L.seen legs.now) }
    requires state { IsState (L.seen legs.now) state }
    requires via { state.via ≡ Some n }
    ensures { reading_terms.key_value result ≡ state_key (L.seen legs.now) state }
{
    let prefix = legs.shape(n).prefix;
    Key {
        position: state.position,
        value: prefix.value().value,
        len: prefix.len(),
        node: net.sid(n).node,
        room: state.room,
    }
}

fn is_key_before(a: Key, b: Key) -> bool
    ensures { result ≡ lex_before (reading_terms.key_value a) (reading_terms.key_value b) }
{
    if a.position != b.position {
        return a.position < b.position;
    }
    if a.value != b.value {
        return a.value < b.value;
    }
    if a.len != b.len {
        return a.len < b.len;
    }
    if a.node != b.node {
        return a.node < b.node;
    }
    a.room < b.room
}

/// A state comes before another
fn is_before<L: Legs>(net: &Net, legs: &L, a: State, b: State) -> bool
    requires net { reading_terms.IsNetworkOf net.now (L.seen legs.now) }
    requires first { IsState (L.seen legs.now) a }
    requires second { IsState (L.seen legs.now) b }
    ensures { result ≡ lex_before (state_key (L.seen legs.now) a) (state_key (L.seen legs.now) b) }
{
    match (a.via, b.via) {
        (_, None) => false,
        (None, Some(_)) => true,
        (Some(n), Some(m)) => is_key_before(key_of(net, legs, a, n), key_of(net, legs, b, m)),
    }
}

/// A state comes after all lines
fn is_next<L: Legs>(net: &Net, legs: &L, lines: &[PotentialLine], state: State) -> bool
    requires net { reading_terms.IsNetworkOf net.now (L.seen legs.now) }
    requires lines { reading_terms.AreStates (L.seen legs.now) lines.now }
    requires state { IsState (L.seen legs.now) state }
    ensures { result ≡ reading.is_next (L.seen legs.now) lines.now state }
{
    match lines.last() {
        None => true,
        Some(line) => is_before(net, legs, line.potential.state, state),
    }
}

/// With a line before the head
fn before_head(draft: Draft, line: u32, item: Item) -> Option<Draft>
    ensures { reading_terms.read_values result ≡ reading.before_head
        (reading_terms.read_value draft) line item }
{
    match item {
        Item::Comment => Some(draft),
        Item::Head => Some(Draft {
            stage: Progress::AfterHead,
            head: line,
            ..draft
        }),
        Item::Listed(_) | Item::Step(_) | Item::NoPath | Item::End | Item::Other => None,
    }
}

/// With the end
fn before_end(draft: Draft, line: u32, item: Item) -> Option<Draft>
    ensures { reading_terms.read_values result ≡ reading.before_end (reading_terms.read_value draft) line item }
{
    match item {
        Item::End => Some(Draft {
            stage: Progress::AtEnd,
            end: line,
            ..draft
        }),
        Item::Comment | Item::Head | Item::Listed(_) | Item::Step(_) | Item::NoPath | Item::Other =>
            None,
    }
}

/// With a step of the path
fn with_step(mut draft: Draft, line: u32, step: PathStep) -> Result<Draft, NoMemory>
    ensures { IfOk result (λ d. reading_terms.read_value d
        ≡ reading.with_step (reading_terms.read_value draft) line step) }
{
    draft.path.push(PathLine { step, line })?;
    draft.stage = Progress::InPath;
    Ok(draft)
}

/// With a potential
fn with_potential(mut draft: Draft, line: u32, potential: Potential) -> Result<Draft, NoMemory>
    ensures { IfOk result (λ d. reading_terms.read_value d
        ≡ reading.with_potential (reading_terms.read_value draft) line potential) }
{
    draft.potentials.push(PotentialLine { potential, line })?;
    Ok(draft)
}

/// With a line of the path
fn in_path(draft: Draft, line: u32, item: Item) -> Result<Option<Draft>, NoMemory>
    ensures { IfOk result (λ o. reading_terms.read_values o
        ≡ reading.in_path (reading_terms.read_value draft) line item) }
{
    match item {
        Item::Step(step) => Ok(Some(with_step(draft, line, step)?)),
        Item::End => Ok(before_end(draft, line, Item::End)),
        Item::Comment | Item::Head | Item::Listed(_) | Item::NoPath | Item::Other => Ok(None),
    }
}

/// With a line after the head
fn after_head<L: Legs>(
    net: &Net,
    legs: &L,
    draft: Draft,
    line: u32,
    item: Item,
) -> Result<Option<Draft>, NoMemory>
    requires net { reading_terms.IsNetworkOf net.now (L.seen legs.now) }
    requires lines { reading_terms.AreStates (L.seen legs.now) draft.potentials.items }
    requires item { reading_terms.IsItem (L.seen legs.now) item }
    ensures { IfOk result (λ o. reading_terms.read_values o
        ≡ reading.after_head (L.seen legs.now) (reading_terms.read_value draft) line item) }
{
    match item {
        Item::Listed(potential) => {
            if is_next(net, legs, draft.potentials.as_slice(), potential.state) {
                Ok(Some(with_potential(draft, line, potential)?))
            } else {
                Ok(None)
            }
        }
        Item::Step(step) => Ok(Some(with_step(draft, line, step)?)),
        Item::NoPath => Ok(Some(Draft {
            stage: Progress::BeforeEnd,
            none: Some(line),
            ..draft
        })),
        Item::Comment | Item::Head | Item::End | Item::Other => Ok(None),
    }
}

/// What was read with a line more; none where that may not stand there.
#[tactic(auto, unfolding(crate::specs::CertificateReading::with_line))]
pub fn with_line<L: Legs>(
    net: &Net,
    legs: &L,
    draft: Draft,
    line: u32,
    item: Item,
) -> Result<Option<Draft>, NoMemory>
    requires net { reading_terms.IsNetworkOf net.now (L.seen legs.now) }
    requires lines { reading_terms.AreStates (L.seen legs.now) draft.potentials.items }
    requires item { reading_terms.IsItem (L.seen legs.now) item }
    ensures { IfOk result (λ o. reading_terms.read_values o
        ≡ reading.with_line (L.seen legs.now) (reading_terms.read_value draft) line item) }
{
    match draft.stage {
        Progress::BeforeHead => Ok(before_head(draft, line, item)),
        Progress::AfterHead => after_head(net, legs, draft, line, item),
        Progress::InPath => in_path(draft, line, item),
        Progress::BeforeEnd => Ok(before_end(draft, line, item)),
        Progress::AtEnd => Ok(None),
    }
}
