//! What a line of a certificate says.

ghost use Rattle.std.specs.Prelude.{◌≡◌, ◌≤◌, ◌<◌, length, slice_index, ◌==◌, find, Some, IfSome, bytes_eq};
ghost use Rattle.v6_addr.specs.Text.{prefix_of_text};
ghost use Rattle.list_pack.specs.LegsValueTerms.{IsSid};
ghost use Rattle.list_pack.specs.Costs.{IsState};
ghost use Rattle.list_certificate.specs.Spelling.{is_shared, form_of, head_words};
ghost use Rattle.list_certificate.specs.CertificateReading as reading;
ghost use Rattle.list_certificate.specs.CertificateReadingTerms as reading_terms;

use crate::certificate_types::{Form, form_of};
use crate::line_words::{Row, cut, row_of};
use crate::spelling::{is_same_prefix, is_shared};
use list_pack::{Legs, PathStep, Potential, State, top_room};
use net_model::Net;
use v6_addr::{Prefix, parse_prefix};

/// A line of a certificate.
#[derive(Clone, Copy, Debug)]
pub enum Item {
    /// It begins with `#`.
    Comment,
    /// The head, of the form that certificates for the legs have.
    Head,
    /// The potential of a state.
    Listed(Potential),
    /// A step of the path.
    Step(PathStep),
    /// There is no path.
    NoPath,
    /// The end.
    End,
    /// None of these.
    Other,
}

fn is_word(text: &[u8], word: &[u8]) -> bool
    ensures { result ≡ bytes_eq text.now word.now }
{
    text == word
}

fn prefix_of(text: &[u8]) -> Option<Prefix>
    ensures { result ≡ prefix_of_text text.now }
{
    match parse_prefix(text) {
        Ok(prefix) => Some(prefix),
        Err(_) => None,
    }
}

/// A middle SID has a prefix
fn is_unnamed<L: Legs>(legs: &L, prefix: &Prefix, n: u32) -> bool
    requires { IsSid (L.seen legs.now) n }
    ensures { result ≡ reading.is_unnamed (L.seen legs.now) prefix.now n }
{
    let shape = legs.shape(n);
    is_same_prefix(&shape.prefix, prefix) && shape.middle
}

/// A SID's node has a name
fn has_name(net: &Net, name: &[u8], n: u32) -> bool
    requires { n < length net.now.sids }
    ensures { result ≡ reading.has_name net.now name.now n }
{
    net.keeps_rules();
    let sid = net.sid(n);
    is_word(net.node(sid.node).name.as_bytes(), name)
}

/// The middle SID of a position with a prefix
fn unnamed_sid<L: Legs>(legs: &L, position: u32, prefix: &Prefix) -> Option<u32>
    requires { position ≤ (L.seen legs.now).steps }
    ensures { result ≡ find (reading.is_unnamed (L.seen legs.now) prefix.now)
        ((L.seen legs.now).sids_at position) }
{
    for n in legs.sids_at(position) {
        if is_unnamed(legs, prefix, *n) {
            return Some(*n);
        }
    }
    None
}

/// The middle SID of a position with a prefix, at the node with a name
fn named_sid<L: Legs>(
    net: &Net,
    legs: &L,
    position: u32,
    prefix: &Prefix,
    name: &[u8],
) -> Option<u32>
    requires net { reading_terms.IsNetworkOf net.now (L.seen legs.now) }
    requires within { position ≤ (L.seen legs.now).steps }
    ensures { result ≡ find (reading.is_named net.now (L.seen legs.now) prefix.now name.now)
        ((L.seen legs.now).sids_at position) }
{
    for n in legs.sids_at(position) {
        if is_unnamed(legs, prefix, *n) && has_name(net, name, *n) {
            return Some(*n);
        }
    }
    None
}

/// The SID of a position that a text names
#[tactic(auto, unfolding(crate::specs::CertificateReading::sid_in))]
fn sid_of<L: Legs>(net: &Net, legs: &L, position: u32, text: &[u8]) -> Option<u32>
    requires net { reading_terms.IsNetworkOf net.now (L.seen legs.now) }
    requires within { position ≤ (L.seen legs.now).steps }
    ensures { result ≡ reading.sid_in net.now (L.seen legs.now) position text.now }
{
    match cut(text, b'@') {
        None => {
            let prefix = prefix_of(text)?;
            if is_shared(net, &prefix) {
                None
            } else {
                unnamed_sid(legs, position, &prefix)
            }
        }
        Some(parts) => {
            let prefix = prefix_of(parts.front)?;
            if is_shared(net, &prefix) {
                named_sid(net, legs, position, &prefix, parts.rest)
            } else {
                None
            }
        }
    }
}

/// The state of a row that is not the start
fn placed_of<L: Legs>(net: &Net, legs: &L, row: &Row<'_>) -> Option<State>
    requires net { reading_terms.IsNetworkOf net.now (L.seen legs.now) }
    ensures value { result ≡ reading.placed_state net.now (L.seen legs.now)
        (reading_terms.row_value row.now) }
    ensures state { IfSome result (IsState (L.seen legs.now)) }
{
    if row.position > legs.steps() {
        return None;
    }
    let n = sid_of(net, legs, row.position, row.sid)?;
    let top = top_room(&legs.shape(n));
    if row.room > u32::from(top) {
        return None;
    }
    Some(State {
        position: row.position,
        via: Some(n),
        room: row.room as u8,
    })
}

/// The state of a row
#[tactic(auto, unfolding(crate::specs::CertificateReading::state_in))]
fn state_of<L: Legs>(net: &Net, legs: &L, row: &Row<'_>) -> Option<State>
    requires net { reading_terms.IsNetworkOf net.now (L.seen legs.now) }
    ensures value { result ≡ reading.state_in net.now (L.seen legs.now)
        (reading_terms.row_value row.now) }
    ensures state { IfSome result (IsState (L.seen legs.now)) }
{
    if !is_word(row.sid, b"-") {
        return placed_of(net, legs, row);
    }
    if row.position == 0 && row.room == 0 {
        Some(State {
            position: 0,
            via: None,
            room: 0,
        })
    } else {
        None
    }
}

#[tactic(auto, unfolding(crate::specs::CertificateReading::potential_in))]
fn potential_of<L: Legs>(net: &Net, legs: &L, text: &[u8]) -> Option<Potential>
    requires net { reading_terms.IsNetworkOf net.now (L.seen legs.now) }
    ensures value { result ≡ reading.potential_in net.now (L.seen legs.now) text.now }
    ensures state { IfSome result (λ q. IsState (L.seen legs.now) q.state) }
{
    let row = row_of(form_of(legs.sid_cost()), text)?;
    let state = state_of(net, legs, &row)?;
    Some(Potential {
        state,
        cost: row.cost,
    })
}

#[tactic(auto, unfolding(crate::specs::CertificateReading::step_in))]
fn step_of(text: &[u8]) -> Option<PathStep>
    ensures { result ≡ reading.step_in text.now }
{
    let parts = cut(text, b' ')?;
    let prefix = prefix_of(parts.rest)?;
    if is_word(parts.front, b"stay") {
        return Some(PathStep {
            stays: true,
            prefix,
        });
    }
    if is_word(parts.front, b"new") {
        return Some(PathStep {
            stays: false,
            prefix,
        });
    }
    None
}

/// A line of more than one word, but for the head
fn item_by<L: Legs>(net: &Net, legs: &L, line: &[u8]) -> Item
    requires { reading_terms.IsNetworkOf net.now (L.seen legs.now) }
    ensures value { result ≡ reading.item_by net.now (L.seen legs.now)
        (reading.cut_at 32 line.now) }
    ensures state { reading_terms.IsItem (L.seen legs.now) result }
{
    let Some(parts) = cut(line, b' ') else {
        return Item::Other;
    };
    if is_word(parts.front, b"potential") {
        return match potential_of(net, legs, parts.rest) {
            Some(potential) => Item::Listed(potential),
            None => Item::Other,
        };
    }
    if is_word(parts.front, b"path") {
        return match step_of(parts.rest) {
            Some(step) => Item::Step(step),
            None => Item::Other,
        };
    }
    Item::Other
}

/// The head of a certificate of a form
fn is_head(form: Form, line: &[u8]) -> bool
    ensures { result ≡ bytes_eq line.now (head_words form) }
{
    match form {
        Form::First => is_word(line, b"srv6 certificate 1"),
        Form::Second => is_word(line, b"srv6 certificate 2"),
    }
}

fn is_comment(line: &[u8]) -> bool
    ensures { result ≡ (slice_index line.now 0 == 35) }
{
    match line {
        [first, ..] => *first == b'#',
        [] => false,
    }
}

/// What a line says, in a certificate of the form that certificates for the legs have.
#[tactic(auto, unfolding(crate::specs::CertificateReading::item_in))]
pub fn item_of<L: Legs>(net: &Net, legs: &L, line: &[u8]) -> Item
    requires { reading_terms.IsNetworkOf net.now (L.seen legs.now) }
    ensures value { result ≡ reading.item_in net.now (L.seen legs.now) line.now }
    ensures state { reading_terms.IsItem (L.seen legs.now) result }
{
    if is_comment(line) {
        return Item::Comment;
    }
    if is_head(form_of(legs.sid_cost()), line) {
        return Item::Head;
    }
    if is_word(line, b"none") {
        return Item::NoPath;
    }
    if is_word(line, b"end") {
        return Item::End;
    }
    item_by(net, legs, line)
}
