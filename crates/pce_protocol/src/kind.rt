//! What the value of a field is read as.

ghost use Rattle.std.specs.Prelude.{◌≡◌, Option, option_map, map, IfOk};
ghost use Rattle.serde_json.specs.Data.{Data};
ghost use Rattle.serde_json.specs.Find.{as_bool, as_str};
ghost use Rattle.serde_json.specs.View.{view};
ghost use Rattle.pce_protocol.specs.Kinds.{given, name_of, addr_of, verb_named, verb_of, routes_named, routes_of, choice_of, values_of, each_of, list_of};

use crate::request::Routes;
use crate::text::Text;
use crate::verb::Verb;
use base::Seq;
use net_model::{Name, is_name};
use serde_json::Value;
use std::alloc::{AllocError, Global};
use v6_addr::{Addr, parse_addr};

/// What the value of a field is read as.
pub(crate) trait Kind: Sized {
    /// What a value gives; none where it is of another kind.
    ghost kind: { Data → Option Self };

    /// What the value gives; `None` where it is of another kind.
    fn of(alloc: Global, value: &Value) -> Result<Option<Self>, AllocError>
        ensures { IfOk result (λ x. x ≡ kind (view value.now)) };
}

impl Kind for bool {
    ghost kind = { as_bool };

    fn of(_alloc: Global, value: &Value) -> Result<Option<bool>, AllocError> {
        Ok(value.as_bool())
    }
}

impl Kind for Text {
    ghost kind = { as_str };

    fn of(alloc: Global, value: &Value) -> Result<Option<Text>, AllocError> {
        let Some(text) = value.as_str() else {
            return Ok(None);
        };
        Ok(Some(Text::new(text.to_string(alloc)?)))
    }
}

impl Kind for Name {
    ghost kind = { name_of };

    fn of(alloc: Global, value: &Value) -> Result<Option<Name>, AllocError> {
        let Some(text) = value.as_str() else {
            return Ok(None);
        };
        if !is_name(text.as_bytes()) {
            return Ok(None);
        }
        Ok(Some(Name::new(text.to_string(alloc)?)))
    }
}

impl Kind for Addr {
    ghost kind = { addr_of };

    fn of(_alloc: Global, value: &Value) -> Result<Option<Addr>, AllocError> {
        let Some(text) = value.as_str() else {
            return Ok(None);
        };
        Ok(parse_addr(text.as_bytes()).ok())
    }
}

/// What may be absent, where it is there.
impl<X: Kind> Kind for Option<X> {
    ghost kind = { given X.kind };

    fn of(alloc: Global, value: &Value) -> Result<Option<Option<X>>, AllocError> {
        match X::of(alloc, value)? {
            Some(x) => Ok(Some(Some(x))),
            None => Ok(None),
        }
    }
}

/// What a word asks to be done.
fn verb_named(word: &str) -> Option<Verb>
    ensures { result ≡ verb_named word.now }
{
    match word {
        "version" => Some(Verb::Version),
        "load" => Some(Verb::Load),
        "without" => Some(Verb::Without),
        "drop" => Some(Verb::Drop),
        "compile" => Some(Verb::Compile),
        "judge" => Some(Verb::Judge),
        "trace" => Some(Verb::Trace),
        _ => None,
    }
}

impl Kind for Verb {
    ghost kind = { verb_of };

    fn of(_alloc: Global, value: &Value) -> Result<Option<Verb>, AllocError> {
        let Some(word) = value.as_str() else {
            return Ok(None);
        };
        Ok(verb_named(word))
    }
}

/// What a word says of routes.
fn routes_named(word: &str) -> Option<Routes>
    ensures { result ≡ routes_named word.now }
{
    match word {
        "keep" => Some(Routes::Keep),
        "again" => Some(Routes::Again),
        _ => None,
    }
}

impl Kind for Routes {
    ghost kind = { routes_of };

    fn of(_alloc: Global, value: &Value) -> Result<Option<Routes>, AllocError> {
        let Some(word) = value.as_str() else {
            return Ok(None);
        };
        Ok(routes_named(word))
    }
}

/// A number of 32 bits.
impl Kind for u32 {
    ghost kind = { choice_of };

    fn of(_alloc: Global, value: &Value) -> Result<Option<u32>, AllocError> {
        let Some(number) = value.as_u64() else {
            return Ok(None);
        };
        if number > u64::from(u32::MAX) {
            return Ok(None);
        }
        Ok(Some(number as u32))
    }
}

/// What values give, one after another; `None` where one is of another kind.
#[tactic(auto, using(crate::proofs::ItemsRead::reading))]
fn each<X: Kind + Drop>(alloc: Global, values: &[Value]) -> Result<Option<Vec<X>>, AllocError>
    ensures { IfOk result (λ all. option_map (λ v. v.items) all
        ≡ each_of X.kind (map view values.now)) }
{
    let mut all = Vec::new(alloc);
    for value in values {
        let Some(item) = X::of(alloc, value)? else {
            return Ok(None);
        };
        all.push(item)?;
    }
    Ok(Some(all))
}

/// The values of an array.
#[tactic(auto, using(crate::proofs::ItemsRead::arrays))]
fn values_of(value: &Value) -> Option<&Vec<Value>>
    ensures { option_map (λ values. map view values.now.items) result ≡ values_of (view value.now) }
{
    match value.as_array() {
        Some(values) => Some(values),
        None => None,
    }
}

/// An array of such values.
impl<X: Kind + Drop> Kind for Seq<X> {
    ghost kind = { list_of X.kind };

    fn of(alloc: Global, value: &Value) -> Result<Option<Seq<X>>, AllocError> {
        match values_of(value) {
            Some(values) => match each::<X>(alloc, values.as_slice())? {
                Some(items) => Ok(Some(Seq::new(items))),
                None => Ok(None),
            },
            None => Ok(None),
        }
    }
}
