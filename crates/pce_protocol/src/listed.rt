//! Lists in replies.

ghost use Rattle.std.specs.Prelude.{◌≡◌, IfOk};
ghost use Rattle.serde_json.specs.Data.{Data};
ghost use Rattle.serde_json.specs.View.{view};
ghost use Rattle.pce_protocol.specs.Replies.{segment_data, path_sid_data, list_data};

use crate::reply::PathSid;
use arrayvec::ArrayString;
use serde_json::{Value, json};
use std::alloc::{AllocError, Global};
use v6_addr::{Addr, write_addr, write_prefix};

/// An item of a list in a reply.
pub(crate) trait Item {
    /// The item as JSON.
    ghost shown: { Self → Data };

    /// The item as a JSON value.
    fn value(&self, alloc: Global) -> Result<Value, AllocError>
        ensures { IfOk result (λ v. view v ≡ shown self.now) };
}

impl Item for Addr {
    ghost shown = { segment_data };

    fn value(&self, alloc: Global) -> Result<Value, AllocError> {
        let mut text = ArrayString::<39>::new();
        write_addr(&mut text, *self);
        Value::try_from_str(alloc, text.as_str())
    }
}

impl Item for PathSid {
    ghost shown = { path_sid_data };

    fn value(&self, alloc: Global) -> Result<Value, AllocError> {
        let mut prefix = ArrayString::<43>::new();
        write_prefix(&mut prefix, &self.prefix);
        json!(in alloc; {"prefix": (prefix.as_str()), "stays": (self.stays)})
    }
}

/// A list as a JSON array.
pub(crate) fn list_value<X: Item>(alloc: Global, items: &[X]) -> Result<Value, AllocError>
    ensures { IfOk result (λ v. view v ≡ list_data X.shown items.now) }
{
    let mut values = Vec::new(alloc);
    for item in items {
        let value = item.value(alloc)?;
        values.push(value)?;
    }
    Ok(Value::Array(values))
}
