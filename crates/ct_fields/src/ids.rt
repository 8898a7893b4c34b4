//! Ids in documents.
ghost use Rattle.std.specs.Prelude.{◌≡◌, IfOk, IsTrue};
ghost use Rattle.toml.specs.Data.{string};
ghost use Rattle.toml.specs.View.{view};
ghost use Rattle.ct_names.specs.Id.{is_id};
ghost use Rattle.ct_fields.specs.Ids.{id_in};

use ct_names::Id;
use std::alloc::{AllocError, Global};
use toml::Value;

/// The id whose text the value is.
pub fn id_in(value: &Value) -> Option<Id>
    ensures { result ≡ id_in (view value.now) }
{
    match value {
        Value::String(text) => Id::parse(text.as_bytes()),
        _ => None,
    }
}

/// The id as a value of a document.
pub fn id_value(alloc: Global, id: &Id) -> Result<Value, AllocError>
    ensures value { IfOk result (λ value. view value ≡ string id.now) }
    ensures id { IsTrue (is_id id.now) }
{
    let text = Vec::from_slice(alloc, id.text())?;
    Ok(Value::String(String::from_utf8(text).unwrap()))
}
