//! Strings and arrays of a document.

ghost use Rattle.std.specs.Prelude.{◌≡◌, Some, IfOk, option_map};
ghost use Rattle.toml.specs.Data.{as_str};
ghost use Rattle.toml.specs.View.{view, table_view, items_view, array_view};
ghost use Rattle.sap_latfile.specs.Document.{texts_of, array_at};

use sap_lattice::Name;
use std::alloc::{AllocError, Global};
use toml::{Table, Value};

/// The text of a value that is a string.
pub fn text_of(alloc: Global, value: &Value) -> Result<Option<Name>, AllocError>
    ensures { IfOk result (λ name. name ≡ as_str (view value.now)) }
{
    match value.as_str() {
        Some(text) => Ok(Some(Name::new(String::from_str(alloc, text)?))),
        None => Ok(None),
    }
}

/// The texts of values that are all strings.
pub fn texts_of(alloc: Global, values: &[Value]) -> Result<Option<Vec<Name>>, AllocError>
    ensures { IfOk result (λ names. option_map (λ v. v.items) names ≡ texts_of (items_view values.now)) }
{
    let mut names = Vec::new(alloc);
    for value in values {
        match text_of(alloc, value)? {
            Some(name) => names.push(name)?,
            None => return Ok(None),
        }
    }
    Ok(Some(names))
}

/// The array at a key.
pub fn array_at<'a>(table: &'a Table, key: &str) -> Option<&'a Vec<Value>>
    ensures { option_map (λ v. array_view v.now) result ≡ array_at key.now (table_view table.now) }
{
    match table.get(key) {
        Some(value) => value.as_array(),
        None => None,
    }
}
