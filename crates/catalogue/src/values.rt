//! Values at a key of a table.

ghost use Rattle.std.specs.Prelude.{◌≡◌, ◌≤◌, IfSome, option_map};
ghost use Rattle.toml.specs.View.{view, items_view};
ghost use Rattle.catalogue.specs.Shapes.{between, integer_at, text_at, number_at, name_at, list_in, list_at};

use knx_model::is_name;
use toml::Value;

/// The integer at a key.
pub fn integer_at(table: &Value, key: &str) -> Option<i64>
    ensures { result ≡ integer_at key.now (view table.now) }
{
    table.get(key)?.as_integer()
}

/// The text at a key.
pub fn text_at<'a>(table: &'a Value, key: &str) -> Option<&'a str>
    ensures { option_map (λ text. text.now) result ≡ text_at key.now (view table.now) }
{
    table.get(key)?.as_str()
}

/// An integer where it is within a range.
fn between(least: u16, most: u16, n: i64) -> Option<u16>
    ensures { result ≡ between least most n }
{
    if n < i64::from(least) || n > i64::from(most) {
        None
    } else {
        Some(n as u16)
    }
}

/// The integer at a key, where it is within a range.
pub fn number_at(table: &Value, key: &str, least: u16, most: u16) -> Option<u16>
    ensures value { result ≡ number_at least most key.now (view table.now) }
    ensures within { IfSome result (λ n. n ≤ most) }
{
    between(least, most, integer_at(table, key)?)
}

/// The name at a key.
pub fn name_at<'a>(table: &'a Value, key: &str) -> Option<&'a str>
    ensures { option_map (λ name. name.now) result ≡ name_at key.now (view table.now) }
{
    let name = text_at(table, key)?;
    if is_name(name) { Some(name) } else { None }
}

/// The elements of a list; a list that is left out has none.
fn list_in(value: Option<&Value>) -> Option<&[Value]>
    ensures { option_map (λ items. items_view items.now) result ≡ list_in (option_map (λ v. view v.now) value.entry) }
{
    match value {
        None => Some(&[]),
        Some(Value::Array(items)) => Some(items.as_slice()),
        Some(_) => None,
    }
}

/// The elements of the list at a key, of which there are none where the list is left out.
pub fn list_at<'a>(table: &'a Value, key: &str) -> Option<&'a [Value]>
    ensures { option_map (λ items. items_view items.now) result ≡ list_at key.now (view table.now) }
{
    list_in(table.get(key))
}
