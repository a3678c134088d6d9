//! The values of a TOML document, each asked for its kind.
ghost use Rattle.std.specs.Prelude.{◌≡◌, map, MatchResult, Ok, Err, string_bytes, option_map};
ghost use Rattle.std.specs.List.{list_all, list_any};
ghost use Rattle.std.specs.Map.{keys_of};
ghost use Rattle.std.specs.Str.{bytes_eq};
ghost use Rattle.toml.specs.Data.{get_member};
ghost use Rattle.toml.specs.View.{table_view, view};
ghost use Rattle.df_text.specs.Tree as tree;
ghost use Rattle.df_text.specs.Tree.{GivesTable, tree_of};

use crate::document::Location;
use crate::fault::ViewsFault;
use std::alloc::Global;
use toml::{Table, Value};

/// The table of a document's text.
pub fn parse(alloc: Global, bytes: &[u8]) -> Result<Table, ViewsFault>
    ensures { GivesTable (tree_of bytes.now) result }
{
    match str::from_utf8(bytes) {
        Ok(text) => match toml::table_from_str(alloc, text) {
            Ok(table) => Ok(table),
            Err(e) if e.is_memory() => Err(ViewsFault::Memory),
            Err(_) => Err(ViewsFault::NotToml),
        },
        Err(_) => Err(ViewsFault::NotToml),
    }
}

/// Whether a table has no key but these.
pub fn has_only_keys(table: &Table, keys: &[&str]) -> bool
    ensures { result ≡ tree.has_only_keys (map (λ k. k.now) keys.now) (table_view table.now) }
{
    keys_are_among(table, keys)
}

fn keys_are_among(table: &Table, keys: &[&str]) -> bool
    ensures { result ≡ list_all
        (λ k. list_any (bytes_eq (string_bytes k)) (map (λ k. k.now) keys.now))
        (keys_of table.now.entries) }
{
    table.keys().all(|key| is_among(key.as_str(), keys))
}

fn is_among(key: &str, keys: &[&str]) -> bool
    ensures { result ≡ list_any (bytes_eq key.now) (map (λ k. k.now) keys.now) }
{
    equals_one(key, keys)
}

fn equals_one(key: &str, keys: &[&str]) -> bool
    ensures { result ≡ list_any (λ k. bytes_eq key.now k.now) keys.now }
{
    keys.iter().any(|k| key == *k)
}

/// The value at a key that must be there.
pub fn value_at<'a>(
    location: Location,
    table: &'a Table,
    key: &str,
) -> Result<&'a Value, ViewsFault>
    ensures { MatchResult result
        (λ v. tree.value_at location key.now (table_view table.now) ≡ Ok (view v.now))
        (λ f. tree.value_at location key.now (table_view table.now) ≡ Err f) }
{
    match find(table, key) {
        Some(value) => Ok(value),
        None => Err(ViewsFault::Shape(location)),
    }
}

/// The value at a key.
pub fn find<'a>(table: &'a Table, key: &str) -> Option<&'a Value>
    ensures { option_map (λ v. view v.now) result ≡ get_member key.now (table_view table.now) }
{
    table.get(key)
}

/// The text that a value is.
pub fn text_in(location: Location, value: &Value) -> Result<&str, ViewsFault>
    ensures { MatchResult result
        (λ s. tree.text_in location (view value.now) ≡ Ok s.now)
        (λ f. tree.text_in location (view value.now) ≡ Err f) }
{
    match value {
        Value::String(text) => Ok(text.as_str()),
        _ => Err(ViewsFault::Shape(location)),
    }
}

/// The items of the array that a value is.
pub fn array_in(location: Location, value: &Value) -> Result<&[Value], ViewsFault>
    ensures { MatchResult result
        (λ vs. tree.array_in location (view value.now) ≡ Ok (map view vs.now))
        (λ f. tree.array_in location (view value.now) ≡ Err f) }
{
    match value {
        Value::Array(items) => Ok(items.as_slice()),
        _ => Err(ViewsFault::Shape(location)),
    }
}

/// The table that a value is.
pub fn table_value(location: Location, value: &Value) -> Result<&Table, ViewsFault>
    ensures { MatchResult result
        (λ t. tree.table_value location (view value.now) ≡ Ok (table_view t.now))
        (λ f. tree.table_value location (view value.now) ≡ Err f) }
{
    match value {
        Value::Table(table) => Ok(table),
        _ => Err(ViewsFault::Shape(location)),
    }
}

/// The first item and those after it.
pub fn first_in(location: Location, items: &[Value]) -> Result<(&Value, &[Value]), ViewsFault>
    ensures { MatchResult result
        (λ p. tree.first_in location (map view items.now) ≡ Ok (view p.0.now, map view p.1.now))
        (λ f. tree.first_in location (map view items.now) ≡ Err f) }
{
    match items {
        [first, rest @ ..] => Ok((first, rest)),
        [] => Err(ViewsFault::Shape(location)),
    }
}

/// The two items of an array of two.
pub fn pair_in(location: Location, items: &[Value]) -> Result<(&Value, &Value), ViewsFault>
    ensures { MatchResult result
        (λ p. tree.pair_in location (map view items.now) ≡ Ok (view p.0.now, view p.1.now))
        (λ f. tree.pair_in location (map view items.now) ≡ Err f) }
{
    let (first, rest) = first_in(location, items)?;
    let second = only_in(location, rest)?;
    Ok((first, second))
}

/// The three items of an array of three.
pub fn triple_in(
    location: Location,
    items: &[Value],
) -> Result<(&Value, &Value, &Value), ViewsFault>
    ensures { MatchResult result
        (λ t. tree.triple_in location (map view items.now)
        ≡ Ok (view t.0.now, view t.1.now, view t.2.now))
        (λ f. tree.triple_in location (map view items.now) ≡ Err f) }
{
    let (first, rest) = first_in(location, items)?;
    let (second, third) = pair_in(location, rest)?;
    Ok((first, second, third))
}

/// The item of an array of one.
pub fn only_in(location: Location, items: &[Value]) -> Result<&Value, ViewsFault>
    ensures { MatchResult result
        (λ v. tree.only_in location (map view items.now) ≡ Ok (view v.now))
        (λ f. tree.only_in location (map view items.now) ≡ Err f) }
{
    let (first, rest) = first_in(location, items)?;
    if rest.is_empty() {
        Ok(first)
    } else {
        Err(ViewsFault::Shape(location))
    }
}

/// Nothing, where no item is left.
pub fn none_in(location: Location, items: &[Value]) -> Result<(), ViewsFault>
    ensures { MatchResult result
        (λ _. tree.none_in location (map view items.now) ≡ Ok tt)
        (λ f. tree.none_in location (map view items.now) ≡ Err f) }
{
    if items.is_empty() {
        Ok(())
    } else {
        Err(ViewsFault::Shape(location))
    }
}
