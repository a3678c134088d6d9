//! The parts of a document's tree.
ghost use Rattle.std.specs.Prelude.{◌≡◌, map, option_map};
ghost use Rattle.std.specs.Option.{option_copied};
ghost use Rattle.toml.specs.Data.{as_str, as_table, get_member};
ghost use Rattle.toml.specs.View.{table_view, view};
ghost use Rattle.df_explain.specs.Trees as trees;
ghost use Rattle.df_explain.specs.Trees.{head_of as spec_head_of, items_in};

use std::alloc::{AllocError, Global};
use toml::{Table, Value};

/// The table of this index in the array at a key, if there is one.
pub fn table_in<'a>(tree: &'a Table, key: &str, index: usize) -> Option<&'a Table>
    ensures { option_map (λ t. table_view t.now) result
        ≡ trees.table_in key.now index (table_view tree.now) }
{
    table_of(array_at(tree, key).get(index)?)
}

fn table_of(value: &Value) -> Option<&Table>
    ensures { option_map (λ t. table_view t.now) result ≡ as_table (view value.now) }
{
    value.as_table()
}

/// The items of the array at a key; none where there is no array.
pub fn array_at<'a>(table: &'a Table, key: &str) -> &'a [Value]
    ensures { map view result.now ≡ trees.array_at key.now (table_view table.now) }
{
    match value_at(table, key) {
        Some(value) => items_of(value),
        None => &[],
    }
}

fn value_at<'a>(table: &'a Table, key: &str) -> Option<&'a Value>
    ensures { option_map (λ v. view v.now) result ≡ get_member key.now (table_view table.now) }
{
    table.get(key)
}

/// The items of an array; none of another value.
pub fn items_of(value: &Value) -> &[Value]
    ensures { map view result.now ≡ items_in (view value.now) }
{
    match value {
        Value::Array(items) => items.as_slice(),
        _ => &[],
    }
}

/// The text at a key, if a text is there.
pub fn text_at<'a>(table: &'a Table, key: &str) -> Option<&'a str>
    ensures { option_copied result ≡ trees.text_at key.now (table_view table.now) }
{
    text_of(value_at(table, key)?)
}

/// The text that a value is.
pub fn text_of(value: &Value) -> Option<&str>
    ensures { option_copied result ≡ as_str (view value.now) }
{
    value.as_str()
}

/// The text that the first of these items is.
pub fn head_of(items: &[Value]) -> Option<&str>
    ensures { option_copied result ≡ spec_head_of (map view items.now) }
{
    match items {
        [first, ..] => text_of(first),
        [] => None,
    }
}

/// The name of the frame or of the view of this index.
pub fn name_in<'a>(tree: &'a Table, kind: &str, index: usize) -> Option<&'a str>
    ensures { option_copied result ≡ trees.name_in kind.now index (table_view tree.now) }
{
    text_at(table_in(tree, kind, index)?, "name")
}

/// The names of the document's frames, as far as they are texts.
pub fn frame_names<'a>(alloc: Global, tree: &'a Table) -> Result<Vec<&'a str>, AllocError> {
    let mut names = Vec::new(alloc);
    for frame in array_at(tree, "frame") {
        push_name(&mut names, frame)?;
    }
    Ok(names)
}

fn push_name<'a>(names: &mut Vec<&'a str>, frame: &'a Value) -> Result<(), AllocError> {
    match name_of(frame) {
        Some(name) => Ok(names.push(name)?),
        None => Ok(()),
    }
}

fn name_of(frame: &Value) -> Option<&str> {
    text_at(table_of(frame)?, "name")
}
