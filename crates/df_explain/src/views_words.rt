//! Faults of a document's shape in words.
ghost use Rattle.std.specs.Prelude.{◌≡◌, IfOk, string_bytes};
ghost use Rattle.toml.specs.View.{table_view};
ghost use Rattle.df_explain.specs.Explanations.{IsToldOf};
ghost use Rattle.df_explain.specs.Places as places;

use crate::forms::{KEYS_OF_FRAME, KEYS_OF_TOP, KEYS_OF_VIEW, TYPES};
use crate::names::{appended, first_line, joined};
use crate::near::unknown;
use crate::part::{array_at, frame_names, items_of, table_in, text_of};
use crate::place::place_text;
use crate::step_words::step_words;
use crate::unknown_words::{unknown_type, unknown_word_text, unless_among};
use crate::written_view::WrittenView;
use df_text::{Location, ViewsFault};
use df_value::SchemaFault;
use std::alloc::{AllocError, Global};
use toml::{Table, Value};

/// What is wrong in the shape of a document of this tree, with its place, behind what names the document.
pub fn views_words(
    alloc: Global,
    named: &str,
    tree: &Table,
    fault: &ViewsFault,
) -> Result<String, AllocError>
    ensures { IfOk result (λ words.
        IsToldOf named.now (table_view tree.now) fault.now (string_bytes words)) }
{
    let what = what_is_wrong(alloc, tree, fault)?;
    behind_place(alloc, named, tree, fault, what.as_str())
}

/// What is wrong, behind its place in a document of this tree and what names the document.
pub fn behind_place(
    alloc: Global,
    named: &str,
    tree: &Table,
    fault: &ViewsFault,
    what: &str,
) -> Result<String, AllocError>
    ensures { IfOk result (λ words.
        IsToldOf named.now (table_view tree.now) fault.now (string_bytes words)) }
{
    let place = place_text(alloc, tree, location_of(fault))?;
    let there = appended(alloc, place.as_str(), first_line(what))?;
    joined(alloc, named, ": ", there.as_str())
}

/// Where a fault of a document's shape lies, as far as it says.
pub fn location_of(fault: &ViewsFault) -> Location
    ensures { result ≡ places.location_of fault.now }
{
    match fault {
        ViewsFault::Shape(location)
        | ViewsFault::Word(location)
        | ViewsFault::Doubled(location)
        | ViewsFault::NoFrame(location) => *location,
        ViewsFault::Schema(frame, _) => Location::Frame(*frame),
        _ => Location::Top,
    }
}

fn what_is_wrong(alloc: Global, tree: &Table, fault: &ViewsFault) -> Result<String, AllocError> {
    match fault {
        ViewsFault::NotToml => String::from_str(alloc, "is no TOML document"),
        ViewsFault::Shape(location) => shape_words(alloc, tree, *location, fault),
        ViewsFault::Word(location) => word_words(alloc, tree, *location, fault),
        ViewsFault::Doubled(_) => String::from_str(alloc, "an earlier one has the same name"),
        ViewsFault::TooManyFrames => String::from_str(alloc, "more than 8 frames"),
        ViewsFault::TooManyViews => String::from_str(alloc, "more than 32 views"),
        ViewsFault::NoFrame(location) => words_in_view(alloc, tree, *location, fault),
        ViewsFault::Schema(_, fault) => String::from_str(alloc, schema_words(fault)),
        ViewsFault::Memory => String::from_str(alloc, "out of memory"),
    }
}

fn schema_words(fault: &SchemaFault) -> &'static str {
    match fault {
        SchemaFault::DoubledName => "two columns have one name",
        SchemaFault::TooWide => "more than 32 columns",
        SchemaFault::NoColumns => "no columns",
    }
}

fn shape_words(
    alloc: Global,
    tree: &Table,
    location: Location,
    fault: &ViewsFault,
) -> Result<String, AllocError> {
    match location {
        Location::Top => top_words(alloc, tree),
        Location::Frame(frame) => frame_shape_words(alloc, table_in(tree, "frame", frame)),
        Location::View(view) => view_shape_words(alloc, table_in(tree, "view", view)),
        _ => words_in_view(alloc, tree, location, fault),
    }
}

fn word_words(
    alloc: Global,
    tree: &Table,
    location: Location,
    fault: &ViewsFault,
) -> Result<String, AllocError> {
    match location {
        Location::Frame(frame) => type_words(alloc, table_in(tree, "frame", frame)),
        _ => words_in_view(alloc, tree, location, fault),
    }
}

// A fault in what a view begins with, or in its steps.
fn words_in_view(
    alloc: Global,
    tree: &Table,
    location: Location,
    fault: &ViewsFault,
) -> Result<String, AllocError> {
    let frames = frame_names(alloc, tree)?;
    let view = WrittenView::in_tree(tree, view_at(location));
    step_words(alloc, &view, frames.as_slice(), fault)
}

// The index of the view of a location in one.
fn view_at(location: Location) -> usize {
    match location {
        Location::View(view) | Location::Step(view, _) | Location::Item(view, _, _) => view,
        Location::Top | Location::Frame(_) => 0,
    }
}

fn top_words(alloc: Global, tree: &Table) -> Result<String, AllocError> {
    match first_unknown_key(tree, &KEYS_OF_TOP) {
        Some(key) => unknown(alloc, "key", key, "the keys here are", &KEYS_OF_TOP),
        None => String::from_str(
            alloc,
            "each frame is a table [[frame]], each view a table [[view]]",
        ),
    }
}

fn frame_shape_words(alloc: Global, table: Option<&Table>) -> Result<String, AllocError> {
    match table.and_then(|table| first_unknown_key(table, &KEYS_OF_FRAME)) {
        Some(key) => unknown(alloc, "key", key, "the keys here are", &KEYS_OF_FRAME),
        None => String::from_str(
            alloc,
            r#"a frame has name = "..", columns = [[NAME, TYPE], ..] and one of path = ".." and text = "..""#,
        ),
    }
}

fn view_shape_words(alloc: Global, table: Option<&Table>) -> Result<String, AllocError> {
    match table.and_then(|table| first_unknown_key(table, &KEYS_OF_VIEW)) {
        Some(key) => unknown(alloc, "key", key, "the keys here are", &KEYS_OF_VIEW),
        None => String::from_str(
            alloc,
            r#"a view has name = "..", from = ".." and perhaps steps = [..], at most 64"#,
        ),
    }
}

fn first_unknown_key<'a>(table: &'a Table, keys: &[&str]) -> Option<&'a str> {
    for key in table.keys() {
        if let Some(key) = unless_among(key.as_str(), keys) {
            return Some(key);
        }
    }
    None
}

fn type_words(alloc: Global, table: Option<&Table>) -> Result<String, AllocError> {
    match table.and_then(|table| first_unknown_type(array_at(table, "columns"))) {
        Some(word) => unknown_word_text(alloc, unknown_type(word)),
        None => String::from_str(alloc, "an unknown type"),
    }
}

fn first_unknown_type(columns: &[Value]) -> Option<&str> {
    for column in columns {
        if let Some(word) = type_unless_known(column) {
            return Some(word);
        }
    }
    None
}

fn type_unless_known(column: &Value) -> Option<&str> {
    unless_among(text_of(items_of(column).get(1)?)?, &TYPES)
}
