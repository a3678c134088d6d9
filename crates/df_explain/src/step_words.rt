//! Faults in the steps of a view as they are written, in words.
use crate::forms::form_of_step;
use crate::near::unknown;
use crate::part::{head_of, text_at};
use crate::unknown_words::{unknown_in_item, unknown_step, unknown_word_text};
use crate::written_view::WrittenView;
use df_text::{Location, ViewsFault};
use std::alloc::{AllocError, Global};
use toml::Value;

/// What is wrong in a view over frames of these names: with the form or a word of a step, or with the frame that the view, or
/// a right side in it, begins with.
pub fn step_words(
    alloc: Global,
    view: &WrittenView<'_>,
    frames: &[&str],
    fault: &ViewsFault,
) -> Result<String, AllocError> {
    match fault {
        ViewsFault::Shape(location) => step_shape_words(alloc, items_at(view, *location)),
        ViewsFault::Word(location) => word_words(alloc, items_at(view, *location), *location),
        ViewsFault::NoFrame(location) => frame_words(alloc, view, frames, *location),
        _ => String::from_str(alloc, "a fault of a document"),
    }
}

// The items of the step of a location in one.
fn items_at<'a>(view: &WrittenView<'a>, location: Location) -> &'a [Value] {
    match location {
        Location::Step(_, step) | Location::Item(_, step, _) => view.items_of_step(step),
        _ => &[],
    }
}

fn step_shape_words(alloc: Global, items: &[Value]) -> Result<String, AllocError> {
    let form = form_of_step(head_of(items).unwrap_or(""));
    format!(in alloc; "the step is written {form}")
}

fn word_words(alloc: Global, items: &[Value], location: Location) -> Result<String, AllocError> {
    match location {
        Location::Item(_, _, item) => item_word_words(alloc, items, item),
        _ => unknown_word_text(alloc, unknown_step(head_of(items).unwrap_or(""))),
    }
}

fn item_word_words(alloc: Global, items: &[Value], index: usize) -> Result<String, AllocError> {
    let step = head_of(items).unwrap_or("");
    let word = match items.get(index) {
        Some(item) => unknown_in_item(alloc, step, index, item)?,
        None => None,
    };
    match word {
        Some(word) => unknown_word_text(alloc, word),
        None => step_shape_words(alloc, items),
    }
}

fn frame_words(
    alloc: Global,
    view: &WrittenView<'_>,
    frames: &[&str],
    location: Location,
) -> Result<String, AllocError> {
    let word = asked_frame(view, location).unwrap_or("");
    unknown(alloc, "frame", word, "the frames are", frames)
}

// The name of the frame that a view, or the right side of a join, begins with.
fn asked_frame<'a>(view: &WrittenView<'a>, location: Location) -> Option<&'a str> {
    match location {
        Location::View(_) => view.source,
        Location::Item(_, step, item) => source_of(view.items_of_step(step).get(item)?),
        _ => None,
    }
}

fn source_of(side: &Value) -> Option<&str> {
    match side {
        Value::String(name) => Some(name.as_str()),
        Value::Table(table) => text_at(table, "from"),
        _ => None,
    }
}
