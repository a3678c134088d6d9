//! Places of a document in words.
ghost use Rattle.std.specs.Prelude.{◌≡◌, ◌+◌, ◌++◌, IfOk, None, Some, codes, decimal, map, option_map, string_bytes};
ghost use Rattle.toml.specs.View.{table_view, view as view_of_value};
ghost use Rattle.df_print.specs.Printed.{escaped_text};
ghost use Rattle.df_explain.specs.Places as places;
ghost use Rattle.df_explain.specs.Places.{part_in, part_text, place_in, place_in_steps};
ghost use Rattle.df_explain.specs.Trees.{head_of as spec_head_of};

use crate::names::joined;
use crate::part::{head_of, name_in};
use crate::written_view::WrittenView;
use df_text::{Location, escape};
use std::alloc::{AllocError, Global};
use toml::{Table, Value};

/// A place of a document, counted from 1, with a colon behind it: ``view 3 `by_region`, step 1 `filter`, item 2: ``. Of
/// the whole document nothing. An item is counted behind the word of its step.
pub fn place_text(alloc: Global, tree: &Table, location: Location) -> Result<String, AllocError>
    ensures { IfOk result (λ text. string_bytes text ≡ place_in (table_view tree.now) location) }
{
    match location {
        Location::Top => Ok(String::new(alloc)),
        Location::Frame(frame) => with_colon(alloc, place_of_part(alloc, tree, "frame", frame)?),
        Location::View(view) => with_colon(alloc, place_of_part(alloc, tree, "view", view)?),
        Location::Step(view, _) | Location::Item(view, _, _) => {
            let place = place_of_part(alloc, tree, "view", view)?;
            let step = place_in_view(alloc, &WrittenView::in_tree(tree, view), location)?;
            joined(alloc, place.as_str(), ", ", step.as_str())
        }
    }
}

/// A place in the steps of a view, with a colon behind it: ``step 1 `filter`, item 2: ``. Of the view itself nothing.
pub fn place_in_view(
    alloc: Global,
    view: &WrittenView<'_>,
    location: Location,
) -> Result<String, AllocError>
    ensures { IfOk result (λ text. string_bytes text
        ≡ place_in_steps (map view_of_value view.now.steps.now) location) }
{
    match location {
        Location::Step(_, step) => {
            with_colon(alloc, step_place(alloc, step, view.items_of_step(step))?)
        }
        Location::Item(_, step, item) => {
            let place = step_place(alloc, step, view.items_of_step(step))?;
            item_place(alloc, place.as_str(), item)
        }
        _ => Ok(String::new(alloc)),
    }
}

fn with_colon(alloc: Global, place: String) -> Result<String, AllocError>
    ensures { IfOk result (λ text. string_bytes text ≡ string_bytes place ++ codes ": ") }
{
    let place = place.as_str();
    format!(in alloc; "{place}: ")
}

// A frame or a view of a document by its number, and by its name if it has one.
fn place_of_part(
    alloc: Global,
    tree: &Table,
    kind: &str,
    index: usize,
) -> Result<String, AllocError>
    ensures { IfOk result (λ text. string_bytes text ≡ part_in (table_view tree.now) kind.now index) }
{
    let number = index as u128 + 1;
    match name_in(tree, kind, index) {
        Some(name) => named_part(alloc, kind, number, name),
        None => nameless_part(alloc, kind, number),
    }
}

/// A frame or a view by its number, and by its name, escaped as in a printed table.
pub fn named_part(alloc: Global, kind: &str, number: u128, name: &str) -> Result<String, AllocError>
    ensures { IfOk result (λ text. string_bytes text
        ≡ part_text kind.now number (Some (escaped_text name.now))) }
{
    let name = escape(alloc, name)?;
    let name = name.as_str();
    format!(in alloc; "{kind} {number} `{name}`")
}

fn nameless_part(alloc: Global, kind: &str, number: u128) -> Result<String, AllocError>
    ensures { IfOk result (λ text. string_bytes text ≡ part_text kind.now number None) }
{
    format!(in alloc; "{kind} {number}")
}

// A step by its number, and by its word if it has one, escaped as in a printed table.
fn step_place(alloc: Global, step: usize, items: &[Value]) -> Result<String, AllocError>
    ensures { IfOk result (λ text. string_bytes text ≡ places.step_text (step + 1)
        (option_map escaped_text (spec_head_of (map view_of_value items.now)))) }
{
    let number = step as u128 + 1;
    match head_of(items) {
        Some(word) => {
            let word = escape(alloc, word)?;
            step_text(alloc, number, word.as_str())
        }
        None => wordless_step(alloc, number),
    }
}

fn wordless_step(alloc: Global, number: u128) -> Result<String, AllocError>
    ensures { IfOk result (λ text. string_bytes text ≡ places.step_text number None) }
{
    format!(in alloc; "step {number}")
}

/// A step by its number, and by its word.
pub fn step_text(alloc: Global, number: u128, word: &str) -> Result<String, AllocError>
    ensures { IfOk result (λ text. string_bytes text ≡ places.step_text number (Some word.now)) }
{
    format!(in alloc; "step {number} `{word}`")
}

fn item_place(alloc: Global, step: &str, item: usize) -> Result<String, AllocError>
    ensures { IfOk result (λ text. string_bytes text
        ≡ step.now ++ (codes ", item " ++ (decimal item ++ codes ": "))) }
{
    format!(in alloc; "{step}, item {item}: ")
}
