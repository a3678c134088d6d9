//! A view as it is written.
ghost use Rattle.std.specs.Prelude.{◌≡◌, [], map, slice_get};
ghost use Rattle.toml.specs.View.{table_view, view};
ghost use Rattle.df_explain.specs.Trees.{items_or_none, steps_in};

use crate::part::{array_at, items_of, table_in, text_at};
use toml::{Table, Value};

/// The name of the frame that a view begins with, if it has one, and its steps.
#[derive(Clone, Copy)]
pub struct WrittenView<'a> {
    pub source: Option<&'a str>,
    pub steps: &'a [Value],
}

impl<'a> WrittenView<'a> {
    /// A view over the frame of this name.
    pub fn without_steps(source: &'a str) -> WrittenView<'a>
        ensures { map view result.steps.now ≡ [] }
    {
        WrittenView {
            source: Some(source),
            steps: &[],
        }
    }

    /// The view of this index in a document's tree.
    pub fn in_tree(tree: &'a Table, index: usize) -> WrittenView<'a>
        ensures { map view result.steps.now ≡ steps_in index (table_view tree.now) }
    {
        match table_in(tree, "view", index) {
            Some(table) => WrittenView {
                source: text_at(table, "from"),
                steps: array_at(table, "steps"),
            },
            None => WrittenView {
                source: None,
                steps: &[],
            },
        }
    }

    /// The items of a step.
    pub fn items_of_step(&self, step: usize) -> &'a [Value]
        ensures { map view result.now ≡ items_or_none (slice_get (map view self.now.steps.now) step) }
    {
        match self.steps.get(step) {
            Some(value) => items_of(value),
            None => &[],
        }
    }
}
