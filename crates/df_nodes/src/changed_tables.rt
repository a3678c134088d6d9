//! What nodes keep that look at the rows before a row: their input and their output.
ghost use Rattle.std.specs.Prelude.{◌≡◌, ◌≤◌, IfNone, IfSome, None, drop, map, take};
ghost use Rattle.std.specs.FinMap as finite;
ghost use Rattle.df_column.specs.Bounds.{IsUpperBound};
ghost use Rattle.df_column.specs.Places.{IsPlace};
ghost use Rattle.df_column.specs.Tables.{entry_change};
ghost use Rattle.df_column.specs.Tags.{tag_cmp};
ghost use Rattle.df_nodes.specs.Rolling.{rows_before};

use df_column::{Entry, Table, Tag};

/// The input and the output after a change.
#[derive(Drop)]
pub struct ChangedTables {
    pub input: Table,
    pub output: Table,
}

/// How many rows stand before the tag of the entry at an index; all where there is none.
pub fn rows_before_entry(input: &Table, changes: &[Entry], at: usize) -> usize
    ensures within { result ≤ finite.len input.now.rows }
    ensures rows { take result (finite.entries input.now.rows)
        ≡ rows_before (map entry_change (drop at changes.now)) (finite.entries input.now.rows) }
{
    if at < changes.len() {
        input.lower_bound(changes[at].tag)
    } else {
        input.len()
    }
}

/// The index of the row at this tag, if it is there, and that of the first row behind it.
pub fn place_and_next(input: &Table, tag: Tag) -> (Option<usize>, usize)
    ensures found { IfSome result.0 (IsPlace tag_cmp (finite.entries input.now.rows) tag) }
    ensures absent { IfNone result.0 (finite.get input.now.rows tag ≡ None) }
    ensures behind { IsUpperBound tag (finite.entries input.now.rows) result.1 }
{
    // What `len` promises: so few rows that each index has one behind it.
    let _few = input.len();
    match input.find(tag) {
        Some(at) => (Some(at), at + 1),
        None => (None, input.upper_bound(tag)),
    }
}
