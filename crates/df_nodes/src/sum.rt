//! The live cumulative sum.
ghost use Rattle.std.specs.Prelude.{◌≡◌, ◌+◌, ◌-◌, ◌^◌, ◌<◌, ◌≤◌, ◌+ℤ◌, ◌≤ℤ◌, ◌∷◌, ◌++◌, []};
ghost use Rattle.std.specs.Prelude.{Some, T, IfOk, IfSome, IsTrue, OnOk, drop, length, map, not, pos, slice_get, take};
ghost use Rattle.std.specs.FinMap as finite;
ghost use Rattle.std.specs.List.{list_all};
ghost use Rattle.df_value.specs.Schemas.{IsSchema};
ghost use Rattle.df_ops.specs.NamedColumns.{with_columns};
ghost use Rattle.df_ops.specs.Tables as tables;
ghost use Rattle.df_ops.specs.declared.places.Origin.TheVariants as origin;
ghost use Rattle.df_column.specs.Bounds.{is_below};
ghost use Rattle.df_column.specs.Changes.{applied};
ghost use Rattle.df_column.specs.declared.tag.Tag.{Tag as AnyTag};
ghost use Rattle.df_column.specs.Tables.{TaggedRows, entry_change};
ghost use Rattle.df_delta.specs.Deltas.{RowsFit, has_row};
ghost use Rattle.df_delta.specs.Differences.{Fits, IsDiff};
ghost use Rattle.df_delta.specs.Reached.{changes_at};
ghost use Rattle.df_delta.specs.SameRows.{with_change};
ghost use Rattle.df_delta.specs.Work.{no_work};
ghost use Rattle.df_nodes.specs.Outputs.{summed};
ghost use Rattle.df_nodes.specs.Rolling.{reached_by};
ghost use Rattle.df_nodes.specs.Sums.{AreSums, HasSumsBefore, cell_in, made_output};
ghost use Rattle.df_nodes.specs.Sums.{shift_of, sum_output, sum_to, summed_row};

use crate::added_column::schema_with;
use crate::changed_tables::{ChangedTables, place_and_next, rows_before_entry};
use crate::tail_sums::{TailSums, first_tag, is_null, is_within, sum_in, sums_behind};
use df_column::{Entry, Table, Tag};
use df_delta::{Delta, LiveNode, apply, push_change};
use df_expr::Meter;
use df_ops::{Origin, Place, placed_row, places_with};
use df_value::{Cell, CellType, Duplicate, List, Row, Schema, Text};
use std::alloc::{AllocError, Global};

/// Puts the cumulative sums of a column among the cells of each row.
pub struct LiveSum {
    alloc: Global,
    index: Option<usize>,
    places: List<Place>,
    input: Table,
    output: Table,
}

// A body that owns one drops it by a call.
impl Drop for LiveSum {
    fn drop(self) {
        let LiveSum {
            alloc: _,
            index: _,
            places,
            input,
            output,
        } = self;
        drop(places);
        drop(input);
        drop(output);
    }
}

impl LiveSum {
    /// The cumulative sums of a column of this schema, as the column `output`; over no rows.
    pub fn new(
        alloc: Global,
        schema: &Schema,
        output: &Text,
        column: &Text,
    ) -> Result<LiveSum, AllocError>
        requires { IsSchema (with_columns schema.now ((output.now, CellType.Wide) ∷ [])) }
        ensures output { IfOk result (λ n. (t : TaggedRows) → sum_output n.places n.index t
            ≡ summed schema.now output.now column.now t) }

        // The rows are those that the operator gives of the rows of the input.
        ensures rows { IfOk result (λ n. (t : TaggedRows) →
            finite.values (sum_output n.places n.index t)
            ≡ (tables.cum_sum_table (record { columns = schema.now; rows = finite.values t })
            output.now column.now).rows) }
        ensures over { IfOk result (λ n. (n.input.rows ≡ finite.empty)
            × (n.output.rows ≡ sum_output n.places n.index finite.empty)) }
        ensures schemas { IfOk result (λ n. (n.input.schema ≡ schema.now)
            × (n.output.schema ≡ with_columns schema.now ((output.now, CellType.Wide) ∷ []))) }

        // It takes rows of the schema.
        ensures takes { IfOk result (λ n. (t : TaggedRows) → RowsFit schema.now t
            → RowsFit n.input.schema t × RowsFit n.output.schema (sum_output n.places n.index t)) }
    {
        let places = places_with(alloc, schema.columns().as_slice(), output, CellType::Wide)?;
        let made = schema_with(alloc, schema, output, CellType::Wide)?;
        Ok(LiveSum {
            alloc,
            index: schema.position(column),
            places: List::from_vec(places),
            input: Table::new(alloc, schema.copy(alloc)?)?,
            output: Table::new(alloc, made)?,
        })
    }

    /// The delta of the output where the input comes to be this table.
    fn changes(&self, input: &Table, delta: &Delta) -> Result<Delta, AllocError>
        ensures { IfOk result (λ r. (t : TaggedRows) → Fits t delta.now
            → self.now.output.rows ≡ sum_output self.now.places self.now.index t
            → input.now.rows ≡ applied t delta.now
            → IsDiff (sum_output self.now.places self.now.index t)
            (sum_output self.now.places self.now.index (applied t delta.now)) r) }
    {
        let changes = delta.entries();
        let all = self.tail_sums(input, first_tag(changes))?;
        let mut entries = Vec::new(self.alloc);
        for at in 0..changes.len() {
            let stop = rows_before_entry(input, changes, at + 1);
            self.push_reached(input, &all, changes[at].tag, stop, &mut entries)?;
        }
        Ok(Delta::from_entries(entries))
    }

    /// Copies of the rows from this tag on with their sums. They begin at what stands in the output before the tag, or,
    /// where no sum can be read there, at the first row.
    fn tail_sums(&self, input: &Table, first: Tag) -> Result<TailSums, AllocError>
        ensures sums { IfOk result (AreSums self.now.index input.now.rows) }
        ensures first { IfOk result (λ s. s.first ≡ first) }
        ensures exact { IfOk result (λ s.
            HasSumsBefore self.now.places self.now.index self.now.output.rows input.now.rows first
            → shift_of self.now.index input.now.rows s ≡ pos 0) }
    {
        let start = input.lower_bound(first);
        let before = self.sum_before(input, start)?.unwrap_or(i128::MAX);
        if is_within(before) {
            self.sums_from(input, first, start, before)
        } else {
            self.sums_from(input, first, 0, 0)
        }
    }

    /// Copies of the rows from an index on with their sums, where those before have this sum.
    fn sums_from(
        &self,
        input: &Table,
        first: Tag,
        start: usize,
        before: i128,
    ) -> Result<TailSums, AllocError>
        requires within { start ≤ finite.len input.now.rows }
        requires low { pos 0 ≤ℤ (before +ℤ pos (2 ^ 123)) }
        requires high { before ≤ℤ pos (2 ^ 123) }
        requires front { T (list_all (λ r. is_below r.0 first) (take start (finite.entries input.now.rows))) }
        ensures sums { IfOk result (AreSums self.now.index input.now.rows) }
        ensures from { IfOk result (λ s. (s.first ≡ first) × (s.start ≡ start) × (s.before ≡ before)) }
    {
        let rows = input.rows_between(self.alloc, start, input.len())?;
        let sums = sums_behind(self.alloc, self.index, before, &rows)?;
        Ok(TailSums {
            first,
            start,
            before,
            rows,
            sums,
        })
    }

    /// The sum of the rows before an index of the input, where it stands in the output: in the last of them whose own
    /// cell is not null.
    fn sum_before(&self, input: &Table, start: usize) -> Result<Option<i128>, AllocError>
        requires { start ≤ finite.len input.now.rows }
        ensures { IfOk result (λ o. (first : AnyTag) →
            T (list_all (λ r. is_below r.0 first) (take start (finite.entries input.now.rows)))
            → HasSumsBefore self.now.places self.now.index self.now.output.rows input.now.rows first
            → IfSome o (λ s. s ≡ sum_to self.now.index input.now.rows start)) }
    {
        let Some(place) = added_place(self.places.as_slice()) else {
            return Ok(None);
        };
        let mut at = start;
        while at > 0 {
            at -= 1;
            let cell = self.old_sum(place, input.tag(at))?;
            if !is_null(&cell) {
                return Ok(sum_in(&cell));
            }
        }
        Ok(Some(0))
    }

    /// The cell at an index of the output's row at this tag.
    fn old_sum(&self, place: usize, tag: Tag) -> Result<Cell, AllocError>
        ensures { IfOk result (λ c. c ≡ cell_in place (finite.get self.now.output.rows tag)) }
    {
        let Some(row) = self.output.get(self.alloc, tag)? else {
            return Ok(Cell::Null);
        };
        match row.get(place) {
            Some(cell) => cell.copy(self.alloc),
            None => Ok(Cell::Null),
        }
    }

    /// Adds the changes at this tag, and at those of the rows behind it up to an index.
    fn push_reached(
        &self,
        input: &Table,
        all: &TailSums,
        tag: Tag,
        stop: usize,
        entries: &mut Vec<Entry>,
    ) -> Result<(), AllocError>
        requires sums { AreSums self.now.index input.now.rows all.now }
        requires behind { T (not (is_below tag all.now.first)) }
        requires stop { stop ≤ finite.len input.now.rows }
        ensures added { OnOk result (map entry_change entries.new.items
            ≡ map entry_change entries.old.items ++ changes_at self.now.output.rows
            (made_output self.now.places self.now.index input.now.rows all.now)
            (reached_by (length (finite.entries input.now.rows) + 1) tag (take stop (finite.entries input.now.rows)))) }
        ensures rows { T (list_all has_row entries.old.items)
            → OnOk result (T (list_all has_row entries.new.items)) }
    {
        let (at, from) = place_and_next(input, tag);
        self.push_at(all, tag, at, entries)?;
        self.push_run(input, all, from, from.max(stop), entries)?;
        Ok(())
    }

    /// Adds the changes at the tags of the rows from one index up to another.
    fn push_run(
        &self,
        input: &Table,
        all: &TailSums,
        from: usize,
        end: usize,
        entries: &mut Vec<Entry>,
    ) -> Result<(), AllocError>
        requires sums { AreSums self.now.index input.now.rows all.now }
        requires from { all.now.start ≤ from }
        requires ordered { from ≤ end }
        requires in_range { end ≤ finite.len input.now.rows }
        ensures added { OnOk result (map entry_change entries.new.items
            ≡ map entry_change entries.old.items ++ changes_at self.now.output.rows
            (made_output self.now.places self.now.index input.now.rows all.now)
            (map (λ r. r.0) (drop from (take end (finite.entries input.now.rows))))) }
        ensures rows { T (list_all has_row entries.old.items)
            → OnOk result (T (list_all has_row entries.new.items)) }
    {
        for at in from..end {
            self.push_at(all, input.tag(at), Some(at), entries)?;
        }
        Ok(())
    }

    /// Adds the change at this tag, to the row at an index of the input if there is one.
    fn push_at(
        &self,
        all: &TailSums,
        tag: Tag,
        at: Option<usize>,
        entries: &mut Vec<Entry>,
    ) -> Result<(), AllocError>
        requires { IfSome at (λ i. (all.now.start ≤ i) × (i - all.now.start < length all.now.rows.items)
            × (i - all.now.start < length all.now.sums.items)) }
        ensures added { OnOk result (map entry_change entries.new.items
            ≡ with_change (map entry_change entries.old.items) tag
            (finite.get self.now.output.rows tag)
            (summed_row self.now.places all.now at)) }
        ensures rows { T (list_all has_row entries.old.items)
            → OnOk result (T (list_all has_row entries.new.items)) }
    {
        let old = self.output.get(self.alloc, tag)?;
        let new = self.new_row(all, at)?;
        push_change(entries, tag, old, new)?;
        Ok(())
    }

    /// The row of the output at an index of the input, if there is one.
    fn new_row(&self, all: &TailSums, at: Option<usize>) -> Result<Option<Row>, AllocError>
        requires { IfSome at (λ i. (all.now.start ≤ i) × (i - all.now.start < length all.now.rows.items)
            × (i - all.now.start < length all.now.sums.items)) }
        ensures { IfOk result (λ r. r ≡ summed_row self.now.places all.now at) }
    {
        match at {
            Some(at) => {
                let added = [all.sums[at - all.start].copy(self.alloc)?];
                let cells = all.rows[at - all.start].as_slice();
                let row = placed_row(self.alloc, self.places.as_slice(), cells, &added)?;
                Ok(Some(row))
            }
            None => Ok(None),
        }
    }
}

/// Where the first added cell stands among these places, if it does.
fn added_place(places: &[Place]) -> Option<usize>
    ensures { IfSome result (λ i. slice_get places.now i
        ≡ Some (record { origin = origin.Added; index = 0 })) }
{
    for at in 0..places.len() {
        if is_added(&places[at]) {
            return Some(at);
        }
    }
    None
}

/// Whether the place is that of the first added cell.
fn is_added(place: &Place) -> bool
    ensures { IsTrue result → place.now ≡ record { origin = origin.Added; index = 0 } }
{
    match place.origin {
        Origin::Added => place.index == 0,
        Origin::Row => false,
    }
}

impl LiveNode for LiveSum {
    type Staged = ChangedTables;

    ghost Takes = { λ n t. RowsFit n.input.schema t
        × RowsFit n.output.schema (sum_output n.places n.index t) };

    ghost IsOver = { λ n t. (n.input.rows ≡ t) × (n.output.rows ≡ sum_output n.places n.index t) };

    ghost output = { λ n t. sum_output n.places n.index t };

    ghost HasRoomFor = { λ n s. (s.input.schema ≡ n.input.schema)
        × (s.output.schema ≡ n.output.schema) };

    ghost LeadsTo = { λ n s t. (s.input.rows ≡ t)
        × (s.output.rows ≡ sum_output n.places n.index t) };

    ghost budget = { λ _. no_work };

    ghost allowed = { λ _ _ _. no_work };

    fn prepare(
        &mut self,
        delta: &Delta,
        _meter: &mut Meter,
    ) -> Result<(ChangedTables, Delta), AllocError> {
        let input = apply(self.alloc, &self.input, delta)?;
        let changes = self.changes(&input, delta)?;
        let changes = changes.in_blocks(self.alloc, self.output.schema())?;
        let output = apply(self.alloc, &self.output, &changes)?;
        Ok((ChangedTables { input, output }, changes))
    }

    fn commit(&mut self, staged: ChangedTables) {
        let ChangedTables { input, output } = staged;
        self.input = input;
        self.output = output;
    }
}
