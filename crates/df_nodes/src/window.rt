//! The live rolling window.
ghost use Rattle.std.specs.Prelude.{◌≡◌, ◌+◌, ◌-◌, ◌*◌, ◌<◌, ◌≤◌, ◌^◌, ◌∷◌, ◌++◌, [], List, Option, Some, T, IfOk, IfSome, OnOk, drop, length, map, take};
ghost use Rattle.std.specs.FinMap as finite;
ghost use Rattle.std.specs.List.{list_all};
ghost use Rattle.df_value.specs.Schemas.{IsSchema, column_dtype};
ghost use Rattle.df_value.specs.declared.cell.Cell.{Cell};
ghost use Rattle.df_value.specs.declared.cell.CellType.TheVariants as dtype;
ghost use Rattle.df_ops.specs.NamedColumns.{with_columns};
ghost use Rattle.df_ops.specs.Tables as tables;
ghost use Rattle.df_ops.specs.Windows as windows_spec;
ghost use Rattle.df_column.specs.Changes.{applied};
ghost use Rattle.df_column.specs.Tables.{TaggedRows, entry_change};
ghost use Rattle.df_column.specs.declared.tag.Tag.{Tag as AnyTag};
ghost use Rattle.df_delta.specs.Deltas.{RowsFit, has_row};
ghost use Rattle.df_delta.specs.Diff.{diff};
ghost use Rattle.df_delta.specs.Differences.{Fits, IsDiff};
ghost use Rattle.df_delta.specs.Reached.{changes_at};
ghost use Rattle.df_delta.specs.SameRows.{same_row, with_change};
ghost use Rattle.df_delta.specs.Work.{IsBelow, IsWithin, plus};
ghost use Rattle.df_nodes.specs.Outputs.{rolled};
ghost use Rattle.df_nodes.specs.Rolling.{reached_by, rolling_output, windows};
ghost use Rattle.df_nodes.specs.Sliding.{IsLast, output_row};

use crate::added_column::schema_with;
use crate::changed_tables::{ChangedTables, place_and_next, rows_before_entry};
use crate::rolling::Rolling;
use crate::sliding::SlidingWindow;
use df_column::{Entry, Table, Tag};
use df_delta::{Delta, LiveNode, apply, push_change};
use df_expr::Meter;
use df_ops::{RollKind, rolling_dtype};
use df_value::{Duplicate, Row, Schema, Text};
use std::alloc::{AllocError, Global};

/// Puts the rolling values of a column among the cells of each row.
pub struct LiveWindow {
    alloc: Global,
    rolling: Rolling,
    input: Table,
    output: Table,
}

// A body that owns one drops it by a call.
impl Drop for LiveWindow {
    fn drop(self) {
        let LiveWindow {
            alloc: _,
            rolling,
            input,
            output,
        } = self;
        drop(rolling);
        drop(input);
        drop(output);
    }
}

impl LiveWindow {
    /// The rolling values of a column of this schema over w rows, of which m are to be not null, as the column
    /// `output`; over no rows.
    pub fn new(
        alloc: Global,
        schema: &Schema,
        output: &Text,
        kind: RollKind,
        column: &Text,
        w: usize,
        m: usize,
    ) -> Result<LiveWindow, AllocError>
        requires schema { IsSchema (with_columns schema.now
            ((output.now, windows_spec.rolling_dtype kind) ∷ [])) }
        requires typed { column_dtype column.now schema.now ≡ Some dtype.Int }
        requires some { 1 ≤ w }
        ensures output { IfOk result (λ n. (t : TaggedRows) → rolling_output n.rolling t
            ≡ rolled schema.now output.now kind column.now w m t) }

        // The rows are those that the operator gives of the rows of the input.
        ensures rows { IfOk result (λ n. (t : TaggedRows) →
            finite.values (rolling_output n.rolling t)
            ≡ (tables.rolling_table (record { columns = schema.now; rows = finite.values t })
            output.now kind column.now w m).rows) }
        ensures over { IfOk result (λ n. (n.input.rows ≡ finite.empty)
            × (n.output.rows ≡ rolling_output n.rolling finite.empty)) }
        ensures schemas { IfOk result (λ n. (n.input.schema ≡ schema.now)
            × (n.output.schema ≡ with_columns schema.now
            ((output.now, windows_spec.rolling_dtype kind) ∷ []))) }

        // It takes rows of the schema.
        ensures takes { IfOk result (λ n. (t : TaggedRows) → RowsFit schema.now t
            → RowsFit n.input.schema t × RowsFit n.output.schema (rolling_output n.rolling t)) }
        ensures size { IfOk result (λ n. n.rolling.w ≡ w) }
    {
        let rolling = Rolling::new(alloc, schema, output, kind, column, w, m)?;
        let made = schema_with(alloc, schema, output, rolling_dtype(kind))?;
        Ok(LiveWindow {
            alloc,
            rolling,
            input: Table::new(alloc, schema.copy(alloc)?)?,
            output: Table::new(alloc, made)?,
        })
    }

    /// The delta of the output where the input comes to be this table.
    fn changes(&self, input: &Table, delta: &Delta, meter: &mut Meter) -> Result<Delta, AllocError>
        requires { IsBelow (plus meter.old (windows (2 ^ 64 * self.now.rolling.w))) (2 ^ 128) }
        ensures diff { IfOk result (λ r. (t : TaggedRows) → Fits t delta.now
            → self.now.output.rows ≡ rolling_output self.now.rolling t
            → input.now.rows ≡ applied t delta.now
            → IsDiff (rolling_output self.now.rolling t)
            (rolling_output self.now.rolling (applied t delta.now)) r) }
        ensures grows { IsWithin meter.old meter.new }
        ensures counted { IsWithin meter.new
            (plus meter.old (windows (finite.len delta.now * self.now.rolling.w))) }
        ensures within { IsWithin meter.new
            (plus meter.old (windows (2 ^ 64 * self.now.rolling.w))) }
    {
        let changes = delta.entries();
        let mut window = SlidingWindow::new(self.alloc, 0)?;
        let mut entries = Vec::new(self.alloc);
        for at in 0..changes.len() {
            let stop = rows_before_entry(input, changes, at + 1);
            self.push_reached(
                input,
                changes[at].tag,
                stop,
                &mut window,
                &mut entries,
                meter,
            )?;
        }
        Ok(Delta::from_entries(entries))
    }

    /// Adds the changes at this tag and at the tags behind it, before the row at an index, whose windows it stands in.
    fn push_reached(
        &self,
        input: &Table,
        tag: Tag,
        stop: usize,
        window: &mut SlidingWindow,
        entries: &mut Vec<Entry>,
        meter: &mut Meter,
    ) -> Result<(), AllocError>
        requires stop { stop ≤ finite.len input.now.rows }
        requires window { IsLast self.now.rolling window.old (finite.values input.now.rows) }
        requires counts { meter.old.windows + self.now.rolling.w < 2 ^ 128 }
        ensures added { OnOk result (map entry_change entries.new.items
            ≡ map entry_change entries.old.items ++ changes_at self.now.output.rows
            (rolling_output self.now.rolling input.now.rows)
            (reached_by self.now.rolling.w tag (take stop (finite.entries input.now.rows)))) }
        ensures window { OnOk result (IsLast self.now.rolling window.new (finite.values input.now.rows)) }
        ensures rows { T (list_all has_row entries.old.items)
            → OnOk result (T (list_all has_row entries.new.items)) }
        ensures grows { IsWithin meter.old meter.new }
        ensures counted { IsWithin meter.new
            (plus meter.old (windows self.now.rolling.w)) }
    {
        let (at, from) = place_and_next(input, tag);
        let end = from + stop.saturating_sub(from).min(self.rolling.w - 1);
        self.push_at(input, tag, at, window, entries, meter)?;
        self.push_run(input, from, end, window, entries, meter)?;
        Ok(())
    }

    /// Adds the changes at the tags of the rows from one index up to another.
    fn push_run(
        &self,
        input: &Table,
        from: usize,
        end: usize,
        window: &mut SlidingWindow,
        entries: &mut Vec<Entry>,
        meter: &mut Meter,
    ) -> Result<(), AllocError>
        requires ordered { from ≤ end }
        requires within { end ≤ finite.len input.now.rows }
        requires window { IsLast self.now.rolling window.old (finite.values input.now.rows) }
        requires counts { meter.old.windows + (end - from) < 2 ^ 128 }
        ensures added { OnOk result (map entry_change entries.new.items
            ≡ map entry_change entries.old.items ++ changes_at self.now.output.rows
            (rolling_output self.now.rolling input.now.rows)
            (map (λ r. r.0) (drop from (take end (finite.entries input.now.rows))))) }
        ensures window { OnOk result (IsLast self.now.rolling window.new (finite.values input.now.rows)) }
        ensures rows { T (list_all has_row entries.old.items)
            → OnOk result (T (list_all has_row entries.new.items)) }
        ensures grows { IsWithin meter.old meter.new }
        ensures counted { IsWithin meter.new (plus meter.old (windows (end - from))) }
    {
        for at in from..end {
            self.push_at(input, input.tag(at), Some(at), window, entries, meter)?;
        }
        Ok(())
    }

    /// Adds the change at this tag, to the row at an index of the input if there is one.
    fn push_at(
        &self,
        input: &Table,
        tag: Tag,
        at: Option<usize>,
        window: &mut SlidingWindow,
        entries: &mut Vec<Entry>,
        meter: &mut Meter,
    ) -> Result<(), AllocError>
        requires inside { IfSome at (λ i. i < finite.len input.now.rows) }
        requires window { IsLast self.now.rolling window.old (finite.values input.now.rows) }
        requires counts { meter.old.windows + 1 < 2 ^ 128 }
        ensures added { OnOk result (map entry_change entries.new.items
            ≡ with_change (map entry_change entries.old.items) tag
            (finite.get self.now.output.rows tag)
            (output_row self.now.rolling (finite.values input.now.rows) at)) }
        ensures window { OnOk result (IsLast self.now.rolling window.new (finite.values input.now.rows)) }
        ensures rows { T (list_all has_row entries.old.items)
            → OnOk result (T (list_all has_row entries.new.items)) }
        ensures grows { IsWithin meter.old meter.new }
        ensures counted { IsWithin meter.new (plus meter.old (windows 1)) }
    {
        let old = self.output.get(self.alloc, tag)?;
        let new = self.new_row(input, at, window, meter)?;
        push_change(entries, tag, old, new)?;
        Ok(())
    }

    /// The row of the output at an index of the input, if there is one. Counts its window.
    fn new_row(
        &self,
        input: &Table,
        at: Option<usize>,
        window: &mut SlidingWindow,
        meter: &mut Meter,
    ) -> Result<Option<Row>, AllocError>
        requires inside { IfSome at (λ i. i < finite.len input.now.rows) }
        requires window { IsLast self.now.rolling window.old (finite.values input.now.rows) }
        requires counts { meter.old.windows + 1 < 2 ^ 128 }
        ensures value { IfOk result (λ r. r
            ≡ output_row self.now.rolling (finite.values input.now.rows) at) }
        ensures window { OnOk result (IsLast self.now.rolling window.new (finite.values input.now.rows)) }
        ensures grows { IsWithin meter.old meter.new }
        ensures counted { IsWithin meter.new (plus meter.old (windows 1)) }
    {
        match at {
            Some(at) => {
                meter.windows.raise();
                let row = window.row_at(self.alloc, &self.rolling, input, at)?;
                Ok(Some(row))
            }
            None => Ok(None),
        }
    }
}

impl LiveNode for LiveWindow {
    type Staged = ChangedTables;

    ghost Takes = { λ n t. RowsFit n.input.schema t
        × RowsFit n.output.schema (rolling_output n.rolling t) };

    ghost IsOver = { λ n t. (n.input.rows ≡ t) × (n.output.rows ≡ rolling_output n.rolling t) };

    ghost output = { λ n t. rolling_output n.rolling t };

    ghost HasRoomFor = { λ n s. (s.input.schema ≡ n.input.schema)
        × (s.output.schema ≡ n.output.schema) };

    ghost LeadsTo = { λ n s t. (s.input.rows ≡ t)
        × (s.output.rows ≡ rolling_output n.rolling t) };

    ghost budget = { λ n. windows (2 ^ 64 * n.rolling.w) };

    ghost allowed = { λ n t u.
        windows (finite.len (diff same_row t u) * n.rolling.w) };

    fn prepare(
        &mut self,
        delta: &Delta,
        meter: &mut Meter,
    ) -> Result<(ChangedTables, Delta), AllocError> {
        let input = apply(self.alloc, &self.input, delta)?;
        let changes = self.changes(&input, delta, meter)?;
        let changes = changes.in_blocks(self.alloc, self.output.schema())?;
        let output = apply(self.alloc, &self.output, &changes)?;
        Ok((ChangedTables { input, output }, changes))
    }

    fn commit(&mut self, staged: ChangedTables) {
        let ChangedTables { input, output } = staged;
        self.input = input;
        self.output = output;
    }
}
