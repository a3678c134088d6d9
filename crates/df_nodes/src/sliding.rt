//! A window that moves on over the rows of a table.
ghost use Rattle.std.specs.Prelude.{◌≡◌, ◌+◌, ◌-◌, ◌<◌, ◌≤◌, ◌^◌, ◌∷◌, ◌++◌, [], List, Some, IfOk, OnOk, length, slice_index_or};
ghost use Rattle.std.specs.FinMap as finite;
ghost use Rattle.df_value.specs.Rows.{cell_at as any_cell_at};
ghost use Rattle.df_value.specs.declared.cell.Cell.{Cell as AnyCell};
ghost use Rattle.df_ops.specs.Windows.{rolling_cell};
ghost use Rattle.df_nodes.specs.Sliding.{AreWords, IsBefore, IsLast, IsMoved, IsOver, IsReady, IsSmall};
ghost use Rattle.df_nodes.specs.Sliding.{joined_totals, output_row, stacked, totals_of, whole_totals};
ghost use Rattle.df_nodes.specs.declared.window_totals.Totals.{Totals as AnyTotals};

use crate::rolling::Rolling;
use crate::window_totals::{Totals, joined};
use df_column::Table;
use df_ops::RollKind;
use df_value::{Cell, Duplicate, Row};
use std::alloc::{AllocError, Global};

/// The cells that a rolling column reads in the rows of a table from one index up to another. Each row comes once and
/// goes once, and each of both takes one step, many together: the older cells, before the middle, are kept as the
/// totals from each of them on, the oldest last, over those of none; the younger ones with their totals. Where no
/// older cell is left and the oldest is to go, the younger ones become the older.
pub struct SlidingWindow {
    start: usize,
    middle: usize,
    stop: usize,
    older: Vec<Totals>,
    younger: Vec<Cell>,
    totals: Totals,
}

// A body that owns one drops it by a call.
impl Drop for SlidingWindow {
    fn drop(self) {
        let SlidingWindow {
            start: _,
            middle: _,
            stop: _,
            older,
            younger,
            totals,
        } = self;
        drop(older);
        drop(younger);
        drop(totals);
    }
}

impl SlidingWindow {
    /// A window of no row, before the row at an index.
    pub fn new(alloc: Global, at: usize) -> Result<SlidingWindow, AllocError>
        ensures over { IfOk result (λ w. (r : Rolling) → (rows : List (List AnyCell))
            → at ≤ length rows → IsOver r w rows) }
        ensures place { IfOk result (λ w. (w.start ≡ at) × (w.stop ≡ at)) }
    {
        let mut older = Vec::with_capacity(alloc, 1)?;
        older.push(Totals::none())?;
        Ok(SlidingWindow {
            start: at,
            middle: at,
            stop: at,
            older,
            younger: Vec::new(alloc),
            totals: Totals::none(),
        })
    }

    /// Moves on to the window that ends at the row at an index, and gives this row with its rolling value. Reads only
    /// the rows that the window does not have.
    pub fn row_at(
        &mut self,
        alloc: Global,
        rolling: &Rolling,
        input: &Table,
        at: usize,
    ) -> Result<Row, AllocError>
        requires last { IsLast rolling.now self.old (finite.values input.now.rows) }
        requires inside { at < finite.len input.now.rows }
        ensures row { IfOk result (λ r. Some r
            ≡ output_row rolling.now (finite.values input.now.rows) (Some at)) }
        ensures last { OnOk result (IsLast rolling.now self.new (finite.values input.now.rows)) }
    {
        let _few = input.len();
        let row = self.move_to(alloc, rolling, input, at)?;
        let cell = self.value(alloc, rolling)?;
        let made = rolling.row_with(alloc, &row, cell)?;
        Ok(made)
    }

    /// Moves on to the window that ends at the row at an index, and gives this row.
    fn move_to(
        &mut self,
        alloc: Global,
        rolling: &Rolling,
        input: &Table,
        at: usize,
    ) -> Result<Row, AllocError>
        requires last { IsLast rolling.now self.old (finite.values input.now.rows) }
        requires inside { at < finite.len input.now.rows }
        ensures row { IfOk result (λ r. r ≡ slice_index_or (finite.values input.now.rows) at []) }
        ensures last { OnOk result (IsLast rolling.now self.new (finite.values input.now.rows)) }
        ensures stop { OnOk result (self.new.stop ≡ at + 1) }
    {
        let _few = input.len();
        self.stand_before(alloc, rolling.w, at)?;
        self.read_until(alloc, rolling, input, at)?;
        let row = self.read_row(alloc, rolling, input)?;
        Ok(row)
    }

    /// The rolling value of the window.
    fn value(&self, alloc: Global, rolling: &Rolling) -> Result<Cell, AllocError>
        requires some { 0 < length self.now.older.items }
        requires older { (d : AnyTotals) → IsSmall (slice_index_or self.now.older.items
            (length self.now.older.items - 1) d) }
        requires younger { IsSmall self.now.totals }
        ensures { IfOk result (λ c. (cells : List AnyCell) → (d : AnyTotals)
            → whole_totals rolling.now self.now d ≡ totals_of rolling.now.kind cells
            → c ≡ rolling_cell rolling.now.kind rolling.now.m cells) }
    {
        let older = &self.older[self.older.len() - 1];
        let all = joined(alloc, rolling.kind, older, &self.totals)?;
        Ok(all.value(rolling.kind, rolling.m))
    }

    /// Stays where it stands if the window of w rows that ends at the row at an index begins there or before; else
    /// empties itself and stands where that window begins.
    fn stand_before(&mut self, alloc: Global, w: usize, at: usize) -> Result<(), AllocError>
        requires some { 1 ≤ w }
        requires few { at < 2 ^ 60 }
        ensures over { OnOk result ((r : Rolling) → (rows : List (List AnyCell)) → at < length rows
            → IsOver r self.old rows → IsOver r self.new rows) }
        ensures before { OnOk result (self.old.start ≡ self.old.stop - w → IsBefore w at self.new) }
    {
        let start = (at + 1).saturating_sub(w);
        if start <= self.stop && self.stop <= at {
            return Ok(());
        }
        *self = SlidingWindow::new(alloc, start)?;
        Ok(())
    }

    /// Reads the rows before an index.
    fn read_until(
        &mut self,
        alloc: Global,
        rolling: &Rolling,
        input: &Table,
        at: usize,
    ) -> Result<(), AllocError>
        requires over { IsOver rolling.now self.old (finite.values input.now.rows) }
        requires before { IsBefore rolling.now.w at self.old }
        requires inside { at < finite.len input.now.rows }
        ensures over { OnOk result (IsOver rolling.now self.new (finite.values input.now.rows)) }
        ensures before { OnOk result (IsBefore rolling.now.w at self.new) }
        ensures stop { OnOk result (self.new.stop ≡ at) }
    {
        for _next in self.stop..at {
            let row = self.read_row(alloc, rolling, input)?;
            drop(row);
        }
        Ok(())
    }

    /// Reads the next row, and lets the oldest go where the window has as many as the column asks for.
    fn read_row(
        &mut self,
        alloc: Global,
        rolling: &Rolling,
        input: &Table,
    ) -> Result<Row, AllocError>
        requires over { IsOver rolling.now self.old (finite.values input.now.rows) }
        requires inside { self.old.stop < finite.len input.now.rows }
        ensures row { IfOk result (λ r. r
            ≡ slice_index_or (finite.values input.now.rows) self.old.stop []) }
        ensures over { OnOk result (IsOver rolling.now self.new (finite.values input.now.rows)) }
        ensures moved { OnOk result (IsMoved rolling.now.w self.old self.new) }
    {
        let _few = input.len();
        self.make_room(alloc, rolling)?;
        let row = input.row(alloc, self.stop)?;
        self.push(alloc, rolling, &row)?;
        Ok(row)
    }

    /// Lets the oldest cell go where the window has as many as the column asks for.
    fn make_room(&mut self, alloc: Global, rolling: &Rolling) -> Result<(), AllocError>
        requires ready { IsReady rolling.now self.old }
        ensures over { OnOk result ((rows : List (List AnyCell))
            → IsOver rolling.now self.old rows → IsOver rolling.now self.new rows) }
        ensures stop { OnOk result (self.new.stop ≡ self.old.stop) }
        ensures wide { OnOk result (self.new.start
            ≤ self.old.start + ((self.old.stop + 1) - (self.old.start + rolling.now.w))) }
        ensures few { OnOk result (self.old.stop ≤ self.old.start + rolling.now.w
            → self.new.stop + 1 ≤ self.new.start + rolling.now.w) }
    {
        if self.stop - self.start < rolling.w {
            return Ok(());
        }
        self.turn(alloc, rolling)?;
        self.older.truncate(self.older.len() - 1);
        self.start += 1;
        Ok(())
    }

    /// Makes the younger cells the older where no older one is left.
    fn turn(&mut self, alloc: Global, rolling: &Rolling) -> Result<(), AllocError>
        requires ready { IsReady rolling.now self.old }
        requires some { self.old.start < self.old.stop }
        ensures over { OnOk result ((rows : List (List AnyCell))
            → IsOver rolling.now self.old rows → IsOver rolling.now self.new rows) }
        ensures ready { OnOk result (IsReady rolling.now self.new) }
        ensures place { OnOk result ((self.new.start ≡ self.old.start) × (self.new.stop ≡ self.old.stop)) }
        ensures some { OnOk result (self.new.start < self.new.middle) }
    {
        if self.start < self.middle {
            return Ok(());
        }
        self.older = stack_of(alloc, rolling.kind, &self.younger)?;
        self.younger.clear();
        self.totals = Totals::none();
        self.middle = self.stop;
        Ok(())
    }

    /// Adds the cell of a row behind the others.
    fn push(&mut self, alloc: Global, rolling: &Rolling, row: &Row) -> Result<(), AllocError>
        requires ready { IsReady rolling.now self.old }
        ensures over { OnOk result ((rows : List (List AnyCell)) → self.old.stop < length rows
            → row.now ≡ slice_index_or rows self.old.stop []
            → IsOver rolling.now self.old rows → IsOver rolling.now self.new rows) }
        ensures place { OnOk result ((self.new.start ≡ self.old.start) × (self.new.stop ≡ self.old.stop + 1)) }
    {
        let cell = cell_at(alloc, rolling.index, row)?;
        let own = Totals::of_cell(alloc, &cell)?;
        self.totals = joined(alloc, rolling.kind, &self.totals, &own)?;
        self.younger.push(cell)?;
        self.stop += 1;
        Ok(())
    }
}

/// The totals of no cell, of the last, of the last two, and so on.
fn stack_of(alloc: Global, kind: RollKind, cells: &[Cell]) -> Result<Vec<Totals>, AllocError>
    requires few { length cells.now ≤ 2 ^ 60 }
    requires words { AreWords cells.now }
    ensures { IfOk result (λ stack. stack.items ≡ stacked kind cells.now) }
{
    let mut stack = Vec::with_capacity(alloc, cells.len() + 1)?;
    stack.push(Totals::none())?;
    for at in 0..cells.len() {
        push_totals(alloc, kind, &mut stack, &cells[cells.len() - 1 - at])?;
    }
    Ok(stack)
}

/// Adds the totals of a cell and of those of which the last of the stack are.
fn push_totals(
    alloc: Global,
    kind: RollKind,
    stack: &mut Vec<Totals>,
    cell: &Cell,
) -> Result<(), AllocError>
    requires some { 0 < length stack.old.items }
    requires small { (d : AnyTotals) → IsSmall (slice_index_or stack.old.items
        (length stack.old.items - 1) d) }
    ensures { OnOk result ((d : AnyTotals) → stack.new.items ≡ stack.old.items
        ++ joined_totals kind (totals_of kind (cell.now ∷ []))
        (slice_index_or stack.old.items (length stack.old.items - 1) d) ∷ []) }
{
    let own = Totals::of_cell(alloc, cell)?;
    let all = joined(alloc, kind, &own, &stack[stack.len() - 1])?;
    stack.push(all)?;
    Ok(())
}

/// A copy of the cell of a row at an index; null where there is none.
fn cell_at(alloc: Global, index: Option<usize>, row: &Row) -> Result<Cell, AllocError>
    ensures { IfOk result (λ c. c ≡ any_cell_at index row.now) }
{
    let Some(index) = index else {
        return Ok(Cell::Null);
    };
    match row.get(index) {
        Some(cell) => cell.copy(alloc),
        None => Ok(Cell::Null),
    }
}
