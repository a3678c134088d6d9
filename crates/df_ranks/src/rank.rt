//! The live rank.
ghost use Rattle.std.specs.Prelude.{◌≡◌, ◌∷◌, [], T, IfOk, OnOk};
ghost use Rattle.std.specs.FinMap as finite;
ghost use Rattle.df_value.specs.Schemas.{IsSchema, column_index as index_of};
ghost use Rattle.df_value.specs.declared.cell.CellType.TheVariants as dtype;
ghost use Rattle.df_column.specs.Tables.{TaggedRows};
ghost use Rattle.df_delta.specs.Deltas.{RowsFit};
ghost use Rattle.df_delta.specs.Reached.{are_rising, changes_at};
ghost use Rattle.df_delta.specs.Work.{no_work};
ghost use Rattle.df_ops.specs.NamedColumns.{with_columns as columns_with};
ghost use Rattle.df_ops.specs.Tables.{rank_table};
ghost use Rattle.df_ranks.specs.Counts.{counted_rank};
ghost use Rattle.df_ranks.specs.Known.{AreNumbers};
ghost use Rattle.df_ranks.specs.Nodes.{IsRanked, RanksFit};
ghost use Rattle.df_ranks.specs.Ranked.{ranked, with_ranks};
ghost use Rattle.df_ranks.specs.Staged.{IsStage};

use crate::column::{RankColumn, schema_with_ranks};
use crate::known::KnownRanks;
use crate::reach::{least_change, reached_tags};
use crate::rises::rises_of;
use df_column::{Table, Tag};
use df_counts::Counts;
use df_delta::{Delta, LiveNode, apply, push_change};
use df_expr::Meter;
use df_ops::RankKind;
use df_value::{Cell, Duplicate, Row, Schema, Text};
use std::alloc::{AllocError, Global};
use std::collections::BTreeMap;

/// Puts the rank of a column's cell into each row, at its tag.
pub struct LiveRank {
    alloc: Global,
    column: RankColumn,
    input: Table,
    output: Table,
    counts: Counts,
}

// A body that owns one drops it by a call.
impl Drop for LiveRank {
    fn drop(self) {
        let LiveRank {
            alloc: _,
            column,
            input,
            output,
            counts,
        } = self;
        drop(column);
        drop(input);
        drop(output);
        drop(counts);
    }
}

/// What a live rank keeps after a change.
#[derive(Drop)]
pub struct StagedRank {
    input: Table,
    output: Table,
    counts: Counts,
}

impl LiveRank {
    /// The ranks of this kind of a column of rows of this schema, as the column `output`. It stands over no rows.
    pub fn new(
        alloc: Global,
        schema: &Schema,
        output: &Text,
        kind: RankKind,
        column: &Text,
    ) -> Result<LiveRank, AllocError>
        requires { IsSchema (columns_with schema.now ((output.now, dtype.Int) ∷ [])) }
        ensures output { IfOk result (λ n. (t : TaggedRows) →
            ranked n.column.schema n.column.name n.column.kind n.column.index t
            ≡ ranked schema.now output.now kind (index_of column.now schema.now) t) }

        // The rows are those that the operator gives of the rows of the input.
        ensures rows { IfOk result (λ n. (t : TaggedRows) →
            finite.values (ranked n.column.schema n.column.name n.column.kind n.column.index t)
            ≡ (rank_table (record { columns = schema.now; rows = finite.values t }) output.now
            kind column.now).rows) }
        ensures input { IfOk result (λ n. n.input.schema ≡ schema.now) }
        ensures columns { IfOk result (λ n.
            n.output.schema ≡ columns_with schema.now ((output.now, dtype.Int) ∷ [])) }
        ensures over { IfOk result (λ n. IsRanked n.column.schema n.column.name n.column.kind
            n.column.index n.input n.output n.counts finite.empty) }

        // It takes rows of the schema.
        ensures takes { IfOk result (λ n. (t : TaggedRows) → RowsFit schema.now t
            → RanksFit n.column.schema n.column.name n.column.kind n.column.index n.input n.output t) }
    {
        let made = schema_with_ranks(alloc, schema, output)?;
        let column = RankColumn::new(alloc, schema, output, column, kind)?;
        let input = Table::new(alloc, schema.copy(alloc)?)?;
        let output = Table::new(alloc, made)?;
        Ok(LiveRank {
            alloc,
            column,
            input,
            output,
            counts: Counts::new(),
        })
    }

    /// The new row at the tag, if there is one, with its rank.
    fn new_row(
        &self,
        input: &Table,
        counts: &Counts,
        known: &mut KnownRanks,
        tag: Tag,
    ) -> Result<Option<Row>, AllocError>
        requires { AreNumbers self.now.column.kind counts.now known.old }
        ensures row { IfOk result (λ r. r ≡ finite.get (with_ranks self.now.column.schema
            self.now.column.name self.now.column.index
            (counted_rank self.now.column.kind counts.now) input.now.rows) tag) }
        ensures known { OnOk result (AreNumbers self.now.column.kind counts.now known.new) }
    {
        match input.get(self.alloc, tag)? {
            Some(row) => Ok(Some(self.column.ranked_row(self.alloc, counts, known, &row)?)),
            None => Ok(None),
        }
    }

    /// The changes of the output at these tags, where this is the input afterwards, with these counts.
    fn changes(&self, input: &Table, counts: &Counts, tags: &[Tag]) -> Result<Delta, AllocError>
        requires { T (are_rising tags.now) }
        ensures { IfOk result (λ d. d ≡ finite.from_sorted (changes_at self.now.output.rows
            (with_ranks self.now.column.schema self.now.column.name self.now.column.index
            (counted_rank self.now.column.kind counts.now) input.now.rows) tags.now)) }
    {
        let mut known = KnownRanks::new(self.alloc, counts, tags.len());
        let mut entries = Vec::new(self.alloc);
        for tag in tags {
            let old = self.output.get(self.alloc, *tag)?;
            let new = self.new_row(input, counts, &mut known, *tag)?;
            push_change(&mut entries, *tag, old, new)?;
        }
        Ok(Delta::from_entries(entries))
    }

    /// The counts after these rises, and the changes of the output.
    fn counts_and_changes(
        &self,
        delta: &Delta,
        input: &Table,
        rises: &BTreeMap<Cell, u64>,
    ) -> Result<(Counts, Delta), AllocError>
        ensures { IfOk result (λ r. IsStage self.now delta.now input.now.rows rises.now r.0 r.1) }
    {
        let counts = self.counts.raised(self.alloc, rises)?;
        let least = least_change(self.column.kind(), &self.counts, &counts, rises);
        let tags = reached_tags(self.alloc, delta, input, self.column.index(), least)?;
        let changes = self.changes(input, &counts, &tags)?;
        Ok((counts, changes))
    }
}

impl LiveNode for LiveRank {
    type Staged = StagedRank;

    ghost Takes = { λ n t. RanksFit n.column.schema n.column.name n.column.kind n.column.index
        n.input n.output t };

    ghost IsOver = { λ n t. IsRanked n.column.schema n.column.name n.column.kind n.column.index
        n.input n.output n.counts t };

    ghost output = { λ n t. ranked n.column.schema n.column.name n.column.kind n.column.index t };

    ghost HasRoomFor = { λ n s. (s.input.schema ≡ n.input.schema)
        × (s.output.schema ≡ n.output.schema) };

    ghost LeadsTo = { λ n s t. IsRanked n.column.schema n.column.name n.column.kind n.column.index
        s.input s.output s.counts t };

    ghost budget = { λ _. no_work };

    ghost allowed = { λ _ _ _. no_work };

    fn prepare(
        &mut self,
        delta: &Delta,
        _meter: &mut Meter,
    ) -> Result<(StagedRank, Delta), AllocError> {
        let input = apply(self.alloc, &self.input, delta)?;
        // What `len` promises: so few rows that each rank is counted as it is.
        let _few = input.len();
        let rises = rises_of(self.alloc, self.column.index(), delta.entries())?;
        let (counts, changes) = self.counts_and_changes(delta, &input, &rises)?;
        let changes = changes.in_blocks(self.alloc, self.output.schema())?;
        let output = apply(self.alloc, &self.output, &changes)?;
        Ok((
            StagedRank {
                input,
                output,
                counts,
            },
            changes,
        ))
    }

    fn commit(&mut self, staged: StagedRank) {
        let StagedRank {
            input,
            output,
            counts,
        } = staged;
        self.input = input;
        self.output = output;
        self.counts = counts;
    }
}
