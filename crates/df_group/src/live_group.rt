//! The live group-by.
ghost use Rattle.std.specs.Prelude.{◌≡◌, ◌+◌, ◌*◌, ◌<◌, ◌≤◌, ◌^◌, IfOk, List};
ghost use Rattle.std.specs.FinMap as finite;
ghost use Rattle.indexmap.specs.IndexMap.{IsUnchanged, index_map_len, spare};
ghost use Rattle.df_ops.specs.NamedColumns.{column_indices};
ghost use Rattle.df_ops.specs.Tables as tables;
ghost use Rattle.df_column.specs.Changes.{applied};
ghost use Rattle.df_column.specs.Tables.{TaggedRows};
ghost use Rattle.df_delta.specs.Deltas.{RowsFit};
ghost use Rattle.df_delta.specs.Diff.{diff};
ghost use Rattle.df_delta.specs.Differences.{Fits, IsDiff};
ghost use Rattle.df_delta.specs.SameRows.{same_row};
ghost use Rattle.df_delta.specs.Work.{IsBelow, IsWithin, plus};
ghost use Rattle.df_group.specs.GroupIndex as index_spec;
ghost use Rattle.df_group.specs.GroupIndex.{HasTagsOf, IsIndexOf, output_of};
ghost use Rattle.df_group.specs.GroupRows.{group_output};
ghost use Rattle.df_group.specs.declared.grouping.Grouping.{Grouping};
ghost use Rattle.df_group.specs.Projections as projections;
ghost use Rattle.df_group.specs.Projections.{projected_rows};
ghost use Rattle.df_group.specs.Work.{finishes};

use crate::group::Group;
use crate::grouping::Grouping;
use crate::notes::note_all;
use crate::staging::{put_all, stage_all};
use df_delta::{Delta, LiveNode, keyed_changes};
use df_expr::Meter;
use df_ops::Agg;
use df_value::{Row, Schema, Text, both};
use indexmap::IndexMap;
use std::alloc::{AllocError, Global};

/// Groups rows by the cells of key columns: a row for each key, with aggregates of the rows that have it. Of each row it
/// keeps the cells of the columns that aggregates take, or one cell where they take none, if these are at most half of the
/// columns and none is of type `Text`; else the whole row.
pub struct LiveGroup {
    alloc: Global,
    grouping: Grouping,
    index: IndexMap<Row, Group>,
}

// A body that owns one drops it by a call.
impl Drop for LiveGroup {
    fn drop(self) {
        let LiveGroup {
            alloc: _,
            grouping,
            index,
        } = self;
        drop(grouping);
        drop(index);
    }
}

/// The groups that a commit puts into the index.
#[derive(Drop)]
pub struct StagedGroups {
    groups: IndexMap<Row, Group>,
}

impl LiveGroup {
    /// The groups of rows of this schema by these key columns, each with these named aggregates. A row of the output
    /// has the tag of its group's first row. It stands over no rows.
    pub fn new(
        alloc: Global,
        schema: &Schema,
        keys: &[Text],
        aggregates: &[(Text, Agg)],
    ) -> Result<LiveGroup, AllocError>
        ensures output { IfOk result (λ n. (t : TaggedRows) → output_of n.grouping t
            ≡ group_output schema.now (column_indices schema.now keys.now) aggregates.now t) }

        // The rows are those that the operator gives of the rows of the input.
        ensures rows { IfOk result (λ n. (t : TaggedRows) → finite.values (output_of n.grouping t)
            ≡ (tables.group_by_table (record { columns = schema.now; rows = finite.values t })
            keys.now aggregates.now).rows) }

        // Each tag of the output is one of the input: that of the group's first row.
        ensures tags { IfOk result (λ n. (t : TaggedRows) → HasTagsOf t (output_of n.grouping t)) }
        ensures over { IfOk result (λ n. IsIndexOf n.grouping n.index finite.empty) }

        // It takes rows of the schema.
        ensures takes { IfOk result (λ n. (t : TaggedRows) → RowsFit schema.now t
            → RowsFit n.grouping.members.schema (projected_rows n.grouping.members.indices t)) }

        // The columns that it keeps, and where they stand in the input.
        ensures schema { IfOk result (λ n. n.grouping.members.schema
            ≡ projections.member_columns schema.now aggregates.now) }
        ensures indices { IfOk result (λ n. n.grouping.members.indices
            ≡ projections.member_indices schema.now aggregates.now) }
    {
        Ok(LiveGroup {
            alloc,
            grouping: Grouping::new(alloc, schema, keys, aggregates)?,
            index: IndexMap::new(alloc),
        })
    }

    /// The groups after this delta, and the delta of the output. The index gets room for them.
    fn staged(
        &mut self,
        delta: &Delta,
        meter: &mut Meter,
    ) -> Result<(StagedGroups, Delta), AllocError>
        requires { IsBelow (plus meter.old (finishes (2 ^ 64))) (2 ^ 128) }
        ensures grows { IsWithin meter.old meter.new }
        ensures within { IsWithin meter.new (plus meter.old (finishes (2 ^ 64))) }
        ensures meter { IsWithin meter.new (plus meter.old (finishes (2 * finite.len delta.now))) }
        ensures contents { IsUnchanged self.old.index self.new.index }
        ensures grouping { self.new.grouping ≡ self.old.grouping }
        ensures diff { IfOk result (λ r. (t : TaggedRows) → IsIndexOf self.old.grouping self.old.index t
            → Fits t delta.now
            → RowsFit self.old.grouping.members.schema (projected_rows self.old.grouping.members.indices (applied t delta.now))
            → IsDiff (output_of self.old.grouping t)
            (output_of self.old.grouping (applied t delta.now)) r.1) }
        ensures staged { IfOk result (λ r. (t : TaggedRows) → IsIndexOf self.old.grouping self.old.index t
            → Fits t delta.now
            → RowsFit self.old.grouping.members.schema (projected_rows self.old.grouping.members.indices (applied t delta.now))
            → index_spec.LeadsTo self.old.grouping self.new.index r.0.groups (applied t delta.now)) }
        ensures room { IfOk result (λ r. index_map_len r.0.groups ≤ spare self.new.index) }
    {
        let changes = keyed_changes(self.alloc, self.grouping.key_indices.as_slice(), delta)?;
        let groups = stage_all(self.alloc, &self.grouping, &self.index, changes, meter)?;
        let changes = self.changes_with_room(&groups);
        both(Ok(StagedGroups { groups }), changes)
    }

    /// The delta of the output that the staged groups lead to. The index gets room for them.
    fn changes_with_room(&mut self, groups: &IndexMap<Row, Group>) -> Result<Delta, AllocError>
        ensures contents { IsUnchanged self.old.index self.new.index }
        ensures grouping { self.new.grouping ≡ self.old.grouping }
        ensures diff { IfOk result (λ d. (g : Grouping) (t u : TaggedRows) → IsIndexOf g self.old.index t
            → index_spec.LeadsTo g self.old.index groups.now u
            → IsDiff (output_of g t) (output_of g u) d) }
        ensures room { IfOk result (λ d. index_map_len groups.now ≤ spare self.new.index) }
    {
        let notes = note_all(self.alloc, &self.index, groups)?;
        let changes = notes.into_delta()?;
        self.index.reserve(groups.len())?;
        Ok(changes)
    }

    /// Puts the staged groups into the index.
    fn put(&mut self, staged: StagedGroups)
        requires { index_map_len staged.groups ≤ spare self.old.index }
        ensures over { (t : TaggedRows) →
            index_spec.LeadsTo self.old.grouping self.old.index staged.groups t
            → IsIndexOf self.new.grouping self.new.index t }
        ensures grouping { self.new.grouping ≡ self.old.grouping }
    {
        let StagedGroups { groups } = staged;
        put_all(&mut self.index, groups);
    }
}

impl LiveNode for LiveGroup {
    type Staged = StagedGroups;

    ghost Takes = { λ n t. RowsFit n.grouping.members.schema (projected_rows n.grouping.members.indices t) };

    ghost IsOver = { λ n t. IsIndexOf n.grouping n.index t };

    ghost output = { λ n t. output_of n.grouping t };

    ghost HasRoomFor = { λ n s. index_map_len s.groups ≤ spare n.index };

    ghost LeadsTo = { λ n s t. index_spec.LeadsTo n.grouping n.index s.groups t };

    ghost budget = { λ _. finishes (2 ^ 64) };

    ghost allowed = { λ _ t u. finishes (2 * finite.len (diff same_row t u)) };

    fn prepare(
        &mut self,
        delta: &Delta,
        meter: &mut Meter,
    ) -> Result<(StagedGroups, Delta), AllocError> {
        self.staged(delta, meter)
    }

    fn commit(&mut self, staged: StagedGroups) {
        self.put(staged)
    }
}
