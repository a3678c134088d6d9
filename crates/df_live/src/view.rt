//! A live view: a plan, its tree of live nodes, and its table.
ghost use Rattle.std.specs.Prelude.{◌^◌};
ghost use Rattle.df_live.specs.Fresh.{IsAtMost};
ghost use Rattle.df_live.specs.Trees.{budget};

use crate::building::Fresh;
use crate::fresh_tree::fresh_tree;
use crate::keeping::with_changes;
use crate::tree::{LiveTree, StagedTree};
use df_column::Table;
use df_delta::Delta;
use df_expr::Meter;
use df_plan::CheckedPlan;
use df_value::{Duplicate, Shared};
use std::alloc::{AllocError, Global};

/// The table of a plan over frames, which follows their changes.
///
/// It holds its result, and what its nodes keep: each window, cumulative sum and rank the rows of its input and those
/// of its output, each group-by the rows of its input, and each join those of both sides. Scans, filters, selects and
/// with_columns keep none.
///
/// What a change costs goes by the rows that it changes at each node and by the rows of the groups that it reaches, and
/// not by the others that stand there. But at a cumulative sum or a rank one row can change those of many others. Each
/// table that is kept then gets a new list of its blocks, of which those without a change stay.
///
/// Where it is asked to, it keeps what the last commit did to its table.
pub struct LiveView {
    alloc: Global,
    plan: CheckedPlan,
    tree: LiveTree,
    table: Table,
    changes: Option<Shared<Delta>>,
    ghost counts: { IsAtMost (budget tree) (2 ^ 94) },
}

// A body that owns one drops it by a call.
impl Drop for LiveView {
    fn drop(self) {
        let LiveView {
            alloc: _,
            plan,
            tree,
            table,
            changes,
        } = self;
        drop(plan);
        drop(tree);
        drop(table);
        drop(changes);
    }
}

/// What a prepare of a view made and a commit puts in place. It is of use for the next commit of that view alone, and
/// where it is dropped, the view stands as before. Its tables share with the view's the blocks without a change.
#[derive(Drop)]
pub struct StagedView {
    tree: StagedTree,
    table: Table,
    changes: Option<Shared<Delta>>,
}

impl LiveView {
    ghost use Rattle.std.specs.Prelude.{◌≡◌, IfOk, List, None, Ok, OnOk, slice_set};
    ghost use Rattle.std.specs.Option.{option_copied};
    ghost use Rattle.df_column.specs.Tables.{TaggedRows};
    ghost use Rattle.df_delta.specs.Work.{IsBelow, IsWithin, plus};
    ghost use Rattle.df_live.specs.Frames.{AreFrames, changed};
    ghost use Rattle.df_live.specs.Fresh.{AreEmpty, IsFreshFor};
    ghost use Rattle.df_plan.specs.Checks.{plan_check};
    ghost use Rattle.df_live.specs.Tables.{MayBeFilled, schemas_of, tables_of};
    ghost use Rattle.df_live.specs.KeptDiffs.{IsKeptDiff};
    ghost use Rattle.df_live.specs.Views.{HasRoomFor, IsChangeOf, IsLive, LeadsTo, most_work, value, work};

    /// The plan.
    pub fn plan(&self) -> &CheckedPlan
        ensures { result.now ≡ self.now.plan }
    {
        &self.plan
    }

    /// The rows of the plan over the frames, with their tags.
    pub fn table(&self) -> &Table
        ensures { result.now ≡ self.now.table }
    {
        &self.table
    }

    /// What the last commit did to the table, where its prepare was asked to keep it.
    pub fn changes(&self) -> Option<&Delta>
        ensures { option_copied result ≡ self.now.changes }
    {
        match &self.changes {
            Some(changes) => Some(changes.get()),
            None => None,
        }
    }

    /// The same as one more owner of it. It takes no memory: the refusal is that of a further owner.
    pub fn shared_changes(&self) -> Result<Option<Shared<Delta>>, AllocError>
        ensures { IfOk result (λ changes. changes ≡ self.now.changes) }
    {
        match &self.changes {
            Some(changes) => Ok(Some(changes.copy(self.alloc)?)),
            None => Ok(None),
        }
    }

    /// Keeps the last change no longer.
    pub fn forget_changes(&mut self)
        ensures plan { self.new.plan ≡ self.old.plan }
        ensures table { self.new.table ≡ self.old.table }
        ensures changes { self.new.changes ≡ None }
        ensures live { (frames : List TaggedRows) → IsLive self.old frames → IsLive self.new frames }
    {
        drop(self.changes.take());
    }

    /// Makes all that a commit of a frame's delta needs, and leaves the view as it stands, also where memory was refused.
    /// Where `keeps`, the commit keeps what it does to the table.
    pub fn prepare(
        &mut self,
        frame: usize,
        delta: &Delta,
        meter: &mut Meter,
        keeps: bool,
    ) -> Result<StagedView, AllocError>
        requires { IsBelow meter.old (2 ^ 127) }
        ensures plan { self.new.plan ≡ self.old.plan }
        ensures changes { self.new.changes ≡ self.old.changes }
        ensures contents { (frames : List TaggedRows) → IsLive self.old frames
            → IsLive self.new frames }
        ensures grows { IsWithin meter.old meter.new }
        ensures bound { IsWithin meter.new (plus meter.old most_work) }
        ensures work { (frames : List TaggedRows) → IsLive self.old frames
            → IsChangeOf self.old.plan.frames frames frame delta.now
            → IsWithin meter.new (plus meter.old
            (work self.old.plan frames (changed frames frame delta.now))) }
        ensures staged { IfOk result (λ s. (frames : List TaggedRows) → IsLive self.old frames
            → IsChangeOf self.old.plan.frames frames frame delta.now
            → LeadsTo self.new s (changed frames frame delta.now)) }
        ensures room { IfOk result (λ s. HasRoomFor self.new s) }
        ensures kept { IfOk result (λ s. (frames : List TaggedRows) → IsLive self.old frames
            → IsChangeOf self.old.plan.frames frames frame delta.now
            → IsKeptDiff keeps (value self.old.plan frames)
            (value self.old.plan (changed frames frame delta.now)) s.changes) }
    {
        let (tree, changes) = self.tree.prepare(self.alloc, frame, delta, meter)?;
        let (table, changes) = with_changes(self.alloc, &self.table, changes, keeps)?;
        Ok(StagedView {
            tree,
            table,
            changes,
        })
    }

    /// Puts the staged view in place.
    pub fn commit(&mut self, staged: StagedView)
        requires { HasRoomFor self.old staged }
        ensures plan { self.new.plan ≡ self.old.plan }
        ensures over { (frames : List TaggedRows) → LeadsTo self.old staged frames
            → IsLive self.new frames }
        ensures changes { self.new.changes ≡ staged.changes }
    {
        let StagedView {
            tree,
            table,
            changes,
        } = staged;
        self.tree.commit(tree);
        self.table = table;
        self.changes = changes;
    }

    /// The view of the plan over these frames. It begins over empty ones, and each frame then comes as one delta, so that
    /// it takes the work of all rows and, for a moment, a delta of the largest frame.
    #[tactic(auto, using(crate::proofs::Filling::all_tables))]
    pub fn new(alloc: Global, plan: CheckedPlan, tables: &[Table]) -> Result<LiveView, AllocError>
        requires schemas { schemas_of tables.now ≡ plan.frames }
        requires frames { AreFrames plan.frames (tables_of tables.now) }
        ensures plan { IfOk result (λ v. v.plan ≡ plan) }
        ensures live { IfOk result (λ v. IsLive v (tables_of tables.now)) }
    {
        let mut view = LiveView::over_nothing(alloc, plan)?;
        for frame in 0..tables.len() {
            view.fill(frame, &tables[frame])?;
        }
        Ok(view)
    }

    /// The view once an empty frame has become this table.
    fn fill(&mut self, frame: usize, table: &Table) -> Result<(), AllocError>
        ensures plan { self.new.plan ≡ self.old.plan }
        ensures live { OnOk result ((frames : List TaggedRows) → IsLive self.old frames
            → MayBeFilled self.old.plan.frames frames frame table.now.rows
            → IsLive self.new (slice_set frames frame table.now.rows)) }
    {
        let delta = Delta::whole(self.alloc, table)?;
        let staged = self.prepare(frame, &delta, &mut Meter::new(), false)?;
        self.commit(staged);
        Ok(())
    }

    /// The view of the plan over empty frames.
    fn over_nothing(alloc: Global, plan: CheckedPlan) -> Result<LiveView, AllocError>
        ensures plan { IfOk result (λ v. v.plan ≡ plan) }
        ensures live { IfOk result (λ v. (frames : List TaggedRows) → AreEmpty frames
            → AreFrames plan.frames frames → IsLive v frames) }
    {
        let (root, frames) = (plan.plan(), plan.frames());
        match fresh_tree(alloc, root, frames.as_slice()) {
            Ok(fresh) => LiveView::of_tree(alloc, plan, fresh),
            Err(refused) => {
                drop(plan);
                Err(refused)
            }
        }
    }

    /// The view of this tree of the plan, over empty frames.
    fn of_tree(alloc: Global, plan: CheckedPlan, fresh: Fresh) -> Result<LiveView, AllocError>
        requires fresh { IsFreshFor fresh plan.plan plan.frames }
        requires checks { plan_check plan.plan plan.frames ≡ Ok plan.schema }
        ensures plan { IfOk result (λ v. v.plan ≡ plan) }
        ensures live { IfOk result (λ v. (frames : List TaggedRows) → AreEmpty frames
            → AreFrames plan.frames frames → IsLive v frames) }
    {
        let Fresh { tree, schema, .. } = fresh;
        match Table::new(alloc, schema) {
            Ok(table) => Ok(LiveView {
                alloc,
                plan,
                tree,
                table,
                changes: None,
            }),
            Err(refused) => {
                drop(tree);
                drop(plan);
                Err(refused)
            }
        }
    }
}

impl StagedView {
    ghost use Rattle.std.specs.Prelude.{◌≡◌};

    /// The rows of the plan after the change, with their tags.
    pub fn table(&self) -> &Table
        ensures { result.now ≡ self.now.table }
    {
        &self.table
    }
}
