//! The tree of live nodes of a plan.
ghost use Rattle.std.specs.Prelude.{◌≡◌, ◌^◌, IfOk, List};
ghost use Rattle.df_column.specs.Tables.{TaggedRows};
ghost use Rattle.df_delta.specs.Differences.{IsDiff};
ghost use Rattle.df_delta.specs.Work.{IsBelow, IsWithin, plus};
ghost use Rattle.df_live.specs.Frames.{changed};
ghost use Rattle.df_live.specs.JoinOperators.{join_budget};
ghost use Rattle.df_live.specs.Operators.{operator_budget};
ghost use Rattle.df_live.specs.Prepared.{IsPrepared};
ghost use Rattle.df_live.specs.Staged.{HasRoomFor, LeadsTo};
ghost use Rattle.df_live.specs.Trees.{IsOver, MayFollow, Takes, allowed, budget, output};
ghost use Rattle.df_live.specs.declared.tree.LiveTree.TheVariants as trees;

use crate::joined::JoinOperator;
use crate::operator::{LiveOperator, StagedOperator};
use crate::scan::scanned;
use crate::staging::{boxed, over_one, over_two};
use crate::tree_delta::TreeDelta;
use df_delta::{Delta, LiveNode, TwoSidedNode};
use df_expr::Meter;
use df_join::StagedJoin;
use df_value::then_drop;
use std::alloc::{AllocError, Global};

/// A live node for each node of a plan, over the trees of its inputs.
pub enum LiveTree {
    /// The frame of this index. It keeps nothing.
    Scan(usize),
    /// A node of one input.
    Operator(Box<LiveTree>, LiveOperator),
    /// A join of two inputs.
    Join(Box<LiveTree>, Box<LiveTree>, JoinOperator),
}

// A body that owns one drops it by a call.
impl Drop for LiveTree {
    fn drop(self) {
        match self {
            LiveTree::Scan(_) => {}
            LiveTree::Operator(input, node) => {
                drop(input);
                drop(node);
            }
            LiveTree::Join(left, right, node) => {
                drop(left);
                drop(right);
                drop(node);
            }
        }
    }
}

/// What a prepare of each node staged.
#[derive(Drop)]
pub enum StagedTree {
    /// Nothing.
    Scan,
    /// By the input, and by its node.
    Operator(Box<StagedTree>, StagedOperator),
    /// By both inputs, and by their join.
    Join(Box<StagedTree>, Box<StagedTree>, StagedJoin),
}

impl LiveTree {
    /// Makes the delta of the output under a delta of one frame, and all that a commit needs. The delta reaches every
    /// scan of the frame at once. The tree stands over the frames that it stood over, also where memory was refused.
    pub fn prepare<'a>(
        &mut self,
        alloc: Global,
        frame: usize,
        delta: &'a Delta,
        meter: &mut Meter,
    ) -> Result<(StagedTree, TreeDelta<'a>), AllocError>
        requires counts { IsBelow (plus meter.old (budget self.old)) (2 ^ 128) }
        ensures grows { IsWithin meter.old meter.new }
        ensures within { IsWithin meter.new (plus meter.old (budget self.old)) }
        ensures meter { (frames : List TaggedRows) → MayFollow self.old frames frame delta.now
            → IsWithin meter.new (plus meter.old
            (allowed self.old frames (changed frames frame delta.now))) }
        ensures contents { (frames : List TaggedRows) → IsOver self.old frames
            → IsOver self.new frames }
        ensures operator { (frames : List TaggedRows) →
            output self.new frames ≡ output self.old frames }
        ensures takes { (frames : List TaggedRows) → Takes self.old frames
            → Takes self.new frames }
        ensures same_budget { budget self.new ≡ budget self.old }
        ensures same_bound { (frames after : List TaggedRows) →
            allowed self.new frames after ≡ allowed self.old frames after }
        ensures diff { IfOk result (λ r. (frames : List TaggedRows)
            → MayFollow self.old frames frame delta.now
            → IsDiff (output self.old frames)
            (output self.old (changed frames frame delta.now)) r.1) }
        ensures staged { IfOk result (λ r. (frames : List TaggedRows)
            → MayFollow self.old frames frame delta.now
            → LeadsTo self.new r.0 (changed frames frame delta.now)) }
        ensures room { IfOk result (λ r. HasRoomFor self.new r.0) }
    {
        self.prepared(alloc, frame, delta, meter)
    }

    // The same, said by one clause, so that each exit on the way down has one to show.
    #[cycle(prepared)]
    fn prepared<'a>(
        &mut self,
        alloc: Global,
        frame: usize,
        delta: &'a Delta,
        meter: &mut Meter,
    ) -> Result<(StagedTree, TreeDelta<'a>), AllocError>
        requires counts { IsBelow (plus meter.old (budget self.old)) (2 ^ 128) }
        ensures { IsPrepared self.old self.new frame delta.now meter.old meter.new result }
    {
        match self {
            LiveTree::Scan(scan) => { Ok((StagedTree::Scan, scanned(alloc, *scan, frame, delta))) }
            LiveTree::Operator(input, node) => {
                LiveTree::prepared_over(alloc, input, node, frame, delta, meter)
            }
            LiveTree::Join(left, right, node) => {
                LiveTree::prepared_join(alloc, left, right, node, frame, delta, meter)
            }
        }
    }

    // Of an operator over its input.
    #[cycle(prepared)]
    fn prepared_over<'a>(
        alloc: Global,
        input: &mut LiveTree,
        node: &mut LiveOperator,
        frame: usize,
        delta: &'a Delta,
        meter: &mut Meter,
    ) -> Result<(StagedTree, TreeDelta<'a>), AllocError>
        requires counts { IsBelow
            (plus meter.old (plus (budget input.old) (operator_budget node.old))) (2 ^ 128) }
        ensures { (p : _) → IsPrepared (trees.Operator' p input.old node.old)
            (trees.Operator' p input.new node.new) frame delta.now meter.old meter.new result }
    {
        let below = input.prepared(alloc, frame, delta, meter);
        let (below, between) = boxed(alloc, below)?;
        let made = over_one(below, delta, node.prepare(between.get(), meter));
        then_drop(made, between)
    }

    // Of a join of two inputs.
    #[cycle(prepared)]
    fn prepared_join<'a>(
        alloc: Global,
        left: &mut LiveTree,
        right: &mut LiveTree,
        node: &mut JoinOperator,
        frame: usize,
        delta: &'a Delta,
        meter: &mut Meter,
    ) -> Result<(StagedTree, TreeDelta<'a>), AllocError>
        requires counts { IsBelow (plus meter.old
            (plus (budget left.old) (plus (budget right.old) (join_budget node.old)))) (2 ^ 128) }
        ensures { (p q : _) → IsPrepared (trees.Join' p left.old q right.old node.old)
            (trees.Join' p left.new q right.new node.new) frame delta.now meter.old meter.new result }
    {
        let on_left = left.prepared(alloc, frame, delta, meter);
        let (on_left, from_left) = boxed(alloc, on_left)?;
        let on_right = right.prepared(alloc, frame, delta, meter);
        let (on_right, from_right) = boxed(alloc, on_right)?;
        let made = node.prepare(from_left.get(), from_right.get(), meter);
        let made = over_two(on_left, on_right, delta, made);
        then_drop(then_drop(made, from_left), from_right)
    }

    /// Puts the staged tree in place.
    pub fn commit(&mut self, staged: StagedTree)
        requires { HasRoomFor self.old staged }
        ensures over { (frames : List TaggedRows) → LeadsTo self.old staged frames
            → IsOver self.new frames }
        ensures operator { (frames : List TaggedRows) →
            output self.new frames ≡ output self.old frames }
        ensures takes { (frames : List TaggedRows) → Takes self.old frames
            → Takes self.new frames }
        ensures same_budget { budget self.new ≡ budget self.old }
        ensures same_bound { (frames after : List TaggedRows) →
            allowed self.new frames after ≡ allowed self.old frames after }
    {
        match (self, staged) {
            (LiveTree::Operator(input, node), StagedTree::Operator(below, staged)) => {
                input.commit(Box::into_inner(below));
                node.commit(staged);
            }
            (LiveTree::Join(left, right, node), StagedTree::Join(on_left, on_right, staged)) => {
                left.commit(Box::into_inner(on_left));
                right.commit(Box::into_inner(on_right));
                node.commit(staged);
            }
            // Staged by a tree of another shape, which no prepare of this one does.
            (_, staged) => drop(staged),
        }
    }
}
