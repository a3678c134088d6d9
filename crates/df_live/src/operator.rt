//! One type for the live nodes of one input.
use df_delta::{Delta, LiveNode};
use df_expr::Meter;
use df_group::{LiveGroup, StagedGroups};
use df_nodes::{ChangedTables, LiveFilter, LiveMap, LiveSum, LiveWindow, NothingStaged};
use df_ranks::{LiveRank, StagedRank};
use std::alloc::AllocError;

/// A live node of one input, by its kind. It promises and costs what the node in it does.
pub enum LiveOperator {
    /// Of a filter.
    Filter(LiveFilter),
    /// Of a select or a with_columns.
    Map(LiveMap),
    /// Of a rolling window.
    Window(LiveWindow),
    /// Of a cumulative sum.
    Sum(LiveSum),
    /// Of a rank.
    Rank(LiveRank),
    /// Of a group-by.
    Group(LiveGroup),
}

// A body that owns one drops it by a call.
impl Drop for LiveOperator {
    fn drop(self) {
        match self {
            LiveOperator::Filter(node) => drop(node),
            LiveOperator::Map(node) => drop(node),
            LiveOperator::Window(node) => drop(node),
            LiveOperator::Sum(node) => drop(node),
            LiveOperator::Rank(node) => drop(node),
            LiveOperator::Group(node) => drop(node),
        }
    }
}

/// What a prepare of a node of one input staged.
#[derive(Drop)]
pub enum StagedOperator {
    /// By a filter.
    Filter(NothingStaged),
    /// By a select or a with_columns.
    Map(NothingStaged),
    /// By a rolling window.
    Window(ChangedTables),
    /// By a cumulative sum.
    Sum(ChangedTables),
    /// By a rank.
    Rank(StagedRank),
    /// By a group-by.
    Group(StagedGroups),
}

impl LiveNode for LiveOperator {
    type Staged = StagedOperator;

    ghost use Rattle.df_live.specs.Operators.{operator_takes, is_operator_over, operator_output, has_operator_room, operator_leads, operator_budget, operator_allowed};

    ghost Takes = { operator_takes };

    ghost IsOver = { is_operator_over };

    ghost output = { operator_output };

    ghost HasRoomFor = { has_operator_room };

    ghost LeadsTo = { operator_leads };

    ghost budget = { operator_budget };

    ghost allowed = { operator_allowed };

    #[tactic(auto, unfolding(crate::specs::Operators::operator_takes, crate::specs::Operators::is_operator_over, crate::specs::Operators::operator_output, crate::specs::Operators::has_operator_room, crate::specs::Operators::operator_leads, crate::specs::Operators::operator_budget, crate::specs::Operators::operator_allowed))]
    fn prepare(
        &mut self,
        delta: &Delta,
        meter: &mut Meter,
    ) -> Result<(StagedOperator, Delta), AllocError> {
        match self {
            LiveOperator::Filter(node) => {
                let (staged, changes) = node.prepare(delta, meter)?;
                Ok((StagedOperator::Filter(staged), changes))
            }
            LiveOperator::Map(node) => {
                let (staged, changes) = node.prepare(delta, meter)?;
                Ok((StagedOperator::Map(staged), changes))
            }
            LiveOperator::Window(node) => {
                let (staged, changes) = node.prepare(delta, meter)?;
                Ok((StagedOperator::Window(staged), changes))
            }
            LiveOperator::Sum(node) => {
                let (staged, changes) = node.prepare(delta, meter)?;
                Ok((StagedOperator::Sum(staged), changes))
            }
            LiveOperator::Rank(node) => {
                let (staged, changes) = node.prepare(delta, meter)?;
                Ok((StagedOperator::Rank(staged), changes))
            }
            LiveOperator::Group(node) => {
                let (staged, changes) = node.prepare(delta, meter)?;
                Ok((StagedOperator::Group(staged), changes))
            }
        }
    }

    #[tactic(auto, unfolding(crate::specs::Operators::operator_takes, crate::specs::Operators::is_operator_over, crate::specs::Operators::operator_output, crate::specs::Operators::has_operator_room, crate::specs::Operators::operator_leads, crate::specs::Operators::operator_budget, crate::specs::Operators::operator_allowed))]
    fn commit(&mut self, staged: StagedOperator) {
        match (self, staged) {
            (LiveOperator::Filter(node), StagedOperator::Filter(staged)) => node.commit(staged),
            (LiveOperator::Map(node), StagedOperator::Map(staged)) => node.commit(staged),
            (LiveOperator::Window(node), StagedOperator::Window(staged)) => node.commit(staged),
            (LiveOperator::Sum(node), StagedOperator::Sum(staged)) => node.commit(staged),
            (LiveOperator::Rank(node), StagedOperator::Rank(staged)) => node.commit(staged),
            (LiveOperator::Group(node), StagedOperator::Group(staged)) => node.commit(staged),
            // Staged by a node of another kind, which no prepare of this one does.
            (_, staged) => drop(staged),
        }
    }
}
