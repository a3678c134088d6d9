//! The live node of two inputs.
use df_delta::{Delta, TwoSidedNode};
use df_expr::Meter;
use df_join::{LiveJoin, StagedJoin};
use std::alloc::AllocError;

/// A live node of two inputs, which is a join. It promises and costs what the join does.
pub struct JoinOperator {
    pub join: LiveJoin,
}

// A body that owns one drops it by a call.
impl Drop for JoinOperator {
    fn drop(self) {
        let JoinOperator { join } = self;
        drop(join);
    }
}

impl TwoSidedNode for JoinOperator {
    type Staged = StagedJoin;

    ghost use Rattle.df_live.specs.JoinOperators.{join_takes, is_join_over, join_gives, has_join_room, join_leads, join_budget, join_allowed};

    ghost Takes = { join_takes };

    ghost IsOver = { is_join_over };

    ghost output = { join_gives };

    ghost HasRoomFor = { has_join_room };

    ghost LeadsTo = { join_leads };

    ghost budget = { join_budget };

    ghost allowed = { join_allowed };

    #[tactic(auto, unfolding(crate::specs::JoinOperators::join_takes, crate::specs::JoinOperators::is_join_over, crate::specs::JoinOperators::join_gives, crate::specs::JoinOperators::has_join_room, crate::specs::JoinOperators::join_leads, crate::specs::JoinOperators::join_budget, crate::specs::JoinOperators::join_allowed))]
    fn prepare(
        &mut self,
        left: &Delta,
        right: &Delta,
        meter: &mut Meter,
    ) -> Result<(StagedJoin, Delta), AllocError> {
        self.join.prepare(left, right, meter)
    }

    #[tactic(auto, unfolding(crate::specs::JoinOperators::join_takes, crate::specs::JoinOperators::is_join_over, crate::specs::JoinOperators::join_gives, crate::specs::JoinOperators::has_join_room, crate::specs::JoinOperators::join_leads, crate::specs::JoinOperators::join_budget, crate::specs::JoinOperators::join_allowed))]
    fn commit(&mut self, staged: StagedJoin) {
        self.join.commit(staged)
    }
}
