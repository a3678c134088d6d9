//! The commit of a staged change. It takes no memory and is not refused.
ghost use Rattle.std.specs.Prelude.{◌≡◌, Some, IsSomeAnd, option_map};
ghost use Rattle.df_catalogue.specs.StagedChanges.{IsCommit, counted_desk, counts_staged};

use crate::catalogue::Catalogue;
use crate::forgetting::{add_view, remove_view};
use crate::live_views::commit_all;
use crate::staged::{StagedRows, StagedViews};
use crate::staging::{StagedFrame, Staging, take_rows};
use df_state::Desk;
use std::sync::ledger::Ledger;

impl<Acc: Ledger, Del: Ledger> Catalogue<Acc, Del> {
    /// Makes the change of rows that was staged last, through a desk of its frame.
    pub fn commit_rows(&mut self, desk: &mut Desk<Acc, Del>, staged: StagedRows<Acc, Del>)
        requires last { staged.catalogue.value ≡ self.old }
        requires frame { option_map (λ r. r.frame) (counts_staged self.old) ≡ Some desk.old.frame }
        ensures made { IsCommit self.old self.new }
        ensures desk { IsSomeAnd (counts_staged self.old) (λ rows.
            desk.new ≡ counted_desk desk.old rows) }
    {
        let _ = staged;
        let Some(
            StagedFrame {
                frame,
                changed,
                views,
                work,
                accepted,
                deleted,
            },
        ) = take_rows(&mut self.staged)
        else {
            return;
        };
        desk.count_accepted(&mut self.accepted, accepted);
        desk.count_deleted(&mut self.deleted, deleted);
        self.frames[frame] = changed;
        commit_all(&mut self.views, views);
        self.work = work;
    }

    /// Makes the change of views that was staged last. What was kept of changes is forgotten.
    pub fn commit_views(&mut self, staged: StagedViews<Acc, Del>)
        requires last { staged.catalogue.value ≡ self.old }
        ensures made { IsCommit self.old self.new }
    {
        let _ = staged;
        match self.staged.take() {
            Some(Staging::NewView(view)) => add_view(&mut self.views, view),
            Some(Staging::OldView(at)) => remove_view(&mut self.views, at),
            other => drop(other),
        }
    }
}
