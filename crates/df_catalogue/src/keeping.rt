//! What is kept of the last change: what it did to each view.
ghost use Rattle.std.specs.Prelude.{◌≡◌, IfOk, IfSome, None, Some, option_map};
ghost use Rattle.std.specs.Option.{option_copied};
ghost use Rattle.df_state.specs.Reads.{last_changes_of, view_schema_of};
ghost use Rattle.df_state.specs.States.{IsLegal};
ghost use Rattle.df_catalogue.specs.KeptChanges.{none_kept, tagged_table_of};

use crate::catalogue::Catalogue;
use crate::forgetting::forget_all;
use crate::staging::clear;
use df_column::Table;
use df_delta::Delta;
use df_live::LiveView;
use df_value::Shared;
use std::alloc::{AllocError, Global};
use std::sync::ledger::Ledger;

/// What the last change did to a view, and the view's table after it.
pub struct ViewChanges {
    pub changes: Shared<Delta>,
    pub table: Table,
}

// A body that owns one drops it by a call.
impl Drop for ViewChanges {
    fn drop(self) {
        let ViewChanges { changes, table } = self;
        drop(changes);
        drop(table);
    }
}

impl<Acc: Ledger, Del: Ledger> Catalogue<Acc, Del> {
    /// From now on each view keeps what a change of rows did to its table, until the next change that is made, or keeps it no
    /// longer. What is kept now is forgotten, and what is staged is dropped.
    pub fn keep_changes(&mut self, keeps: bool)
        ensures state { self.new.state ≡ self.old.state }
        ensures work { self.new.work ≡ self.old.work }
        ensures nothing_staged { self.new.staged ≡ None }
        ensures keeps { self.new.keeps ≡ keeps }
        ensures changes { self.new.changes ≡ none_kept self.new.state.views }
        ensures legal { IsLegal self.new.state }
    {
        clear(&mut self.staged);
        forget_all(&mut self.views);
        self.keeps = keeps;
    }

    /// What the last change of rows did to the view of this name: the rows that differ, by their tags. None where that is not
    /// kept, where views came or went since, and where there is no such view. It takes no memory.
    pub fn last_changes(&self, name: &str) -> Option<&Delta>
        ensures changes { option_copied result ≡ last_changes_of self.now name.now }
        ensures legal { IsLegal self.now.state }
    {
        let at = self.view_index(name)?;
        self.views[at].live.changes()
    }

    /// The same as a further owner of it, with a table that shares the blocks of the view's.
    pub fn view_changes(&self, alloc: Global, name: &str) -> Result<Option<ViewChanges>, AllocError>
        ensures changes { IfOk result (λ r. option_map (λ v. v.changes) r ≡ last_changes_of self.now name.now) }
        ensures table { IfOk result (λ r. IfSome r (λ v. tagged_table_of self.now.state name.now ≡ Some v.table.rows)) }
        ensures schema { IfOk result (λ r. IfSome r (λ v. view_schema_of self.now.state name.now ≡ Some v.table.schema)) }
        ensures legal { IsLegal self.now.state }
    {
        match self.view_index(name) {
            Some(at) => changes_of(alloc, &self.views[at].live),
            None => Ok(None),
        }
    }
}

// What the last change did to this view, and its table.
fn changes_of(alloc: Global, live: &LiveView) -> Result<Option<ViewChanges>, AllocError>
    ensures changes { IfOk result (λ r. option_map (λ v. v.changes) r ≡ live.now.changes) }
    ensures table { IfOk result (λ r. IfSome r (λ v. v.table ≡ live.now.table)) }
{
    match live.shared_changes()? {
        Some(changes) => {
            let table = live.table();
            match table.share(alloc) {
                Ok(table) => Ok(Some(ViewChanges { changes, table })),
                Err(refused) => {
                    drop(changes);
                    Err(refused)
                }
            }
        }
        None => Ok(None),
    }
}
