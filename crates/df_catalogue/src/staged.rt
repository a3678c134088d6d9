//! What a caller holds of a staged change.
ghost use Rattle.std.specs.Prelude.{◌≡◌, true};
ghost use Rattle.df_catalogue.specs.StagedChanges.{are_rows_staged, are_views_staged};

use crate::catalogue::Catalogue;
use std::snapshot::Snapshot;
use std::sync::ledger::Ledger;

/// The right to commit the change of rows that was staged last.
///
/// It has no bytes: the catalogue keeps what is staged. To drop it changes nothing, and one that is
/// stale cannot be committed.
pub struct StagedRows<Acc: Ledger, Del: Ledger> {
    /// The catalogue right after the staging, as contracts see it.
    pub catalogue: Snapshot<Catalogue<Acc, Del>>,
    ghost there: { are_rows_staged catalogue.value ≡ true },
}

// A body that owns one drops it by a call.
impl<Acc: Ledger, Del: Ledger> Drop for StagedRows<Acc, Del> {
    fn drop(self) {
        let StagedRows { catalogue } = self;
        drop(catalogue);
    }
}

/// The right to commit the change of views that was staged last. It is as [`StagedRows`] else.
pub struct StagedViews<Acc: Ledger, Del: Ledger> {
    /// The catalogue right after the staging, as contracts see it.
    pub catalogue: Snapshot<Catalogue<Acc, Del>>,
    ghost there: { are_views_staged catalogue.value ≡ true },
}

// A body that owns one drops it by a call.
impl<Acc: Ledger, Del: Ledger> Drop for StagedViews<Acc, Del> {
    fn drop(self) {
        let StagedViews { catalogue } = self;
        drop(catalogue);
    }
}
