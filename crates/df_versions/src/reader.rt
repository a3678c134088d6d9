//! Readers, which never wait.
ghost use Rattle.std.specs.Prelude.{◌≡◌, ◌⊎◌, IfSome, IfNone};
ghost use Rattle.std.specs.Arc.{arc_value};
ghost use mathlib.Core.List.{IsPrefix};
ghost use Rattle.left_right.specs.Sides.{view};
ghost use Rattle.df_versions.specs.VersionRule.{Knows};
ghost use Rattle.df_versions.specs.Shown.{Shows};

use crate::history::{History, Naming};
use crate::told::Told;
use crate::version::{Sees, Version, VersionReader};
use core::mem::replace_with;
use std::alloc::Global;
use std::marker::Model;
use std::sync::Arc;

/// Takes versions. Contracts see the history's name, the states up to the newest version that was taken, and the longest
/// list of states that was learnt.
pub struct Reader {
    inner: VersionReader,
    seen: History,
    told: History,
}

// A body that owns one drops it by a call.
impl Drop for Reader {
    fn drop(self) {
        let Reader { inner, seen, told } = self;
        drop(inner);
        drop(seen);
        drop(told);
    }
}

impl Model for Reader {
    ghost use Rattle.std.specs.Prelude.{◌≡◌, List};
    ghost use Rattle.std.specs.Coded.{coded×, coded_list};
    ghost use Rattle.logbook.specs.Pages.{Book, book_coded};
    ghost use Rattle.df_state.specs.contracts.state.State as state_type;
    ghost use Rattle.df_state.specs.declared.state.State.{State};
    ghost use Rattle.left_right.specs.Sides.{view as view_of};
    ghost use Rattle.df_versions.specs.VersionRule.{Knows};

    ghost Value = { Book × (List State × List State) };

    ghost coded = { coded× book_coded
        (coded× (coded_list state_type.the_row.coded) (coded_list state_type.the_row.coded)) };

    ghost view = { λ r. (r.seen.0, (r.seen.1, r.told.1)) };

    ghost invariant = { λ r. (r.told.0 ≡ r.seen.0) × Knows r.seen.0 (view_of r.inner.place).known };
}

type Seen = Option<(Arc<Version, Global>, History)>;

// The newest version, with the history that it ends. The reader stays in the history of `seen`, and the version is of
// that one, too.
fn look(inner: VersionReader, seen: &History) -> (VersionReader, Seen)
    requires { Knows seen.now.0 (view inner.place).known }
    ensures known { Knows seen.now.0 (view result.0.place).known }
    ensures same { IfSome result.1 (λ v. v.1.0 ≡ seen.now.0) }
    ensures shows { IfSome result.1 (λ v. Shows v.1.1 (arc_value v.0)) }
{
    match inner.enter_as::<Sees>() {
        Ok(reading) => {
            let published = reading.get();
            let history = published.history.again();
            let _states = history.len();
            match Arc::try_clone(&published.version) {
                Ok(version) => (reading.leave(), Some((version, history))),
                Err(_) => (reading.leave(), None),
            }
        }
        Err(inner) => (inner, None),
    }
}

impl Reader {
    pub(crate) fn over(inner: VersionReader, history: History) -> Reader
        requires { Knows history.0 (view inner.place).known }
        ensures { result ≡ (history.0, (history.1, history.1)) }
    {
        let told = history.again();
        Reader {
            inner,
            seen: history,
            told,
        }
    }

    /// The newest version. Its history begins with all that this reader took and was told of. None once the publisher
    /// has ended, or where the version has as many owners as an `Arc` counts.
    ///
    /// It waits for nobody and takes no memory. The version stays as it is, whatever changes later.
    pub fn snapshot(&mut self) -> Option<Arc<Version, Global>>
        ensures book { self.new.0 ≡ self.old.0 }
        ensures told { self.new.1.1 ≡ self.old.1.1 }
        ensures later { IfSome result (λ v.
            IsPrefix self.old.1.0 self.new.1.0 × IsPrefix self.old.1.1 self.new.1.0) }
        ensures shows { IfSome result (λ v. Shows self.new.1.0 (arc_value v)) }
        ensures none { IfNone result (self.new ≡ self.old) }
    {
        let (version, history) = replace_with(&mut self.inner, &self.seen, look)?;
        if !self.seen.begins(&history) || !self.told.begins(&history) {
            return None;
        }
        self.seen = history;
        Some(version)
    }

    /// From now on each version that is taken has at least the history that was told. Of what was told the longest is
    /// kept. It waits for nobody and takes no memory.
    pub fn learn<J: Naming>(&mut self, told: Told<J>)
        requires { self.old.0 ≡ J.book }
        ensures same { (self.new.0 ≡ self.old.0) × (self.new.1.0 ≡ self.old.1.0) }
        ensures told { IsPrefix self.old.1.1 self.new.1.1 × IsPrefix told self.new.1.1 }
        ensures longest { (self.new.1.1 ≡ self.old.1.1) ⊎ (self.new.1.1 ≡ told) }
    {
        let history = told.into_history();
        if self.told.begins(&history) {
            self.told = history;
        }
    }
}
