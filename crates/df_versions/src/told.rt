//! What the caller of a change is told.
ghost use Rattle.std.specs.Prelude.{◌≡◌, ◌+◌, length};
ghost use Rattle.std.specs.List.{AllByRecursion};
ghost use Rattle.df_state.specs.States.{IsLegal};
ghost use Rattle.df_versions.specs.Histories.{AreAllowed, IsHistoryOver};

use crate::history::{History, Naming};
use std::marker::{Model, PhantomData};

/// The history up to a change, or up to the state that refused one or that a refused close found. A reader that learns it
/// sees no version from before. Contracts see the states.
pub struct Told<J: Naming> {
    history: History,
    of: PhantomData<J>,
}

// A body that owns one drops it by a call.
impl<J: Naming> Drop for Told<J> {
    fn drop(self) {
        let Told { history, of } = self;
        drop(history);
        drop(of);
    }
}

impl<J: Naming> Model for Told<J> {
    ghost use Rattle.std.specs.Prelude.{◌≡◌, List};
    ghost use Rattle.std.specs.Coded.{coded_list};
    ghost use Rattle.df_state.specs.declared.state.State.{State};
    ghost use Rattle.df_state.specs.contracts.state.State as state_type;
    ghost use Rattle.df_versions.specs.Histories.{AreAllowed, IsHistoryOver};

    ghost Value = { List State };

    ghost coded = { coded_list state_type.the_row.coded };

    ghost view = { λ t. t.history.1 };

    // Every change behind its opening is one that its name allows.
    ghost invariant = { λ t. (t.history.0 ≡ J.book) × IsHistoryOver J.schemas t.history.1
        × AreAllowed J.allows t.history.1 };
}

impl<J: Naming> Told<J> {
    pub(crate) fn of(history: History) -> Told<J>
        requires book { history.0 ≡ J.book }
        requires over { IsHistoryOver J.schemas history.1 }
        requires allowed { AreAllowed J.allows history.1 }
        ensures { result ≡ history.1 }
    {
        Told {
            history,
            of: PhantomData,
        }
    }

    /// The same once more: a caller who keeps it for a later change can let a reader learn it, too. It takes no memory.
    pub fn again(&self) -> Told<J>
        ensures { result ≡ self.now }
    {
        Told {
            history: self.history.again(),
            of: PhantomData,
        }
    }

    pub(crate) fn history(&self) -> &History
        ensures { result.now ≡ (J.book, self.now) }
    {
        &self.history
    }

    pub(crate) fn into_history(self) -> History
        ensures { result ≡ (J.book, self) }
    {
        let Told { history, of: _ } = self;
        history
    }

    /// How many states its history has.
    pub fn len(&self) -> u64
        ensures { result ≡ length self.now }
    {
        self.history.len()
    }

    /// The number of the version that its history ends with. All states of the history are legal.
    pub fn number(&self) -> u64
        ensures number { result + 1 ≡ length self.now }
        ensures over { IsHistoryOver J.schemas self.now }
        ensures legal { AllByRecursion IsLegal self.now }
        ensures allowed { AreAllowed J.allows self.now }
    {
        self.history.len() - 1
    }
}
