//! The one history of a catalogue. It exists in proofs alone: at run time it is a word, its length.
ghost use Rattle.std.specs.Prelude.{◌≡◌, ◌-◌, ◌<◌, ◌^◌, ◌++◌, ◌∷◌, [], length, IsTrue, None, true, false};
ghost use Rattle.std.specs.List.{AllByRecursion};
ghost use mathlib.Core.List.{IsPrefix};
ghost use Rattle.df_state.specs.States.{IsLegal};
ghost use Rattle.df_versions.specs.Histories.{IsHistory, MayFollow};
ghost use Rattle.df_versions.specs.HistoryRule.{head_of};

use df_state::State;
use logbook::{Gain, Offer, Plain, Play, Rule, Seen, Start, Word};
use std::marker::{Brand, Model};

/// The rule of the word: it is the length of the history, which is lawful.
pub struct HistoryRule;

impl Rule<State, u64> for HistoryRule {
    ghost use Rattle.std.specs.Prelude.{[]};
    ghost use base.Fml.{ftrue};
    ghost use Rattle.df_versions.specs.HistoryRule.{IsKept};

    ghost holds = { λ cells log. IsKept cells log };

    ghost first = { [] };

    ghost hinted = { λ n log. Unit {0} };

    ghost shows = { λ log. [] };

    ghost keeps = { λ names log. ftrue };

    ghost moves = { λ ask before after answer. Unit {0} };
}

/// A step trades nothing with its caller.
pub struct NoGain;

impl Gain<State, u64> for NoGain {
    ghost use base.Fml.{ftrue};

    ghost after = { λ names about answer. ftrue };
}

/// The step that adds a state.
pub struct AddState;

impl Play<State, u64> for AddState {
    ghost use Rattle.df_versions.specs.HistoryRule.{Adds};

    ghost then = { Adds };
}

/// Which history it is: contracts see its name, the schemas of the frames of its states, and which changes may be steps of
/// it. Each call of a program picks one, at `Brand`.
pub trait Naming {
    ghost use Rattle.std.specs.Prelude.{ℕ, List};
    ghost use Rattle.df_value.specs.declared.cell.CellType.{CellType};
    ghost use Rattle.df_state.specs.declared.change.Change.{Change};
    ghost use Rattle.logbook.specs.Pages.{Book};

    ghost book: { Book };

    ghost schemas: { List (List (List ℕ × CellType)) };

    ghost allows: { Change → Type 0 };
}

impl Naming for Brand {
    ghost use Rattle.std.specs.Prelude.{[]};

    ghost book = { record { number = 0; log_name = 0; cells_name = 0 } };

    ghost schemas = { [] };

    ghost allows = { λ c. Unit {0} };
}

/// The word of a history, its length.
pub type Head = Word<State, u64, HistoryRule>;

/// The states of a history so far, as somebody knows them: later ones may have come. Contracts see which history it is,
/// and these states.
pub struct History {
    states: u64,
    seen: Seen<State, u64, HistoryRule>,
}

// A body that owns one drops it by a call.
impl Drop for History {
    fn drop(self) {
        let History { states: _, seen } = self;
        drop(seen);
    }
}

impl Model for History {
    ghost use Rattle.std.specs.Prelude.{◌≡◌, List, length};
    ghost use Rattle.std.specs.Coded.{coded×, coded_list};
    ghost use Rattle.logbook.specs.Pages.{Book, book_coded};
    ghost use Rattle.df_state.specs.declared.state.State.{State};
    ghost use Rattle.df_state.specs.contracts.state.State as state_type;
    ghost use Rattle.df_versions.specs.Histories.{IsHistory};

    ghost Value = { Book × List State };

    ghost coded = { coded× book_coded (coded_list state_type.the_row.coded) };

    ghost view = { λ h. (h.seen.book, h.seen.log) };

    ghost invariant = { λ h. (h.states ≡ length h.seen.log) × IsHistory h.seen.log };
}

/// A new history, with no state yet.
pub(crate) fn open() -> (Head, History)
    ensures head { result.0 ≡ head_of result.1.0 }
    ensures empty { result.1.1 ≡ [] }
{
    let (seen, mut first, _second) = Seen::open(Start::alone(), 0, 0);
    (Word::tracked(0, &mut first), History { states: 0, seen })
}

impl History {
    /// How many states it has. All of them are legal.
    pub fn len(&self) -> u64
        ensures length { result ≡ length self.now.1 }
        ensures lawful { IsHistory self.now.1 }
        ensures legal { AllByRecursion IsLegal self.now.1 }
    {
        self.states
    }

    /// The same states once more.
    pub(crate) fn again(&self) -> History
        ensures { result ≡ self.now }
    {
        History {
            states: self.states,
            seen: self.seen.again(),
        }
    }

    /// Whether it is no longer than the other one, which then begins with it.
    pub(crate) fn begins(&self, other: &History) -> bool
        requires { self.now.0 ≡ other.now.0 }
        ensures begins { result ≡ true → IsPrefix self.now.1 other.now.1 }
        ensures ends { result ≡ false → IsPrefix other.now.1 self.now.1 }
        ensures longer { result ≡ false → length other.now.1 < length self.now.1 }
    {
        let mut both = self.seen.again();
        both.learn(&other.seen);
        self.states <= other.states
    }

    /// Adds the state that M asks for, unless the history has gone on from here. Whoever has the head alone finds that
    /// it has not.
    pub(crate) fn extend<X, M: Plain<X, State, u64>>(&mut self, head: &Head, about: &X) -> bool
        requires head { head.now ≡ head_of self.old.0 }
        requires room { length self.old.1 < 2 ^ 64 - 1 }
        requires plain { M.state about.now ≡ None }
        requires lawful { MayFollow self.old.1 (M.ask about.now) }
        ensures book { self.new.0 ≡ self.old.0 }
        ensures added { IsTrue result → self.new.1 ≡ self.old.1 ++ M.ask about.now ∷ [] }
    {
        let mut offer: Offer<State, u64, HistoryRule, NoGain> = self
            .seen
            .plain::<NoGain, X, M>(about);
        let mut pen = self.seen.no_pen();
        let states = self.states;
        let found = head.compare_exchange::<AddState, NoGain>(
            states,
            states + 1,
            &mut self.seen,
            &mut offer,
            &mut pen,
        );
        self.states = if found == states { states + 1 } else { found };
        found == states
    }
}
