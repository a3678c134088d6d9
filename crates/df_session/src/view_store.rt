//! What a session asks of what holds its frames and views.
ghost use Rattle.std.specs.Prelude.{IfErr, OnErr, OnOk};

use crate::command::Question;
use crate::definitions::Definitions;
use crate::refusal::Refusal;
use df_state::Change;
use std::alloc::Global;

/// What holds the frames and views of a session, and answers it.
pub trait ViewStore {
    ghost use Rattle.std.specs.Prelude.{ℕ, Result};
    ghost use Rattle.std.specs.Global.{Vec as Bytes};
    ghost use Rattle.df_state.specs.declared.change.Change.{Change as AnyChange};
    ghost use Rattle.df_session.specs.declared.command.Question.{Question as AnyQuestion};
    ghost use Rattle.df_session.specs.declared.definitions.Definitions.{Definitions as AnyDefinitions};
    ghost use Rattle.df_session.specs.declared.refusal.Refusal.{Refusal as AnyRefusal};

    /// The change was made.
    ghost Makes: { Self → Self → AnyChange → Type 0 };

    /// The change was refused so.
    ghost Refuses: { Self → Self → AnyChange → AnyRefusal → Type 0 };

    /// No change was made.
    ghost Keeps: { Self → Self → Type 0 };

    /// The question was answered so.
    ghost Answers: { Self → Self → AnyDefinitions → AnyQuestion → Result (Bytes ℕ) AnyRefusal → Type 0 };

    /// Further rows of the frame at this index begin behind all numbers that it accepted at this one.
    ghost Next: { Self → ℕ → ℕ → Type 0 };

    /// Makes a change. Where it is refused nothing was done.
    fn make(&mut self, alloc: Global, change: Change) -> Result<(), Refusal>
        ensures made { OnOk result (Makes self.old self.new change) }
        ensures refused { IfErr result (Refuses self.old self.new change) }
        ensures same { OnErr result (Keeps self.old self.new) };

    /// Answers a question, by the names that a document gives its frames and views.
    fn answer(
        &mut self,
        alloc: Global,
        definitions: &Definitions,
        question: Question<'_>,
    ) -> Result<Vec<u8>, Refusal>
        ensures { Answers self.old self.new definitions.now question.entry result };

    /// The number behind all that a frame ever accepted, also where its row was deleted.
    fn next_number(&self, frame: usize) -> u64
        ensures { Next self.now frame result };

    ghost stays: { (s : Self) → Keeps s s };
}
