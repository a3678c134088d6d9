//! What a session asks of a store besides, to tell what changes do to its views.
use crate::definitions::Definitions;
use crate::refusal::Refusal;
use crate::view_store::ViewStore;
use crate::view_table::ViewTable;
use df_value::{List, Text};
use std::alloc::Global;

/// A store of views that knows what the last change did to each of them.
pub trait ChangeStore: ViewStore {
    ghost use Rattle.std.specs.Prelude.{ℕ, Bool, List as Seq, Option, Result};
    ghost use Rattle.std.specs.Global.{Vec as Bytes};
    ghost use Rattle.df_session.specs.declared.definitions.Definitions.{Definitions as AnyDefinitions};
    ghost use Rattle.df_session.specs.declared.refusal.Refusal.{Refusal as AnyRefusal};
    ghost use Rattle.df_session.specs.declared.view_table.ViewTable.{ViewTable as AnyTable};

    /// From now on it is kept what changes do to the views, or it is not. No change was made.
    ghost Turns: { Self → Self → Bool → Type 0 };

    /// What the last change did to the view of a name is told so.
    ghost Tells: { Self → Seq ℕ → Result (Option (Bytes ℕ)) AnyRefusal → Type 0 };

    /// Whether a view of a name is registered was answered so.
    ghost Finds: { Self → Self → Seq ℕ → Result Bool AnyRefusal → Type 0 };

    /// The names of the views were answered so.
    ghost Names: { Self → Self → Result (Seq (Seq ℕ)) AnyRefusal → Type 0 };

    /// The table of the view of a name was given so.
    ghost Tables: { Self → Self → AnyDefinitions → Seq ℕ → Result AnyTable AnyRefusal → Type 0 };

    /// This is the number of the last change.
    ghost Numbers: { Self → ℕ → Type 0 };

    /// Keeps from now on what changes do to the views, or keeps it no longer. What is kept is forgotten.
    fn keep_changes(&mut self, keeps: bool)
        ensures { Turns self.old self.new keeps };

    /// What the last change did to the view of this name, behind a line with the name and the number of the change, as
    /// [`tell_change`](crate::tell_change) has it. None: nothing is kept of it, or it was no change of rows.
    fn changes(&self, alloc: Global, view: &str) -> Result<Option<Vec<u8>>, Refusal>
        ensures { Tells self.now view.now result };

    /// Whether a view of this name is registered.
    fn has_view(&mut self, alloc: Global, view: &str) -> Result<bool, Refusal>
        ensures { Finds self.old self.new view.now result };

    /// The names of the registered views, in their order.
    fn view_names(&mut self, alloc: Global) -> Result<List<Text>, Refusal>
        ensures { Names self.old self.new result };

    /// The table of the view of this name as it stands, by the names that a document gives its views. It shares the blocks of the
    /// store's own.
    fn view_table(
        &mut self,
        alloc: Global,
        definitions: &Definitions,
        view: &str,
    ) -> Result<ViewTable, Refusal>
        ensures { Tables self.old self.new definitions.now view.now result };

    /// The number of the last change: how many were accepted. It takes no memory.
    fn change_number(&self) -> u64
        ensures { Numbers self.now result };
}
