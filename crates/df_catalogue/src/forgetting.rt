//! Views come and go, and the last changes of all are forgotten.
ghost use Rattle.std.specs.Prelude.{◌≡◌, ◌<◌, ◌++◌, ◌∷◌, [], None, List, length, remove, vec_capacity, vec_len};
ghost use Rattle.df_column.specs.Tables.{TaggedRows};
ghost use Rattle.df_live.specs.Views.{IsLive};
ghost use Rattle.df_catalogue.specs.KeptChanges.{AreForgotten};

use crate::views::View;

/// Keeps the last changes of the views no longer.
pub fn forget_all(views: &mut Vec<View>)
    ensures { AreForgotten views.old.items views.new.items }
{
    forget_each(views.as_mut_slice())
}

/// Adds a view last, for which there is room, and keeps no changes of before.
pub fn add_view(views: &mut Vec<View>, view: View)
    requires { vec_len views.old < vec_capacity views.old }
    ensures { AreForgotten (views.old.items ++ view ∷ []) views.new.items }
{
    views.push_reserved(view);
    forget_all(views)
}

/// Takes the view of this index out, and keeps no changes of before.
pub fn remove_view(views: &mut Vec<View>, at: usize)
    requires { at < length views.old.items }
    ensures { AreForgotten (remove views.old.items at) views.new.items }
{
    drop(views.remove(at));
    forget_all(views)
}

// Keeps the last change of each view no longer.
fn forget_each(views: &mut [View])
    ensures { AreForgotten views.old views.new }
{
    for at in 0..views.len() {
        forget_view(&mut views[at]);
    }
}

// Keeps the last change of one view no longer.
fn forget_view(view: &mut View)
    ensures name { view.new.name ≡ view.old.name }
    ensures plan { view.new.live.plan ≡ view.old.live.plan }
    ensures live { (frames : List TaggedRows) → IsLive view.old.live frames → IsLive view.new.live frames }
    ensures changes { view.new.live.changes ≡ None }
{
    view.live.forget_changes();
}
