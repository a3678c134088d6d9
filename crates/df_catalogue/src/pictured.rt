//! Views as a picture shows them.
ghost use Rattle.std.specs.Prelude.{◌≡◌, IfOk, map};
ghost use Rattle.df_state.specs.Pictures as pictures;
ghost use Rattle.df_catalogue.specs.LiveViews.{view_state};

use crate::views::View;
use df_state::PicturedView;
use df_value::Duplicate;
use std::alloc::{AllocError, Global};

/// The views' names, with tables that share their blocks.
pub fn pictured_views(alloc: Global, views: &[View]) -> Result<Vec<PicturedView>, AllocError>
    ensures { IfOk result (λ pictured. map pictures.named_rows_in pictured.items
        ≡ map (λ v. pictures.named_rows (view_state v)) views.now) }
{
    let mut pictured = Vec::with_capacity(alloc, views.len())?;
    for view in views {
        pictured.push(pictured_view(alloc, view)?)?;
    }
    Ok(pictured)
}

/// A view's name, with a table that shares its blocks.
pub fn pictured_view(alloc: Global, view: &View) -> Result<PicturedView, AllocError>
    ensures name { IfOk result (λ p. p.name ≡ view.now.name) }
    ensures table { IfOk result (λ p. p.table ≡ view.now.live.table) }
{
    let name = view.name.copy(alloc)?;
    let table = view.live.table();
    let table = table.share(alloc)?;
    Ok(PicturedView { name, table })
}
