//! The commands that read the catalogue.
ghost use Rattle.std.specs.Prelude.{◌≡◌, IfErr, IfOk, option_map, string_bytes};
ghost use Rattle.df_state.specs.Reads.{view_named, view_names_of};
ghost use Rattle.df_session.specs.Asked.{frame_index_of};
ghost use Rattle.df_session.specs.Told.{IsTold, names_text};
ghost use Rattle.df_session.specs.ViewChanges.{change_lines, change_text};
ghost use Rattle.df_shell.specs.Questions.{books_text, frame_text, rows_text, view_text, work_text};
ghost use Rattle.df_shell.specs.ToldChanges.{TellsLast};
ghost use Rattle.df_shell.specs.ViewTables.{GivesTable};

use df_catalogue::{Catalogue, CatalogueFault, ViewChanges};
use df_expr::WorkCounts;
use df_session::{
    Definitions, Format, Part, Refusal, ViewTable, books_of, names_lines, tell_change, write_part,
    write_rows,
};
use df_value::Text;
use std::alloc::{AllocError, Global};
use std::sync::ledger::Ledger;

/// The table of a view, or a part of its rows, in a format.
pub fn show<Acc: Ledger, Del: Ledger>(
    alloc: Global,
    catalogue: &Catalogue<Acc, Del>,
    view: &str,
    part: Part,
    format: Format,
) -> Result<Vec<u8>, Refusal>
    ensures { IsTold (option_map (view_text view.now part format)
        (view_named view.now catalogue.now.state.views)) (Refusal.Store CatalogueFault.NoView) result }
{
    let Some(schema) = catalogue.view_schema(view) else {
        return Err(Refusal::Store(CatalogueFault::NoView));
    };
    let rows = catalogue.view_rows(alloc, view)?;
    let name = Text::from_str(alloc, view)?;
    let rows = rows.as_slice();
    Ok(write_part(alloc, &name, schema, rows, part, format)?)
}

/// The table of a view as it stands.
pub fn view_table<Acc: Ledger, Del: Ledger>(
    alloc: Global,
    catalogue: &Catalogue<Acc, Del>,
    view: &str,
) -> Result<ViewTable, Refusal>
    ensures { GivesTable catalogue.now.state view.now result }
{
    match catalogue.view_table(view) {
        Some(table) => Ok(ViewTable::new(alloc, view, table.schema(), table)?),
        None => Err(Refusal::Store(CatalogueFault::NoView)),
    }
}

/// The table of a frame in a format, and the numbers of its rows.
pub fn rows<Acc: Ledger, Del: Ledger>(
    alloc: Global,
    definitions: &Definitions,
    catalogue: &Catalogue<Acc, Del>,
    frame: &str,
    format: Format,
) -> Result<Vec<u8>, Refusal>
    ensures { IsTold (frame_text (rows_text format) definitions.now catalogue.now.state
        (frame_index_of definitions.now frame.now)) (Refusal.Store CatalogueFault.NoFrame) result }
{
    let Some(at) = definitions.frame_index(frame) else {
        return Err(Refusal::Store(CatalogueFault::NoFrame));
    };
    let spec = &definitions.document.frames.as_slice()[at];
    let rows = catalogue.frame_rows(alloc, at)?;
    let numbers = catalogue.frame_numbers(alloc, at)?;
    let (rows, numbers) = (rows.as_slice(), numbers.as_slice());
    Ok(write_rows(alloc, &spec.name, &spec.schema, rows, numbers, format)?)
}

/// What the last change, which has this number, did to a view. None: the catalogue does not keep it.
pub fn changes<Acc: Ledger, Del: Ledger>(
    alloc: Global,
    catalogue: &Catalogue<Acc, Del>,
    number: u64,
    view: &str,
) -> Result<Option<Vec<u8>>, Refusal>
    ensures { TellsLast catalogue.now number view.now result }
{
    match catalogue.view_changes(alloc, view)? {
        Some(last) => Ok(Some(tell_last(alloc, view, number, last)?)),
        None => Ok(None),
    }
}

/// What a change of this number did to a view.
pub fn tell_last(
    alloc: Global,
    view: &str,
    number: u64,
    last: ViewChanges,
) -> Result<Vec<u8>, AllocError>
    ensures { IfOk result (λ text. text.items
        ≡ change_text view.now number (change_lines last.table.rows last.changes)) }
{
    let text = tell_change(alloc, view, number, &last.table, last.changes.get());
    drop(last);
    text
}

/// How many rows a frame accepted, how many were deleted, and how many it has.
pub fn books<Acc: Ledger, Del: Ledger>(
    alloc: Global,
    definitions: &Definitions,
    catalogue: &Catalogue<Acc, Del>,
    frame: &str,
) -> Result<Vec<u8>, Refusal>
    ensures { IsTold (frame_text (λ spec. books_text) definitions.now catalogue.now.state
        (frame_index_of definitions.now frame.now)) (Refusal.Store CatalogueFault.NoFrame) result }
{
    let Some(at) = definitions.frame_index(frame) else {
        return Err(Refusal::Store(CatalogueFault::NoFrame));
    };
    let books = (
        catalogue.accepted(at),
        catalogue.deleted(at),
        catalogue.live(at),
    );
    let (Some(accepted), Some(deleted), Some(live)) = books else {
        return Err(Refusal::Store(CatalogueFault::NoFrame));
    };
    let text = books_of(alloc, accepted, deleted, live)?;
    Ok(text.into_bytes())
}

/// What the views counted at the last change of rows.
pub fn work<Acc: Ledger, Del: Ledger>(
    alloc: Global,
    catalogue: &Catalogue<Acc, Del>,
) -> Result<Vec<u8>, Refusal>
    ensures told { IfOk result (λ text. text.items ≡ work_text catalogue.now.work) }
    ensures refused { IfErr result (λ r. r ≡ Refusal.Memory) }
{
    let text = work_of(alloc, catalogue.work())?;
    Ok(text.into_bytes())
}

fn work_of(alloc: Global, work: WorkCounts) -> Result<String, AllocError>
    ensures { IfOk result (λ text. string_bytes text ≡ work_text (record {
      evals = work.evals;
      finishes = work.finishes;
      probes = work.probes;
      windows = work.windows;
    })) }
{
    let WorkCounts {
        evals,
        finishes,
        probes,
        windows,
    } = work;
    format!(in alloc; "evals {evals}, finishes {finishes}, probes {probes}, windows {windows}\n")
}

/// The names of the views, a line each.
pub fn views<Acc: Ledger, Del: Ledger>(
    alloc: Global,
    catalogue: &Catalogue<Acc, Del>,
) -> Result<Vec<u8>, Refusal>
    ensures told { IfOk result (λ text. text.items ≡ names_text (view_names_of catalogue.now.state)) }
    ensures refused { IfErr result (λ r. r ≡ Refusal.Memory) }
{
    let names = catalogue.view_names(alloc)?;
    Ok(names_lines(alloc, names.as_slice())?)
}
