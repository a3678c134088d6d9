//! The questions that a version answers.
ghost use Rattle.std.specs.Prelude.{◌≡◌, IfErr, IfOk, find, map, slice_get, string_bytes};
ghost use Rattle.std.specs.Option.{option_copied};
ghost use Rattle.df_state.specs.Pictures.{frame_len_in, view_rows_in};
ghost use Rattle.df_session.specs.Asked.{frame_index_of, plan_named};
ghost use Rattle.df_session.specs.Told.{IsMemory, IsTold, check_text, names_text};
ghost use Rattle.df_shell.specs.ToldChanges.{FindsIn, NamesIn};
ghost use Rattle.df_shell.specs.ViewTables.{GivesTableIn};
ghost use Rattle.df_shell.specs.Versions.{counted_text, differs_from, first_differing_in, numbered_text, refusal_with_hall, shown_text, text_of_index, text_of_version, version_line};

use df_catalogue::{CatalogueFault, Desk};
use df_session::{
    Definitions, Format, Mistake, Part, Question, Refusal, RowCounts, ViewTable, books_of,
    describe_frames, describe_plan, describe_table, names_lines, verdict, write_part, write_rows,
};
use df_value::{List, Text};
use df_versions::Version;
use std::alloc::{AllocError, Global};
use std::sync::ledger::Ledger;

/// Answers a question from a version, and from the desks where it is one of books. The plans and schemas are those of the
/// document, of which a version has none.
pub fn answer_from_version<Acc: Ledger, Del: Ledger>(
    alloc: Global,
    definitions: &Definitions,
    version: &Version,
    desks: &[Desk<Acc, Del>],
    question: Question<'_>,
) -> Result<Vec<u8>, Refusal>
    ensures { IsTold (text_of_version definitions.now desks.now version.now question.entry)
        (refusal_with_hall question.entry) result }
{
    match question {
        Question::Frames => Ok(describe_frames(alloc, definitions, &VersionCounts { version })?),
        Question::Schema(name) => describe_table(alloc, definitions, name),
        Question::Plan(view) => describe_plan(alloc, definitions, view),
        Question::Show(view, part, format) => show(alloc, definitions, version, view, part, format),
        Question::Rows(frame, format) => rows(alloc, definitions, version, frame, format),
        Question::Books(frame) => books(alloc, definitions, version, desks, frame),
        Question::Views => views(alloc, version),
        Question::Check => check(alloc, definitions, version),
        Question::Work => Err(Refusal::Mistake(Mistake::NotWithHall)),
        Question::Version => Ok(number(alloc, version)?.into_bytes()),
    }
}

/// How many rows the frames of a version have.
#[derive(Clone, Copy)]
struct VersionCounts<'a> {
    version: &'a Version,
}

impl<'a> RowCounts for VersionCounts<'a> {
    ghost counts = { λ c at. frame_len_in c.version.now.1 at };

    fn row_count(&self, frame: usize) -> Option<u64> {
        self.version.frame_len(frame)
    }
}

// The table of a view, or a part of its rows, in a format.
fn show(
    alloc: Global,
    definitions: &Definitions,
    version: &Version,
    view: &str,
    part: Part,
    format: Format,
) -> Result<Vec<u8>, Refusal>
    ensures { IsTold (shown_text view.now part format (plan_named definitions.now view.now)
        (view_rows_in version.now.1 view.now)) (Refusal.Store CatalogueFault.NoView) result }
{
    let Some(plan) = definitions.plan(view) else {
        return Err(Refusal::Store(CatalogueFault::NoView));
    };
    let rows = version.view_rows(alloc, view)?;
    let name = Text::from_str(alloc, view)?;
    let rows = rows.as_slice();
    Ok(write_part(alloc, &name, plan.schema(), rows, part, format)?)
}

// The table of a frame in a format, and the numbers of its rows.
fn rows(
    alloc: Global,
    definitions: &Definitions,
    version: &Version,
    frame: &str,
    format: Format,
) -> Result<Vec<u8>, Refusal>
    ensures { IsTold (text_of_index (λ at. numbered_text format
        (slice_get definitions.now.document.frames at) (slice_get version.now.1.frames at))
        (frame_index_of definitions.now frame.now)) (Refusal.Store CatalogueFault.NoFrame) result }
{
    let Some(at) = definitions.frame_index(frame) else {
        return Err(Refusal::Store(CatalogueFault::NoFrame));
    };
    let spec = &definitions.document.frames.as_slice()[at];
    let rows = version.frame_rows(alloc, at)?;
    let numbers = version.frame_numbers(alloc, at)?;
    let (rows, numbers) = (rows.as_slice(), numbers.as_slice());
    Ok(write_rows(alloc, &spec.name, &spec.schema, rows, numbers, format)?)
}

// How many rows were accepted and deleted through the desk of a frame, and how many the frame has.
fn books<Acc: Ledger, Del: Ledger>(
    alloc: Global,
    definitions: &Definitions,
    version: &Version,
    desks: &[Desk<Acc, Del>],
    frame: &str,
) -> Result<Vec<u8>, Refusal>
    ensures { IsTold (text_of_index (λ at. counted_text
        (slice_get desks.now at) (slice_get version.now.1.frames at))
        (frame_index_of definitions.now frame.now)) (Refusal.Store CatalogueFault.NoFrame) result }
{
    let Some(at) = definitions.frame_index(frame) else {
        return Err(Refusal::Store(CatalogueFault::NoFrame));
    };
    let (Some(desk), Some(live)) = (desks.get(at), version.frame_len(at)) else {
        return Err(Refusal::Store(CatalogueFault::NoFrame));
    };
    Ok(books_of(alloc, desk.accepted(), desk.deleted(), live)?.into_bytes())
}

/// The table of a view as it stands in a version, with the schema of the document's plan of its name.
pub fn view_table(
    alloc: Global,
    definitions: &Definitions,
    version: &Version,
    view: &str,
) -> Result<ViewTable, Refusal>
    ensures { GivesTableIn definitions.now version.now.1 view.now result }
{
    let Some(plan) = definitions.plan(view) else {
        return Err(Refusal::Store(CatalogueFault::NoView));
    };
    match version.view_table(view) {
        Some(table) => Ok(ViewTable::new(alloc, view, plan.schema(), table)?),
        None => Err(Refusal::Store(CatalogueFault::NoView)),
    }
}

/// Whether a view of this name is registered.
pub fn has_view(alloc: Global, version: &Version, view: &str) -> Result<bool, Refusal>
    ensures { FindsIn version.now.1 view.now result }
{
    let names = version.view_names(alloc)?;
    Ok(names.as_slice().iter().any(|name| name.as_str() == view))
}

/// The names of the registered views, in their order.
pub fn view_names(alloc: Global, version: &Version) -> Result<List<Text>, Refusal>
    ensures { NamesIn version.now.1 result }
{
    Ok(version.view_names(alloc)?)
}

// The names of the views, a line each.
fn views(alloc: Global, version: &Version) -> Result<Vec<u8>, Refusal>
    ensures told { IfOk result (λ text.
        text.items ≡ names_text (map (λ v. v.0) version.now.1.views)) }
    ensures refused { IfErr result (λ r. r ≡ Refusal.Memory) }
{
    let names = version.view_names(alloc)?;
    Ok(names_lines(alloc, names.as_slice())?)
}

fn number(alloc: Global, version: &Version) -> Result<String, AllocError>
    ensures { IfOk result (λ text. string_bytes text ≡ version_line version.now.0) }
{
    let number = version.number();
    format!(in alloc; "version {number}\n")
}

// Computes each view anew from the frames, and compares.
fn check(alloc: Global, definitions: &Definitions, version: &Version) -> Result<Vec<u8>, Refusal>
    ensures told { IfOk result (λ text.
        text.items ≡ check_text (first_differing_in definitions.now version.now.1)) }
    ensures refused { IfErr result IsMemory }
{
    let names = version.view_names(alloc)?;
    let found = first_differing(alloc, definitions, version, names.as_slice())?;
    Ok(verdict(alloc, found)?)
}

// The name of the first view that differs.
fn first_differing<'a>(
    alloc: Global,
    definitions: &Definitions,
    version: &Version,
    names: &'a [Text],
) -> Result<Option<&'a Text>, Refusal>
    ensures found { IfOk result (λ name. option_copied name
        ≡ find (λ n. differs_from version.now.1 (plan_named definitions.now n)
        (view_rows_in version.now.1 n)) names.now) }
    ensures refused { IfErr result IsMemory }
{
    for name in names {
        if differs(alloc, definitions, version, name.as_str())? {
            return Ok(Some(name));
        }
    }
    Ok(None)
}

// Whether the view has other rows than the plain evaluator gives of the document's plan of its name.
fn differs(
    alloc: Global,
    definitions: &Definitions,
    version: &Version,
    name: &str,
) -> Result<bool, Refusal>
    ensures differs { IfOk result (λ d. d ≡ differs_from version.now.1
        (plan_named definitions.now name.now) (view_rows_in version.now.1 name.now)) }
    ensures refused { IfErr result IsMemory }
{
    let Some(plan) = definitions.plan(name) else {
        return Ok(true);
    };
    match version.view_rows(alloc, name) {
        Ok(rows) => Ok(rows != version.computed_rows(alloc, plan)?),
        Err(CatalogueFault::NoView) => Ok(true),
        Err(fault) => Err(Refusal::Store(fault)),
    }
}
