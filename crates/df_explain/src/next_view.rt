//! Faults of one more view of a document in words.
ghost use Rattle.std.specs.Prelude.{◌≡◌, ◌++◌, IfErr, IfOk, List, Ok, codes, map, string_bytes, ℕ};
ghost use Rattle.toml.specs.Data.{no_members};
ghost use Rattle.toml.specs.View.{table_view, view as view_of_value};
ghost use Rattle.df_document.specs.Opening.{schemas_of};
ghost use Rattle.df_explain.specs.Explanations.{AreWordsOf};
ghost use Rattle.df_explain.specs.Places.{IsOneLine, location_of as spec_location_of, place_in_steps};
ghost use Rattle.df_explain.specs.PlanPlaces.{IsPlanText};
ghost use Rattle.df_explain.specs.ReadSteps.{AreStepsOf};
ghost use Rattle.df_explain.specs.Trees.{steps_said, tree_in};
ghost use Rattle.df_text.specs.Document.{next_view_of};
ghost use Rattle.df_text.specs.declared.document.ViewSpec.{ViewSpec};

use crate::names::{appended, first_line};
use crate::part::array_at;
use crate::place::place_in_view;
use crate::plan_words::words_in_plan;
use crate::step_words::step_words;
use crate::views_words::location_of;
use crate::written_view::WrittenView;
use df_document::DocumentFault;
use df_plan::PlanFault;
use df_text::{FrameSpec, Location, Views, ViewsFault, read_next_view};
use std::alloc::{AllocError, Global};
use toml::Table;

/// What stands before the steps of a view in its table.
const KEY: &[u8] = b"steps = ";

/// Why one more view of a document is refused, given as to [`df_document::open_next_view`], whose fault this is: the place in its
/// steps, counted from 1, what is wrong there and what would do. It is one line, without an end. The word of a step is the
/// one that stands there, also where the step was found by the plan.
pub fn next_view_words(
    alloc: Global,
    document: &Views,
    name: &str,
    source: &str,
    steps: &[u8],
    fault: &DocumentFault,
) -> Result<String, AllocError>
    ensures place { IfOk result (λ words.
        AreWordsOf document.now name.now source.now steps.now fault.now (string_bytes words)) }
    ensures line { IfOk result (λ words. IsOneLine (string_bytes words)) }
    ensures steps { (view : ViewSpec)
        → next_view_of document.now.frames document.now.views name.now source.now steps.now ≡ Ok view
        → AreStepsOf (steps_said steps.now) view.plan }
{
    words_of(alloc, document, name, source, steps, fault)
}

fn words_of(
    alloc: Global,
    document: &Views,
    name: &str,
    source: &str,
    steps: &[u8],
    fault: &DocumentFault,
) -> Result<String, AllocError>
    ensures place { IfOk result (λ words.
        AreWordsOf document.now name.now source.now steps.now fault.now (string_bytes words)) }
    ensures line { IfOk result (λ words. IsOneLine (string_bytes words)) }
{
    match fault {
        DocumentFault::Views(fault) => shape_words(alloc, document, source, steps, fault),
        DocumentFault::Plan(_, fault) => plan_words(alloc, document, name, source, steps, fault),
        // Others do not come of a view.
        _ => String::from_str(alloc, "a fault of a document"),
    }
}

// A fault of the view's shape; of steps that are no TOML where they are none.
fn shape_words(
    alloc: Global,
    document: &Views,
    source: &str,
    steps: &[u8],
    fault: &ViewsFault,
) -> Result<String, AllocError>
    ensures place { IfOk result (λ words. (what : List ℕ) × (string_bytes words
        ≡ place_in_steps (steps_said steps.now) (spec_location_of fault.now) ++ what)) }
    ensures line { IfOk result (λ words. IsOneLine (string_bytes words)) }
{
    let bytes = with_key(alloc, steps)?;
    match table_of(alloc, bytes.as_slice()) {
        Ok(table) => {
            let view = WrittenView {
                source: Some(source),
                steps: array_at(&table, "steps"),
            };
            let what = what_is_wrong(alloc, document, &view, fault)?;
            behind_place(alloc, &view, fault, what.as_str())
        }
        Err(what) => behind_place(
            alloc,
            &WrittenView::without_steps(source),
            fault,
            what?.as_str(),
        ),
    }
}

// The table that a text says, or why it says none.
fn table_of(alloc: Global, bytes: &[u8]) -> Result<Table, Result<String, AllocError>>
    ensures table { IfOk result (λ table. tree_in bytes.now ≡ table_view table) }
    ensures none { IfErr result (λ what. IfOk what (λ _. tree_in bytes.now ≡ no_members)) }
{
    let Ok(text) = str::from_utf8(bytes) else {
        return Err(String::from_str(alloc, "the steps are not UTF-8"));
    };
    match toml::table_from_str(alloc, text) {
        Ok(table) => Ok(table),
        Err(error) if error.is_memory() => Err(Err(AllocError)),
        Err(error) => Err(toml_words(alloc, bytes, &error)),
    }
}

fn behind_place(
    alloc: Global,
    view: &WrittenView<'_>,
    fault: &ViewsFault,
    what: &str,
) -> Result<String, AllocError>
    ensures place { IfOk result (λ words. (what : List ℕ) × (string_bytes words
        ≡ place_in_steps (map view_of_value view.now.steps.now) (spec_location_of fault.now) ++ what)) }
    ensures line { IfOk result (λ words. IsOneLine (string_bytes words)) }
{
    let place = place_in_view(alloc, view, location_of(fault))?;
    appended(alloc, place.as_str(), first_line(what))
}

fn with_key(alloc: Global, steps: &[u8]) -> Result<Vec<u8>, AllocError>
    ensures { IfOk result (λ bytes. bytes.items ≡ codes "steps = " ++ steps.now) }
{
    let mut bytes = Vec::new(alloc);
    bytes.extend_from_slice(KEY)?;
    bytes.extend_from_slice(steps)?;
    Ok(bytes)
}

fn toml_words(alloc: Global, bytes: &[u8], error: &toml::de::Error) -> Result<String, AllocError> {
    let what = error.message();
    match error.span() {
        Some(span) => {
            let number = characters(bytes, KEY.len(), span.start).saturating_add(1);
            format!(in alloc; "character {number} of the steps: {what}")
        }
        None => format!(in alloc; "the steps are no TOML: {what}"),
    }
}

// How many characters of a text of UTF-8 begin from one byte to before another.
fn characters(bytes: &[u8], from: usize, to: usize) -> u64 {
    let mut count = 0u64;
    for at in from..to.min(bytes.len()) {
        count = count.saturating_add(begun(bytes[at]));
    }
    count
}

fn begun(byte: u8) -> u64 {
    if byte & 0xC0 == 0x80 { 0 } else { 1 }
}

fn what_is_wrong(
    alloc: Global,
    document: &Views,
    view: &WrittenView<'_>,
    fault: &ViewsFault,
) -> Result<String, AllocError> {
    match fault {
        ViewsFault::NotToml => String::from_str(alloc, "the steps are no TOML"),
        ViewsFault::TooManyViews => String::from_str(alloc, "32 views are defined"),
        ViewsFault::Doubled(_) => {
            String::from_str(alloc, "a view of this name is defined; choose another name")
        }
        ViewsFault::Shape(Location::View(_)) => String::from_str(
            alloc,
            r#"the steps are an array of at most 64, as [["filter", EXPRESSION], ..], or [] for none"#,
        ),
        fault => {
            let frames = frame_names(alloc, document.frames.as_slice())?;
            step_words(alloc, view, frames.as_slice(), fault)
        }
    }
}

fn frame_names<'a>(alloc: Global, frames: &'a [FrameSpec]) -> Result<Vec<&'a str>, AllocError> {
    let mut names = Vec::with_capacity(alloc, frames.len())?;
    for frame in frames {
        names.push(frame.name.as_str())?;
    }
    Ok(names)
}

// A fault of the view's plan, which is read of its steps once more.
fn plan_words(
    alloc: Global,
    document: &Views,
    name: &str,
    source: &str,
    steps: &[u8],
    fault: &PlanFault,
) -> Result<String, AllocError>
    ensures place { IfOk result (λ words. (view : ViewSpec)
        → next_view_of document.now.frames document.now.views name.now source.now steps.now ≡ Ok view
        → IsPlanText (schemas_of document.now.frames) view.plan fault.now (string_bytes words)) }
    ensures line { IfOk result (λ words. IsOneLine (string_bytes words)) }
{
    let frames = document.frames.as_slice();
    let before = document.views.as_slice();
    match read_next_view(alloc, frames, before, name, source, steps) {
        Ok(view) => words_in_plan(alloc, document, &view.plan, fault),
        Err(ViewsFault::Memory) => Err(AllocError),
        Err(_) => String::from_str(alloc, "a plan does not check"),
    }
}
