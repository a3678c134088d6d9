//! Faults of a view's plan in words.
ghost use Rattle.std.specs.Prelude.{◌≡◌, ◌+◌, ◌++◌, IfOk, List, Some, codes, slice_get, string_bytes, ℕ};
ghost use Rattle.df_document.specs.Opening.{schemas_of};
ghost use Rattle.df_print.specs.Printed.{escaped_text};
ghost use Rattle.df_text.specs.declared.document.ViewSpec.{ViewSpec as AnyView};
ghost use Rattle.df_explain.specs.Explanations as explanations;
ghost use Rattle.df_explain.specs.Explanations.{IsViewText};
ghost use Rattle.df_explain.specs.Places as places;
ghost use Rattle.df_explain.specs.Places.{IsOneLine};
ghost use Rattle.df_explain.specs.PlanPlaces.{IsPlanText, IsStepText};

use crate::names::{column_names, first_line, joined, quoted};
use crate::near::unknown;
use crate::place::named_part;
use crate::plan_place::{faulty_step, word_of};
use df_expr::ExprFault;
use df_plan::{Plan, PlanFault, schema_of};
use df_text::{FrameSpec, Views, escape};
use df_value::{CellType, Duplicate, Schema, Text, index_of_name};
use std::alloc::{AllocError, Global};

/// What is wrong in the plan of the view of this name, behind the view and the step: the text behind the document's name.
pub fn plan_words(
    alloc: Global,
    document: &Views,
    view: &Text,
    fault: &PlanFault,
) -> Result<String, AllocError>
    ensures { IfOk result (λ words. IsViewText document.now view.now fault.now (string_bytes words)) }
{
    match index_of_name(document.views.as_slice(), view.as_str()) {
        Some(index) => words_in_view(alloc, document, view, index, fault),
        // The fault of another document.
        None => String::from_str(alloc, "a plan does not check"),
    }
}

fn words_in_view(
    alloc: Global,
    document: &Views,
    name: &Text,
    index: usize,
    fault: &PlanFault,
) -> Result<String, AllocError>
    ensures { IfOk result (λ words. (view : AnyView) → slice_get document.now.views index ≡ Some view
        → (there : List ℕ) × IsPlanText (schemas_of document.now.frames) view.plan fault.now there
        × (string_bytes words ≡ places.part_text (codes "view") (index + 1) (Some (escaped_text name.now))
        ++ (explanations.between fault.now ++ there))) }
{
    match document.views.get(index) {
        Some(view) => {
            let place = named_part(alloc, "view", index as u128 + 1, name.as_str())?;
            let there = words_in_plan(alloc, document, &view.plan, fault)?;
            joined(alloc, place.as_str(), between(fault), there.as_str())
        }
        None => String::from_str(alloc, "a plan does not check"),
    }
}

// What stands between a view and the place of its plan's fault.
fn between(fault: &PlanFault) -> &'static str
    ensures { result.now ≡ explanations.between fault.now }
{
    match fault {
        PlanFault::TooManyScans | PlanFault::TooDeep => ": ",
        _ => ", ",
    }
}

fn schemas(alloc: Global, frames: &[FrameSpec]) -> Result<Vec<Schema>, AllocError>
    ensures { IfOk result (λ schemas. schemas.items ≡ schemas_of frames.now) }
{
    let mut schemas = Vec::with_capacity(alloc, frames.len())?;
    for frame in frames {
        schemas.push(frame.schema.copy(alloc)?)?;
    }
    Ok(schemas)
}

/// What is wrong in a plan over a document's frames, behind the step: ``step 2 `filter`: ..``. How large the plan is is no
/// matter of a step.
pub fn words_in_plan(
    alloc: Global,
    document: &Views,
    plan: &Plan,
    fault: &PlanFault,
) -> Result<String, AllocError>
    ensures place { IfOk result (λ words.
        IsPlanText (schemas_of document.now.frames) plan.now fault.now (string_bytes words)) }
    ensures line { IfOk result (λ words. IsOneLine (string_bytes words)) }
{
    match fault {
        PlanFault::TooManyScans => String::from_str(
            alloc,
            "it reads frames more than 3 times, those of right sides too",
        ),
        PlanFault::TooDeep => String::from_str(
            alloc,
            "more than 11 steps follow one another on the way from a frame",
        ),
        _ => {
            let frames = schemas(alloc, document.frames.as_slice())?;
            words_at_step(alloc, plan, frames.as_slice(), fault)
        }
    }
}

fn words_at_step(
    alloc: Global,
    plan: &Plan,
    frames: &[Schema],
    fault: &PlanFault,
) -> Result<String, AllocError>
    ensures place { IfOk result (λ words. IsStepText frames.now plan.now (string_bytes words)) }
    ensures line { IfOk result (λ words. IsOneLine (string_bytes words)) }
{
    let step = faulty_step(alloc, plan, frames)?;
    let what = what_is_wrong(alloc, step.part, frames, fault)?;
    joined(alloc, step.place.as_str(), ": ", first_line(what.as_str()))
}

fn what_is_wrong(
    alloc: Global,
    part: &Plan,
    frames: &[Schema],
    fault: &PlanFault,
) -> Result<String, AllocError> {
    match fault {
        PlanFault::Expr(fault) => expr_words(alloc, part, frames, fault),
        PlanFault::WrongType(name) => type_words(alloc, part, frames, name),
        PlanFault::DoubledName(name) => {
            named(
                alloc,
                "two columns of the result would have the name ",
                name,
                "",
            )
        }
        PlanFault::ConstantColumn(name) => {
            named(alloc, "the expression of ", name, " names no column")
        }
        PlanFault::NoFrame(number) => format!(in alloc; "no frame {number}"),
        fault => String::from_str(alloc, fixed_words(fault)),
    }
}

fn fixed_words(fault: &PlanFault) -> &'static str {
    match fault {
        PlanFault::BadWindow => {
            "a window has 1 to 65536 rows, and wants at least 1 cell and at most one of each row"
        }
        PlanFault::EmptyList =>
            "a select has at least one output, a group_by and a join at least one key",
        PlanFault::TooWide => "the result would have more than 32 columns",
        PlanFault::TooManyScans => "it reads frames more than 3 times",
        PlanFault::TooDeep => "it has more than 12 levels",
        _ => "out of memory",
    }
}

fn named(alloc: Global, before: &str, name: &Text, behind: &str) -> Result<String, AllocError> {
    let name = quoted(alloc, name.as_str())?;
    let name = name.as_str();
    format!(in alloc; "{before}{name}{behind}")
}

fn expr_words(
    alloc: Global,
    part: &Plan,
    frames: &[Schema],
    fault: &ExprFault,
) -> Result<String, AllocError> {
    match fault {
        ExprFault::NoColumn(name) => column_words(alloc, part, frames, name),
        ExprFault::WrongType => {
            let columns = typed_columns(alloc, part, frames)?;
            let columns = columns.as_str();
            format!(in alloc;
                "the types in an expression do not fit one another, or a predicate is no Bool; the columns there are {columns}"
            )
        }
        ExprFault::TooDeep => String::from_str(alloc, "an expression has more than 32 levels"),
        ExprFault::Memory => String::from_str(alloc, "out of memory"),
    }
}

// A column that is not there: of a join on the left, or else on the right.
fn column_words(
    alloc: Global,
    part: &Plan,
    frames: &[Schema],
    name: &Text,
) -> Result<String, AllocError> {
    match right_without(alloc, part, frames, name)? {
        Some(right) => unknown_column(alloc, &right, name, "the columns of the right side are"),
        None => match input_columns(alloc, part, frames)? {
            Some(input) => unknown_column(alloc, &input, name, "the columns there are"),
            None => named(alloc, "no column ", name, ""),
        },
    }
}

fn unknown_column(
    alloc: Global,
    schema: &Schema,
    name: &Text,
    known: &str,
) -> Result<String, AllocError> {
    let names = column_names(alloc, schema)?;
    unknown(alloc, "column", name.as_str(), known, names.as_slice())
}

// The columns of the right side of a join, where those of the left side have this name.
fn right_without(
    alloc: Global,
    part: &Plan,
    frames: &[Schema],
    name: &Text,
) -> Result<Option<Schema>, AllocError> {
    match part {
        Plan::Join(left, right, _, _, _) => {
            let left = columns_of(alloc, left.get(), frames)?;
            if has_column(&left, name) {
                return columns_of(alloc, right.get(), frames);
            }
            Ok(None)
        }
        _ => Ok(None),
    }
}

fn has_column(schema: &Option<Schema>, name: &Text) -> bool {
    match schema {
        Some(schema) => schema.position(name).is_some(),
        None => false,
    }
}

// The columns that a part of a plan gives, if it checks.
fn columns_of(alloc: Global, part: &Plan, frames: &[Schema]) -> Result<Option<Schema>, AllocError> {
    match schema_of(alloc, part, frames) {
        Ok(schema) => Ok(Some(schema)),
        Err(PlanFault::Memory) => Err(AllocError),
        Err(_) => Ok(None),
    }
}

// The columns before the last step of a part: of a join those of the left side.
fn input_columns(
    alloc: Global,
    part: &Plan,
    frames: &[Schema],
) -> Result<Option<Schema>, AllocError> {
    match part {
        Plan::Scan(_) => Ok(None),
        Plan::Filter(input, _) | Plan::Select(input, _) | Plan::WithColumns(input, _) => {
            columns_of(alloc, input.get(), frames)
        }
        Plan::GroupBy(input, _, _) | Plan::CumSum(input, _, _) => {
            columns_of(alloc, input.get(), frames)
        }
        Plan::Rolling(input, _, _, _, _, _) | Plan::Rank(input, _, _, _) => {
            columns_of(alloc, input.get(), frames)
        }
        Plan::Join(left, _, _, _, _) => columns_of(alloc, left.get(), frames),
    }
}

// That a column has a type which the step does not take.
fn type_words(
    alloc: Global,
    part: &Plan,
    frames: &[Schema],
    name: &Text,
) -> Result<String, AllocError> {
    let word = word_of(part);
    let name_text = quoted(alloc, name.as_str())?;
    let name_text = name_text.as_str();
    match type_in(&input_columns(alloc, part, frames)?, name) {
        Some(kind) => {
            let kind = type_word(kind);
            let takes = taken_by(part);
            format!(in alloc; "{name_text} is {kind}, and {word} takes {takes}")
        }
        None => format!(in alloc; "{name_text} has a type that {word} does not take"),
    }
}

fn type_in(schema: &Option<Schema>, name: &Text) -> Option<CellType> {
    match schema {
        Some(schema) => {
            let at = schema.position(name)?;
            Some(schema.columns().as_slice().get(at)?.1)
        }
        None => None,
    }
}

// The types of columns that a step takes.
fn taken_by(part: &Plan) -> &'static str {
    match part {
        Plan::Rolling(_, _, _, _, _, _) | Plan::CumSum(_, _, _) => "Int",
        Plan::Join(_, _, _, _, _) => "keys of one type on both sides, and no Frac",
        Plan::GroupBy(_, _, _) => {
            "keys that are no Frac, Int or Bool for sum, Int for mean, no Frac for min, max and n_unique"
        }
        _ => "all but Frac",
    }
}

/// The word of a type.
fn type_word(kind: CellType) -> &'static str {
    match kind {
        CellType::Int => "Int",
        CellType::Wide => "Wide",
        CellType::Text => "Text",
        CellType::Bool => "Bool",
        CellType::Frac => "Frac",
    }
}

// The columns before a step with their types.
fn typed_columns(alloc: Global, part: &Plan, frames: &[Schema]) -> Result<String, AllocError> {
    let mut list = String::new(alloc);
    if let Some(schema) = input_columns(alloc, part, frames)? {
        for column in schema.columns().as_slice() {
            push_typed(alloc, &mut list, &column.0, column.1)?;
        }
    }
    Ok(list)
}

fn push_typed(
    alloc: Global,
    list: &mut String,
    name: &Text,
    kind: CellType,
) -> Result<(), AllocError> {
    if !list.is_empty() {
        list.push_str(", ")?;
    }
    let name = escape(alloc, name.as_str())?;
    list.push_str(name.as_str())?;
    list.push(' ')?;
    list.push_str(type_word(kind))
}
