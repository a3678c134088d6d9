//! Why a document does not open, for a person.
ghost use Rattle.std.specs.Prelude.{◌≡◌, ◌==◌, ◌≤◌, ◌++◌, ℕ, IfOk, List, Ok, codes, count_by, decimal, length, string_bytes};
ghost use Rattle.toml.specs.Data.{no_members};
ghost use Rattle.df_document.specs.Texts.{fault_text_of};
ghost use Rattle.df_explain.specs.Explanations as explanations;
ghost use Rattle.df_explain.specs.Explanations.{AreWords, IsExplanation, IsRecordsText, IsShapeText, IsToldOf, IsViewText, line_of};
ghost use Rattle.df_explain.specs.ReadSteps.{HasStepsOf};
ghost use Rattle.df_explain.specs.Trees.{tree_in};
ghost use Rattle.df_text.specs.Document.{document_of};
ghost use Rattle.df_text.specs.declared.document.Views.{Views as AnyViews};

use crate::csv_words::csv_words;
use crate::names::joined;
use crate::plan_words::plan_words;
use crate::views_words::{behind_place, views_words};
use df_document::{DocumentFault, document_fault_text};
use df_plan::PlanFault;
use df_text::{CsvFault, ViewsFault, escape, read_views};
use df_value::Text;
use std::alloc::{AllocError, Global};
use toml::Table;

/// Why the document of this name and of these bytes does not open: its name, the place in it, counted from 1, what is wrong
/// there and what would do; for a frame's records the frame's name, their source and what is wrong there. Last, in brackets,
/// stands the fault's code as [`document_fault_text`] gives it, in which frames and views are counted from 0. The word of a
/// step is the one that stands there, also where the step was found by the plan.
pub fn explanation(
    alloc: Global,
    name: &str,
    bytes: &[u8],
    fault: &DocumentFault,
) -> Result<String, AllocError>
    ensures text { IfOk result (λ text. IsExplanation name.now bytes.now fault.now (string_bytes text)) }
    ensures steps { (document : AnyViews) → document_of bytes.now ≡ Ok document
        → HasStepsOf (tree_in bytes.now) document }
{
    let words = words_of(alloc, name, bytes, fault)?;
    with_code(alloc, &words, fault)
}

fn with_code(alloc: Global, words: &String, fault: &DocumentFault) -> Result<String, AllocError>
    ensures { IfOk result (λ text. string_bytes text
        ≡ string_bytes words.now ++ (codes " [" ++ (fault_text_of fault.now ++ codes "]"))) }
{
    let code = document_fault_text(alloc, fault)?;
    let code = code.as_str();
    let words = words.as_str();
    format!(in alloc; "{words} [{code}]")
}

fn words_of(
    alloc: Global,
    name: &str,
    bytes: &[u8],
    fault: &DocumentFault,
) -> Result<String, AllocError>
    ensures { IfOk result (λ words. AreWords name.now bytes.now fault.now (string_bytes words)) }
{
    match fault {
        DocumentFault::ReadFault => behind_name(alloc, name, "cannot be opened, or cannot be read"),
        DocumentFault::TooLarge => behind_name(alloc, name, "has more than 1048576 bytes"),
        DocumentFault::Views(fault) => shape_words(alloc, name, bytes, fault),
        DocumentFault::Plan(view, fault) => view_words(alloc, name, bytes, view, fault),
        DocumentFault::Csv(frame, fault) => frame_words(alloc, bytes, frame, fault),
        DocumentFault::Memory => behind_name(alloc, name, "takes more memory than there is"),
    }
}

fn behind_name(alloc: Global, name: &str, what: &str) -> Result<String, AllocError>
    ensures { IfOk result (λ words. string_bytes words ≡ explanations.behind_name name.now what.now) }
{
    let name = escape(alloc, name)?;
    joined(alloc, name.as_str(), ": ", what)
}

// A fault of the document's shape; of a text that is no TOML its line.
fn shape_words(
    alloc: Global,
    name: &str,
    bytes: &[u8],
    fault: &ViewsFault,
) -> Result<String, AllocError>
    ensures { IfOk result (λ words. IsShapeText name.now bytes.now fault.now (string_bytes words)) }
{
    let named = escape(alloc, name)?;
    let Ok(text) = str::from_utf8(bytes) else {
        return without_tree(alloc, named.as_str(), fault, "is not UTF-8");
    };
    match toml::table_from_str(alloc, text) {
        Ok(tree) => views_words(alloc, named.as_str(), &tree, fault),
        Err(error) => match error.span() {
            Some(span) => {
                let named = with_line(alloc, named.as_str(), line_at(bytes, span.start))?;
                without_tree(alloc, named.as_str(), fault, error.message())
            }
            // Memory was refused.
            None => Err(AllocError),
        },
    }
}

fn without_tree(
    alloc: Global,
    named: &str,
    fault: &ViewsFault,
    what: &str,
) -> Result<String, AllocError>
    ensures { IfOk result (λ words. IsToldOf named.now no_members fault.now (string_bytes words)) }
{
    behind_place(alloc, named, &Table::new(alloc), fault, what)
}

fn with_line(alloc: Global, named: &str, line: u128) -> Result<String, AllocError>
    ensures { IfOk result (λ text. string_bytes text ≡ named.now ++ (codes ", line " ++ decimal line)) }
{
    format!(in alloc; "{named}, line {line}")
}

// The number, from 1, of the line in which a byte stands.
fn line_at(bytes: &[u8], at: usize) -> u128
    requires within { at ≤ length bytes.now }
    ensures { result ≡ line_of bytes.now at }
{
    line_ends(&bytes[..at]) as u128 + 1
}

fn line_ends(bytes: &[u8]) -> usize
    ensures { result ≡ count_by (λ b. b == 10) bytes.now }
{
    bytes.iter().filter(|byte| **byte == b'\n').count()
}

fn view_words(
    alloc: Global,
    name: &str,
    bytes: &[u8],
    view: &Text,
    fault: &PlanFault,
) -> Result<String, AllocError>
    ensures { IfOk result (λ words. (document : AnyViews) → document_of bytes.now ≡ Ok document
        → (there : List ℕ) × IsViewText document view.now fault.now there
        × (string_bytes words ≡ explanations.behind_name name.now there)) }
{
    match read_views(alloc, bytes) {
        Ok(document) => {
            let words = plan_words(alloc, &document, view, fault)?;
            behind_name(alloc, name, words.as_str())
        }
        Err(ViewsFault::Memory) => Err(AllocError),
        // The fault of another document.
        Err(_) => behind_name(alloc, name, "a plan does not check"),
    }
}

fn frame_words(
    alloc: Global,
    bytes: &[u8],
    frame: &Text,
    fault: &CsvFault,
) -> Result<String, AllocError>
    ensures { IfOk result (λ words. (document : AnyViews) → document_of bytes.now ≡ Ok document
        → IsRecordsText document frame.now (string_bytes words)) }
{
    match read_views(alloc, bytes) {
        Ok(document) => csv_words(alloc, &document, frame, fault),
        Err(ViewsFault::Memory) => Err(AllocError),
        // The fault of another document.
        Err(_) => String::from_str(alloc, "a frame cannot be read"),
    }
}
