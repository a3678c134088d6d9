//! Faults of a frame's records in words.
ghost use Rattle.std.specs.Prelude.{◌≡◌, IfOk, option_map, string_bytes};
ghost use Rattle.std.specs.Option.{option_copied};
ghost use Rattle.df_explain.specs.Explanations as explanations;
ghost use Rattle.df_explain.specs.Explanations.{IsRecordsText};

use crate::names::{first_line, quoted};
use df_text::{CsvFault, FrameSource, FrameSpec, Views, escape};
use df_value::{Text, index_of_name};
use std::alloc::{AllocError, Global};

/// What is wrong with the records of the frame of this name, behind its name and where they stand.
pub fn csv_words(
    alloc: Global,
    document: &Views,
    frame: &Text,
    fault: &CsvFault,
) -> Result<String, AllocError>
    ensures { IfOk result (λ words. IsRecordsText document.now frame.now (string_bytes words)) }
{
    let name = escape(alloc, frame.as_str())?;
    let name = name.as_str();
    let source = source_text(alloc, frame_named(document, frame.as_str()))?;
    let source = source.as_str();
    let what = what_is_wrong(alloc, fault)?;
    let what = first_line(what.as_str());
    format!(in alloc; "{name}: {source} {what}")
}

fn source_text(alloc: Global, frame: Option<&FrameSpec>) -> Result<String, AllocError>
    ensures { IfOk result (λ text. string_bytes text
        ≡ explanations.source_text (option_map (λ f. f.now.source) frame.entry)) }
{
    match frame {
        Some(frame) => match &frame.source {
            FrameSource::Path(path) => escape(alloc, path.as_str()),
            FrameSource::Text(_) => String::from_str(alloc, "its text"),
        },
        None => String::from_str(alloc, "its CSV"),
    }
}

fn frame_named<'a>(document: &'a Views, name: &str) -> Option<&'a FrameSpec>
    ensures { option_copied result ≡ explanations.frame_named document.now name.now }
{
    let at = index_of_name(document.frames.as_slice(), name)?;
    document.frames.get(at)
}

fn what_is_wrong(alloc: Global, fault: &CsvFault) -> Result<String, AllocError> {
    match fault {
        CsvFault::ReadFault => String::from_str(alloc, "cannot be opened, or cannot be read"),
        CsvFault::TooLarge => String::from_str(alloc, "has more than 67108864 bytes"),
        CsvFault::NotText => String::from_str(alloc, "is not UTF-8"),
        CsvFault::BadRecord(record) => format!(in alloc;
            "has another number of fields in record {record} than in its header"
        ),
        CsvFault::MissingColumn(name) => column_words(
            alloc,
            "has no column ",
            name,
            " in its header",
        ),
        CsvFault::DoubledHeader(name) => {
            column_words(alloc, "has the column ", name, " twice in its header")
        }
        CsvFault::TooManyRecords => String::from_str(alloc, "has more than 1048576 records"),
        CsvFault::Memory => String::from_str(alloc, "takes more memory than there is"),
    }
}

fn column_words(
    alloc: Global,
    before: &str,
    name: &Text,
    behind: &str,
) -> Result<String, AllocError> {
    let name = quoted(alloc, name.as_str())?;
    let name = name.as_str();
    format!(in alloc; "{before}{name}{behind}")
}
