//! Refusals in words.
ghost use Rattle.std.specs.Prelude.{◌≡◌, ◌++◌, IfOk, codes, string_bytes};
ghost use Rattle.df_session.specs.Texts as texts;
ghost use Rattle.df_session.specs.Texts.{words_of};

use crate::definition_texts::frame_words;
use crate::prompts::plural_end;
use crate::refusal::{Mistake, RecordLength, Refusal, VersionFault, WriteFault};
use df_state::CatalogueFault;
use df_text::{CsvFault, escape};
use df_value::{ChunkFault, Text};
use std::alloc::{AllocError, Global};

/// A refusal in words, as they stand behind its code. `name` is that of the frame, the view, the command or the file that it
/// is about, or empty where it is not known. Names are escaped as in a printed table.
pub fn refusal_words(alloc: Global, name: &str, refusal: &Refusal) -> Result<String, AllocError>
    ensures { IfOk result (λ words. string_bytes words ≡ words_of name.now refusal.now) }
{
    match refusal {
        Refusal::Mistake(mistake) => mistake_words(alloc, name, *mistake),
        Refusal::Store(fault) => catalogue_words(alloc, name, *fault),
        Refusal::Csv(fault) => String::from_str(alloc, lines_words(fault)),
        Refusal::Length(length) => length_words(alloc, name, *length),
        Refusal::File(fault) => file_words(alloc, name, fault),
        Refusal::Cell(..) => String::from_str(alloc, ": the cell is no value of the column's type"),
        Refusal::Chunk(fault) => chunk_words(alloc, name, fault),
        Refusal::Frame(fault) => behind_colon(alloc, frame_words(fault)),
        Refusal::Definition(_, words) => behind_colon(alloc, words.as_str()),
        Refusal::Version(fault) => String::from_str(alloc, version_words(*fault)),
        Refusal::Write(fault) => String::from_str(alloc, write_words(*fault)),
        Refusal::Memory => String::from_str(alloc, ""),
    }
}

// A frame by its name, if it is known.
fn frame_named(alloc: Global, name: &str) -> Result<String, AllocError>
    ensures { IfOk result (λ text. string_bytes text ≡ texts.frame_named name.now) }
{
    if name.is_empty() {
        String::from_str(alloc, "the frame")
    } else {
        escape(alloc, name)
    }
}

// Something of a kind by its name, if it is known; of no kind nothing.
fn of_name(alloc: Global, kind: &str, name: &str) -> Result<String, AllocError>
    ensures { IfOk result (λ text. string_bytes text ≡ texts.of_name kind.now name.now) }
{
    if kind.is_empty() {
        return String::from_str(alloc, "");
    }
    if name.is_empty() {
        return format!(in alloc; "{kind} of this name");
    }
    let name = escape(alloc, name)?;
    let name = name.as_str();
    format!(in alloc; "{kind} \"{name}\"")
}

// Words, and in them something of a kind by its name.
fn with_name(
    alloc: Global,
    before: &str,
    kind: &str,
    name: &str,
    behind: &str,
) -> Result<String, AllocError>
    ensures { IfOk result (λ text.
        string_bytes text ≡ texts.with_name before.now kind.now name.now behind.now) }
{
    let named = of_name(alloc, kind, name)?;
    let named = named.as_str();
    format!(in alloc; "{before}{named}{behind}")
}

fn mistake_words(alloc: Global, name: &str, mistake: Mistake) -> Result<String, AllocError>
    ensures { IfOk result (λ words. string_bytes words ≡ texts.mistake_words name.now mistake) }
{
    let (kind, behind) = named_in_mistake(mistake);
    with_name(alloc, mistake_begin(mistake), kind, name, behind)
}

// The words of a mistake, or those before what it names.
fn mistake_begin(mistake: Mistake) -> &'static str
    ensures { result.now ≡ (texts.mistake_parts mistake).0 }
{
    match mistake {
        Mistake::NoCommand => " no ",
        Mistake::MissingWord => " a word is missing: help lists the words of each command",
        Mistake::ExtraWord => " a word too many: a name with spaces stands in double quotes",
        Mistake::NotRowNumber => " a row number is a whole number below 4294967296",
        Mistake::NotCount => " COUNT is a whole number below 18446744073709551616",
        Mistake::NotText => " the line is not UTF-8",
        Mistake::LongLine => " a line has more than 1048576 bytes",
        Mistake::MissingLines => " the input ends before the lines of the command",
        Mistake::OtherRowCount => " not as many rows as numbers",
        Mistake::NoView => " the document has no ",
        Mistake::NoTable => " the document has no ",
        Mistake::NoFile => " the ",
        Mistake::NestedSource => " source stands in no file that is sourced itself",
        Mistake::LateFrame =>
            " a frame is declared before all changes: begin a session with it, or put it into the document",
        Mistake::OnlyWithHall => " only with --hall",
        Mistake::NotWithHall => " not with --hall",
        Mistake::NotWatched => " the ",
        Mistake::NotFollowed => " the ",
        Mistake::NoChange => " the last change was none of rows, or came before the watch",
    }
}

// Of which kind is what a mistake names, and the words behind it; none where it names nothing.
fn named_in_mistake(mistake: Mistake) -> (&'static str, &'static str)
    ensures kind { result.0.now ≡ (texts.mistake_parts mistake).1 }
    ensures behind { result.1.now ≡ (texts.mistake_parts mistake).2 }
{
    match mistake {
        Mistake::NoCommand => ("command", ": help lists them"),
        Mistake::NoView => ("view", ""),
        Mistake::NoTable => ("frame or view", ": frames and views list them"),
        Mistake::NoFile => ("file", " cannot be opened or read"),
        Mistake::NotWatched => ("view", " is not watched: watch begins it"),
        Mistake::NotFollowed => ("path", " is not followed: follow begins it"),
        _ => ("", ""),
    }
}

fn catalogue_words(alloc: Global, name: &str, fault: CatalogueFault) -> Result<String, AllocError>
    ensures { IfOk result (λ words. string_bytes words ≡ texts.catalogue_words name.now fault) }
{
    let frame = frame_named(alloc, name)?;
    let frame = frame.as_str();
    match fault {
        CatalogueFault::SchemaUnlike => format!(in alloc;
            ": the rows have another schema than {frame}"
        ),
        CatalogueFault::Taken(number) => format!(in alloc;
            ": {frame} accepted number {number} before"
        ),
        CatalogueFault::Full => format!(in alloc;
            ": {frame} would have accepted more than 1048576 rows"
        ),
        CatalogueFault::Doubled(number) => format!(in alloc; ": number {number} appears twice"),
        CatalogueFault::NotLive(number) => format!(in alloc; ": {frame} has no row {number}"),
        CatalogueFault::ViewExists => {
            with_name(
                alloc,
                ": ",
                "view",
                name,
                " is registered; drop takes it out",
            )
        }
        CatalogueFault::TooManyViews => String::from_str(
            alloc,
            ": 32 views are registered; drop takes one out",
        ),
        CatalogueFault::NoView => with_name(alloc, ": no ", "view", name, "; views lists them"),
        CatalogueFault::Memory => String::from_str(alloc, ""),
        CatalogueFault::PlanUnlike => String::from_str(alloc, ": the plan is over other frames"),
        CatalogueFault::NoFrame => with_name(alloc, ": no ", "frame", name, "; frames lists them"),
    }
}

fn length_words(alloc: Global, name: &str, length: RecordLength) -> Result<String, AllocError>
    ensures { IfOk result (λ words. string_bytes words ≡ texts.length_words name.now length) }
{
    let fields = counted(alloc, length.fields, "field")?;
    let columns = counted(alloc, length.columns, "column")?;
    let frame = frame_named(alloc, name)?;
    let record = length.record;
    let (fields, columns, frame) = (fields.as_str(), columns.as_str(), frame.as_str());
    format!(in alloc; ": record {record} has {fields}, and {frame} has {columns}")
}

// So many of something.
fn counted(alloc: Global, count: usize, noun: &str) -> Result<String, AllocError>
    ensures { IfOk result (λ text. string_bytes text ≡ texts.counted count noun.now) }
{
    let end = plural_end(count);
    format!(in alloc; "{count} {noun}{end}")
}

// Lines have no header, no file and few records: one fault of a file is left, and memory.
fn lines_words(fault: &CsvFault) -> &'static str
    ensures { result.now ≡ texts.lines_words fault.now }
{
    match fault {
        CsvFault::NotText => ": the lines are not UTF-8",
        _ => "",
    }
}

fn file_words(alloc: Global, path: &str, fault: &CsvFault) -> Result<String, AllocError>
    ensures { IfOk result (λ words. string_bytes words ≡ texts.file_words path.now fault.now) }
{
    match fault {
        CsvFault::ReadFault => with_name(
            alloc,
            ": the ",
            "file",
            path,
            " cannot be opened, or cannot be read",
        ),
        CsvFault::TooLarge => String::from_str(alloc, ": the file has more than 67108864 bytes"),
        CsvFault::NotText => String::from_str(alloc, ": the file is not UTF-8"),
        CsvFault::BadRecord(number) => bad_record_words(alloc, *number),
        CsvFault::MissingColumn(name) => missing_column_words(alloc, name),
        CsvFault::DoubledHeader(name) => doubled_header_words(alloc, name),
        CsvFault::TooManyRecords => String::from_str(
            alloc,
            ": the file has more than 1048576 records",
        ),
        CsvFault::Memory => String::from_str(alloc, ""),
    }
}

fn bad_record_words(alloc: Global, number: u64) -> Result<String, AllocError>
    ensures { IfOk result (λ words. string_bytes words ≡ texts.bad_record_words number) }
{
    format!(in alloc; ": record {number} has another number of fields than the header")
}

fn missing_column_words(alloc: Global, column: &Text) -> Result<String, AllocError>
    ensures { IfOk result (λ words. string_bytes words ≡ texts.missing_column_words column.now) }
{
    let name = escape(alloc, column.as_str())?;
    let name = name.as_str();
    format!(in alloc; ": the header has no column {name}")
}

fn doubled_header_words(alloc: Global, column: &Text) -> Result<String, AllocError>
    ensures { IfOk result (λ words. string_bytes words ≡ texts.doubled_header_words column.now) }
{
    let name = escape(alloc, column.as_str())?;
    let name = name.as_str();
    format!(in alloc; ": the header has the column {name} twice")
}

// That a row does not fit its schema is not the answer to rows that were typed by it.
fn chunk_words(alloc: Global, name: &str, fault: &ChunkFault) -> Result<String, AllocError>
    ensures { IfOk result (λ words. string_bytes words ≡ texts.chunk_words name.now fault.now) }
{
    match fault {
        ChunkFault::TooLong => String::from_str(
            alloc,
            ": more than 65536 rows; append or replace them in parts",
        ),
        ChunkFault::NumberTooLarge => String::from_str(
            alloc,
            ": a row would have a number above 4294967295",
        ),
        ChunkFault::RowUnlike(_) => unlike_words(alloc, name),
        ChunkFault::Memory => String::from_str(alloc, ""),
    }
}

fn unlike_words(alloc: Global, name: &str) -> Result<String, AllocError>
    ensures { IfOk result (λ words. string_bytes words
        ≡ codes ": a row does not fit the schema of " ++ texts.frame_named name.now) }
{
    let frame = frame_named(alloc, name)?;
    let frame = frame.as_str();
    format!(in alloc; ": a row does not fit the schema of {frame}")
}

// The words of a frame or a view that is refused.
fn behind_colon(alloc: Global, words: &str) -> Result<String, AllocError>
    ensures { IfOk result (λ text. string_bytes text ≡ codes ": " ++ words.now) }
{
    format!(in alloc; ": {words}")
}

fn version_words(fault: VersionFault) -> &'static str
    ensures { result.now ≡ texts.version_words fault }
{
    match fault {
        VersionFault::Spent => ": 2^64 - 1 versions were published; there is no change behind them",
        VersionFault::Ahead => ": the hall knows fewer changes than this session was told of",
        VersionFault::Missing => ": there is no version to answer from",
    }
}

fn write_words(fault: WriteFault) -> &'static str
    ensures { result.now ≡ texts.write_words fault }
{
    match fault {
        WriteFault::NotMade =>
            ": PATH.part cannot be made: no such folder, no right to write there, or a file of that name stands there",
        WriteFault::NotWritten => ": the file cannot be written whole, as on a full disk",
        WriteFault::NotPlaced =>
            ": the file cannot be put there: a folder stands there, or there is no right to write",
        WriteFault::Memory => "",
    }
}
