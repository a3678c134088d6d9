//! The header of a CSV file, and the marks before it.
ghost use Rattle.std.specs.Prelude.{◌≡◌, ◌≢◌, None, [], MatchResult, IfOk, map, position, unwrap_or};
ghost use Rattle.std.specs.Option.{option_copied};
ghost use Rattle.std.specs.Str.{bytes_eq};
ghost use Rattle.csv.specs.Records.{AllText, field_at, fields_of};
ghost use Rattle.df_csv.specs.Header.{count_named, doubled_column, header_fault, missing_column, header_index, starts_with_mark, without_marks};

use crate::fault::CsvFault;
use csv::ByteRecord;
use df_value::{CellType, Duplicate, Text};
use std::alloc::{AllocError, Global};

/// The field at this index, or an empty text where there is none.
pub fn field_in(row: &ByteRecord, index: usize) -> &str
    requires { AllText (fields_of row.now) }
    ensures { result.now ≡ unwrap_or (field_at (fields_of row.now) index) [] }
{
    let field = row.get(index).unwrap_or(&[]);
    // SAFETY: all fields of the record are UTF-8.
    unsafe { str::from_utf8_unchecked(field) }
}

/// The fields of a record.
#[tactic(auto, using(crate::proofs::HeaderFacts::take_field))]
pub fn names_of(alloc: Global, row: &ByteRecord) -> Result<Vec<Text>, AllocError>
    requires { AllText (fields_of row.now) }
    ensures { IfOk result (λ v. v.items ≡ fields_of row.now) }
{
    let mut names = Vec::new(alloc);
    for i in 0..row.len() {
        names.push(Text::from_str(alloc, field_in(row, i))?)?;
    }
    Ok(names)
}

/// How often a name stands in the header.
fn count_in(header: &[Text], name: &Text) -> usize
    ensures { result ≡ count_named header.now name.now }
{
    header.iter().filter(|h| **h == *name).count()
}

/// The first index of a name.
fn find_in(header: &[Text], name: &Text) -> Option<usize>
    ensures { result ≡ position (λ h. bytes_eq h name.now) header.now }
{
    header.iter().position(|h| *h == *name)
}

/// The first index of a name, or 0.
fn header_index_in(header: &[Text], name: &Text) -> usize
    ensures { result ≡ header_index header.now name.now }
{
    find_in(header, name).unwrap_or(0)
}

/// The indices of the columns.
fn all_header_indices(
    alloc: Global,
    header: &[Text],
    columns: &[(Text, CellType)],
) -> Result<Vec<usize>, AllocError>
    ensures { IfOk result (λ v. v.items ≡ map (λ c. header_index header.now c.0) columns.now) }
{
    columns
        .iter()
        .map(|c| header_index_in(header, &c.0))
        .collect(alloc)
}

/// The first column whose name stands twice in the header.
fn first_doubled<'a>(
    header: &[Text],
    columns: &'a [(Text, CellType)],
) -> Option<&'a (Text, CellType)>
    ensures { option_copied result ≡ doubled_column header.now columns.now }
{
    columns.iter().find(|c| count_in(header, &c.0) > 1)
}

/// The first column whose name does not stand in the header.
fn first_missing<'a>(
    header: &[Text],
    columns: &'a [(Text, CellType)],
) -> Option<&'a (Text, CellType)>
    ensures { option_copied result ≡ missing_column header.now columns.now }
{
    columns.iter().find(|c| count_in(header, &c.0) == 0)
}

/// Where the columns stand, or what is wrong with the header.
pub fn header_indices(
    alloc: Global,
    header: &[Text],
    columns: &[(Text, CellType)],
) -> Result<Vec<usize>, CsvFault>
    ensures { MatchResult result
        (λ v. (header_fault columns.now header.now ≡ None)
        × (v.items ≡ map (λ c. header_index header.now c.0) columns.now))
        (λ e. e ≢ CsvFault.Memory → header_fault columns.now header.now ≡ Some e) }
{
    if let Some(column) = first_doubled(header, columns) {
        return Err(CsvFault::DoubledHeader(column.0.copy(alloc)?));
    }
    if let Some(column) = first_missing(header, columns) {
        return Err(CsvFault::MissingColumn(column.0.copy(alloc)?));
    }
    match all_header_indices(alloc, header, columns) {
        Ok(indices) => Ok(indices),
        Err(_) => Err(CsvFault::Memory),
    }
}

/// Whether a text begins with a mark.
fn is_marked(text: &[u8]) -> bool
    ensures { result ≡ starts_with_mark text.now }
{
    text.len() >= 3 && text[0] == 0xEF && text[1] == 0xBB && text[2] == 0xBF
}

/// A text without the marks at its start.
pub fn skip_marks(bytes: &[u8]) -> &[u8]
    ensures { result.now ≡ without_marks bytes.now }
{
    let mut rest = bytes;
    while is_marked(rest) {
        rest = &rest[3..];
    }
    rest
}
