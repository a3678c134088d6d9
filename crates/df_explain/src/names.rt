//! Names and texts in a sentence.
ghost use Rattle.std.specs.Prelude.{◌≡◌, ◌++◌, IfOk, string_bytes};
ghost use Rattle.df_explain.specs.Places.{IsOneLine};

use df_text::escape;
use df_value::Schema;
use std::alloc::{AllocError, Global};

/// A name or a word of the document in backticks, escaped as in a printed table.
pub fn quoted(alloc: Global, name: &str) -> Result<String, AllocError> {
    let name = escape(alloc, name)?;
    let name = name.as_str();
    format!(in alloc; "`{name}`")
}

/// Names with commas between them.
pub fn listed(alloc: Global, names: &[&str]) -> Result<String, AllocError> {
    let mut list = String::new(alloc);
    for name in names {
        let name = escape(alloc, name)?;
        push_listed(&mut list, name.as_str())?;
    }
    Ok(list)
}

fn push_listed(list: &mut String, name: &str) -> Result<(), AllocError> {
    if !list.is_empty() {
        list.push_str(", ")?;
    }
    list.push_str(name)
}

/// The names of columns.
pub fn column_names<'a>(alloc: Global, schema: &'a Schema) -> Result<Vec<&'a str>, AllocError> {
    let mut names = Vec::new(alloc);
    for column in schema.columns().as_slice() {
        names.push(column.0.as_str())?;
    }
    Ok(names)
}

/// Two texts with a third between them.
pub fn joined(alloc: Global, a: &str, between: &str, b: &str) -> Result<String, AllocError>
    ensures { IfOk result (λ text. string_bytes text ≡ a.now ++ (between.now ++ b.now)) }
{
    format!(in alloc; "{a}{between}{b}")
}

/// A text and one behind it.
pub fn appended(alloc: Global, a: &str, b: &str) -> Result<String, AllocError>
    ensures { IfOk result (λ text. string_bytes text ≡ a.now ++ b.now) }
{
    format!(in alloc; "{a}{b}")
}

/// A text up to its first line end.
pub fn first_line(text: &str) -> &str
    ensures { IsOneLine result.now }
{
    match text.split_once('\n') {
        Some((line, _)) => line,
        None => text,
    }
}
