//! Words that are nearly the same.
use crate::names::{listed, quoted};
use std::alloc::{AllocError, Global};
use strsim::osa_distance;

/// What a word may have been meant for, and how many edits lead there.
#[derive(Clone, Copy)]
struct Near<'a> {
    word: &'a str,
    edits: usize,
}

/// That there is no such thing of this name, then a name that is nearly the same if there is one, and all that there are, or that
/// there is none: ``no column `amonut`; did you mean `amount`? the columns there are region, amount``.
pub fn unknown(
    alloc: Global,
    kind: &str,
    word: &str,
    known: &str,
    names: &[&str],
) -> Result<String, AllocError> {
    let said = quoted(alloc, word)?;
    let said = said.as_str();
    if names.is_empty() {
        return format!(in alloc; "no {kind} {said}; there is none");
    }
    let near = did_you_mean(alloc, word, names)?;
    let near = near.as_str();
    let names = listed(alloc, names)?;
    let names = names.as_str();
    format!(in alloc; "no {kind} {said};{near} {known} {names}")
}

/// The question whether a name that is nearly the same was meant, or nothing.
fn did_you_mean(alloc: Global, word: &str, names: &[&str]) -> Result<String, AllocError> {
    match nearest(alloc, word, names)? {
        Some(near) => {
            let near = quoted(alloc, near)?;
            let near = near.as_str();
            format!(in alloc; " did you mean {near}?")
        }
        None => Ok(String::new(alloc)),
    }
}

/// The first of the names to which the fewest edits lead, if they are few.
fn nearest<'a>(
    alloc: Global,
    word: &str,
    names: &[&'a str],
) -> Result<Option<&'a str>, AllocError> {
    let mut best: Option<Near<'a>> = None;
    for name in names {
        let edits = osa_distance(alloc, word, name)?;
        best = nearer(best, Near { word: *name, edits });
    }
    Ok(best.and_then(|near| if_few(near, word)))
}

fn nearer<'a>(best: Option<Near<'a>>, other: Near<'a>) -> Option<Near<'a>> {
    match best {
        Some(near) if near.edits <= other.edits => Some(near),
        _ => Some(other),
    }
}

// One edit in a word of two letters, and one more for each three more. Two letters that changed places are one edit.
fn if_few<'a>(near: Near<'a>, word: &str) -> Option<&'a str> {
    if near.edits <= word.len().saturating_add(1) / 3 {
        Some(near.word)
    } else {
        None
    }
}
