//! Words that stand in the place of fixed words and are none of them.
use crate::forms::{AGGREGATES, EXPRESSIONS, JOINS, NULLS_EQUAL, RANKS, STEPS, TYPES};
use crate::near::unknown;
use crate::part::{array_at, head_of, items_of, text_of};
use std::alloc::{AllocError, Global};
use toml::Value;

/// The most levels of an expression that are looked through.
const MOST_LEVELS: usize = 32;

/// A word, of what kind it should be, and the words of that kind.
#[derive(Clone, Copy)]
pub struct UnknownWord<'a> {
    kind: &'static str,
    word: &'a str,
    known: &'static str,
    names: &'static [&'static str],
}

/// A word that should be a step's.
pub fn unknown_step(word: &str) -> UnknownWord<'_> {
    UnknownWord {
        kind: "step",
        word,
        known: "the steps are",
        names: &STEPS,
    }
}

/// A word that should be the type of a column.
pub fn unknown_type(word: &str) -> UnknownWord<'_> {
    UnknownWord {
        kind: "type",
        word,
        known: "the types are",
        names: &TYPES,
    }
}

fn unknown_aggregate(word: &str) -> UnknownWord<'_> {
    UnknownWord {
        kind: "aggregate",
        word,
        known: "the aggregates are",
        names: &AGGREGATES,
    }
}

fn unknown_expression(word: &str) -> UnknownWord<'_> {
    UnknownWord {
        kind: "expression",
        word,
        known: "the words of expressions are",
        names: &EXPRESSIONS,
    }
}

fn unknown_kind<'a>(
    kind: &'static str,
    word: &'a str,
    names: &'static [&'static str],
) -> UnknownWord<'a> {
    UnknownWord {
        kind,
        word,
        known: "the words here are",
        names,
    }
}

/// That the word is none of those that may stand there.
pub fn unknown_word_text(alloc: Global, word: UnknownWord<'_>) -> Result<String, AllocError> {
    unknown(alloc, word.kind, word.word, word.known, word.names)
}

/// The word in an item of a step that is none of those that may stand there.
pub fn unknown_in_item<'a>(
    alloc: Global,
    step: &str,
    index: usize,
    item: &'a Value,
) -> Result<Option<UnknownWord<'a>>, AllocError> {
    match (step, index) {
        ("filter", _) => unknown_in_expression(alloc, item),
        ("select", _) | ("with_columns", _) => match items_of(item).get(1) {
            Some(expression) => unknown_in_expression(alloc, expression),
            None => Ok(None),
        },
        _ => Ok(fixed_word(step, index, item)),
    }
}

// The word of an item that has no expression.
fn fixed_word<'a>(step: &str, index: usize, item: &'a Value) -> Option<UnknownWord<'a>> {
    match (step, index) {
        ("group_by", _) => Some(unknown_aggregate(text_of(items_of(item).get(1)?)?)),
        ("join", 1) => Some(unknown_kind("kind of join", text_of(item)?, &JOINS)),
        ("join", 4) => Some(unknown_kind("word", text_of(item)?, &NULLS_EQUAL)),
        ("join", _) => unknown_in_side(item),
        ("rank", _) => Some(unknown_kind("kind of rank", text_of(item)?, &RANKS)),
        _ => None,
    }
}

// The step of a right side that is none.
fn unknown_in_side(side: &Value) -> Option<UnknownWord<'_>> {
    match side {
        Value::Table(table) => first_unknown_step(array_at(table, "steps")),
        _ => None,
    }
}

fn first_unknown_step(steps: &[Value]) -> Option<UnknownWord<'_>> {
    for step in steps {
        if let Some(word) = step_unless_known(step) {
            return Some(unknown_step(word));
        }
    }
    None
}

fn step_unless_known(step: &Value) -> Option<&str> {
    unless_among(head_of(items_of(step))?, &STEPS)
}

// The first word of an expression, level by level and from left to right, that is none.
fn unknown_in_expression(
    alloc: Global,
    expression: &Value,
) -> Result<Option<UnknownWord<'_>>, AllocError> {
    let mut level = Vec::new(alloc);
    level.push(expression)?;
    for _depth in 0..MOST_LEVELS {
        if let Some(word) = unknown_in_level(level.as_slice()) {
            return Ok(Some(word));
        }
        level = items_of_level(alloc, level.as_slice())?;
    }
    Ok(None)
}

fn items_of_level<'a>(alloc: Global, level: &[&'a Value]) -> Result<Vec<&'a Value>, AllocError> {
    let mut below = Vec::new(alloc);
    for value in level {
        push_items(&mut below, value)?;
    }
    Ok(below)
}

fn push_items<'a>(below: &mut Vec<&'a Value>, value: &'a Value) -> Result<(), AllocError> {
    for item in items_of(value) {
        below.push(item)?;
    }
    Ok(())
}

fn unknown_in_level<'a>(level: &[&'a Value]) -> Option<UnknownWord<'a>> {
    for value in level {
        if let Some(word) = unknown_head(value) {
            return Some(word);
        }
    }
    None
}

fn unknown_head(expression: &Value) -> Option<UnknownWord<'_>> {
    let items = items_of(expression);
    match head_of(items)? {
        "null" => Some(unknown_type(unless_among(text_of(items.get(1)?)?, &TYPES)?)),
        word => Some(unknown_expression(unless_among(word, &EXPRESSIONS)?)),
    }
}

/// The word, unless it is one of these.
pub fn unless_among<'a>(word: &'a str, words: &[&str]) -> Option<&'a str> {
    for known in words {
        if *known == word {
            return None;
        }
    }
    Some(word)
}
