//! The words of questions.
ghost use Rattle.std.specs.Prelude.{◌≡◌, ◌∷◌, ◌++◌, [], IfErr, IfOk, codes, map};
ghost use Rattle.df_session.specs.Answers.{IsWordFault};
ghost use Rattle.df_session.specs.Commands.{IsCommandOf, IsLineCount, IsPartOf, IsQuestionOf, format_words};

use crate::command::{Command, Format, Part, Question, bare, line_count, only};
use crate::refusal::{Mistake, Refusal};

/// The question that this word and those behind it ask.
pub fn question_of<'a>(name: &str, arguments: &[&'a str]) -> Result<Command<'a>, Refusal>
    ensures said { IfOk result (IsCommandOf (name.now ∷ map (λ w. w.now) arguments.now)) }
    ensures refused { IfErr result IsWordFault }
{
    match name {
        "schema" => Ok(Command::Question(Question::Schema(only(arguments)?))),
        "plan" => Ok(Command::Question(Question::Plan(only(arguments)?))),
        "show" => Ok(Command::Question(read_show(arguments)?)),
        "rows" => Ok(Command::Question(read_rows(arguments)?)),
        "books" => Ok(Command::Question(Question::Books(only(arguments)?))),
        _ => bare(Command::Question(bare_question(name)?), arguments),
    }
}

// A question of one word.
fn bare_question<'a>(name: &str) -> Result<Question<'a>, Mistake>
    ensures { IfOk result (IsQuestionOf (name.now ∷ [])) }
{
    match name {
        "frames" => Ok(Question::Frames),
        "views" => Ok(Question::Views),
        "check" => Ok(Question::Check),
        "work" => Ok(Question::Work),
        "version" => Ok(Question::Version),
        _ => Err(Mistake::NoCommand),
    }
}

fn read_show<'a>(arguments: &[&'a str]) -> Result<Question<'a>, Mistake>
    ensures { IfOk result (IsQuestionOf (codes "show" ∷ map (λ w. w.now) arguments.now)) }
{
    match arguments {
        [view, rest @ ..] => {
            let (part, format) = split_format(rest);
            Ok(Question::Show(view, read_part(part)?, format))
        }
        [] => Err(Mistake::MissingWord),
    }
}

fn read_rows<'a>(arguments: &[&'a str]) -> Result<Question<'a>, Mistake>
    ensures { IfOk result (IsQuestionOf (codes "rows" ∷ map (λ w. w.now) arguments.now)) }
{
    match arguments {
        [frame, rest @ ..] => Ok(Question::Rows(frame, read_format(rest)?)),
        [] => Err(Mistake::MissingWord),
    }
}

fn read_format(words: &[&str]) -> Result<Format, Mistake>
    ensures { IfOk result (λ format. map (λ w. w.now) words.now ≡ format_words format) }
{
    match split_format(words) {
        ([], format) => Ok(format),
        _ => Err(Mistake::ExtraWord),
    }
}

// The words before the last one, where that names a format, and the format.
fn split_format<'w, 'a>(words: &'w [&'a str]) -> (&'w [&'a str], Format)
    ensures { map (λ w. w.now) words.now
        ≡ map (λ w. w.now) result.0.now ++ format_words result.1 }
{
    match words.split_last() {
        Some((&"csv", before)) => (before, Format::Csv),
        Some((&"json", before)) => (before, Format::Json),
        Some((&"html", before)) => (before, Format::Html),
        _ => (words, Format::Printed),
    }
}

fn read_part(words: &[&str]) -> Result<Part, Mistake>
    ensures { IfOk result (IsPartOf (map (λ w. w.now) words.now)) }
{
    match words {
        [] => Ok(Part::Whole),
        [count] => Ok(Part::First(row_count(count)?)),
        ["from", first, count] => {
            let first = row_count(first)?;
            Ok(Part::From(first, row_count(count)?))
        }
        ["from", _] => Err(Mistake::MissingWord),
        _ => Err(Mistake::ExtraWord),
    }
}

fn row_count(word: &str) -> Result<usize, Mistake>
    ensures { IfOk result (IsLineCount word.now) }
{
    Ok(line_count(word)? as usize)
}
