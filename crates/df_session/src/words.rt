//! The words of a line.
ghost use Rattle.std.specs.Prelude.{◌≡◌, IfOk, OnOk};
ghost use Rattle.csv.specs.Records.{fields_of};
ghost use Rattle.df_session.specs.Words as words_spec;
ghost use Rattle.df_session.specs.Words.{kept_behind, place_behind, single_blanked, words_in, words_of_record};

use crate::command::{line_count, row_number};
use crate::plain_words::{is_plain, plain_words};
use crate::refusal::{Mistake, Refusal};
use csv::{ErrorKind, ReaderBuilder, StringRecord, Terminator};
use std::alloc::{AllocError, Global};

/// Where a byte of a line stands.
#[derive(Clone, Copy, PartialEq, Eq)]
pub enum Place {
    /// Before a word.
    Between,
    /// In a word, outside quotes.
    Plain,
    /// Inside quotes.
    Quoted,
    /// Behind a quote that closes, if no second one follows.
    Closed,
}

/// The words of a line without its end: the fields of a CSV record that has blanks in the place of
/// commas, where several blanks count as one.
pub fn read_words(alloc: Global, line: &[u8]) -> Result<StringRecord, Refusal>
    ensures { IfOk result (λ words. fields_of words ≡ words_in line.now) }
{
    let line = single_blanks(alloc, line)?;
    if is_plain(line.as_slice()) {
        return plain_words(alloc, line.as_slice());
    }
    read_record(alloc, line.as_slice())
}

// The line with one blank between two words, and none before the first or behind the last.
fn single_blanks(alloc: Global, line: &[u8]) -> Result<Vec<u8>, AllocError>
    ensures { IfOk result (λ kept. kept.items ≡ single_blanked line.now) }
{
    let mut kept = Vec::with_capacity(alloc, line.len())?;
    let mut place = Place::Between;
    for byte in line {
        push_kept(&mut kept, place, *byte)?;
        place = behind(place, *byte);
    }
    Ok(kept)
}

fn push_kept(kept: &mut Vec<u8>, place: Place, byte: u8) -> Result<(), AllocError>
    ensures { OnOk result (kept.new.items ≡ kept_behind kept.old.items place byte) }
{
    match place {
        Place::Quoted => kept.push(byte)?,
        _ if byte == b' ' => {}
        Place::Between if !kept.is_empty() => kept.extend_from_slice(&[b' ', byte])?,
        _ => kept.push(byte)?,
    }
    Ok(())
}

// Where the byte behind this one stands.
fn behind(place: Place, byte: u8) -> Place
    ensures { result ≡ place_behind place byte }
{
    match (place, byte) {
        (Place::Quoted, b'"') => Place::Closed,
        (Place::Quoted, _) => Place::Quoted,
        (_, b' ') => Place::Between,
        (Place::Plain, _) => Place::Plain,
        (_, b'"') => Place::Quoted,
        _ => Place::Plain,
    }
}

fn read_record(alloc: Global, line: &[u8]) -> Result<StringRecord, Refusal>
    ensures { IfOk result (λ words. fields_of words ≡ words_of_record line.now) }
{
    let mut words = StringRecord::new(alloc);
    let mut reader = ReaderBuilder::new()
        .delimiter(b' ')
        .terminator(Terminator::Any(b'\n'))
        .has_headers(false)
        .flexible(true)
        .from_reader(alloc, line);
    match reader.read_record(&mut words) {
        Ok(true) => Ok(words),
        Ok(false) => Ok(StringRecord::new(alloc)),
        Err(error) => match error.kind() {
            ErrorKind::Utf8 { .. } => Err(Refusal::Mistake(Mistake::NotText)),
            // A slice is read without a fault, and records may differ in length: memory was
            // refused.
            _ => Err(Refusal::Memory),
        },
    }
}

/// The steps of a line that defines a view: what stands behind its first three words.
pub fn steps_in(line: &[u8]) -> &[u8]
    ensures { result.now ≡ words_spec.steps_in line.now }
{
    let mut left = 3;
    let mut place = Place::Between;
    for at in 0..line.len() {
        if left == 0 {
            return &line[at..];
        }
        left = left_behind(left, place, line[at]);
        place = behind(place, line[at]);
    }
    &[]
}

// How many words are left behind a byte that stands so.
fn left_behind(left: usize, place: Place, byte: u8) -> usize
    ensures { result ≡ words_spec.left_behind left place byte }
{
    if ends_word(place, byte) {
        left.saturating_sub(1)
    } else {
        left
    }
}

fn ends_word(place: Place, byte: u8) -> bool
    ensures { result ≡ words_spec.ends_word place byte }
{
    match place {
        Place::Plain | Place::Closed => byte == b' ',
        Place::Between | Place::Quoted => false,
    }
}

/// What belongs to a line besides its words.
#[derive(Clone, Copy, PartialEq, Eq)]
pub enum Following {
    /// So many lines of CSV.
    Lines(u64),
    /// Lines of CSV, all up to a line with a dot alone. Before a line that begins with a dot stands one more (RFC 5321, 4.5.2).
    UntilDot,
    /// The rest of the line itself, as it stands.
    Steps,
}

/// Which lines of CSV stand behind a line, where its words are the header of an `append` or a `replace`: COUNT, those up to a
/// dot, or as many as there are numbers. Behind other words there are none. To a `define` belong its steps. Words that memory was refused to are read once more
/// for this alone, so that the lines can be passed over. Where it is refused again, the bytes behind the last blank of an
/// `append` are taken for COUNT, if it has several blanks, and the blanks of a `replace` outside quotes, less one, are counted.
pub fn lines_behind(
    alloc: Global,
    words: &Result<StringRecord, Refusal>,
    line: &[u8],
) -> Following {
    match words {
        Ok(words) => lines_of(words),
        Err(Refusal::Memory) => match read_words(alloc, line) {
            Ok(words) => lines_of(&words),
            Err(_) => lines_guessed(line),
        },
        Err(_) => Following::Lines(0),
    }
}

fn lines_of(words: &StringRecord) -> Following {
    match words.get(0) {
        Some("append") if words.len() == 2 => Following::UntilDot,
        Some("define") => Following::Steps,
        Some("append") if words.len() == 4 && are_row_numbers(words, 2, 3) => {
            Following::Lines(count_of(words.get(3)))
        }
        Some("replace") if are_row_numbers(words, 2, words.len()) => {
            Following::Lines((words.len() as u64).saturating_sub(2))
        }
        _ => Following::Lines(0),
    }
}

// By the bytes of the line alone.
fn lines_guessed(line: &[u8]) -> Following {
    if line.starts_with(b"replace ") {
        return Following::Lines(blanks(line).saturating_sub(1));
    }
    if !line.starts_with(b"append ") {
        return Following::Lines(0);
    }
    if blanks(line) == 1 {
        return Following::UntilDot;
    }
    Following::Lines(count_of(last_word(line)))
}

// Whether the words from one place to before another are row numbers.
fn are_row_numbers(words: &StringRecord, from: usize, to: usize) -> bool {
    for at in from..to {
        if !words.get(at).is_some_and(|word| row_number(word).is_ok()) {
            return false;
        }
    }
    true
}

// Without a COUNT no line is read.
fn count_of(word: Option<&str>) -> u64 {
    match word {
        Some(word) => line_count(word).unwrap_or(0),
        None => 0,
    }
}

// How many blanks stand outside quotes.
fn blanks(line: &[u8]) -> u64 {
    let mut quoted = false;
    let mut count = 0;
    for byte in line {
        match *byte {
            b'"' => quoted = !quoted,
            b' ' if !quoted => count += 1,
            _ => {}
        }
    }
    count
}

fn last_word(line: &[u8]) -> Option<&str> {
    let blank = line.iter().rposition(|byte| *byte == b' ')?;
    str::from_utf8(&line[blank + 1..]).ok()
}
