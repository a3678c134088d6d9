//! The words of a line without quotes, which takes no reader: to set one up takes longer than to read a line.
ghost use Rattle.std.specs.Prelude.{◌≡◌, ◌++◌, ◌∷◌, [], true, IfOk, OnOk, T};
ghost use Rattle.std.specs.List.{list_all};
ghost use Rattle.csv.specs.Records.{fields_of};
ghost use Rattle.df_session.specs.Words.{IsPlain, is_plain_byte, words_of_record};

use crate::refusal::{Mistake, Refusal};
use csv::StringRecord;
use std::alloc::Global;

/// Whether blanks alone have a meaning to `csv` in a line: it has a byte, no byte order mark at its start, and neither a
/// quote nor a line feed.
#[tactic(auto, using(crate::proofs::PlainWords::unmarked))]
pub fn is_plain(line: &[u8]) -> bool
    ensures { result ≡ true → IsPlain line.now }
{
    !line.is_empty() && line[0] != 0xEF && are_plain(line)
}

fn are_plain(line: &[u8]) -> bool
    ensures { result ≡ true → T (list_all is_plain_byte line.now) }
{
    for byte in line {
        if *byte == b'"' || *byte == b'\n' {
            return false;
        }
    }
    true
}

/// The words of a plain line, between which one blank stands.
pub fn plain_words(alloc: Global, line: &[u8]) -> Result<StringRecord, Refusal>
    requires { IsPlain line.now }
    ensures { IfOk result (λ words. fields_of words ≡ words_of_record line.now) }
{
    let mut words = StringRecord::new(alloc);
    let mut start = 0;
    for at in 0..line.len() {
        if line[at] == b' ' {
            push_word(&mut words, &line[start..at])?;
            start = at + 1;
        }
    }
    push_word(&mut words, &line[start..])?;
    Ok(words)
}

fn push_word(words: &mut StringRecord, word: &[u8]) -> Result<(), Refusal>
    ensures { OnOk result (fields_of words.new ≡ fields_of words.old ++ word.now ∷ []) }
{
    let Ok(word) = str::from_utf8(word) else {
        return Err(Refusal::Mistake(Mistake::NotText));
    };
    words.push_field(word)?;
    Ok(())
}
