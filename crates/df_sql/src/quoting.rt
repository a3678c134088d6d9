//! Names and texts in quotes.
ghost use Rattle.std.specs.Prelude.{◌≡◌, ◌++◌, OnOk, flat_map};
ghost use Rattle.df_sql.specs.Quotes as quotes;
ghost use Rattle.df_sql.specs.Quotes.{IsReadBack, doubled};

use std::alloc::AllocError;

/// Adds a name, in double quotes.
#[tactic(auto, using(crate::proofs::QuoteFacts::read_quoted))]
pub fn push_name(text: &mut Vec<u8>, name: &str) -> Result<(), AllocError>
    ensures text { OnOk result (text.new.items ≡ text.old.items ++ quotes.name_text name.now) }
    ensures read_back { IsReadBack quotes.name_quote name.now }
{
    push_quoted(text, b'"', name)
}

/// Adds a text, in single quotes.
#[tactic(auto, using(crate::proofs::QuoteFacts::read_quoted))]
pub fn push_literal(text: &mut Vec<u8>, word: &str) -> Result<(), AllocError>
    ensures text { OnOk result (text.new.items ≡ text.old.items ++ quotes.literal_text word.now) }
    ensures read_back { IsReadBack quotes.text_quote word.now }
{
    push_quoted(text, b'\'', word)
}

#[tactic(auto, unfolding(crate::specs::Quotes::quoted))]
fn push_quoted(text: &mut Vec<u8>, quote: u8, word: &str) -> Result<(), AllocError>
    ensures { OnOk result (text.new.items ≡ text.old.items ++ quotes.quoted quote word.now) }
{
    text.push(quote)?;
    push_bytes(text, quote, word.as_bytes())?;
    text.push(quote)?;
    Ok(())
}

// Each byte, and a quote twice.
fn push_bytes(text: &mut Vec<u8>, quote: u8, bytes: &[u8]) -> Result<(), AllocError>
    ensures { OnOk result (text.new.items ≡ text.old.items ++ flat_map (doubled quote) bytes.now) }
{
    for byte in bytes {
        push_byte(text, quote, *byte)?;
    }
    Ok(())
}

fn push_byte(text: &mut Vec<u8>, quote: u8, byte: u8) -> Result<(), AllocError>
    ensures { OnOk result (text.new.items ≡ text.old.items ++ doubled quote byte) }
{
    if byte == quote {
        text.extend_from_slice(&[quote, quote])
    } else {
        text.extend_from_slice(&[byte])
    }
}
