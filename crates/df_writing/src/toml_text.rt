//! Values of TOML, as a view document has them.
ghost use Rattle.std.specs.Prelude.{◌≡◌, ◌<◌, ◌++◌, ◌∷◌, [], IfOk, OnOk, codes, flat_map, map, string_bytes};
ghost use Rattle.std.specs.Fmt.{signed_decimal};
ghost use Rattle.toml.specs.Data.{string};
ghost use Rattle.toml.specs.View.{items_of};
ghost use Rattle.df_print.specs.Printed as printed;
ghost use Rattle.df_writing.specs.StepData.{names_data};
ghost use Rattle.df_writing.specs.Texts as texts;
ghost use Rattle.df_writing.specs.Texts.{byte_text, code_text, data_text, last_item, later_items};

use df_value::Text;
use std::alloc::{AllocError, Global};

/// Adds a text, in double quotes.
#[tactic(auto, unfolding(crate::specs::Texts::quoted))]
pub fn push_quoted(text: &mut Vec<u8>, word: &str) -> Result<(), AllocError>
    ensures { OnOk result (text.new.items ≡ text.old.items ++ texts.quoted word.now) }
{
    text.push(b'"')?;
    push_bytes(text, word.as_bytes())?;
    text.push(b'"')?;
    Ok(())
}

fn push_bytes(text: &mut Vec<u8>, bytes: &[u8]) -> Result<(), AllocError>
    ensures { OnOk result (text.new.items ≡ text.old.items ++ flat_map byte_text bytes.now) }
{
    for byte in bytes {
        push_byte(text, *byte)?;
    }
    Ok(())
}

fn push_byte(text: &mut Vec<u8>, byte: u8) -> Result<(), AllocError>
    ensures { OnOk result (text.new.items ≡ text.old.items ++ byte_text byte) }
{
    if byte == b'"' {
        text.extend_from_slice(b"\\\"")
    } else if byte == b'\\' {
        text.extend_from_slice(b"\\\\")
    } else if byte < 32 || byte == 127 {
        push_code(text, byte)
    } else {
        text.extend_from_slice(&[byte])
    }
}

// A control character, by its code.
fn push_code(text: &mut Vec<u8>, byte: u8) -> Result<(), AllocError>
    ensures { OnOk result (text.new.items ≡ text.old.items ++ code_text byte) }
{
    text.extend_from_slice(b"\\u00")?;
    text.extend_from_slice(&[hex_digit(byte / 16), hex_digit(byte % 16)])
}

// The lower-case digit of a number below 16.
fn hex_digit(number: u8) -> u8
    requires { number < 16 }
    ensures { result ≡ printed.hex_digit number }
{
    if number < 10 {
        b'0' + number
    } else {
        b'a' + (number - 10)
    }
}

/// Adds a whole number.
pub fn push_number(alloc: Global, text: &mut Vec<u8>, number: i64) -> Result<(), AllocError>
    ensures { OnOk result (text.new.items ≡ text.old.items ++ signed_decimal number) }
{
    let digits = decimal(alloc, number)?;
    text.extend_from_slice(digits.as_bytes())
}

fn decimal(alloc: Global, number: i64) -> Result<String, AllocError>
    ensures { IfOk result (λ digits. string_bytes digits ≡ signed_decimal number) }
{
    format!(in alloc; "{number}")
}

/// Adds the bracket of an array, and the text that is its first item.
pub fn push_first(text: &mut Vec<u8>, word: &str) -> Result<(), AllocError>
    ensures { OnOk result (text.new.items ≡ text.old.items ++ (codes "[" ++ texts.quoted word.now)) }
{
    text.push(b'[')?;
    push_quoted(text, word)
}

/// Adds a text that is a later item.
pub fn push_next(text: &mut Vec<u8>, word: &str) -> Result<(), AllocError>
    ensures { OnOk result (text.new.items ≡ text.old.items ++ (codes ", " ++ texts.quoted word.now)) }
{
    text.extend_from_slice(b", ")?;
    push_quoted(text, word)
}

/// Adds a text that is the last item, behind another.
pub fn push_last_text(text: &mut Vec<u8>, word: &str) -> Result<(), AllocError>
    ensures { OnOk result (text.new.items ≡ text.old.items ++ last_item (string word.now)) }
{
    push_next(text, word)?;
    text.extend_from_slice(b"]")
}

/// Adds names, in an array.
pub fn push_names(text: &mut Vec<u8>, names: &[Text]) -> Result<(), AllocError>
    ensures { OnOk result (text.new.items ≡ text.old.items ++ data_text (names_data names.now)) }
{
    match names {
        [first, rest @ ..] => {
            push_first(text, first.as_str())?;
            push_later_names(text, rest)
        }
        [] => text.extend_from_slice(b"[]"),
    }
}

// Adds the names behind the first one.
fn push_later_names(text: &mut Vec<u8>, names: &[Text]) -> Result<(), AllocError>
    ensures { OnOk result (text.new.items ≡ text.old.items
        ++ later_items (items_of (map string names.now))) }
{
    for name in names {
        push_next(text, name.as_str())?;
    }
    text.extend_from_slice(b"]")
}
