//! Texts as they are printed.
ghost use Rattle.std.specs.Prelude.{◌≡◌, ◌≤◌, ◌++◌, ◌∷◌, ◌/◌, ◌%◌, [], IfOk, IsTrue, OnOk, string_bytes};
ghost use Rattle.df_print.specs.Printed.{escaped_char, escaped_text, hex_digit, is_all_printable, IsPrintedAlone};

use std::alloc::{AllocError, Global};

fn hex(digit: u8) -> u8
    requires { digit ≤ 15 }
    ensures { result ≡ hex_digit digit }
{
    if digit < 10 { 48 + digit } else { 87 + digit }
}

/// A text as it is printed, in tables and in the texts of faults: a byte below 0x20 and 0x7F as
/// `\x` and two lower-case hexadecimal digits, a backslash as two, all else as it is.
pub fn escape(alloc: Global, text: &str) -> Result<String, AllocError>
    ensures value { IfOk result (λ s. string_bytes s ≡ escaped_text text.now) }
    ensures printable { IfOk result (λ s. IsTrue (is_all_printable (string_bytes s))) }
    ensures injective { IsPrintedAlone text.now }
{
    escaped(alloc, text)
}

fn escaped(alloc: Global, text: &str) -> Result<String, AllocError>
    ensures { IfOk result (λ s. string_bytes s ≡ escaped_text text.now) }
{
    let mut out = String::with_capacity(alloc, text.len())?;
    for c in text.chars() {
        push_escaped(&mut out, c)?;
    }
    Ok(out)
}

// Adds a character as it is printed.
fn push_escaped(out: &mut String, c: char) -> Result<(), AllocError>
    ensures { OnOk result (string_bytes out.new ≡ string_bytes out.old ++ escaped_char c) }
{
    if c == '\\' {
        out.push_str("\\\\")
    } else if c < ' ' || c == '\x7F' {
        push_code(out, c as u32 as u8)
    } else {
        out.push(c)
    }
}

// Adds the code of a character.
fn push_code(out: &mut String, code: u8) -> Result<(), AllocError>
    ensures { OnOk result
        (string_bytes out.new
        ≡ string_bytes out.old ++ 92 ∷ 120 ∷ hex_digit (code / 16) ∷ hex_digit (code % 16) ∷ []) }
{
    out.push('\\')?;
    out.push('x')?;
    out.push(char::from(hex(code / 16)))?;
    out.push(char::from(hex(code % 16)))
}
