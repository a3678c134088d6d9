//! Texts in HTML.
ghost use Rattle.std.specs.Prelude.{◌≡◌, ◌++◌, OnOk, true};
ghost use Rattle.df_page.specs.Markup.{escaped, escaped_byte};
ghost use Rattle.df_page.specs.Reading.{is_text, text_read};

use std::alloc::AllocError;

/// Appends a text, with entities in the place of what HTML would not read as text: angle brackets, quotes, ampersands,
/// and carriage returns, which a browser would take for line ends.
///
/// A zero byte is `&#0;`, which a browser reads as U+FFFD, since HTML cannot write it. Other control characters stand as
/// they are, since a browser keeps them and shows none.
#[tactic(auto, unfolding(crate::specs::Markup::escaped))]
pub fn push_escaped(out: &mut Vec<u8>, text: &[u8]) -> Result<(), AllocError>
    ensures value { OnOk result (out.new.items ≡ out.old.items ++ escaped text.now) }
    ensures reads { text_read (escaped text.now) ≡ text.now }
    ensures text { is_text (escaped text.now) ≡ true }
{
    for byte in text {
        push_byte(out, *byte)?;
    }
    Ok(())
}

fn push_byte(out: &mut Vec<u8>, byte: u8) -> Result<(), AllocError>
    ensures { OnOk result (out.new.items ≡ out.old.items ++ escaped_byte byte) }
{
    match byte {
        b'&' => Ok(out.extend_from_slice(b"&amp;")?),
        b'<' => Ok(out.extend_from_slice(b"&lt;")?),
        b'>' => Ok(out.extend_from_slice(b"&gt;")?),
        b'"' => Ok(out.extend_from_slice(b"&quot;")?),
        b'\r' => Ok(out.extend_from_slice(b"&#13;")?),
        0 => Ok(out.extend_from_slice(b"&#0;")?),
        _ => Ok(out.push(byte)?),
    }
}
