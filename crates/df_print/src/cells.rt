//! Cells as they are printed.
ghost use Rattle.std.specs.Prelude.{◌≡◌, true, IfOk};
ghost use Rattle.std.specs.List.{list_all};
ghost use Rattle.df_print.specs.Printed.{cell_or_null, cell_text, escaped_text, is_plain};

use crate::escapes::escape;
use df_value::{Cell, Row};
use itoa::Buffer;
use std::alloc::{AllocError, Global};

/// Prints cells one after another. Only a text with characters that are escaped takes memory, and so does a mean.
pub(crate) struct CellPrinter {
    alloc: Global,
    digits: Buffer,
    text: String,
}

// A body that owns one drops it by a call.
impl Drop for CellPrinter {
    fn drop(self) {
        let CellPrinter {
            alloc: _,
            digits,
            text,
        } = self;
        drop(digits);
        drop(text);
    }
}

/// Whether the text is printed as it stands: each byte is a character of ASCII, but no control character and no backslash.
fn is_printed_as_it_is(text: &str) -> bool
    ensures { result ≡ true → escaped_text text.now ≡ text.now }
{
    are_plain(text.as_bytes())
}

fn are_plain(bytes: &[u8]) -> bool
    ensures { result ≡ true → list_all is_plain bytes.now ≡ true }
{
    for byte in bytes {
        if *byte < b' ' || *byte > b'~' || *byte == b'\\' {
            return false;
        }
    }
    true
}

impl CellPrinter {
    pub(crate) fn new(alloc: Global) -> CellPrinter {
        CellPrinter {
            alloc,
            digits: Buffer::new(),
            text: String::new(alloc),
        }
    }

    /// A cell as it is printed.
    pub(crate) fn print<'a>(&'a mut self, cell: &'a Cell) -> Result<&'a str, AllocError>
        ensures { IfOk result (λ s. s.now ≡ cell_text cell.now) }
    {
        match cell {
            Cell::Null => Ok("null"),
            Cell::Int(n) => Ok(self.digits.format(*n)),
            Cell::Wide(n) => Ok(self.digits.format(*n)),
            Cell::Text(t) => self.print_text(t.as_str()),
            Cell::Bool(true) => Ok("true"),
            Cell::Bool(false) => Ok("false"),
            Cell::Frac(f) => {
                let sum = f.sum();
                let count = f.count();
                self.text = format!(in self.alloc; "{sum}/{count}")?;
                Ok(self.text.as_str())
            }
        }
    }

    /// A text as it is printed.
    pub(crate) fn print_text<'a>(&'a mut self, text: &'a str) -> Result<&'a str, AllocError>
        ensures { IfOk result (λ s. s.now ≡ escaped_text text.now) }
    {
        if is_printed_as_it_is(text) {
            return Ok(text);
        }
        self.text = escape(self.alloc, text)?;
        Ok(self.text.as_str())
    }

    /// The cell of a row at an index as it is printed; a cell that is missing prints as null.
    pub(crate) fn print_at<'a>(&'a mut self, at: usize, row: &'a Row) -> Result<&'a str, AllocError>
        ensures { IfOk result (λ s. s.now ≡ cell_text (cell_or_null at row.now)) }
    {
        match row.get(at) {
            Some(cell) => self.print(cell),
            None => Ok("null"),
        }
    }
}
