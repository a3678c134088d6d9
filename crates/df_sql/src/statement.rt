//! A statement, piece by piece.
ghost use Rattle.std.specs.Prelude.{◌≡◌, ◌++◌, OnOk, flat_map};
ghost use Rattle.df_sql.specs.Pieces.{piece_text};

use crate::quoting::{push_literal, push_name};
use std::alloc::{AllocError, Global};

/// The most bytes of a name.
const MOST_BYTES_OF_NAME: usize = 63;

/// A piece of a statement.
#[derive(Clone, Copy)]
pub enum Piece<'a> {
    /// Words and signs, as they stand.
    Sql(&'a str),
    /// A name of a table, a view or a column.
    Name(&'a str),
    /// A text.
    Literal(&'a str),
    /// A whole number.
    Number(i64),
}

/// A statement, and whether PostgreSQL takes the names and texts in it.
pub struct Statement {
    pub text: Vec<u8>,
    /// Whether a name is empty, is longer than a name may be, or has a zero byte.
    pub has_odd_name: bool,
    /// Whether a text has a zero byte.
    pub has_zero_byte: bool,
}

// A body that owns one drops it by a call.
impl Drop for Statement {
    fn drop(self) {
        let Statement {
            text,
            has_odd_name: _,
            has_zero_byte: _,
        } = self;
        drop(text);
    }
}

impl Statement {
    /// One without a piece.
    pub fn new(alloc: Global) -> Statement {
        Statement {
            text: Vec::new(alloc),
            has_odd_name: false,
            has_zero_byte: false,
        }
    }

    /// Adds pieces.
    pub fn push(&mut self, pieces: &[Piece<'_>]) -> Result<(), AllocError>
        ensures { OnOk result (self.new.text.items
            ≡ self.old.text.items ++ flat_map piece_text pieces.now) }
    {
        for piece in pieces {
            self.push_piece(*piece)?;
        }
        Ok(())
    }

    fn push_piece(&mut self, piece: Piece<'_>) -> Result<(), AllocError>
        ensures { OnOk result (self.new.text.items
            ≡ self.old.text.items ++ piece_text piece.entry) }
    {
        match piece {
            Piece::Sql(words) => self.text.extend_from_slice(words.as_bytes()),
            Piece::Name(name) => {
                self.has_odd_name = self.has_odd_name || is_odd_name(name);
                push_name(&mut self.text, name)
            }
            Piece::Literal(text) => {
                self.has_zero_byte = self.has_zero_byte || has_byte(text, 0);
                push_literal(&mut self.text, text)
            }
            Piece::Number(number) => {
                let mut digits = itoa::Buffer::new();
                self.text
                    .extend_from_slice(digits.format(number).as_bytes())
            }
        }
    }
}

// Whether PostgreSQL does not take a name, or not the whole of it.
fn is_odd_name(name: &str) -> bool {
    name.is_empty() || name.len() > MOST_BYTES_OF_NAME || has_byte(name, 0)
}

/// Whether a text has this byte.
pub fn has_byte(text: &str, wanted: u8) -> bool {
    text.as_bytes().iter().any(|byte| *byte == wanted)
}
