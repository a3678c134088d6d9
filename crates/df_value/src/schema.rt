//! Schemas: the names and types of the columns of a table.
ghost use Rattle.std.specs.Prelude.{◌≡◌, ◌<◌, [], MatchResult, length, IfSome};
ghost use Rattle.std.specs.List.{list_any};
ghost use Rattle.std.specs.Option.{option_copied};
ghost use Rattle.std.specs.Str.{bytes_eq};
ghost use Rattle.df_value.specs.Schemas as schemas;
ghost use Rattle.df_value.specs.Schemas.{IsSchema, is_base_dtype};
ghost use Rattle.df_value.specs.SchemaFaults.{schema_fault};
ghost use Rattle.df_value.specs.Rows.{row_fits};

use crate::cell::{Cell, CellType};
use crate::limits::MOST_COLUMNS;
use crate::list::List;
use crate::names::{first_doubled_name, index_of_name};
use crate::row::Row;
use crate::text::Text;
use crate::traits::{Duplicate, Exact};
use std::alloc::{AllocError, Global};
use std::marker::Model;
use thiserror::Error;

/// The columns of a table by name and type: 1 to 32 of them, no two of one name. Any text is a
/// name.
#[derive(PartialEq, Eq)]
pub struct Schema {
    columns: List<(Text, CellType)>,
}

// A body that owns one drops it by a call.
impl Drop for Schema {
    fn drop(self) {
        let Schema { columns } = self;
        drop(columns);
    }
}

impl Model for Schema {
    ghost use Rattle.std.specs.Prelude.{List as Seq, ℕ};
    ghost use Rattle.df_value.specs.declared.cell.CellType.{CellType};
    ghost use Rattle.df_value.specs.Schemas.{IsSchema};

    ghost Value = { Seq (Seq ℕ × CellType) };

    ghost view = { λ s. s.columns };

    ghost invariant = { λ s. IsSchema s.columns };

    ghost inverse = { λ columns. record { columns = columns } };
}

/// Why a list of columns is no schema.
#[derive(Debug, PartialEq, Eq, Drop, Error)]
pub enum SchemaFault {
    #[error("no columns")]
    NoColumns,
    #[error("more than 32 columns")]
    TooWide,
    #[error("a name stands twice")]
    DoubledName,
}

impl Schema {
    /// The schema of these columns.
    ///
    /// Refused are, in this order: no columns, more than 32 columns, a name that stands twice.
    pub fn new(columns: List<(Text, CellType)>) -> Result<Schema, SchemaFault>
        ensures { MatchResult result (λ s. (s ≡ columns) × IsSchema columns)
            (λ e. schema_fault columns ≡ Some e) }
    {
        if columns.is_empty() {
            return Err(SchemaFault::NoColumns);
        }
        if columns.len() > MOST_COLUMNS {
            return Err(SchemaFault::TooWide);
        }
        if first_doubled_name(columns.as_slice()).is_some() {
            return Err(SchemaFault::DoubledName);
        }
        Ok(Schema { columns })
    }

    /// The columns in order.
    pub fn columns(&self) -> &List<(Text, CellType)>
        ensures value { result.now ≡ self.now }
        ensures sound { IsSchema self.now }
    {
        &self.columns
    }

    /// The index of the column of this name, from 0.
    pub fn position(&self, name: &Text) -> Option<usize>
        ensures value { result ≡ schemas.column_index name.now self.now }
        ensures within { IfSome result (λ i. i < length self.now) }
    {
        column_index(name, self.columns.as_slice())
    }

    /// The type of the column of this name.
    pub fn dtype_of(&self, name: &Text) -> Option<CellType>
        ensures { result ≡ schemas.column_dtype name.now self.now }
    {
        column_dtype(name, self.columns.as_slice())
    }

    /// Whether a base frame may have this schema: all types are Int, Text or Bool.
    pub fn is_base(&self) -> bool
        ensures { result ≡ schemas.is_base self.now }
    {
        self.columns.as_slice().iter().all(|c| is_base(c.1))
    }

    /// Whether a row has one cell for each column, which is null or of the column's type.
    pub fn fits(&self, row: &Row) -> bool
        ensures { result ≡ row_fits self.now row.now }
    {
        fits_columns(self.columns.as_slice(), row.as_slice())
    }
}

impl Duplicate for Schema {
    fn copy(&self, alloc: Global) -> Result<Schema, AllocError> {
        Ok(Schema {
            columns: self.columns.copy(alloc)?,
        })
    }
}

impl Exact for Schema {
    ghost use Rattle.std.proofs.Common.{rules};
    ghost use Rattle.df_value.specs.Exactly.{list_decides, pair_decides};
    ghost use Rattle.std.proofs.lemmas.Slice.Eq.{bytes_eq-Decides};

    ghost decides = { λ a b. list_decides (pair_decides bytes_eq-Decides (Prim.search rules)) a b };
}

fn is_base(dtype: CellType) -> bool
    ensures { result ≡ is_base_dtype dtype }
{
    matches!(dtype, CellType::Int | CellType::Text | CellType::Bool)
}

fn fits_columns(columns: &[(Text, CellType)], cells: &[Cell]) -> bool
    ensures { result ≡ row_fits columns.now cells.now }
{
    if columns.len() != cells.len() {
        return false;
    }
    for i in 0..columns.len() {
        if !cells[i].fits(columns[i].1) {
            return false;
        }
    }
    true
}

/// The index of the column of this name, from 0.
pub fn column_index(name: &Text, columns: &[(Text, CellType)]) -> Option<usize>
    ensures value { result ≡ schemas.column_index name.now columns.now }
    ensures within { IfSome result (λ i. i < length columns.now) }
{
    index_of_name(columns, name.as_str())
}

/// The type of the column of this name.
pub fn column_dtype(name: &Text, columns: &[(Text, CellType)]) -> Option<CellType>
    ensures { result ≡ schemas.column_dtype name.now columns.now }
{
    columns.iter().find(|c| c.0 == *name).map(|c| c.1)
}
