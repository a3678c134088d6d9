//! Frames as a view document writes them.
ghost use Rattle.std.specs.Prelude.{◌≡◌, ◌++◌, OnOk, flat_map, map};
ghost use Rattle.df_writing.specs.FrameTables.{column_item, frame_head, frame_table};
ghost use Rattle.df_writing.specs.FrameTables as tables;

use crate::toml_text::push_quoted;
use df_value::CellType;
use std::alloc::AllocError;

/// Adds a frame without rows, of these columns, each a name and the word of a type.
pub fn push_frame_table(
    text: &mut Vec<u8>,
    name: &str,
    columns: &[(&str, &str)],
) -> Result<(), AllocError>
    ensures { OnOk result (text.new.items ≡ text.old.items
        ++ frame_table name.now (map (λ c. (c.0.now, c.1.now)) columns.now)) }
{
    push_head(text, name)?;
    push_columns(text, columns)?;
    text.extend_from_slice(b"]\n")
}

fn push_head(text: &mut Vec<u8>, name: &str) -> Result<(), AllocError>
    ensures { OnOk result (text.new.items ≡ text.old.items ++ frame_head name.now) }
{
    text.extend_from_slice(b"[[frame]]\nname = ")?;
    push_quoted(text, name)?;
    text.extend_from_slice(b"\ntext = ''\ncolumns = [")?;
    Ok(())
}

fn push_columns(text: &mut Vec<u8>, columns: &[(&str, &str)]) -> Result<(), AllocError>
    ensures { OnOk result (text.new.items ≡ text.old.items
        ++ flat_map column_item (map (λ c. (c.0.now, c.1.now)) columns.now)) }
{
    for column in columns {
        push_column(text, column.0, column.1)?;
    }
    Ok(())
}

fn push_column(text: &mut Vec<u8>, name: &str, dtype: &str) -> Result<(), AllocError>
    ensures { OnOk result (text.new.items ≡ text.old.items ++ column_item (name.now, dtype.now)) }
{
    text.extend_from_slice(b"[")?;
    push_quoted(text, name)?;
    text.extend_from_slice(b", ")?;
    push_quoted(text, dtype)?;
    text.extend_from_slice(b"], ")
}

/// The word of a type. A document has none for `Wide` and `Frac`, which are of views alone.
pub fn dtype_word(dtype: CellType) -> &'static str
    ensures { result.now ≡ tables.dtype_word dtype }
{
    match dtype {
        CellType::Int => "Int",
        CellType::Text => "Text",
        CellType::Bool => "Bool",
        CellType::Wide => "Wide",
        CellType::Frac => "Frac",
    }
}
