//! Types of columns.
use df_value::CellType;

/// The type of a column. A mean is a text: its sum, `/` and its count. Texts are in the order of their bytes.
pub fn type_words(dtype: CellType) -> &'static str {
    match dtype {
        CellType::Int => "bigint",
        CellType::Wide => "numeric",
        CellType::Text | CellType::Frac => "text COLLATE \"C\"",
        CellType::Bool => "boolean",
    }
}
