//! Tables of tagged rows, in shared blocks of typed columns.
//!
//! A [`Table`] has a schema and rows by rising [`Tag`]. Contracts see it as the schema and a finite map from tags to
//! rows. The rows stand in blocks of at most 128, which tables share. A block has a tag for each row, or one number of each
//! where the other two are 0, and a [`Column`] for each column of the schema: values under a null mask ([`Masked`]), or
//! texts by their places in a dictionary ([`Texts`], [`TextPool`]).
//!
//! A block keeps where a least and a greatest cell of each of its columns stand, and each leaf of a list of blocks has
//! copies of these cells, so that [`Table::least`], [`Table::greatest`] and [`Table::tags_above`] pass over most cells. A
//! leaf has the tag of its first row too, which stands beside each pointer to it: so [`Table::find`] goes down to one leaf,
//! and reads no other.
//!
//! [`Table::edited`] gives the table after the changes of some [`Entry`]s. It makes new only the blocks that are
//! changed, column by column.
#![tactic(auto)]

mod block;
mod block_list;
mod blocks;
mod column;
mod compare;
mod edited;
mod entry;
mod leaf;
mod leaf_totals;
mod leaf_tree;
mod leaves;
mod masked;
mod merge;
mod min_max;
mod min_max_of_blocks;
mod min_max_search;
mod picks;
mod pool;
mod reads;
mod row_tags;
mod run;
mod same_rows;
mod shared_leaf;
mod sharing;
mod skipping;
mod spots;
mod table;
mod tag;
mod texts;
mod values;

pub use column::Column;
pub use entry::Entry;
pub use masked::Masked;
pub use pool::TextPool;
pub use table::Table;
pub use tag::Tag;
pub use texts::Texts;
