//! The operators of dataframes over plain tables, each computed from the whole table of its input.
//!
//! The operators are [`filter_table`], [`select_table`], [`with_columns_table`], [`group_by`], [`join`],
//! [`rolling_table`], [`cum_sum_table`] and [`rank_table`]; specs/Tables.antt defines them. The other calls are
//! their parts, with the laws of the definitions. docs/ARCHITECTURE.md says where to add an operator or an
//! aggregate.
#![tactic(auto)]

mod agg;
mod aggregates;
mod grouping;
mod groups;
mod join_columns;
mod joins;
mod min_max;
mod named_columns;
mod one_column;
mod places;
mod plain_table;
mod ranks;
mod row_wise;
mod totals;
mod windows;

pub use agg::Agg;
pub use aggregates::{aggregate, count_of, mean_of, sum_of};
pub use grouping::group_by;
pub use groups::{group_lengths, group_of, is_in_group, key_of, keys_of};
pub use join_columns::{JoinIndices, column_indices, columns_of_join, join_indices_of};
pub use joins::{How, has_null, join, join_row, join_rows, nulls, row_beside};
pub use min_max::{MinMax, is_beyond, min_and_max_of, min_or_max_of, min_or_max_with};
pub use named_columns::with_columns;
pub use one_column::{columns_with, places_with, with_column_row};
pub use places::{Origin, Place, placed_row, places_of};
pub use plain_table::PlainTable;
pub use ranks::{RankKind, dense_rank, min_rank, rank_table};
pub use row_wise::{
    filter_rows, filter_table, keeps, physical_items, select_row, select_table, with_columns_row,
    with_columns_table,
};
pub use totals::group_sums;
pub use windows::{
    RollKind, cum_sum, cum_sum_table, rolling_dtype, rolling_last, rolling_table, size_of,
};
