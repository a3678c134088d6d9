//! Laws of the operators that no program calls, and rows that no operator makes.
use crate::given::rows;
use df_ops::{
    RollKind, count_of, cum_sum, group_lengths, group_sums, mean_of, min_and_max_of, rolling_last,
    size_of,
};
use df_print::{column_width, print_table};
use df_value::{Cell, CellType, List, Schema, Text};
use std::test::Fail;

#[test]
fn groups_add_up(rt: HostRuntime) -> Result<(), Fail> {
    let alloc = rt.alloc();
    let rows = rows(alloc, &[Some(5), Some(-3), Some(5), None])?;
    let rows = rows.as_slice();
    let lengths = group_lengths(alloc, &[Some(0)], rows)?;
    assert!(rt; lengths.as_slice() == [2, 1, 1].as_slice());
    let sums = group_sums(alloc, &[Some(0)], rows, Some(0))?;
    assert!(rt; sums.as_slice() == [10, -3, 0].as_slice());
    Ok(())
}

#[test]
fn the_last_window_and_a_column_that_is_not_there(rt: HostRuntime) -> Result<(), Fail> {
    let alloc = rt.alloc();
    let rows = rows(alloc, &[Some(1), None, Some(3), Some(4), Some(5)])?;
    let rows = rows.as_slice();
    let last = rolling_last(alloc, RollKind::Min, 3, 1, Some(0), rows)?;
    assert!(rt; last == Cell::Int(3));
    let sums = cum_sum(alloc, Some(0), rows)?;
    assert!(rt; sums.as_slice().last() == Some(&Cell::Wide(13)));
    assert!(rt; min_and_max_of(Some(0), rows) == Some((&Cell::Int(1), &Cell::Int(5))));
    assert!(rt; min_and_max_of(None, rows) == None);
    assert!(rt; count_of(None, rows) == 0 && mean_of(None, rows) == Cell::Null);
    assert!(rt; size_of(-1) == 0 && size_of(2) == 2);
    Ok(())
}

// A row that is shorter than the schema, and a column that has no cell.
#[test]
fn cells_that_are_missing_print_as_null(rt: HostRuntime) -> Result<(), Fail> {
    let alloc = rt.alloc();
    let rows = rows(alloc, &[Some(-1)])?;
    let columns = vec![in alloc;
        (Text::from_str(alloc, "s")?, CellType::Int),
        (Text::from_str(alloc, "b")?, CellType::Text),
    ]?;
    let schema = Schema::new(List::from_vec(columns))?;
    let name = Text::from_str(alloc, "e\u{301}")?;
    let printed = print_table(alloc, &name, &schema, rows.as_slice())?;
    let want = "e\u{301} (1 x 2)\n s  b   \n-1  null\n";
    assert!(rt; printed.as_slice() == want.as_bytes());
    assert!(rt; column_width(alloc, 7, &name, &[])? == 1);
    Ok(())
}
