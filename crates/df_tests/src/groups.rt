//! Live groups under deltas.
use crate::deltas::{Step, after_entries, comes, follows, goes, has_entries};
use crate::given::columns;
use df_column::{Entry, Tag};
use df_group::LiveGroup;
use df_ops::Agg;
use df_value::{Cell, CellType, List, Row, Schema, Text};
use std::alloc::{AllocError, Global};
use std::test::Fail;

const KEY: [CellType; 1] = [CellType::Int];

const KEY_AND_VALUE: [CellType; 2] = [CellType::Int, CellType::Int];

// The number of rows of each key k, as the column n.
fn lengths(alloc: Global) -> Result<LiveGroup, AllocError> {
    let schema = columns(alloc, &["k"])?;
    let keys = [Text::from_str(alloc, "k")?];
    let aggregates = [(Text::from_str(alloc, "n")?, Agg::Len)];
    LiveGroup::new(alloc, &schema, &keys, &aggregates)
}

// A chunk with the keys 2 and 1 at the places 2 and 3, and then one with 1 and 3 at 0 and 1. The first row goes.
#[test]
fn a_group_stands_at_its_first_row(rt: HostRuntime) -> Result<(), Fail> {
    let alloc = rt.alloc();
    let later = Step {
        given: &[comes(3, (Some(2), None)), comes(4, (Some(1), None))],
        told: &[comes(3, (Some(2), Some(1))), comes(4, (Some(1), Some(1)))],
        most: 4,
    };
    let earlier = Step {
        given: &[comes(1, (Some(1), None)), comes(2, (Some(3), None))],
        told: &[
            comes(1, (Some(1), Some(2))),
            comes(2, (Some(3), Some(1))),
            goes(4, (Some(1), Some(1))),
        ],
        most: 4,
    };
    let first_goes = Step {
        given: &[goes(1, (Some(1), None))],
        told: &[goes(1, (Some(1), Some(2))), comes(4, (Some(1), Some(1)))],
        most: 2,
    };
    let steps = [later, earlier, first_goes];
    assert!(rt; follows(alloc, lengths(alloc)?, &KEY, &KEY_AND_VALUE, &steps)?);
    Ok(())
}

// How many sales each region has, and their sum.
fn sales(alloc: Global) -> Result<LiveGroup, AllocError> {
    let region = (Text::from_str(alloc, "region")?, CellType::Text);
    let qty = (Text::from_str(alloc, "qty")?, CellType::Int);
    let schema = Schema::new(List::from_vec(vec![in alloc; region, qty]?)).map_err(|_| AllocError)?;
    let keys = [Text::from_str(alloc, "region")?];
    let sum = Agg::Sum(Text::from_str(alloc, "qty")?);
    let aggregates = [
        (Text::from_str(alloc, "n")?, Agg::Len),
        (Text::from_str(alloc, "total")?, sum),
    ];
    LiveGroup::new(alloc, &schema, &keys, &aggregates)
}

// A row of the sales, or of their groups.
#[derive(Clone, Copy)]
enum Line {
    Sale(&'static str, Option<i64>),
    Group(&'static str, i64, i128),
}

fn row(alloc: Global, line: Line) -> Result<Row, AllocError> {
    let cells = match line {
        Line::Sale(region, qty) => {
            let region = Cell::Text(Text::from_str(alloc, region)?);
            vec![in alloc; region, qty.map_or(Cell::Null, Cell::Int)]?
        }
        Line::Group(region, n, total) => {
            let region = Cell::Text(Text::from_str(alloc, region)?);
            vec![in alloc; region, Cell::Int(n), Cell::Wide(total)]?
        }
    };
    Row::new(alloc, cells)
}

fn some_row(alloc: Global, line: Option<Line>) -> Result<Option<Row>, AllocError> {
    match line {
        Some(line) => Ok(Some(row(alloc, line)?)),
        None => Ok(None),
    }
}

// The number of a tag, and the rows there before and afterwards.
type Change = (u64, Option<Line>, Option<Line>);

fn entries(alloc: Global, changes: &[Change]) -> Result<Vec<Entry>, AllocError> {
    let mut entries = Vec::new(alloc);
    for (first, old, new) in changes {
        let tag = Tag {
            first: *first,
            second: 0,
            third: 0,
        };
        let old = some_row(alloc, *old)?;
        let new = some_row(alloc, *new)?;
        entries.push(Entry { tag, old, new })?;
    }
    Ok(entries)
}

const SALES_COME: [Change; 3] = [
    (1, None, Some(Line::Sale("north", Some(3)))),
    (2, None, Some(Line::Sale("south", None))),
    (3, None, Some(Line::Sale("north", Some(-1)))),
];

const GROUPS_COME: [Change; 2] = [
    (1, None, Some(Line::Group("north", 2, 2))),
    (2, None, Some(Line::Group("south", 1, 0))),
];

const SALE_IS_REPLACED: [Change; 1] = [(
    1,
    Some(Line::Sale("north", Some(3))),
    Some(Line::Sale("south", Some(4))),
)];

const GROUPS_CHANGE: [Change; 3] = [
    (
        1,
        Some(Line::Group("north", 2, 2)),
        Some(Line::Group("south", 2, 4)),
    ),
    (2, Some(Line::Group("south", 1, 0)), None),
    (3, None, Some(Line::Group("north", 1, -1))),
];

// The groups after these changes of the sales, and whether they told these.
fn tells(
    alloc: Global,
    groups: LiveGroup,
    given: &[Change],
    told: &[Change],
) -> Result<(LiveGroup, bool), AllocError> {
    let (groups, out, _work) = after_entries(groups, entries(alloc, given)?)?;
    let want = entries(alloc, told)?;
    Ok((groups, has_entries(&out, want.as_slice())))
}

#[test]
fn a_row_that_is_replaced_goes_to_another_group(rt: HostRuntime) -> Result<(), Fail> {
    let alloc = rt.alloc();
    let (groups, come) = tells(alloc, sales(alloc)?, &SALES_COME, &GROUPS_COME)?;
    let (_groups, change) = tells(alloc, groups, &SALE_IS_REPLACED, &GROUPS_CHANGE)?;
    assert!(rt; come && change);
    Ok(())
}
