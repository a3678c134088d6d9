//! Live nodes under deltas.
ghost use Rattle.std.specs.Prelude.{◌≡◌, IfOk};
ghost use Rattle.df_nodes.specs.RowOperators.{evaluations_of};

use crate::deltas::{Pair, PairChange, Step, comes, entries, follows, gives_way, goes};
use crate::given::schema;
use df_delta::Delta;
use df_expr::{ArithOp, CompareOp, Expr};
use df_nodes::{LiveFilter, LiveMap, LiveSum, LiveWindow};
use df_ops::{RankKind, RollKind};
use df_ranks::LiveRank;
use df_value::{Boxed, Cell, CellType, Text};
use std::alloc::{AllocError, Global};
use std::test::Fail;

const INT: [CellType; 1] = [CellType::Int];

const RANKED: [CellType; 2] = [CellType::Int, CellType::Int];

const SUMMED: [CellType; 2] = [CellType::Int, CellType::Wide];

// Whether these changes make no delta, and their entries come back.
fn come_back(alloc: Global, changes: &[PairChange]) -> Result<bool, AllocError> {
    match Delta::new(entries(alloc, &INT, changes)?) {
        Ok(_) => Ok(false),
        Err(back) => Ok(back.len() == changes.len()),
    }
}

#[test]
fn entries_that_are_no_delta_come_back(rt: HostRuntime) -> Result<(), Fail> {
    let alloc = rt.alloc();
    let (one, two) = (comes(1, (Some(7), None)), comes(2, (Some(7), None)));
    let none = PairChange {
        tag: (1, 0, 0),
        old: None,
        new: None,
    };
    assert!(rt; come_back(alloc, &[two, one])? && come_back(alloc, &[one, one])?);
    assert!(rt; come_back(alloc, &[none])? && !come_back(alloc, &[one, two])?);
    Ok(())
}

// A row of a number alone.
fn of(number: i64) -> Pair {
    (Some(number), None)
}

const NULL: Pair = (None, None);

fn x(alloc: Global) -> Result<Expr, AllocError> {
    Ok(Expr::Column(Text::from_str(alloc, "x")?))
}

fn number(n: i64) -> Expr {
    Expr::Literal(Cell::Int(n), CellType::Int)
}

// The rows whose number is above 1.
fn filter(alloc: Global) -> Result<LiveFilter, AllocError>
    ensures { IfOk result (λ f. evaluations_of f.operator ≡ 1) }
{
    let one = Boxed::new(alloc, number(1))?;
    let above = Expr::Compare(CompareOp::Gt, Boxed::new(alloc, x(alloc)?)?, one);
    LiveFilter::new(alloc, &schema(alloc, CellType::Int)?, &above)
}

#[test]
fn a_filter_tells_of_the_rows_that_it_keeps(rt: HostRuntime) -> Result<(), Fail> {
    let alloc = rt.alloc();
    let dropped = Step {
        given: &[gives_way(1, of(1), NULL)],
        told: &[],
        most: 2,
    };
    let comes_in = Step {
        given: &[gives_way(1, NULL, of(2))],
        told: &[comes(1, of(2))],
        most: 2,
    };
    assert!(rt; follows(alloc, filter(alloc)?, &INT, &INT, &[dropped, comes_in])?);
    Ok(())
}

// The column y of x * 0.
fn select(alloc: Global) -> Result<LiveMap, AllocError>
    ensures { IfOk result (λ m. evaluations_of m.operator ≡ 1) }
{
    let zero = Boxed::new(alloc, number(0))?;
    let product = Expr::Arith(ArithOp::Mul, Boxed::new(alloc, x(alloc)?)?, zero);
    let items = [(Text::from_str(alloc, "y")?, product)];
    let made = LiveMap::select(alloc, &schema(alloc, CellType::Int)?, &items)?;
    Ok(made)
}

#[test]
fn a_select_is_silent_where_its_values_stay(rt: HostRuntime) -> Result<(), Fail> {
    let alloc = rt.alloc();
    let stays = Step {
        given: &[gives_way(1, of(3), of(4))],
        told: &[],
        most: 2,
    };
    assert!(rt; follows(alloc, select(alloc)?, &INT, &INT, &[stays])?);
    Ok(())
}

// The sums of x over two rows.
fn window(alloc: Global) -> Result<LiveWindow, AllocError>
    ensures { IfOk result (λ n. n.rolling.w ≡ 2) }
{
    let schema = schema(alloc, CellType::Int)?;
    let output = Text::from_str(alloc, "s")?;
    let column = Text::from_str(alloc, "x")?;
    let made = LiveWindow::new(alloc, &schema, &output, RollKind::Sum, &column, 2, 1)?;
    Ok(made)
}

#[test]
fn a_row_that_goes_changes_the_windows_behind_it(rt: HostRuntime) -> Result<(), Fail> {
    let alloc = rt.alloc();
    let three_come = Step {
        given: &[comes(1, of(1)), comes(2, of(2)), comes(3, of(3))],
        told: &[
            comes(1, (Some(1), Some(1))),
            comes(2, (Some(2), Some(3))),
            comes(3, (Some(3), Some(5))),
        ],
        most: 6,
    };
    let second_goes = Step {
        given: &[goes(2, of(2))],
        told: &[
            goes(2, (Some(2), Some(3))),
            gives_way(3, (Some(3), Some(5)), (Some(3), Some(4))),
        ],
        most: 2,
    };
    let steps = [three_come, second_goes];
    assert!(rt; follows(alloc, window(alloc)?, &INT, &SUMMED, &steps)?);
    Ok(())
}

// The sums of x.
fn sum(alloc: Global) -> Result<LiveSum, AllocError> {
    let schema = schema(alloc, CellType::Int)?;
    let output = Text::from_str(alloc, "s")?;
    let column = Text::from_str(alloc, "x")?;
    let made = LiveSum::new(alloc, &schema, &output, &column)?;
    Ok(made)
}

#[test]
fn a_row_that_goes_changes_the_sums_behind_it(rt: HostRuntime) -> Result<(), Fail> {
    let alloc = rt.alloc();
    let three_come = Step {
        given: &[comes(1, of(1)), comes(2, NULL), comes(3, of(2))],
        told: &[
            comes(1, (Some(1), Some(1))),
            comes(2, NULL),
            comes(3, (Some(2), Some(3))),
        ],
        most: 0,
    };
    let first_goes = Step {
        given: &[goes(1, of(1))],
        told: &[
            goes(1, (Some(1), Some(1))),
            gives_way(3, (Some(2), Some(3)), (Some(2), Some(2))),
        ],
        most: 0,
    };
    let one_comes_behind_the_null = Step {
        given: &[goes(3, of(2)), comes(4, of(5))],
        told: &[goes(3, (Some(2), Some(2))), comes(4, (Some(5), Some(5)))],
        most: 0,
    };
    let steps = [three_come, first_goes, one_comes_behind_the_null];
    assert!(rt; follows(alloc, sum(alloc)?, &INT, &SUMMED, &steps)?);
    Ok(())
}

// The ranks of x.
fn ranks(alloc: Global, kind: RankKind) -> Result<LiveRank, AllocError> {
    let schema = schema(alloc, CellType::Int)?;
    let output = Text::from_str(alloc, "r")?;
    let column = Text::from_str(alloc, "x")?;
    let made = LiveRank::new(alloc, &schema, &output, kind, &column)?;
    Ok(made)
}

#[test]
fn a_value_that_comes_raises_the_ranks_above_it(rt: HostRuntime) -> Result<(), Fail> {
    let alloc = rt.alloc();
    let three_come = Step {
        given: &[comes(1, of(3)), comes(2, of(6)), comes(3, of(1))],
        told: &[
            comes(1, (Some(3), Some(2))),
            comes(2, (Some(6), Some(3))),
            comes(3, (Some(1), Some(1))),
        ],
        most: 0,
    };
    let one_comes_between = Step {
        given: &[comes(4, of(2))],
        told: &[
            gives_way(1, (Some(3), Some(2)), (Some(3), Some(3))),
            gives_way(2, (Some(6), Some(3)), (Some(6), Some(4))),
            comes(4, (Some(2), Some(2))),
        ],
        most: 0,
    };
    let steps = [three_come, one_comes_between];
    assert!(rt; follows(alloc, ranks(alloc, RankKind::Dense)?, &INT, &RANKED, &steps)?);
    Ok(())
}

#[test]
fn a_row_that_comes_raises_the_min_ranks_above_it(rt: HostRuntime) -> Result<(), Fail> {
    let alloc = rt.alloc();
    let three_come = Step {
        given: &[comes(1, of(3)), comes(2, of(6)), comes(3, of(1))],
        told: &[
            comes(1, (Some(3), Some(2))),
            comes(2, (Some(6), Some(3))),
            comes(3, (Some(1), Some(1))),
        ],
        most: 0,
    };
    let an_equal_comes = Step {
        given: &[comes(4, of(1))],
        told: &[
            gives_way(1, (Some(3), Some(2)), (Some(3), Some(3))),
            gives_way(2, (Some(6), Some(3)), (Some(6), Some(4))),
            comes(4, (Some(1), Some(1))),
        ],
        most: 0,
    };
    let null_comes = Step {
        given: &[comes(5, NULL)],
        told: &[comes(5, NULL)],
        most: 0,
    };
    let steps = [three_come, an_equal_comes, null_comes];
    assert!(rt; follows(alloc, ranks(alloc, RankKind::Min)?, &INT, &RANKED, &steps)?);
    Ok(())
}
