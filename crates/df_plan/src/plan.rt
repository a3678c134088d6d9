//! The forms of a plan.
ghost use Rattle.std.specs.Prelude.{◌≡◌, ◌↔◌, IfOk, IsTrue};

use df_expr::Expr;
use df_ops::{Agg, How, RankKind, RollKind};
use df_value::{Boxed, Duplicate, Exact, List, Text, both, same};
use std::alloc::{AllocError, Global};

/// How a table is made of frames.
pub enum Plan {
    /// The frame of this index.
    Scan(usize),
    /// The input's rows for which the expression, a Bool, is true. Null drops the row.
    Filter(Boxed<Plan>, Expr),
    /// A column for each item, of its name and with the values of its expression, which names a
    /// column.
    Select(Boxed<Plan>, List<(Text, Expr)>),
    /// The input's columns, each replaced in its place by the item of its name, and after them the
    /// items of new names. Every expression sees the input's row, and one that names no column has
    /// its value in every row.
    WithColumns(Boxed<Plan>, List<(Text, Expr)>),
    /// The input's groups of equal cells in the key columns, by the first appearance of their keys.
    /// Each gives a row: the key's cells, then the aggregates under their output names. Null equals
    /// null in keys.
    GroupBy(Boxed<Plan>, List<Text>, List<(Text, Agg)>),
    /// Each row of the first input beside each row of the second that has the same cells in the key
    /// columns, in the first's order, and for one of its rows in the second's. Last, whether a null
    /// in a key equals null; else it matches nothing.
    /// The second's columns come last, without its keys; a name that stands in the first gets the
    /// suffix `_right`.
    Join(Boxed<Plan>, Boxed<Plan>, How, List<Text>, bool),
    /// The input, and put among its columns as `WithColumns` puts them one of this name: of the
    /// cells of an Int column in a row and those before it, at most as many as the first number
    /// says, the sum, least or greatest; null where fewer than the second number are not null.
    Rolling(Boxed<Plan>, Text, RollKind, Text, i64, i64),
    /// The input, and put among its columns one of this name: the sum of the cells of an Int column
    /// up to each row, a Wide; null where the row's own cell is null.
    CumSum(Boxed<Plan>, Text, Text),
    /// The input, and put among its columns one of this name: the rank of each cell of a column
    /// among all of them, an Int from 1 on; null where the cell is null. Of every type but Frac.
    Rank(Boxed<Plan>, Text, RankKind, Text),
}

// A body that owns one drops it by a call.
impl Drop for Plan {
    fn drop(self) {
        match self {
            Plan::Scan(_) => {}
            Plan::Filter(input, predicate) => {
                drop(input);
                drop(predicate);
            }
            Plan::Select(input, items) | Plan::WithColumns(input, items) => {
                drop(input);
                drop(items);
            }
            Plan::GroupBy(input, keys, aggregates) => {
                drop(input);
                drop(keys);
                drop(aggregates);
            }
            Plan::Join(left, right, _, keys, _) => {
                drop(left);
                drop(right);
                drop(keys);
            }
            Plan::Rolling(input, output, _, column, _, _)
            | Plan::CumSum(input, output, column)
            | Plan::Rank(input, output, _, column) => {
                drop(input);
                drop(output);
                drop(column);
            }
        }
    }
}

impl PartialEq for Plan {
    ghost use Rattle.std.specs.Cmp.{partial_equiv_from_equiv};
    ghost use Rattle.df_value.specs.Same.{same_by, same_by-equivalence};
    ghost use Rattle.df_plan.specs.contracts.plan.Plan.{the_row};

    ghost eq = { same_by the_row.coded };

    ghost laws = { partial_equiv_from_equiv (same_by-equivalence the_row.coded) };

    fn eq(&self, other: &Plan) -> bool {
        same_plan(self, other)
    }
}

impl Eq for Plan {
    ghost use Rattle.df_value.specs.Same.{same_by-equivalence};
    ghost use Rattle.df_plan.specs.contracts.plan.Plan.{the_row};

    ghost laws = { same_by-equivalence the_row.coded };
}

impl Exact for Plan {
    ghost use Rattle.df_value.specs.Same.{same_by-Decides};
    ghost use Rattle.df_plan.specs.contracts.plan.Plan.{the_row};

    ghost decides = { same_by-Decides the_row.coded };
}

impl Duplicate for Plan {
    #[cycle(copying)]
    fn copy(&self, alloc: Global) -> Result<Plan, AllocError> {
        match self {
            Plan::Scan(frame) => Ok(Plan::Scan(*frame)),
            Plan::Filter(input, e) => {
                let (input, e) = both(copy_of(alloc, input), e.copy(alloc))?;
                Ok(Plan::Filter(input, e))
            }
            Plan::Select(input, items) => {
                let (input, items) = both(copy_of(alloc, input), items.copy(alloc))?;
                Ok(Plan::Select(input, items))
            }
            Plan::WithColumns(input, items) => {
                let (input, items) = both(copy_of(alloc, input), items.copy(alloc))?;
                Ok(Plan::WithColumns(input, items))
            }
            Plan::GroupBy(input, keys, aggs) => {
                let lists = both(keys.copy(alloc), aggs.copy(alloc));
                let (input, (keys, aggs)) = both(copy_of(alloc, input), lists)?;
                Ok(Plan::GroupBy(input, keys, aggs))
            }
            Plan::Join(left, right, how, keys, nulls_equal) => {
                let inputs = both(copy_of(alloc, left), copy_of(alloc, right));
                let ((left, right), keys) = both(inputs, keys.copy(alloc))?;
                Ok(Plan::Join(left, right, *how, keys, *nulls_equal))
            }
            Plan::Rolling(input, output, kind, column, w, m) => {
                let (input, (output, column)) = copy_of_window(alloc, input, output, column)?;
                Ok(Plan::Rolling(input, output, *kind, column, *w, *m))
            }
            Plan::CumSum(input, output, column) => {
                let (input, (output, column)) = copy_of_window(alloc, input, output, column)?;
                Ok(Plan::CumSum(input, output, column))
            }
            Plan::Rank(input, output, kind, column) => {
                let (input, (output, column)) = copy_of_window(alloc, input, output, column)?;
                Ok(Plan::Rank(input, output, *kind, column))
            }
        }
    }
}

#[cycle(copying)]
fn copy_of(alloc: Global, plan: &Boxed<Plan>) -> Result<Boxed<Plan>, AllocError>
    ensures { IfOk result (λ r. r ≡ plan.now) }
{
    Ok(Boxed::new(alloc, plan.get().copy(alloc)?)?)
}

// Copies of a window's input, and of the names of its output and its column.
#[cycle(copying)]
fn copy_of_window(
    alloc: Global,
    input: &Boxed<Plan>,
    output: &Text,
    column: &Text,
) -> Result<(Boxed<Plan>, (Text, Text)), AllocError>
    ensures { IfOk result (λ r. (r.0 ≡ input.now) × (r.1.0 ≡ output.now) × (r.1.1 ≡ column.now)) }
{
    let names = both(output.copy(alloc), column.copy(alloc));
    both(copy_of(alloc, input), names)
}

/// Whether two plans are one and the same.
fn same_plan(a: &Plan, b: &Plan) -> bool
    ensures { IsTrue result ↔ (a.now ≡ b.now) }
{
    match (a, b) {
        (Plan::Scan(f), Plan::Scan(g)) => *f == *g,
        (Plan::Filter(x, p), Plan::Filter(y, q)) => same_plan(x.get(), y.get()) && same(p, q),
        (Plan::Select(x, items), Plan::Select(y, others))
        | (Plan::WithColumns(x, items), Plan::WithColumns(y, others)) => {
            same_plan(x.get(), y.get()) && same(items, others)
        }
        (Plan::GroupBy(x, keys, aggs), Plan::GroupBy(y, others, other_aggs)) => {
            same_plan(x.get(), y.get()) && same_lists(keys, others, aggs, other_aggs)
        }
        // The second operand stands in parentheses, so that each operand is one branch of the proof.
        (Plan::Join(x, z, how, on, equal), Plan::Join(y, w, other_how, other_on, other_equal)) => {
            same_plan(x.get(), y.get())
                && (same_plan(z.get(), w.get())
                    && same_match(*how, *other_how, on, other_on, *equal, *other_equal))
        }
        (Plan::Rolling(x, output, kind, of, w, m), Plan::Rolling(y, name, other, column, v, n)) => {
            same_plan(x.get(), y.get())
                && (same_names(output, name, of, column)
                    && same_window(*kind, *other, *w, *v, *m, *n))
        }
        (Plan::CumSum(x, output, of), Plan::CumSum(y, name, column)) => {
            same_plan(x.get(), y.get()) && same_names(output, name, of, column)
        }
        (Plan::Rank(x, output, kind, of), Plan::Rank(y, name, other, column)) => {
            same_plan(x.get(), y.get()) && (*kind == *other && same_names(output, name, of, column))
        }
        _ => false,
    }
}

// Whether two groupings have one list of keys, and one of aggregates.
fn same_lists(
    keys: &List<Text>,
    other_keys: &List<Text>,
    aggs: &List<(Text, Agg)>,
    other_aggs: &List<(Text, Agg)>,
) -> bool
    ensures { IsTrue result ↔ ((keys.now ≡ other_keys.now) × (aggs.now ≡ other_aggs.now)) }
{
    same(keys, other_keys) && same(aggs, other_aggs)
}

// Whether two joins match rows alike.
fn same_match(
    how: How,
    other_how: How,
    keys: &List<Text>,
    other_keys: &List<Text>,
    nulls_equal: bool,
    other_nulls_equal: bool,
) -> bool
    ensures { IsTrue result ↔ ((how ≡ other_how) × (keys.now ≡ other_keys.now)
        × (nulls_equal ≡ other_nulls_equal)) }
{
    how == other_how && same(keys, other_keys) && nulls_equal == other_nulls_equal
}

// Whether two rolling windows take one thing of rows of one number.
fn same_window(a: RollKind, b: RollKind, w: i64, v: i64, m: i64, n: i64) -> bool
    ensures { IsTrue result ↔ ((a ≡ b) × (w ≡ v) × (m ≡ n)) }
{
    a == b && w == v && m == n
}

// Whether two outputs have one name, and so the columns that they are taken of.
fn same_names(output: &Text, other: &Text, column: &Text, other_column: &Text) -> bool
    ensures { IsTrue result ↔ ((output.now ≡ other.now) × (column.now ≡ other_column.now)) }
{
    same(output, other) && same(column, other_column)
}
