//! Deltas of rows of one number or two, made and compared, and nodes under them.
ghost use Rattle.std.specs.Prelude.{◌≡◌, ◌^◌, IfOk};
ghost use Rattle.df_delta.specs.Work.{IsBelow};

use df_column::{Entry, Tag};
use df_delta::{Delta, LiveNode, TwoSidedNode};
use df_expr::{Meter, WorkCounts};
use df_value::{Cell, CellType, Row};
use std::alloc::{AllocError, Global};

/// The cells of a row, of which it has the first or both.
pub type Pair = (Option<i64>, Option<i64>);

/// A change of a row by the numbers of its tag.
#[derive(Clone, Copy)]
pub struct PairChange {
    pub tag: (u64, u64, u64),
    pub old: Option<Pair>,
    pub new: Option<Pair>,
}

/// A row comes at the tag of this number.
pub fn comes(first: u64, new: Pair) -> PairChange {
    PairChange {
        tag: (first, 0, 0),
        old: None,
        new: Some(new),
    }
}

/// A row goes from the tag of this number.
pub fn goes(first: u64, old: Pair) -> PairChange {
    PairChange {
        tag: (first, 0, 0),
        old: Some(old),
        new: None,
    }
}

/// A row gives way to another at the tag of this number.
pub fn gives_way(first: u64, old: Pair, new: Pair) -> PairChange {
    PairChange {
        tag: (first, 0, 0),
        old: Some(old),
        new: Some(new),
    }
}

fn cell(number: Option<i64>, dtype: CellType) -> Cell {
    match (number, dtype) {
        (None, _) => Cell::Null,
        (Some(number), CellType::Wide) => Cell::Wide(number as i128),
        (Some(number), _) => Cell::Int(number),
    }
}

fn row(alloc: Global, dtypes: &[CellType], pair: Option<Pair>) -> Result<Option<Row>, AllocError> {
    let Some(pair) = pair else {
        return Ok(None);
    };
    let numbers = [pair.0, pair.1];
    let mut cells = Vec::new(alloc);
    for (dtype, number) in dtypes.iter().zip(numbers.as_slice()) {
        cells.push(cell(*number, *dtype))?;
    }
    Ok(Some(Row::new(alloc, cells)?))
}

/// The entries of these changes, whose cells are of these types.
pub fn entries(
    alloc: Global,
    dtypes: &[CellType],
    changes: &[PairChange],
) -> Result<Vec<Entry>, AllocError> {
    let mut entries = Vec::new(alloc);
    for change in changes {
        let (first, second, third) = change.tag;
        entries.push(Entry {
            tag: Tag {
                first,
                second,
                third,
            },
            old: row(alloc, dtypes, change.old)?,
            new: row(alloc, dtypes, change.new)?,
        })?;
    }
    Ok(entries)
}

/// The delta of these changes.
pub fn delta(
    alloc: Global,
    dtypes: &[CellType],
    changes: &[PairChange],
) -> Result<Delta, AllocError> {
    Delta::new(entries(alloc, dtypes, changes)?).map_err(|_| AllocError)
}

fn is_same(a: &Entry, b: &Entry) -> bool {
    a.tag == b.tag && a.old == b.old && a.new == b.new
}

/// Whether the delta has these entries and no other.
pub fn has_entries(delta: &Delta, want: &[Entry]) -> bool {
    let found = delta.entries();
    found.len() == want.len() && found.iter().zip(want).all(|(a, b)| is_same(a, b))
}

/// Whether the delta has these changes and no other.
pub fn has_changes(
    alloc: Global,
    delta: &Delta,
    dtypes: &[CellType],
    changes: &[PairChange],
) -> Result<bool, AllocError> {
    let want = entries(alloc, dtypes, changes)?;
    Ok(has_entries(delta, want.as_slice()))
}

/// What a node is given, what it is to tell, and the most that a counter of its work is then to show.
#[derive(Clone, Copy)]
pub struct Step<'a> {
    pub given: &'a [PairChange],
    pub told: &'a [PairChange],
    pub most: u128,
}

/// The same of a node of two inputs.
#[derive(Clone, Copy)]
pub struct TwoSidedStep<'a> {
    pub left: &'a [PairChange],
    pub right: &'a [PairChange],
    pub told: &'a [PairChange],
    pub most: u128,
}

fn is_at_most(work: &WorkCounts, most: u128) -> bool {
    work.evals <= most && work.finishes <= most && work.probes <= most && work.windows <= most
}

/// The node after these entries, what it told of them, and its work.
pub fn after_entries<N: LiveNode + Drop>(
    mut node: N,
    given: Vec<Entry>,
) -> Result<(N, Delta, WorkCounts), AllocError>
    requires { IsBelow (N.budget node) (2 ^ 128) }
    ensures { IfOk result (λ r. N.budget r.0 ≡ N.budget node) }
{
    let given = Delta::new(given).map_err(|_| AllocError)?;
    let mut meter = Meter::new();
    let (staged, out) = node.prepare(&given, &mut meter)?;
    node.commit(staged);
    Ok((node, out, meter.counts()))
}

/// The node after a step, and whether it told what the step says. The cells that it is given and that it tells are of
/// these types.
fn after_step<N: LiveNode + Drop>(
    alloc: Global,
    node: N,
    given: &[CellType],
    told: &[CellType],
    step: Step<'_>,
) -> Result<(N, bool), AllocError>
    requires { IsBelow (N.budget node) (2 ^ 128) }
    ensures { IfOk result (λ r. N.budget r.0 ≡ N.budget node) }
{
    let (node, out, work) = after_entries(node, entries(alloc, given, step.given)?)?;
    let same = has_changes(alloc, &out, told, step.told)?;
    Ok((node, same && is_at_most(&work, step.most)))
}

/// Whether the node tells what the steps say, one after another.
pub fn follows<N: LiveNode + Drop>(
    alloc: Global,
    node: N,
    given: &[CellType],
    told: &[CellType],
    steps: &[Step<'_>],
) -> Result<bool, AllocError>
    requires { IsBelow (N.budget node) (2 ^ 128) }
{
    let mut node = node;
    for step in steps {
        let (next, same) = after_step(alloc, node, given, told, *step)?;
        if !same {
            return Ok(false);
        }
        node = next;
    }
    Ok(true)
}

/// The types of the cells of the rows of a join's two sides, and of its own.
#[derive(Clone, Copy)]
pub struct JoinDtypes<'a> {
    pub left: &'a [CellType],
    pub right: &'a [CellType],
    pub told: &'a [CellType],
}

fn after_step_of_both<N: TwoSidedNode + Drop>(
    alloc: Global,
    mut node: N,
    dtypes: JoinDtypes<'_>,
    step: TwoSidedStep<'_>,
) -> Result<(N, bool), AllocError>
    requires { IsBelow (N.budget node) (2 ^ 128) }
    ensures { IfOk result (λ r. N.budget r.0 ≡ N.budget node) }
{
    let left = delta(alloc, dtypes.left, step.left)?;
    let right = delta(alloc, dtypes.right, step.right)?;
    let mut meter = Meter::new();
    let (staged, out) = node.prepare(&left, &right, &mut meter)?;
    node.commit(staged);
    let same = has_changes(alloc, &out, dtypes.told, step.told)?;
    Ok((node, same && is_at_most(&meter.counts(), step.most)))
}

/// Whether the node of two inputs tells what the steps say, one after another.
pub fn follows_both<N: TwoSidedNode + Drop>(
    alloc: Global,
    node: N,
    dtypes: JoinDtypes<'_>,
    steps: &[TwoSidedStep<'_>],
) -> Result<bool, AllocError>
    requires { IsBelow (N.budget node) (2 ^ 128) }
{
    let mut node = node;
    for step in steps {
        let (next, same) = after_step_of_both(alloc, node, dtypes, *step)?;
        if !same {
            return Ok(false);
        }
        node = next;
    }
    Ok(true)
}
