//! Loads: that workers run at once and draw what is left, why a load is refused, and what it leaves.
ghost use Rattle.std.specs.Prelude.{◌≡◌, length};
ghost use Rattle.df_versions.specs.Histories.{AllowsAll};

use crate::gates::{Held, HoldingGate};
use crate::given::{accepted, chunk, groups};
use crate::hall_test::HallTest;
use crate::pairs_load::PairsLoad;
use df_catalogue::{CatalogueFault, Desk};
use df_store::{Hall, LoadCause, LoadFault, Loaded, Totals, load_all};
use df_value::Text;
use df_versions::{Naming, Told};
use std::alloc::Global;
use std::process::Abort;
use std::sync::Wait;
use std::sync::ledger::Ledger;
use std::test::Fail;
use std::thread::Threads;

// What is done in the hall before the load.
#[derive(Clone, Copy)]
enum Before {
    Nothing,
    // A row of this number is committed to the frame.
    Row(usize, u32),
    // The same, by a second desk of the frame, which the load is not given.
    RowOfAbsentDesk(usize, u32),
    // A view of this name is registered.
    View(&'static str),
}

/// A load and what it answers.
#[derive(Clone, Copy)]
pub struct LoadCase {
    name: &'static str,
    before: Before,
    views: &'static [&'static str],
    // Of the source of each frame, how many chunks it has and by how much their first numbers rise.
    sources: [(u8, u8); 2],
    workers: usize,
    held: Held,
    // Why it is refused, if it is.
    cause: Option<LoadCause>,
    // How many rows each frame has accepted, if the hall could be closed.
    accepted: Option<[u64; 2]>,
    // How many chunks each source was asked for.
    calls: [u64; 2],
}

impl LoadCase {
    // Runs the load in a hall of its own, for which it makes views and sources first.
    fn run<R: Threads + Wait + Abort + Sync>(&self, rt: &R, alloc: Global) -> Result<(), Fail> {
        let pairs = PairsLoad::new(alloc, self.views, self.sources)?;
        HallTest::Loads(self, &pairs).run(rt, alloc)
    }
}

fn commit_row<Acc: Ledger, Del: Ledger, J: Naming, R: Wait>(
    rt: &R,
    alloc: Global,
    hall: &Hall<Acc, Del, J>,
    desk: &mut Desk<Acc, Del>,
    number: u32,
) -> Result<(), Fail>
    requires { AllowsAll J.allows }
{
    let row = chunk(alloc, number, 1)?;
    let nothing: Option<Told<J>> = None;
    accepted(hall.commit_chunk(rt, alloc, desk, &row, nothing.as_ref()))?;
    Ok(())
}

fn prepare<Acc: Ledger, Del: Ledger, J: Naming, R: Wait>(
    rt: &R,
    alloc: Global,
    hall: &Hall<Acc, Del, J>,
    desks: &mut [Desk<Acc, Del>],
    before: Before,
) -> Result<(), Fail>
    requires { AllowsAll J.allows }
{
    match before {
        Before::Nothing => Ok(()),
        Before::Row(frame, number) => {
            let desk = desks.get_mut(frame).ok_or("a desk")?;
            commit_row(rt, alloc, hall, desk, number)
        }
        Before::RowOfAbsentDesk(frame, number) => {
            let desk = desks.get_mut(frame).ok_or("a desk")?;
            let mut absent = desk.split().ok_or("a second desk")?;
            commit_row(rt, alloc, hall, &mut absent, number)
        }
        Before::View(name) => {
            let name = Text::from_str(alloc, name)?;
            let nothing: Option<Told<J>> = None;
            accepted(hall.register(rt, alloc, name, groups(alloc)?, nothing.as_ref()))?;
            Ok(())
        }
    }
}

fn accepted_in(totals: &Totals) -> Option<[u64; 2]> {
    match totals.accepted.as_slice() {
        [zeroth, first] => Some([*zeroth, *first]),
        _ => None,
    }
}

// Why the load is refused, if it is, and how many rows each frame has accepted in what it leaves.
fn outcome<Acc: Ledger, Del: Ledger, J: Naming>(
    answer: Result<Loaded<Acc, Del>, LoadFault<Acc, Del, J>>,
) -> (Option<LoadCause>, Option<[u64; 2]>) {
    match answer {
        Ok(loaded) => {
            let accepted = accepted_in(&loaded.totals);
            drop(loaded);
            (None, accepted)
        }
        Err(fault) => {
            let cause = fault.cause;
            let accepted = match fault.left.as_ref() {
                Some(left) => accepted_in(&left.1),
                None => None,
            };
            drop(fault);
            (Some(cause), accepted)
        }
    }
}

/// Prepares the hall, and loads it.
pub fn load<
    Acc: Ledger + Send + Sync,
    Del: Ledger + Send + Sync,
    J: Naming + Send + Sync,
    R: Threads + Wait + Abort + Sync,
>(
    rt: &R,
    alloc: Global,
    hall: Hall<Acc, Del, J>,
    desks: Vec<Desk<Acc, Del>>,
    case: &LoadCase,
    pairs: &PairsLoad,
) -> Result<(), Fail>
    requires allowed { AllowsAll J.allows }
    requires two { length J.schemas ≡ 2 }
{
    let mut desks = desks;
    let prepared = prepare(rt, alloc, &hall, desks.as_mut_slice(), case.before);
    let gate = HoldingGate::new(case.held);
    let views = pairs.views.as_slice();
    let (cause, accepted) = outcome(load_all(
        rt,
        alloc,
        hall,
        desks,
        views,
        &pairs.sources,
        case.workers,
        &gate,
    ));
    assert!(rt;
        cause == case.cause && accepted == case.accepted,
        "{}",
        case.name
    );
    assert!(rt;
        pairs.calls() == case.calls && gate.all_met(),
        "{}",
        case.name
    );
    prepared
}

// Were the jobs shared out beforehand, the worker of job 0 would have job 2 too, and the gate would never open.
static HELD_FIRST: LoadCase = LoadCase {
    name: "a worker that is free draws the next job, while the other one is held",
    before: Before::Nothing,
    views: &["t"],
    sources: [(3, 2), (0, 2)],
    workers: 2,
    held: Held::First,
    cause: None,
    accepted: Some([6, 0]),
    calls: [3, 0],
};

static HELD_BOTH: LoadCase = LoadCase {
    name: "two workers wait for each other",
    before: Before::Nothing,
    views: &["t"],
    sources: [(1, 2), (1, 2)],
    workers: 2,
    held: Held::Both,
    cause: None,
    accepted: Some([2, 2]),
    calls: [1, 1],
};

static REFUSED: [LoadCase; 11] = [
    LoadCase {
        name: "the second of two chunks that share a number",
        before: Before::Nothing,
        views: &["t"],
        sources: [(2, 1), (0, 0)],
        workers: 1,
        held: Held::None,
        cause: Some(LoadCause::Lost(1)),
        accepted: Some([2, 0]),
        calls: [2, 0],
    },
    LoadCase {
        name: "the same of the second frame",
        before: Before::Nothing,
        views: &["t"],
        sources: [(2, 2), (2, 1)],
        workers: 1,
        held: Held::None,
        cause: Some(LoadCause::Lost(3)),
        accepted: Some([4, 2]),
        calls: [2, 2],
    },
    LoadCase {
        name: "two views of one name",
        before: Before::Nothing,
        views: &["t", "u", "t"],
        sources: [(1, 2), (1, 2)],
        workers: 1,
        held: Held::None,
        cause: Some(LoadCause::Refused(CatalogueFault::ViewExists)),
        accepted: Some([0, 0]),
        calls: [0, 0],
    },
    LoadCase {
        name: "a row in the first frame before the load",
        before: Before::Row(0, 100),
        views: &["t"],
        sources: [(1, 2), (1, 2)],
        workers: 1,
        held: Held::None,
        cause: Some(LoadCause::Unlike(0)),
        accepted: Some([3, 2]),
        calls: [1, 1],
    },
    LoadCase {
        name: "a row in the second frame before the load",
        before: Before::Row(1, 100),
        views: &["t"],
        sources: [(1, 2), (1, 2)],
        workers: 1,
        held: Held::None,
        cause: Some(LoadCause::Unlike(1)),
        accepted: Some([2, 3]),
        calls: [1, 1],
    },
    LoadCase {
        name: "a chunk with the number of a row before the load",
        before: Before::Row(0, 1),
        views: &["t"],
        sources: [(1, 2), (1, 2)],
        workers: 1,
        held: Held::None,
        cause: Some(LoadCause::Lost(0)),
        accepted: Some([1, 2]),
        calls: [1, 1],
    },
    LoadCase {
        name: "the same of one of several chunks that would enter together",
        before: Before::Row(0, 4),
        views: &["t"],
        sources: [(16, 2), (0, 0)],
        workers: 1,
        held: Held::None,
        cause: Some(LoadCause::Lost(2)),
        accepted: Some([31, 0]),
        calls: [16, 0],
    },
    LoadCase {
        name: "many chunks, each of which shares a number with the one before",
        before: Before::Nothing,
        views: &["t"],
        sources: [(16, 1), (0, 0)],
        workers: 1,
        held: Held::None,
        cause: Some(LoadCause::Lost(1)),
        accepted: Some([16, 0]),
        calls: [16, 0],
    },
    LoadCase {
        name: "a view before the load",
        before: Before::View("u"),
        views: &["t"],
        sources: [(1, 2), (1, 2)],
        workers: 1,
        held: Held::None,
        cause: Some(LoadCause::ViewsUnlike),
        accepted: Some([2, 2]),
        calls: [1, 1],
    },
    LoadCase {
        name: "a desk that the load is not given",
        before: Before::RowOfAbsentDesk(1, 100),
        views: &["t"],
        sources: [(1, 2), (1, 2)],
        workers: 1,
        held: Held::None,
        cause: Some(LoadCause::MissingDesk(1)),
        accepted: None,
        calls: [1, 1],
    },
    LoadCase {
        name: "such a desk, and a chunk with the number of its row",
        before: Before::RowOfAbsentDesk(1, 1),
        views: &["t"],
        sources: [(1, 2), (1, 2)],
        workers: 1,
        held: Held::None,
        cause: Some(LoadCause::MissingDesk(1)),
        accepted: None,
        calls: [1, 1],
    },
];

#[test]
fn a_free_worker_draws_the_next_job(rt: HostRuntime) -> Result<(), Fail> {
    HELD_FIRST.run(&rt, rt.alloc())
}

#[test]
fn two_workers_run_at_once(rt: HostRuntime) -> Result<(), Fail> {
    HELD_BOTH.run(&rt, rt.alloc())
}

#[test]
fn loads_are_refused(rt: HostRuntime) -> Result<(), Fail> {
    for case in &REFUSED {
        case.run(&rt, rt.alloc())?;
    }
    Ok(())
}
