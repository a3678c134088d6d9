//! Loads that are made again where memory is refused to them, and what they leave. `tests/refused_calls.py` refuses each
//! allocation in turn; where none is refused each load is accepted at once.
ghost use Rattle.std.specs.Prelude.{◌≡◌, length};
ghost use Rattle.df_versions.specs.Histories.{AllowsAll};

use crate::given::row;
use crate::hall_test::HallTest;
use crate::pairs_load::PairsLoad;
use crate::refusals::Refusals;
use df_catalogue::{Catalogue, Desk};
use df_store::{Hall, LoadCause, OpenGate, Totals, load_all};
use df_versions::Naming;
use std::alloc::{AllocError, Global};
use std::process::Abort;
use std::sync::Wait;
use std::sync::ledger::Ledger;
use std::test::Fail;
use std::thread::Threads;

/// Four chunks of two rows for the first frame, under one view.
#[derive(Clone, Copy)]
pub struct LoadAgain<'a> {
    pub pairs: &'a PairsLoad,
    pub workers: usize,
    pub refusals: &'a Refusals,
}

// Whether the first frame has these rows, which are those of whole chunks: two for each, which have their numbers.
fn are_whole<Acc: Ledger, Del: Ledger>(
    alloc: Global,
    catalogue: &Catalogue<Acc, Del>,
    numbers: &[u32],
) -> Result<bool, AllocError> {
    for at in 0..numbers.len() {
        let number = numbers[at];
        let is_pair = match at % 2 {
            0 => number % 2 == 0 && at.wrapping_add(1) < numbers.len(),
            _ => number == numbers[at - 1].wrapping_add(1),
        };
        if !is_pair || !catalogue.is_row(0, at, number, &row(alloc, number)?) {
            return Ok(false);
        }
    }
    Ok(true)
}

// Whether the totals are the books, which have so many rows in the first frame and none in the second.
fn are_books<Acc: Ledger, Del: Ledger>(
    catalogue: &Catalogue<Acc, Del>,
    totals: &Totals,
    rows: usize,
) -> bool {
    let count = rows as u64;
    totals.accepted.as_slice() == [count, 0].as_slice()
        && totals.deleted.as_slice() == [0, 0].as_slice()
        && totals.live.as_slice() == [count, 0].as_slice()
        && [catalogue.accepted(0), catalogue.accepted(1)] == [Some(count), Some(0)]
        && [catalogue.deleted(0), catalogue.deleted(1)] == [Some(0), Some(0)]
        && [catalogue.live(0), catalogue.live(1)] == [Some(count), Some(0)]
}

// Whether the view is there with the rows of its plan, or there is neither a view nor a row.
fn follows<Acc: Ledger, Del: Ledger>(
    alloc: Global,
    catalogue: &Catalogue<Acc, Del>,
    rows: usize,
) -> Result<bool, AllocError> {
    if catalogue.view_plan("t").is_none() {
        return Ok(rows == 0);
    }
    let found = catalogue.view_rows(alloc, "t").map_err(|_| AllocError)?;
    let computed = catalogue.computed_rows(alloc, "t").map_err(|_| AllocError)?;
    Ok(found == computed)
}

// How many rows a load left, if these are whole chunks, the totals are those of the books, and the view follows. It is
// asked again where memory is refused to it.
fn rows_left<Acc: Ledger, Del: Ledger>(
    alloc: Global,
    catalogue: &Catalogue<Acc, Del>,
    totals: &Totals,
) -> Result<Option<usize>, AllocError> {
    match whole_rows(alloc, catalogue, totals) {
        Ok(rows) => Ok(rows),
        Err(_) => whole_rows(alloc, catalogue, totals),
    }
}

fn whole_rows<Acc: Ledger, Del: Ledger>(
    alloc: Global,
    catalogue: &Catalogue<Acc, Del>,
    totals: &Totals,
) -> Result<Option<usize>, AllocError> {
    let numbers = catalogue.frame_numbers(alloc, 0).map_err(|_| AllocError)?;
    let numbers = numbers.as_slice();
    let rows = numbers.len();
    let right = are_whole(alloc, catalogue, numbers)?
        && are_books(catalogue, totals, rows)
        && follows(alloc, catalogue, rows)?;
    Ok(if right { Some(rows) } else { None })
}

/// Loads the hall: whole, or up to where memory is refused.
pub fn load_once<
    Acc: Ledger + Send + Sync,
    Del: Ledger + Send + Sync,
    J: Naming + Send + Sync,
    R: Threads + Wait + Abort + Sync,
>(
    rt: &R,
    alloc: Global,
    hall: Hall<Acc, Del, J>,
    desks: Vec<Desk<Acc, Del>>,
    load: LoadAgain<'_>,
) -> Result<(), Fail>
    requires allowed { AllowsAll J.allows }
    requires two { length J.schemas ≡ 2 }
{
    let (views, sources) = (load.pairs.views.as_slice(), &load.pairs.sources);
    match load_all(
        rt,
        alloc,
        hall,
        desks,
        views,
        sources,
        load.workers,
        &OpenGate,
    ) {
        Ok(loaded) => {
            let rows = rows_left(alloc, &loaded.catalogue, &loaded.totals);
            drop(loaded);
            assert!(rt; rows? == Some(8));
        }
        Err(fault) => {
            load.refusals.note(load.workers as u64);
            let cause = fault.cause;
            let rows = match fault.left.as_ref() {
                Some(left) => rows_left(alloc, &left.0, &left.1),
                None => Ok(None),
            };
            drop(fault);
            assert!(rt; cause == LoadCause::Memory && rows?.is_some());
        }
    }
    Ok(())
}

impl LoadAgain<'_> {
    // Loads, each time a hall of its own, until one is accepted.
    fn run<R: Threads + Wait + Abort + Sync>(self, rt: &R, alloc: Global) -> Result<(), Fail> {
        for _try in 0..3u8 {
            let before = self.refusals.count();
            HallTest::LoadsAgain(self).run(rt, alloc)?;
            if self.refusals.count() == before {
                return Ok(());
            }
        }
        Err("a load is made again twice at most".into())
    }
}

#[test]
fn loads_are_made_again(rt: HostRuntime) -> Result<(), Fail> {
    let refusals = Refusals::new();
    let pairs = PairsLoad::new(rt.alloc(), &["t"], [(4, 2), (0, 2)])?;
    for workers in [1, 2, 4] {
        let load = LoadAgain {
            pairs: &pairs,
            workers,
            refusals: &refusals,
        };
        load.run(&rt, rt.alloc())?;
    }
    println!(rt;
        "refused {} times, to {} last",
        refusals.count(),
        refusals.last()
    )?;
    Ok(())
}
