//! The tests of a hall, and how one is run: in a hall over two empty frames.
ghost use Rattle.std.specs.Prelude.{◌≡◌, length};
ghost use Rattle.df_state.specs.Ledgers as ledgers;
ghost use Rattle.df_versions.specs.Histories.{AllowsAll, schemas_of};

use crate::changes::change_and_close;
use crate::given::schemas;
use crate::loads::{LoadCase, load};
use crate::pairs_load::PairsLoad;
use crate::refusals::{Refusals, call_again};
use crate::refused_loads::{LoadAgain, load_once};
use df_catalogue::{Desk, PARTS_OF_LEDGER};
use df_store::{Hall, Missing, OpenedHall, Totals};
use df_versions::{Naming, OpenFault};
use std::alloc::Global;
use std::marker::Brand;
use std::process::Abort;
use std::sync::Wait;
use std::sync::ledger::{Blank, Ledger};
use std::test::Fail;
use std::thread::Threads;

/// What is done in the hall. A bound of a trait's method may not start threads, so this is no trait.
#[derive(Clone, Copy)]
pub enum HallTest<'a> {
    /// It is changed and read by many threads, and closed.
    Changes,
    /// It is loaded.
    Loads(&'a LoadCase, &'a PairsLoad),
    /// Its calls are made again where memory is refused to them.
    CallsAgain(&'a Refusals),
    /// It is loaded, whole or up to where memory is refused.
    LoadsAgain(LoadAgain<'a>),
    /// It is not opened, since it would have too many readers.
    TooManyReaders,
}

impl HallTest<'_> {
    // How many readers the hall has.
    fn readers(&self) -> usize {
        match self {
            HallTest::Changes => 5,
            HallTest::Loads(..) => 16,
            HallTest::CallsAgain(_) | HallTest::LoadsAgain(_) => 1,
            HallTest::TooManyReaders => 17,
        }
    }

    // What counts the openings to which memory is refused, if the hall is then opened again.
    fn refusals(&self) -> Option<&Refusals> {
        match self {
            HallTest::CallsAgain(refusals) => Some(*refusals),
            HallTest::LoadsAgain(load) => Some(load.refusals),
            _ => None,
        }
    }

    /// Runs the test in a hall of its own.
    pub fn run<R: Threads + Wait + Abort + Sync>(&self, rt: &R, alloc: Global) -> Result<(), Fail> {
        for _try in 0..3u8 {
            if self.run_once(rt, alloc)? {
                return Ok(());
            }
        }
        Err("a hall is opened again twice at most".into())
    }

    // Whether the hall is opened, with new blanks, and the test run.
    fn run_once<R: Threads + Wait + Abort + Sync>(
        &self,
        rt: &R,
        alloc: Global,
    ) -> Result<bool, Fail> {
        open::<Brand, Brand, R>(
            rt,
            alloc,
            Blank::new(PARTS_OF_LEDGER),
            Blank::new(PARTS_OF_LEDGER),
            self,
        )
    }
}

fn open<Acc: Ledger + Send + Sync, Del: Ledger + Send + Sync, R: Threads + Wait + Abort + Sync>(
    rt: &R,
    alloc: Global,
    accepted: Blank,
    deleted: Blank,
    test: &HallTest<'_>,
) -> Result<bool, Fail>
    requires accepted_name { accepted.name ≡ Acc.name }
    requires accepted_parts { (accepted.parts ≡ Acc.parts)
        × (accepted.parts ≡ ledgers.parts_of_ledger) }
    requires deleted_name { deleted.name ≡ Del.name }
    requires deleted_parts { (deleted.parts ≡ Del.parts)
        × (deleted.parts ≡ ledgers.parts_of_ledger) }
{
    let schemas = schemas(alloc)?;
    match OpenedHall::<Acc, Del>::open(rt, alloc, accepted, deleted, schemas, test.readers()) {
        Ok(opened) => {
            run_named::<Acc, Del, Brand, R>(rt, alloc, opened, test)?;
            Ok(true)
        }
        Err(fault) => is_refused(rt, fault, test),
    }
}

// Whether the refusal of the opening is the whole test: false where it was of memory, and the hall is to be opened again.
fn is_refused<R: Abort>(rt: &R, fault: OpenFault, test: &HallTest<'_>) -> Result<bool, Fail> {
    match (fault, test.refusals()) {
        (OpenFault::Memory, Some(refusals)) => {
            refusals.note(0);
            Ok(false)
        }
        _ => {
            assert!(rt; fault == OpenFault::TooManyReaders && test.readers() == 17);
            Ok(true)
        }
    }
}

fn run_named<
    Acc: Ledger + Send + Sync,
    Del: Ledger + Send + Sync,
    J: Naming + Send + Sync,
    R: Threads + Wait + Abort + Sync,
>(rt: &R, alloc: Global, opened: OpenedHall<Acc, Del>, test: &HallTest<'_>) -> Result<(), Fail>
    requires book { opened.0 ≡ J.book }
    requires schemas { schemas_of opened.1.0 ≡ J.schemas }
    requires allowed { AllowsAll J.allows }
    requires two { length J.schemas ≡ 2 }
{
    let (hall, desks, readers) = opened.named::<J>();
    match test {
        HallTest::Changes => change_and_close(rt, alloc, hall, desks, readers),
        HallTest::Loads(case, pairs) => load(rt, alloc, hall, desks, case, pairs),
        HallTest::CallsAgain(refusals) => call_again(rt, alloc, hall, desks, readers, *refusals),
        HallTest::LoadsAgain(again) => load_once(rt, alloc, hall, desks, *again),
        HallTest::TooManyReaders => {
            hall.end(rt);
            Err("seventeen readers".into())
        }
    }
}

/// The totals of a hall that closes with these desks; none, and the hall is given up, where it does not.
pub fn totals_of_close<Acc: Ledger, Del: Ledger, J: Naming, R: Wait>(
    rt: &R,
    hall: Hall<Acc, Del, J>,
    desks: Vec<Desk<Acc, Del>>,
) -> Option<Totals> {
    match hall.close(rt, desks) {
        Ok((catalogue, totals)) => {
            drop(catalogue);
            Some(totals)
        }
        Err(missing) => {
            let Missing {
                frame: _,
                hall,
                desks: _,
                told: _,
            } = missing;
            hall.end(rt);
            None
        }
    }
}

#[test]
fn a_hall_has_at_most_sixteen_readers(rt: HostRuntime) -> Result<(), Fail> {
    HallTest::TooManyReaders.run(&rt, rt.alloc())
}
