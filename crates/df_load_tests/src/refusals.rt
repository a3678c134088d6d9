//! Calls of a hall that are made again where memory is refused to them. `tests/refused_calls.py` refuses each allocation
//! in turn; where none is refused each call is accepted at once.
ghost use Rattle.std.specs.Prelude.{◌≡◌, All};
ghost use Rattle.df_versions.specs.Histories.{AllowsAll};

use crate::given::{chunk, groups, row};
use crate::hall_test::{HallTest, totals_of_close};
use df_catalogue::Desk;
use df_store::{Hall, Totals};
use df_value::{Chunk, Row, Text};
use df_versions::{ChangeFault, Naming, Reader, Told, Version};
use std::alloc::{AllocError, Global};
use std::process::Abort;
use std::sync::Wait;
use std::sync::atomic::{AtomicU64, Ordering};
use std::sync::ledger::Ledger;
use std::test::Fail;

/// How often memory was refused, and to what last: 0 is the opening of a hall, a call is its place, a load its workers.
#[derive(Drop)]
pub struct Refusals {
    count: AtomicU64,
    last: AtomicU64,
}

impl Refusals {
    pub fn new() -> Refusals {
        Refusals {
            count: AtomicU64::new(0),
            last: AtomicU64::new(0),
        }
    }

    /// Memory was refused to this once more.
    pub fn note(&self, last: u64) {
        self.count.fetch_add(1, Ordering::SeqCst);
        self.last.store(last, Ordering::SeqCst);
    }

    pub fn count(&self) -> u64 {
        self.count.load(Ordering::SeqCst)
    }

    pub fn last(&self) -> u64 {
        self.last.load(Ordering::SeqCst)
    }
}

#[derive(Clone, Copy)]
enum Call {
    Register(&'static str),
    Append,
    Replace,
    Delete,
    DropView(&'static str),
}

// What the calls are given.
#[derive(Clone, Copy)]
struct Given<'a> {
    chunk: &'a Chunk,
    replaced: &'a [(u32, Row)],
    deleted: &'a [u32],
}

impl Call {
    fn make<Acc: Ledger, Del: Ledger, J: Naming, R: Wait>(
        self,
        rt: &R,
        alloc: Global,
        hall: &Hall<Acc, Del, J>,
        desk: &mut Desk<Acc, Del>,
        given: Given<'_>,
    ) -> Result<Result<Told<J>, ChangeFault<J>>, AllocError>
        requires { AllowsAll J.allows }
    {
        let nothing: Option<Told<J>> = None;
        let told = nothing.as_ref();
        let answer = match self {
            Call::Register(name) => {
                let (name, plan) = (Text::from_str(alloc, name)?, groups(alloc)?);
                hall.register(rt, alloc, name, plan, told)
            }
            Call::Append => hall.commit_chunk(rt, alloc, desk, given.chunk, told),
            Call::Replace => hall.replace_rows(rt, alloc, desk, given.replaced, told),
            Call::Delete => hall.delete_rows(rt, alloc, desk, given.deleted, told),
            Call::DropView(name) => hall.drop_view(rt, alloc, name, told),
        };
        Ok(answer)
    }
}

// A call, the numbers and cells of the rows that the first frame has afterwards, and the views that there are then.
struct Step {
    call: Call,
    rows: &'static [(u32, u32)],
    views: &'static [&'static str],
}

static STEPS: [Step; 6] = [
    Step {
        call: Call::Register("g"),
        rows: &[],
        views: &["g"],
    },
    Step {
        call: Call::Append,
        rows: &[(0, 0), (1, 1), (2, 2)],
        views: &["g"],
    },
    Step {
        call: Call::Register("h"),
        rows: &[(0, 0), (1, 1), (2, 2)],
        views: &["g", "h"],
    },
    Step {
        call: Call::Replace,
        rows: &[(0, 0), (1, 1), (2, 1)],
        views: &["g", "h"],
    },
    Step {
        call: Call::Delete,
        rows: &[(1, 1), (2, 1)],
        views: &["g", "h"],
    },
    Step {
        call: Call::DropView("g"),
        rows: &[(1, 1), (2, 1)],
        views: &["h"],
    },
];

// The number of the newest version, and what the desk has: its shares of the rows accepted and deleted, and its parts.
fn standing<Acc: Ledger, Del: Ledger>(
    desk: &Desk<Acc, Del>,
    reader: &mut Reader,
) -> (Option<u64>, u64, u64, u64)
    ensures { reader.new.0 ≡ reader.old.0 }
{
    let number = match reader.snapshot() {
        Some(version) => Some(version.number()),
        None => None,
    };
    (number, desk.accepted(), desk.deleted(), desk.parts())
}

// Whether the call is accepted. Where memory is refused to it all is as before.
fn is_accepted<Acc: Ledger, Del: Ledger, J: Naming, R: Wait + Abort>(
    rt: &R,
    alloc: Global,
    hall: &Hall<Acc, Del, J>,
    desk: &mut Desk<Acc, Del>,
    reader: &mut Reader,
    given: Given<'_>,
    call: Call,
) -> Result<bool, Fail>
    requires book { reader.old.0 ≡ J.book }
    requires allowed { AllowsAll J.allows }
    ensures { reader.new.0 ≡ reader.old.0 }
{
    let before = standing(desk, reader);
    match call.make(rt, alloc, hall, desk, given)? {
        Ok(told) => {
            reader.learn(told);
            Ok(true)
        }
        Err(ChangeFault::Memory) => {
            assert!(rt; before.0.is_some() && standing(desk, reader) == before);
            Ok(false)
        }
        Err(_) => Err("a call is accepted".into()),
    }
}

// Whether the first frame of the version has these rows.
fn has_rows(alloc: Global, version: &Version, rows: &[(u32, u32)]) -> Result<bool, AllocError> {
    let numbers = version.frame_numbers(alloc, 0).map_err(|_| AllocError)?;
    let found = version.frame_rows(alloc, 0).map_err(|_| AllocError)?;
    for at in 0..rows.len() {
        let (number, cell) = rows[at];
        let is_there = numbers.as_slice().get(at) == Some(&number);
        if !is_there || found.as_slice().get(at) != Some(&row(alloc, cell)?) {
            return Ok(false);
        }
    }
    Ok(numbers.as_slice().len() == rows.len() && found.as_slice().len() == rows.len())
}

// Whether these are the views of the version, each with the rows of its plan.
fn has_views(alloc: Global, version: &Version, names: &[&str]) -> Result<bool, AllocError> {
    let found = version.view_names(alloc)?;
    let computed = version.computed_rows(alloc, &groups(alloc)?)?;
    for at in 0..names.len() {
        let is_there = match found.as_slice().get(at) {
            Some(name) => name.as_str() == names[at],
            None => false,
        };
        let rows = version.view_rows(alloc, names[at]).map_err(|_| AllocError)?;
        if !is_there || rows != computed {
            return Ok(false);
        }
    }
    Ok(found.as_slice().len() == names.len())
}

// Whether the newest version is the one behind so many calls, of which this is the last.
fn is_behind(
    alloc: Global,
    reader: &mut Reader,
    step: &Step,
    count: u64,
) -> Result<bool, AllocError>
    ensures { reader.new.0 ≡ reader.old.0 }
{
    let Some(version) = reader.snapshot() else {
        return Ok(false);
    };
    Ok(
        version.number() == count
            && has_rows(alloc, &version, step.rows)?
            && has_views(alloc, &version, step.views)?,
    )
}

// Makes the call at this place until it is accepted.
fn accept<Acc: Ledger, Del: Ledger, J: Naming, R: Wait + Abort>(
    rt: &R,
    alloc: Global,
    hall: &Hall<Acc, Del, J>,
    desk: &mut Desk<Acc, Del>,
    reader: &mut Reader,
    given: Given<'_>,
    at: usize,
    refusals: &Refusals,
) -> Result<(), Fail>
    requires book { reader.old.0 ≡ J.book }
    requires allowed { AllowsAll J.allows }
    ensures { reader.new.0 ≡ reader.old.0 }
{
    let step = STEPS.get(at).ok_or("a step")?;
    let count = (at as u64).wrapping_add(1);
    for _try in 0..5u8 {
        if is_accepted(rt, alloc, hall, desk, reader, given, step.call)? {
            assert!(rt; is_behind(alloc, reader, step, count)?);
            return Ok(());
        }
        refusals.note(count);
    }
    Err("a call is made again four times at most".into())
}

fn make_calls<Acc: Ledger, Del: Ledger, J: Naming, R: Wait + Abort>(
    rt: &R,
    alloc: Global,
    hall: &Hall<Acc, Del, J>,
    desks: &mut [Desk<Acc, Del>],
    readers: &mut [Reader],
    refusals: &Refusals,
) -> Result<(), Fail>
    requires books { All (λ r. r.0 ≡ J.book) readers.old }
    requires allowed { AllowsAll J.allows }
{
    let desk = desks.get_mut(0).ok_or("a desk")?;
    let reader = readers.get_mut(0).ok_or("a reader")?;
    let rows = chunk(alloc, 0, 3)?;
    let replaced = [(2, row(alloc, 1)?)];
    let given = Given {
        chunk: &rows,
        replaced: &replaced,
        deleted: &[0],
    };
    for at in 0..STEPS.len() {
        accept(rt, alloc, hall, desk, reader, given, at, refusals)?;
    }
    Ok(())
}

/// Makes all calls, each until it is accepted, and closes the hall.
pub fn call_again<Acc: Ledger, Del: Ledger, J: Naming, R: Wait + Abort>(
    rt: &R,
    alloc: Global,
    hall: Hall<Acc, Del, J>,
    desks: Vec<Desk<Acc, Del>>,
    readers: Vec<Reader>,
    refusals: &Refusals,
) -> Result<(), Fail>
    requires books { All (λ r. r.0 ≡ J.book) readers.items }
    requires allowed { AllowsAll J.allows }
{
    let mut desks = desks;
    let mut readers = readers;
    let (some, all) = (desks.as_mut_slice(), readers.as_mut_slice());
    match make_calls(rt, alloc, &hall, some, all, refusals) {
        Ok(()) => {
            let totals = totals_of_close(rt, hall, desks).ok_or("all desks")?;
            assert!(rt; are_all(&totals));
            Ok(())
        }
        Err(fail) => {
            hall.end(rt);
            Err(fail)
        }
    }
}

// Three rows came to the first frame, and one of them went.
fn are_all(totals: &Totals) -> bool {
    totals.accepted.as_slice() == [3, 0].as_slice()
        && totals.deleted.as_slice() == [1, 0].as_slice()
        && totals.live.as_slice() == [2, 0].as_slice()
}

#[test]
fn calls_are_made_again(rt: HostRuntime) -> Result<(), Fail> {
    let refusals = Refusals::new();
    HallTest::CallsAgain(&refusals).run(&rt, rt.alloc())?;
    println!(rt;
        "refused {} times, to {} last",
        refusals.count(),
        refusals.last()
    )?;
    Ok(())
}
