//! Changes of one hall: what a reader sees that is told of them, many of them at once, and the close.
ghost use Rattle.std.specs.Prelude.{◌≡◌, All};
ghost use Rattle.df_versions.specs.Histories.{AllowsAll};

use crate::clients::{ROUNDS, VERSIONS, change_at_once};
use crate::given::{accepted, chunk, groups};
use crate::hall_test::{HallTest, totals_of_close};
use crate::watching::{WATCHERS, Watcher};
use df_catalogue::Desk;
use df_store::{Hall, Missing, Totals};
use df_value::Text;
use df_versions::{Naming, Reader, Told};
use std::alloc::Global;
use std::process::Abort;
use std::sync::Wait;
use std::sync::ledger::Ledger;
use std::test::Fail;
use std::thread;
use std::thread::Threads;

// The numbers of the rows that come first, which no client has.
const FIRST: u32 = 1_000_000;

// The number of the last version.
const LAST: u64 = 4 + VERSIONS;

// The number of the newest version, how many rows the first frame has in it, and how many views there are.
fn seen(alloc: Global, reader: &mut Reader) -> Option<(u64, Option<u64>, usize)>
    ensures { reader.new.0 ≡ reader.old.0 }
{
    let version = reader.snapshot()?;
    let views = version.view_names(alloc).ok()?;
    Some((version.number(), version.frame_len(0), views.len()))
}

// A reader that is told of nothing at first, and the number of the version that it took last.
#[derive(Drop)]
struct Untold {
    reader: Reader,
    number: u64,
}

impl Untold {
    // Whether the version that it takes now is not before the last one.
    fn goes_on(&mut self) -> bool
        ensures { self.new.reader.0 ≡ self.old.reader.0 }
    {
        let before = self.number;
        match self.reader.snapshot() {
            Some(version) => {
                self.number = version.number();
                self.number >= before
            }
            None => false,
        }
    }
}

// A view comes, three rows come, and the view goes. Of two Tolds the reader learns the second first; the other one takes
// versions all the while.
fn learn_last_first<Acc: Ledger, Del: Ledger, J: Naming, R: Wait + Abort>(
    rt: &R,
    alloc: Global,
    hall: &Hall<Acc, Del, J>,
    desk: &mut Desk<Acc, Del>,
    reader: &mut Reader,
    other: &mut Untold,
) -> Result<(), Fail>
    requires book { reader.old.0 ≡ J.book }
    requires allowed { AllowsAll J.allows }
    ensures book { reader.new.0 ≡ reader.old.0 }
    ensures other_book { other.new.reader.0 ≡ other.old.reader.0 }
{
    assert!(rt; seen(alloc, reader) == Some((0, Some(0), 0)));
    let name = Text::from_str(alloc, "v")?;
    let rows = chunk(alloc, FIRST, 3)?;
    let nothing: Option<Told<J>> = None;
    let mut goes_on = other.goes_on() && other.number == 0;
    let zeroth = accepted(hall.register(rt, alloc, name, groups(alloc)?, nothing.as_ref()))?;
    goes_on = goes_on && other.goes_on();
    let first = accepted(hall.commit_chunk(rt, alloc, desk, &rows, Some(&zeroth)))?;
    goes_on = goes_on && other.goes_on();
    let second = accepted(hall.drop_view(rt, alloc, "v", Some(&first)))?;
    assert!(rt; zeroth.number() == 1 && first.number() == 2 && second.number() == 3);
    reader.learn(second);
    reader.learn(first);
    assert!(rt; seen(alloc, reader) == Some((3, Some(3), 0)));
    assert!(rt; goes_on && other.goes_on() && other.goes_on());
    Ok(())
}

// A version that was taken before a row goes has it afterwards. What this reader is told another one learns too.
fn delete_behind<Acc: Ledger, Del: Ledger, J: Naming, R: Wait + Abort>(
    rt: &R,
    alloc: Global,
    hall: &Hall<Acc, Del, J>,
    desk: &mut Desk<Acc, Del>,
    reader: &mut Reader,
    next: &mut Reader,
) -> Result<(), Fail>
    requires book { reader.old.0 ≡ J.book }
    requires next_book { next.old.0 ≡ J.book }
    requires allowed { AllowsAll J.allows }
{
    let before = reader.snapshot().ok_or("a version")?;
    let nothing: Option<Told<J>> = None;
    let told = accepted(hall.delete_rows(rt, alloc, desk, &[FIRST], nothing.as_ref()))?;
    reader.learn(told.again());
    assert!(rt; before.frame_len(0) == Some(3));
    assert!(rt; seen(alloc, reader) == Some((4, Some(2), 0)));
    next.learn(told);
    assert!(rt; seen(alloc, next) == Some((4, Some(2), 0)));
    Ok(())
}

// Changes that one reader is told of, and at last another one.
fn change_and_tell<Acc: Ledger, Del: Ledger, J: Naming, R: Wait + Abort>(
    rt: &R,
    alloc: Global,
    hall: &Hall<Acc, Del, J>,
    desks: &mut [Desk<Acc, Del>],
    readers: &mut [Reader],
    other: &mut Untold,
) -> Result<(), Fail>
    requires books { All (λ r. r.0 ≡ J.book) readers.old }
    requires other { other.old.reader.0 ≡ J.book }
    requires allowed { AllowsAll J.allows }
{
    let desk = desks.get_mut(0).ok_or("a desk")?;
    let reader = readers.get_mut(0).ok_or("a reader")?;
    learn_last_first(rt, alloc, hall, desk, reader, other)?;
    delete_behind(rt, alloc, hall, desk, reader, &mut other.reader)
}

// What is left of a hall's desks: all but the last one, and that one; and who watches the close.
struct Left<Acc: Ledger, Del: Ledger> {
    desks: Vec<Desk<Acc, Del>>,
    last: Desk<Acc, Del>,
    watcher: Watcher,
}

fn changed<
    Acc: Ledger + Send + Sync,
    Del: Ledger + Send + Sync,
    J: Naming + Send + Sync,
    R: Threads + Wait + Abort + Sync,
>(
    rt: &R,
    alloc: Global,
    hall: &Hall<Acc, Del, J>,
    desks: Vec<Desk<Acc, Del>>,
    readers: Vec<Reader>,
) -> Result<Left<Acc, Del>, Fail>
    requires books { All (λ r. r.0 ≡ J.book) readers.items }
    requires allowed { AllowsAll J.allows }
{
    let mut desks = desks;
    let mut readers = readers;
    let reader = readers.pop().ok_or("a reader")?;
    let mut other = Untold { reader, number: 0 };
    let (some, all) = (desks.as_mut_slice(), readers.as_mut_slice());
    change_and_tell(rt, alloc, hall, some, all, &mut other)?;
    let watcher = Watcher::new(alloc, WATCHERS, other.reader, groups(alloc)?);
    let mut split = change_at_once(rt, alloc, hall, desks.as_mut_slice(), readers, LAST)?;
    let last = split.pop().ok_or("a desk")?;
    split.append(&mut desks)?;
    Ok(Left {
        desks: split,
        last,
        watcher,
    })
}

/// Changes the hall, closes it without a desk of the second frame, and then with it.
pub fn change_and_close<
    Acc: Ledger + Send + Sync,
    Del: Ledger + Send + Sync,
    J: Naming + Send + Sync,
    R: Threads + Wait + Abort + Sync,
>(
    rt: &R,
    alloc: Global,
    hall: Hall<Acc, Del, J>,
    desks: Vec<Desk<Acc, Del>>,
    readers: Vec<Reader>,
) -> Result<(), Fail>
    requires books { All (λ r. r.0 ≡ J.book) readers.items }
    requires allowed { AllowsAll J.allows }
{
    match changed(rt, alloc, &hall, desks, readers) {
        Ok(left) => close_without(rt, hall, left),
        Err(fail) => {
            hall.end(rt);
            Err(fail)
        }
    }
}

fn close_without<
    Acc: Ledger + Send + Sync,
    Del: Ledger + Send + Sync,
    J: Naming + Send + Sync,
    R: Threads + Wait + Abort + Sync,
>(rt: &R, hall: Hall<Acc, Del, J>, left: Left<Acc, Del>) -> Result<(), Fail> {
    let Left {
        desks,
        last,
        watcher,
    } = left;
    match hall.close(rt, desks) {
        Err(missing) => close_with(rt, missing, last, watcher),
        Ok((catalogue, _)) => {
            drop(catalogue);
            Err("a desk is missing".into())
        }
    }
}

// Closes the hall that is there, after some turns in which a reader may begin to watch it.
fn close_slot<Acc: Ledger, Del: Ledger, J: Naming, R: Wait>(
    rt: &R,
    slot: &mut Option<Hall<Acc, Del, J>>,
    desks: Vec<Desk<Acc, Del>>,
) -> Option<Totals> {
    for _turn in 0..1000u32 {
        thread::yield_now();
    }
    totals_of_close(rt, slot.take()?, desks)
}

// The hall closes beside a reader, which has a version of it afterwards.
fn close_with<
    Acc: Ledger + Send + Sync,
    Del: Ledger + Send + Sync,
    J: Naming + Send + Sync,
    R: Threads + Wait + Abort + Sync,
>(
    rt: &R,
    missing: Missing<Acc, Del, J>,
    last: Desk<Acc, Del>,
    mut watcher: Watcher,
) -> Result<(), Fail> {
    let Missing {
        frame,
        hall,
        mut desks,
        told,
    } = missing;
    assert!(rt; frame == 1 && desks.len() == 2 && told.number() == LAST);
    assert!(rt; desks.push(last).is_ok());
    assert!(rt; watcher.look() == Some(true));
    let held = watcher.newest();
    let mut open = Some(hall);
    let slot = &mut open;
    let (watcher, totals) = thread::join(
        rt,
        move || watcher.watch_to_end(),
        move || close_slot(rt, slot, desks),
    );
    if let Some(hall) = open {
        hall.end(rt);
    }
    let totals = totals.ok_or("all desks")?;
    assert!(rt; are_all(&totals) && watcher.has_ended_with(LAST));
    let held = held.ok_or("a version")?;
    assert!(rt; held.number() == LAST && watcher.is_right(&held) == Some(true));
    Ok(())
}

// Of the twelve rows that came in each round, in one of the two frames, a third went; and of the first three one went.
fn are_all(totals: &Totals) -> bool {
    let half = u64::from(ROUNDS / 2);
    totals.accepted.as_slice() == [12 * half + 3, 12 * half].as_slice()
        && totals.deleted.as_slice() == [4 * half + 1, 4 * half].as_slice()
        && totals.live.as_slice() == [8 * half + 2, 8 * half].as_slice()
}

#[test]
fn threads_change_and_read_a_hall_that_closes_with_all_desks(rt: HostRuntime) -> Result<(), Fail> {
    HallTest::Changes.run(&rt, rt.alloc())
}
