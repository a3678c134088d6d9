//! Readers that check each version that they take, while others change the hall, and while it is closed.
use df_catalogue::CatalogueFault;
use df_plan::CheckedPlan;
use df_versions::{Reader, Version};
use std::alloc::Global;
use std::sync::Arc;
use std::sync::atomic::{AtomicU64, Ordering};
use std::thread;

/// How many readers watch while the hall is changed.
pub const WATCHERS: usize = 4;

/// How many versions each of them sees at the least.
pub const LEAST_SEEN: u64 = 5;

// How often a version is asked for at most, where none comes that is waited for.
const TURNS: u32 = 1_000_000;

/// How many versions each watcher has seen, up to one of this number.
#[derive(Drop)]
pub struct Seen {
    last: u64,
    counts: [AtomicU64; 4],
}

impl Seen {
    pub fn new(last: u64) -> Seen {
        Seen {
            last,
            counts: [
                AtomicU64::new(0),
                AtomicU64::new(0),
                AtomicU64::new(0),
                AtomicU64::new(0),
            ],
        }
    }

    fn note(&self, place: usize, count: u64) {
        if let Some(seen) = self.counts.get(place) {
            seen.store(count, Ordering::SeqCst);
        }
    }

    /// Waits until each watcher has seen so many, for at most a million turns.
    pub fn wait(&self, count: u64) {
        for _turn in 0..TURNS {
            if self
                .counts
                .iter()
                .all(|seen| seen.load(Ordering::SeqCst) >= count)
            {
                return;
            }
            thread::yield_now();
        }
    }
}

/// What one thread reads a hall with.
#[derive(Drop)]
pub struct Watcher {
    alloc: Global,
    // Its place among the watchers.
    place: usize,
    reader: Reader,
    // The plan of the views `g` and `h`.
    plan: CheckedPlan,
    // The number of the last version that it took, and how many it took.
    number: u64,
    count: u64,
    // Whether the views had the rows of their plan in each version, and no number fell.
    right: bool,
    // Whether no version came any more.
    ended: bool,
}

impl Watcher {
    pub fn new(alloc: Global, place: usize, reader: Reader, plan: CheckedPlan) -> Watcher {
        Watcher {
            alloc,
            place,
            reader,
            plan,
            number: 0,
            count: 0,
            right: true,
            ended: false,
        }
    }

    /// Checks versions, until it has seen the last one or has asked a million times.
    pub fn run(&mut self, seen: &Seen) {
        for _turn in 0..TURNS {
            self.right = self.right && self.look() == Some(true);
            seen.note(self.place, self.count);
            if !self.right || self.number >= seen.last {
                return;
            }
            thread::yield_now();
        }
    }

    /// Whether all that it read was right and enough, and the version that it takes now is the last one.
    pub fn ends_with(&mut self, last: u64) -> bool {
        self.right && self.look() == Some(true) && self.number == last && self.count >= LEAST_SEEN
    }

    /// Checks versions until none comes any more, or it has asked a million times.
    pub fn watch_to_end(self) -> Watcher {
        let mut watcher = self;
        for _turn in 0..TURNS {
            match watcher.reader.snapshot() {
                Some(version) => {
                    watcher.right = watcher.right && watcher.goes_on(&version) == Some(true);
                }
                None => {
                    watcher.ended = true;
                    break;
                }
            }
            thread::yield_now();
        }
        watcher
    }

    /// Whether all that it read was right up to the last version, of this number, and the hall ended then.
    pub fn has_ended_with(&self, last: u64) -> bool {
        self.right && self.ended && self.number == last
    }

    /// The newest version.
    pub fn newest(&mut self) -> Option<Arc<Version, Global>> {
        self.reader.snapshot()
    }

    /// Takes the newest version: whether its number did not fall, and it is right.
    pub fn look(&mut self) -> Option<bool> {
        let version = self.reader.snapshot()?;
        self.goes_on(&version)
    }

    // Whether the number of the version did not fall, and it is right.
    fn goes_on(&mut self, version: &Version) -> Option<bool> {
        let number = version.number();
        if number == self.number {
            return Some(true);
        }
        let has_risen = number > self.number;
        self.number = number;
        self.count = self.count.wrapping_add(1);
        Some(has_risen && self.is_right(version)?)
    }

    /// Whether the view `g` has the rows that its plan gives over the frames of the version, and so has `h`, if it is there.
    pub fn is_right(&self, version: &Version) -> Option<bool> {
        let rows = version.view_rows(self.alloc, "g").ok()?;
        let computed = version.computed_rows(self.alloc, &self.plan).ok()?;
        let is_second_right = match version.view_rows(self.alloc, "h") {
            Ok(rows) => rows == computed,
            Err(fault) => fault == CatalogueFault::NoView,
        };
        Some(rows == computed && is_second_right)
    }
}
