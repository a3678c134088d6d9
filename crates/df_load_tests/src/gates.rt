//! Gates that hold a job until another one has come.
use df_store::Gate;
use std::sync::atomic::{AtomicBool, Ordering};
use std::thread;

/// Which job is held, and until which other one has come.
#[derive(Clone, Copy)]
pub enum Held {
    None,
    /// Job 0 and job 1, each until the other one.
    Both,
    /// Job 0 until job 2.
    First,
}

/// Marks the jobs 0 to 2, and holds those that are to be held for at most a million turns.
#[derive(Drop)]
pub struct HoldingGate {
    held: Held,
    marks: [AtomicBool; 3],
    missed: AtomicBool,
}

impl HoldingGate {
    pub fn new(held: Held) -> HoldingGate {
        HoldingGate {
            held,
            marks: [
                AtomicBool::new(false),
                AtomicBool::new(false),
                AtomicBool::new(false),
            ],
            missed: AtomicBool::new(false),
        }
    }

    /// Whether each job that was held passed within its turns.
    pub fn all_met(&self) -> bool {
        !self.missed.load(Ordering::SeqCst)
    }
}

impl Gate for HoldingGate {
    fn pass(&self, job: u64) {
        if job > 2 {
            return;
        }
        self.marks[job as usize].store(true, Ordering::SeqCst);
        let other = match (self.held, job) {
            (Held::Both, 0) => 1,
            (Held::Both, 1) => 0,
            (Held::First, 0) => 2,
            _ => return,
        };
        for _turn in 0..1_000_000u32 {
            if self.marks[other].load(Ordering::SeqCst) {
                return;
            }
            thread::yield_now();
        }
        self.missed.store(true, Ordering::SeqCst);
    }
}
