//! Progress: how many chunks were begun, told at a terminal while a load takes long.

use df_app::Gate;
use std::io::IsTerminal;
use std::sync::atomic::{AtomicU64, Ordering};
use std::time::Instant;

/// A gate that every worker passes at once, and that tells on standard error, once a second, how many
/// chunks have passed it. It tells nothing in the first second, and nothing where standard error is no
/// terminal or the clock cannot be read.
#[derive(Drop)]
pub(crate) struct Progress<'a> {
    rt: &'a HostRuntime,
    started: Option<Instant>,
    passed: AtomicU64,
    told: AtomicU64,
}

impl<'a> Progress<'a> {
    pub(crate) fn new(rt: &'a HostRuntime) -> Progress<'a> {
        let started = if rt.stderr().is_terminal() {
            Instant::now(rt).ok()
        } else {
            None
        };
        Progress {
            rt,
            started,
            passed: AtomicU64::new(0),
            told: AtomicU64::new(0),
        }
    }

    // Whether no worker has told anything since so many seconds were over. One worker is answered so.
    fn is_first_after(&self, seconds: u64) -> bool {
        let told = self.told.load(Ordering::Relaxed);
        told < seconds
            && self
                .told
                .compare_exchange(told, seconds, Ordering::Relaxed, Ordering::Relaxed)
                .is_ok()
    }
}

impl Gate for Progress<'_> {
    fn pass(&self, _job: u64) {
        let Some(started) = self.started else {
            return;
        };
        let passed = self.passed.fetch_add(1, Ordering::Relaxed);
        let Ok(elapsed) = started.elapsed(self.rt) else {
            return;
        };
        if self.is_first_after(elapsed.as_secs()) {
            let _ = eprintln!(self.rt; "dfviews: loading, {passed} chunks so far");
        }
    }
}
