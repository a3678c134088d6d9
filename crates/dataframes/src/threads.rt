//! The threads of a service: one for each loader, and one for each watcher.
use crate::changing::MakeChanges;
use crate::dashboard::Dashboard;
use crate::service::{OpenService, Service, Tell};
use df_versions::Naming;
use std::rt::Clock;
use std::sync::Wait;
use std::sync::atomic::Ordering;
use std::thread;
use std::thread::Threads;
use std::time::Duration;

/// What a service runs on: what starts threads, waits for a lock, sleeps and gives memory. `main` has it as its `HostRuntime`.
pub trait ServiceRuntime: Threads + Wait + Clock + AllocGlobal + Sync {}

impl<R: Threads + Wait + Clock + AllocGlobal + Sync> ServiceRuntime for R {}

/// What changes a service, in a thread of its own.
pub trait Load: Drop {
    /// Changes the service until it is done.
    fn load<S: Service>(&mut self, service: &S);
}

/// What looks at a service, in a thread of its own.
pub trait Watch: Drop {
    /// Looks at the newest version. It is called again and again while loaders run, and once behind them, with a
    /// dashboard that has learnt all that they changed. Before that the dashboard learns what the watcher lets it learn of what
    /// the service told.
    fn look<S: Tell>(&mut self, service: &S, dashboard: &mut Dashboard<S::History>);

    /// How long it rests between two looks.
    fn pause(&self) -> Duration {
        Duration::from_millis(100)
    }
}

/// The loaders and the watchers of a service.
#[derive(Drop)]
pub(crate) struct Workers<L, W> {
    pub loaders: Vec<L>,
    pub watchers: Vec<W>,
}

/// Runs the loaders and, until they are done, the watchers, each at its dashboard.
pub(crate) fn run_threads<
    's,
    M: MakeChanges<J> + Sync,
    J: Naming + Send + Sync,
    R: Threads + Wait + Clock + Sync,
    L: Load + Send,
    W: Watch + Send,
>(rt: &R, service: &OpenService<'s, M, J>, workers: Workers<L, W>) -> Workers<L, W> {
    let Workers { loaders, watchers } = workers;
    // Where no thread can be started for the watchers they come last, and no loader waits for them.
    let (watchers, loaders) = thread::join(
        rt,
        move || watch_all(rt, service, watchers),
        move || load_all(rt, service, loaders),
    );
    Workers { loaders, watchers }
}

fn watch_all<
    's,
    M: MakeChanges<J> + Sync,
    J: Naming + Send + Sync,
    R: Threads + Wait + Clock + Sync,
    W: Watch + Send,
>(rt: &R, service: &OpenService<'s, M, J>, watchers: Vec<W>) -> Vec<W> {
    let mut watchers = watchers;
    let threads = watchers.len().max(1);
    thread::for_each_mut(
        rt,
        watchers.as_mut_slice(),
        threads,
        &move |at, watcher| { keep_watch(rt, service, at, watcher) },
    );
    watchers
}

// Looks again and again, until no loader is left, and then once at all that they changed.
fn keep_watch<'s, M: MakeChanges<J>, J: Naming, R: Wait + Clock, W: Watch>(
    rt: &R,
    service: &OpenService<'s, M, J>,
    at: usize,
    watcher: &mut W,
) {
    let Some(dashboard) = service.dashboards.get(at) else {
        return;
    };
    let mut dashboard = dashboard.lock(rt);
    for _turn in 0..u64::MAX {
        if service.left.load(Ordering::SeqCst) == 0 {
            break;
        }
        watcher.look(service, &mut dashboard);
        thread::sleep(rt, watcher.pause());
    }
    if let Some(told) = service.told() {
        dashboard.learn(told);
    }
    watcher.look(service, &mut dashboard);
}

fn load_all<
    's,
    M: MakeChanges<J> + Sync,
    J: Naming + Send + Sync,
    R: Threads + Wait + Clock + Sync,
    L: Load + Send,
>(rt: &R, service: &OpenService<'s, M, J>, loaders: Vec<L>) -> Vec<L> {
    let mut loaders = loaders;
    let threads = loaders.len().max(1);
    thread::for_each_mut(
        rt,
        loaders.as_mut_slice(),
        threads,
        &|_at, loader| { loader.load(service) },
    );
    service.left.store(0, Ordering::SeqCst);
    loaders
}
