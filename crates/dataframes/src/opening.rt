//! The running of a service: its opening, its threads and its closing.
ghost use Rattle.std.specs.Prelude.{◌≡◌, All, IfErr, IfNone, IfOk, IfSome, Ok, OnOk, length, map};
ghost use Rattle.df_state.specs.Ledgers as ledgers;
ghost use Rattle.df_versions.specs.Histories.{AllowsAll, schemas_of};
ghost use Rattle.dataframes.specs.Books.{InOrder};
ghost use Rattle.dataframes.specs.Closing.{AreTotalsOf, HasNoTotals, IsClosed, IsFaultOfView, IsMissed, IsNotAdded, IsNotOpened, IsServed, IsUnfinished, IsViewAdded, IsViewNotAdded};

use crate::books::Books;
use crate::builder::{NamedPlan, ServiceBuilder};
use crate::changing::LockedBooks;
use crate::closing::close;
use crate::dashboard::Dashboard;
use crate::fault::{FinishFault, ServiceFault};
use crate::hall_changes::{HallChanges, RunningHall};
use crate::service::{OpenService, ViewSchema};
use crate::threads::{Load, Watch, Workers, run_threads};
use df_catalogue::ViewChange;
use df_hall::{Hall, OpenedHall, Totals};
use df_value::{Duplicate, List, Schema};
use df_versions::{ChangeFault, Naming, OpenFault, Reader};
use std::alloc::{AllocError, Global};
use std::marker::Brand;
use std::rt::Clock;
use std::sync::atomic::AtomicU64;
use std::sync::ledger::{Blank, Ledger};
use std::sync::{Mutex, Wait};
use std::thread::Threads;

type Dashboards<J> = Vec<Mutex<Dashboard<J>>>;

/// The loaders and the watchers of a service that has ended, and its totals.
#[derive(Drop)]
pub struct Finished<L, W> {
    pub loaders: Vec<L>,
    pub watchers: Vec<W>,
    pub totals: Totals,
}

/// What a frame accepted and deleted, and what it has.
#[derive(Clone, Copy)]
pub struct FrameTotals {
    /// How many rows it accepted, also those that were deleted.
    pub accepted: u64,
    /// How many of them were deleted.
    pub deleted: u64,
    /// How many rows it has.
    pub live: u64,
}

impl<L, W> Finished<L, W> {
    /// The totals of the frame of this index, if there is one.
    pub fn totals_of(&self, frame: usize) -> Option<FrameTotals>
        ensures totals { IfSome result (AreTotalsOf self.now.totals frame) }
        ensures none { IfNone result (HasNoTotals self.now.totals frame) }
    {
        let totals = &self.totals;
        Some(FrameTotals {
            accepted: *totals.accepted.get(frame)?,
            deleted: *totals.deleted.get(frame)?,
            live: *totals.live.get(frame)?,
        })
    }
}

/// Opens the hall, runs the service in it, and closes it.
pub(crate) fn open<
    Acc: Ledger + Send + Sync,
    Del: Ledger + Send + Sync,
    R: Threads + Wait + Clock + Sync,
    L: Load + Send,
    W: Watch + Send,
>(
    rt: &R,
    alloc: Global,
    accepted: Blank,
    deleted: Blank,
    builder: ServiceBuilder,
    workers: Workers<L, W>,
) -> Result<Finished<L, W>, FinishFault>
    requires accepted_name { accepted.name ≡ Acc.name }
    requires accepted_parts { (accepted.parts ≡ Acc.parts)
        × (accepted.parts ≡ ledgers.parts_of_ledger) }
    requires deleted_name { deleted.name ≡ Del.name }
    requires deleted_parts { (deleted.parts ≡ Del.parts)
        × (deleted.parts ≡ ledgers.parts_of_ledger) }
    ensures totals { IfOk result (λ finished. IsClosed builder.schemas finished.totals) }
    ensures refused { IfErr result (IsUnfinished builder (length workers.watchers.items)) }
{
    let (schemas, views) = builder.into_parts();
    let readers = workers.watchers.len();
    let schemas = List::from_vec(schemas);
    match open_hall::<Acc, Del, R>(rt, alloc, accepted, deleted, schemas, readers) {
        Ok((opened, schemas)) => serve::<Acc, Del, Brand, R, L, W>(
            rt, alloc, opened, schemas, views, workers,
        ),
        Err(fault) => {
            drop(views);
            drop(workers);
            Err(FinishFault::Open(fault))
        }
    }
}

// A hall with so many readers, and the schemas of its frames.
fn open_hall<Acc: Ledger, Del: Ledger, R: Wait>(
    rt: &R,
    alloc: Global,
    accepted: Blank,
    deleted: Blank,
    schemas: List<Schema>,
    readers: usize,
) -> Result<(OpenedHall<Acc, Del>, List<Schema>), OpenFault>
    requires accepted_name { accepted.name ≡ Acc.name }
    requires accepted_parts { (accepted.parts ≡ Acc.parts)
        × (accepted.parts ≡ ledgers.parts_of_ledger) }
    requires deleted_name { deleted.name ≡ Del.name }
    requires deleted_parts { (deleted.parts ≡ Del.parts)
        × (deleted.parts ≡ ledgers.parts_of_ledger) }
    ensures history { IfOk result (λ o. schemas_of o.0.1.0 ≡ schemas) }
    ensures desks { IfOk result (λ o. InOrder o.0.1.1) }
    ensures count { IfOk result (λ o. length o.0.1.1 ≡ length schemas) }
    ensures schemas { IfOk result (λ o. o.1 ≡ schemas) }
    ensures refused { IfErr result (IsNotOpened schemas readers) }
{
    let copied = schemas.copy(alloc);
    match OpenedHall::<Acc, Del>::open(rt, alloc, accepted, deleted, schemas, readers) {
        Ok(opened) => with_schemas(rt, opened, copied),
        Err(fault) => {
            drop(copied);
            Err(fault)
        }
    }
}

// The hall with the schemas, unless memory was refused to these.
fn with_schemas<Acc: Ledger, Del: Ledger, R: Wait>(
    rt: &R,
    opened: OpenedHall<Acc, Del>,
    schemas: Result<List<Schema>, AllocError>,
) -> Result<(OpenedHall<Acc, Del>, List<Schema>), OpenFault>
    ensures both { IfOk result (λ o. (o.0 ≡ opened) × (schemas ≡ Ok o.1)) }
    ensures fault { IfErr result (λ fault. fault ≡ OpenFault.Memory) }
{
    match schemas {
        Ok(schemas) => Ok((opened, schemas)),
        Err(_) => {
            opened.end(rt);
            Err(OpenFault::Memory)
        }
    }
}

// Serves in a hall of a history with this name.
fn serve<
    Acc: Ledger + Send + Sync,
    Del: Ledger + Send + Sync,
    J: Naming + Send + Sync,
    R: Threads + Wait + Clock + Sync,
    L: Load + Send,
    W: Watch + Send,
>(
    rt: &R,
    alloc: Global,
    opened: OpenedHall<Acc, Del>,
    schemas: List<Schema>,
    views: Vec<NamedPlan>,
    workers: Workers<L, W>,
) -> Result<Finished<L, W>, FinishFault>
    requires book { opened.0 ≡ J.book }
    requires history { schemas_of opened.1.0 ≡ J.schemas }
    requires allowed { AllowsAll J.allows }
    requires schemas { schemas ≡ J.schemas }
    requires desks { InOrder opened.1.1 }
    requires count { length opened.1.1 ≡ length J.schemas }
    ensures totals { IfOk result (λ finished. IsClosed J.schemas finished.totals) }
    ensures refused { IfErr result (IsServed J.schemas views.items) }
{
    let (hall, desks, readers) = opened.named::<J>();
    let mut books = Books::new(desks);
    let running = RunningHall {
        rt,
        alloc,
        hall: &hall,
    };
    let prepared = prepare(alloc, &running, &mut books, views.as_slice(), readers);
    drop(running);
    drop(views);
    match prepared {
        Ok((views, dashboards)) => {
            serve_workers(rt, alloc, hall, books, schemas, views, dashboards, workers)
        }
        Err(fault) => {
            drop(books);
            drop(schemas);
            drop(workers);
            hall.end(rt);
            Err(fault)
        }
    }
}

// Runs the workers, with the views added, and closes the books behind them.
fn serve_workers<
    Acc: Ledger + Send + Sync,
    Del: Ledger + Send + Sync,
    J: Naming + Send + Sync,
    R: Threads + Wait + Clock + Sync,
    L: Load + Send,
    W: Watch + Send,
>(
    rt: &R,
    alloc: Global,
    hall: Hall<Acc, Del, J>,
    books: Books<Acc, Del, J>,
    schemas: List<Schema>,
    views: List<ViewSchema>,
    dashboards: Dashboards<J>,
    workers: Workers<L, W>,
) -> Result<Finished<L, W>, FinishFault>
    requires allowed { AllowsAll J.allows }
    requires schemas { schemas ≡ J.schemas }
    ensures totals { IfOk result (λ finished. IsClosed J.schemas finished.totals) }
    ensures refused { IfErr result (IsMissed J.schemas) }
{
    let running = RunningHall {
        rt,
        alloc,
        hall: &hall,
    };
    let books = Mutex::new(books);
    let left = AtomicU64::new(1);
    let changes = LockedBooks {
        rt,
        alloc,
        hall: &running,
        books: &books,
        schemas: &schemas,
    };
    let service = OpenService {
        alloc,
        changes: &changes,
        schemas: &schemas,
        views: &views,
        dashboards: dashboards.as_slice(),
        left: &left,
    };
    let workers = run_threads(rt, &service, workers);
    drop(service);
    drop(changes);
    drop(dashboards);
    drop(views);
    drop(schemas);
    drop(running);
    close(rt, hall, books.into_inner(), workers)
}

// What a service is served with: the names and columns of its views, which are added, and its dashboards.
fn prepare<Acc: Ledger, Del: Ledger, J: Naming, H: HallChanges<Acc, Del, J>>(
    alloc: Global,
    hall: &H,
    books: &mut Books<Acc, Del, J>,
    views: &[NamedPlan],
    readers: Vec<Reader>,
) -> Result<(List<ViewSchema>, Dashboards<J>), FinishFault>
    requires allowed { AllowsAll J.allows }
    requires readers { All (λ r. r.0 ≡ J.book) readers.items }
    ensures views { IfOk result (λ made. made.0 ≡ map (λ v. (v.0, v.1.schema)) views.now) }
    ensures refused { IfErr result (IsNotAdded J.schemas views.now) }
{
    match add_views(alloc, hall, books, views) {
        Ok(views) => match dashboards::<J>(alloc, readers, &views) {
            Ok(dashboards) => Ok((views, dashboards)),
            Err(_) => {
                drop(views);
                Err(FinishFault::Open(OpenFault::Memory))
            }
        },
        Err(fault) => {
            drop(readers);
            Err(fault)
        }
    }
}

// Adds the views in their order, and answers their names and columns.
fn add_views<Acc: Ledger, Del: Ledger, J: Naming, H: HallChanges<Acc, Del, J>>(
    alloc: Global,
    hall: &H,
    books: &mut Books<Acc, Del, J>,
    views: &[NamedPlan],
) -> Result<List<ViewSchema>, FinishFault>
    requires allowed { AllowsAll J.allows }
    ensures added { IfOk result (λ added. added ≡ map (λ v. (v.0, v.1.schema)) views.now) }
    ensures refused { IfErr result (IsNotAdded J.schemas views.now) }
{
    let mut added = Vec::with_capacity(alloc, views.len())?;
    for view in views {
        added.push(add_view(alloc, hall, books, view)?)?;
    }
    Ok(List::from_vec(added))
}

// Adds a view, and answers its name and columns.
fn add_view<Acc: Ledger, Del: Ledger, J: Naming, H: HallChanges<Acc, Del, J>>(
    alloc: Global,
    hall: &H,
    books: &mut Books<Acc, Del, J>,
    view: &NamedPlan,
) -> Result<ViewSchema, FinishFault>
    requires allowed { AllowsAll J.allows }
    ensures added { IfOk result (λ added. added ≡ (view.now.0, view.now.1.schema)) }
    ensures registered { OnOk result (IsViewAdded books.old view.now books.new) }
    ensures refused { IfErr result (IsViewNotAdded J.schemas view.now) }
{
    let (name, plan) = view.copy(alloc)?;
    let answer = books.change_views(hall, ViewChange::Register(name, plan));
    match answer {
        Ok(told) => {
            drop(told);
            Ok(schema_of(alloc, view)?)
        }
        Err(fault) => Err(view_fault(fault)),
    }
}

fn schema_of(alloc: Global, view: &NamedPlan) -> Result<ViewSchema, AllocError>
    ensures { IfOk result (λ added. added ≡ (view.now.0, view.now.1.schema)) }
{
    let name = view.0.copy(alloc)?;
    let schema = view.1.schema().copy(alloc)?;
    Ok((name, schema))
}

// Why a view was not added.
fn view_fault<J: Naming>(fault: ServiceFault<J>) -> FinishFault
    ensures { IsFaultOfView fault result }
{
    match fault {
        ServiceFault::Refused(ChangeFault::Refused(fault, told)) => {
            drop(told);
            FinishFault::View(fault)
        }
        ServiceFault::Refused(ChangeFault::Memory) => FinishFault::Open(OpenFault::Memory),
        _ => FinishFault::Unready,
    }
}

// A dashboard over each reader.
fn dashboards<J: Naming>(
    alloc: Global,
    readers: Vec<Reader>,
    views: &List<ViewSchema>,
) -> Result<Dashboards<J>, AllocError>
    requires { All (λ r. r.0 ≡ J.book) readers.items }
{
    let mut dashboards = Vec::with_capacity(alloc, readers.len())?;
    for reader in readers {
        dashboards.push(Mutex::new(Dashboard::over(reader, views.copy(alloc)?)))?;
    }
    Ok(dashboards)
}
