//! Loading: workers bring the chunks of sources into a hall, and what they left is compared with the
//! sources once.
ghost use Rattle.std.specs.Prelude.{◌≡◌, ◌<◌, ◌≤◌, [], ℕ, All, Err, IfErr, IfNone, IfOk, IfSome, IsErrAnd, IsOkAnd, MatchOption, None, Ok, Some, filter_map, length};
ghost use Rattle.df_value.specs.Limits as limits;
ghost use Rattle.df_state.specs.Desks.{AgreeWithBooks};
ghost use Rattle.df_state.specs.States.{IsLegal};
ghost use Rattle.df_state.specs.declared.state.State.{State};
ghost use Rattle.df_claims.specs.Seats.{IsSeatOf};
ghost use Rattle.df_hall.specs.Closing as closing;
ghost use Rattle.df_hall.specs.Rooms.{HasRoomFor, Holds};
ghost use Rattle.df_store.specs.Headings.{HaveLastViews, headings_of};
ghost use Rattle.df_jobs.specs.Jobs.{AreOutcomes, chunks_of, jobs_of, most_jobs};
ghost use Rattle.df_jobs.specs.Loaded.{AreLoaded};
ghost use Rattle.df_store.specs.Loads as loads;
ghost use Rattle.df_jobs.specs.Refused.{refusal};
ghost use Rattle.df_jobs.specs.Counted.{entered_at};
ghost use Rattle.df_versions.specs.Histories.{AreAllowed, IsHistoryOver, IsLastStateBy, last_state};

use crate::drawing::jobs_at_once;
use crate::fault::LoadCause;
use crate::findings::compare;
use crate::loading::{Beginning, LoadingHall};
use crate::pool::do_jobs;
use crate::registering::begin;
use df_catalogue::{Catalogue, Desk};
use df_claims::ClaimSeat;
use df_hall::{Hall, Totals, TotalsRoom, Unsettled, VersionedCatalogue, settle};
use df_jobs::{Gate, Outcome, Refused, Stop, Work, job_count};
use df_plan::CheckedPlan;
use df_value::{List, Source, Text};
use df_versions::{Naming, Told};
use std::alloc::Global;
use std::marker::Brand;
use std::sync::Wait;
use std::sync::ledger::Ledger;
use std::thread::Threads;

// The most workers of a load.
const MOST_WORKERS: usize = 16;

/// A catalogue that was loaded.
pub struct Loaded<Acc: Ledger, Del: Ledger> {
    pub catalogue: Catalogue<Acc, Del>,
    /// What each frame accepted, what was deleted of it, and what it has.
    pub totals: Totals,
    /// The chunks that did not enter since a cell of them is bad, by frame and then by chunk.
    pub refused: List<Refused>,
}

// A body that owns one drops it by a call.
impl<Acc: Ledger, Del: Ledger> Drop for Loaded<Acc, Del> {
    fn drop(self) {
        let Loaded {
            catalogue,
            totals,
            refused,
        } = self;
        drop(catalogue);
        drop(totals);
        drop(refused);
    }
}

/// A load that was refused.
pub struct LoadFault<Acc: Ledger, Del: Ledger, J: Naming> {
    pub cause: LoadCause,
    /// What the load left, whole chunks, with its totals; none exactly where the gathered shares of the desks are not the books.
    pub left: Option<(Catalogue<Acc, Del>, Totals)>,
    /// The history of the hall. It ends with the state that is left, or else with that of whose books the shares are not.
    pub told: Told<J>,
}

// A body that owns one drops it by a call.
impl<Acc: Ledger, Del: Ledger, J: Naming> Drop for LoadFault<Acc, Del, J> {
    fn drop(self) {
        let LoadFault {
            cause: _,
            left,
            told,
        } = self;
        drop(left);
        drop(told);
    }
}

/// Registers copies of the views in the hall, splits the desks among workers, has these load the
/// sources, a source for each frame, and closes the hall. There are 1 to 16 workers: of another number
/// the nearest of these is taken.
///
/// Each worker draws the next jobs, again and again, until none is left. It passes the gate with each, makes the job's
/// chunk; the good ones enter through a desk of the frame, and only these commits hold the hall's lock. Where all
/// chunks of a draw and a frame follow one another, they enter in one change, with blocks that were made before, together
/// with those of other workers that they follow or that follow them: one worker commits all that waits. After
/// all workers have ended, what came of the jobs is compared with the sources and the views, once; at most as many threads
/// as there are workers look for the rows. Readers of the hall get no version from then on.
///
/// [`LoadCause`] says which cause of a fault comes before which. A worker that is refused memory, or a further
/// version, stops, and the others go on: what has entered is then in [`LoadFault::left`]. A desk of few parts
/// cannot be split for all workers, and a chunk that a worker without a desk of its frame commits is lost.
pub fn load_all<
    Acc: Ledger + Send + Sync,
    Del: Ledger + Send + Sync,
    J: Naming + Send + Sync,
    S: Source + Sync,
    G: Gate + Sync,
    R: Threads + Wait + Sync,
>(
    rt: &R,
    alloc: Global,
    hall: Hall<Acc, Del, J>,
    desks: Vec<Desk<Acc, Del>>,
    views: &[(Text, CheckedPlan)],
    sources: &[S],
    workers: usize,
    gate: &G,
) -> Result<Loaded<Acc, Del>, LoadFault<Acc, Del, J>>
    requires allowed { loads.AllowsLoad J.allows }
    requires sources { length sources.now ≡ length J.schemas }
    requires jobs { length (jobs_of (chunks_of S.made S.start_of sources.now))
        ≤ most_jobs }
    ensures loaded { IfOk result (λ load.
        AreLoaded (jobs_of (chunks_of S.made S.start_of sources.now)) load.catalogue.state) }
    ensures refused { IfOk result (λ load.
        load.refused ≡ filter_map refusal (jobs_of (chunks_of S.made S.start_of sources.now))) }
    ensures shares { IfOk result (λ load. loads.AreShares desks.items
        (jobs_of (chunks_of S.made S.start_of sources.now)) load.catalogue.state) }
    ensures views { IfOk result (λ load. headings_of load.catalogue.state ≡ views.now) }
    ensures totals { IfOk result (λ load.
        load.totals ≡ closing.totals_of load.catalogue.state) }
    ensures legal { IfOk result (λ load. IsLegal load.catalogue.state) }
    ensures state { IfOk result (λ load.
        IsLastStateBy J.allows J.schemas load.catalogue.state) }
    ensures left { IfErr result (λ fault. MatchOption fault.left
        (loads.IsNotLeft J.schemas (chunks_of S.made S.start_of sources.now) views.now
        desks.items fault.cause fault.told)
        (λ left. loads.IsLeft J.schemas (chunks_of S.made S.start_of sources.now) views.now
        desks.items fault.cause fault.told left.0.state)) }
    ensures left_totals { IfErr result (λ fault. IfSome fault.left (λ left.
        left.1 ≡ closing.totals_of left.0.state)) }
{
    let jobs = job_count(sources);
    let workers = workers.clamp(1, MOST_WORKERS);
    let (mut catalogue, room) = hall.into_parts();
    let (claims, seats) = match begin(rt, alloc, &mut catalogue, views, jobs, workers) {
        Ok(begun) => begun,
        Err(cause) => return Err(given_up(rt, catalogue, room, desks, cause)),
    };
    let mut desks = desks;
    catalogue.gather(&mut desks);
    let work = Work {
        alloc,
        sources,
        gate,
        jobs,
        claims: &claims,
        workers,
        desks: desks.len(),
        at_once: jobs_at_once(jobs, workers, views),
    };
    run_load::<Acc, Del, J, Brand, S, G, R>(rt, catalogue, room, &work, seats, desks, views)
}

// Runs the workers over a catalogue in which the views are registered, and compares what they left.
fn run_load<
    Acc: Ledger + Send + Sync,
    Del: Ledger + Send + Sync,
    J: Naming + Send + Sync,
    B: Beginning + Send + Sync,
    S: Source + Sync,
    G: Gate + Sync,
    R: Threads + Wait + Sync,
>(
    rt: &R,
    catalogue: VersionedCatalogue<Acc, Del, J>,
    room: TotalsRoom,
    work: &Work<S, G>,
    seats: Vec<ClaimSeat>,
    desks: Vec<Desk<Acc, Del>>,
    views: &[(Text, CheckedPlan)],
) -> Result<Loaded<Acc, Del>, LoadFault<Acc, Del, J>>
    requires allowed { loads.AllowsAppends J.allows }
    requires history { catalogue ≡ B.history }
    requires chunks { B.chunks ≡ chunks_of S.made S.start_of work.now.sources.now }
    requires over { IsHistoryOver J.schemas catalogue }
    requires registered { HaveLastViews views.now catalogue }
    requires agreed { (s : State) → last_state catalogue ≡ Some s → AgreeWithBooks desks.items s }
    requires room { HasRoomFor limits.most_frames room }
    requires empty { Holds room [] }
    requires workers { 0 < work.now.workers }
    requires jobs { work.now.jobs
        ≡ length (jobs_of (chunks_of S.made S.start_of work.now.sources.now)) }
    requires some { 0 < length seats.items }
    requires seats { All (IsSeatOf work.now.claims.now) seats.items }
    requires desks { length desks.items ≤ work.now.desks }
    ensures loaded { IfOk result (λ load.
        AreLoaded (jobs_of (chunks_of S.made S.start_of work.now.sources.now))
        load.catalogue.state) }
    ensures refused { IfOk result (λ load. load.refused
        ≡ filter_map refusal (jobs_of (chunks_of S.made S.start_of work.now.sources.now))) }
    ensures shares { IfOk result (λ load. loads.AreShares desks.items
        (jobs_of (chunks_of S.made S.start_of work.now.sources.now)) load.catalogue.state) }
    ensures views { IfOk result (λ load. headings_of load.catalogue.state ≡ views.now) }
    ensures totals { IfOk result (λ load.
        load.totals ≡ closing.totals_of load.catalogue.state) }
    ensures legal { IfOk result (λ load. IsLegal load.catalogue.state) }
    ensures state { IfOk result (λ load.
        IsLastStateBy J.allows J.schemas load.catalogue.state) }
    ensures left { IfErr result (λ fault. MatchOption fault.left
        (loads.IsNotLeft J.schemas (chunks_of S.made S.start_of work.now.sources.now) views.now
        desks.items fault.cause fault.told)
        (λ left. loads.IsLeft J.schemas (chunks_of S.made S.start_of work.now.sources.now)
        views.now desks.items fault.cause fault.told left.0.state)) }
    ensures left_totals { IfErr result (λ fault. IfSome fault.left (λ left.
        left.1 ≡ closing.totals_of left.0.state)) }
{
    let hall: LoadingHall<Acc, Del, J, B> = LoadingHall::over(work.alloc, catalogue, work.workers);
    let (desks, outcomes) = do_jobs(rt, &hall, work, seats, desks);
    finish(
        rt,
        hall.into_catalogue(),
        room,
        desks,
        work,
        views,
        outcomes,
    )
}

// The fault of a load of which no chunk has entered.
fn given_up<Acc: Ledger, Del: Ledger, J: Naming, R: Wait>(
    rt: &R,
    catalogue: VersionedCatalogue<Acc, Del, J>,
    room: TotalsRoom,
    desks: Vec<Desk<Acc, Del>>,
    cause: LoadCause,
) -> LoadFault<Acc, Del, J>
    requires room { HasRoomFor limits.most_frames room }
    requires empty { Holds room [] }
    ensures cause { result.cause ≡ cause }
    ensures left { IfSome result.left (λ left. (last_state catalogue ≡ Some left.0.state)
        × AgreeWithBooks desks.items left.0.state
        × closing.IsSettledState J.schemas desks.items left.0.state) }
    ensures not_left { IfNone result.left ((s : State) × (frame : ℕ)
        × (last_state catalogue ≡ Some s)
        × closing.IsUnsettledState J.schemas desks.items s frame) }
    ensures totals { IfSome result.left (λ left. left.1 ≡ closing.totals_of left.0.state) }
    ensures told { result.told ≡ catalogue }
    ensures over { IsHistoryOver J.schemas catalogue }
{
    let (catalogue, told) = ended(rt, catalogue);
    LoadFault {
        cause,
        left: settle(catalogue, desks, room).ok(),
        told,
    }
}

// The catalogue and its history. Readers get no version from then on.
fn ended<Acc: Ledger, Del: Ledger, J: Naming, R: Wait>(
    rt: &R,
    catalogue: VersionedCatalogue<Acc, Del, J>,
) -> (Catalogue<Acc, Del>, Told<J>)
    ensures state { last_state catalogue ≡ Some result.0.state }
    ensures over { IsHistoryOver J.schemas catalogue }
    ensures allowed { AreAllowed J.allows catalogue }
    ensures told { result.1 ≡ catalogue }
{
    let (catalogue, publisher) = catalogue.into_parts();
    let told = publisher.told();
    publisher.end(rt);
    (catalogue, told)
}

// Compares what the workers left, and closes the catalogue.
fn finish<Acc: Ledger, Del: Ledger, J: Naming, S: Source, G: Gate, R: Threads + Wait + Sync>(
    rt: &R,
    catalogue: VersionedCatalogue<Acc, Del, J>,
    room: TotalsRoom,
    desks: Vec<Desk<Acc, Del>>,
    work: &Work<S, G>,
    views: &[(Text, CheckedPlan)],
    entered: Result<Vec<Outcome>, Stop>,
) -> Result<Loaded<Acc, Del>, LoadFault<Acc, Del, J>>
    requires room { HasRoomFor limits.most_frames room }
    requires empty { Holds room [] }
    requires workers { 0 < work.now.workers }
    requires jobs { work.now.jobs
        ≡ length (jobs_of (chunks_of S.made S.start_of work.now.sources.now)) }
    requires entered { IfOk entered (λ os.
        AreOutcomes (chunks_of S.made S.start_of work.now.sources.now) os.items) }
    ensures loaded { IfOk result (λ load.
        AreLoaded (jobs_of (chunks_of S.made S.start_of work.now.sources.now))
        load.catalogue.state) }
    ensures refused { IfOk result (λ load. load.refused
        ≡ filter_map refusal (jobs_of (chunks_of S.made S.start_of work.now.sources.now))) }
    ensures settled { IfOk result (λ load.
        closing.missing_frame desks.items load.catalogue.state ≡ None) }
    ensures entered { IfOk result (λ _. IsOkAnd entered (λ os. (frame : ℕ) →
        entered_at frame os.items ≡ loads.rows_of_jobs frame
        (jobs_of (chunks_of S.made S.start_of work.now.sources.now)))) }
    ensures views { IfOk result (λ load. headings_of load.catalogue.state ≡ views.now) }
    ensures totals { IfOk result (λ load.
        load.totals ≡ closing.totals_of load.catalogue.state) }
    ensures legal { IfOk result (λ load. IsLegal load.catalogue.state) }
    ensures state { IfOk result (λ load.
        IsLastStateBy J.allows J.schemas load.catalogue.state) }
    ensures left { IfErr result (λ fault. IfSome fault.left (λ left.
        (last_state catalogue ≡ Some left.0.state)
        × closing.IsSettledState J.schemas desks.items left.0.state)) }
    ensures cause { IfErr result (λ fault. IfSome fault.left (λ left.
        loads.IsCauseAtEnd (λ os. os.items)
        (jobs_of (chunks_of S.made S.start_of work.now.sources.now)) views.now left.0.state
        entered fault.cause)) }
    ensures not_left { IfErr result (λ fault. IfNone fault.left ((s : State) × (frame : ℕ)
        × (last_state catalogue ≡ Some s)
        × closing.IsUnsettledState J.schemas desks.items s frame
        × loads.IsCauseUnsettled frame fault.cause)) }
    ensures told { IfErr result (λ fault. fault.told ≡ catalogue) }
    ensures over { IsHistoryOver J.schemas catalogue }
    ensures left_totals { IfErr result (λ fault. IfSome fault.left (λ left.
        left.1 ≡ closing.totals_of left.0.state)) }
{
    let (catalogue, told) = ended(rt, catalogue);
    let findings = match entered {
        Ok(outcomes) => compare(rt, &catalogue, work, views, outcomes),
        Err(stop) => Err(LoadCause::from(stop)),
    };
    conclude(settle(catalogue, desks, room), findings, told)
}

// What the load answers, once the hall was closed or could not be.
fn conclude<Acc: Ledger, Del: Ledger, J: Naming>(
    settled: Result<(Catalogue<Acc, Del>, Totals), Unsettled<Acc, Del>>,
    findings: Result<List<Refused>, LoadCause>,
    told: Told<J>,
) -> Result<Loaded<Acc, Del>, LoadFault<Acc, Del, J>>
    ensures loaded { IfOk result (λ load. settled ≡ Ok (load.catalogue, load.totals)) }
    ensures refused { IfOk result (λ load. findings ≡ Ok load.refused) }
    ensures left { IfErr result (λ fault. IfSome fault.left (λ left. settled ≡ Ok left)) }
    ensures cause { IfErr result (λ fault. IfSome fault.left (λ _. findings ≡ Err fault.cause)) }
    ensures missing { IfErr result (λ fault. IfNone fault.left (IsErrAnd settled (λ unsettled.
        loads.IsCauseUnsettled unsettled.frame fault.cause))) }
    ensures told { IfErr result (λ fault. fault.told ≡ told) }
{
    match settled {
        Ok((catalogue, totals)) => match findings {
            Ok(refused) => {
                drop(told);
                Ok(Loaded {
                    catalogue,
                    totals,
                    refused,
                })
            }
            Err(cause) => Err(LoadFault {
                cause,
                left: Some((catalogue, totals)),
                told,
            }),
        },
        Err(unsettled) => {
            let cause = match findings {
                Err(cause @ (LoadCause::Memory | LoadCause::Spent | LoadCause::Ahead)) => cause,
                _ => LoadCause::MissingDesk(unsettled.frame),
            };
            drop(unsettled);
            Err(LoadFault {
                cause,
                left: None,
                told,
            })
        }
    }
}
