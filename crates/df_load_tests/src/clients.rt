//! Many changes of one hall by several threads at once, beside others that read its versions.
ghost use Rattle.df_versions.specs.Histories.{AllowsAll};

use crate::given::{accepted, chunk, groups, row};
use crate::watching::{LEAST_SEEN, Seen, WATCHERS, Watcher};
use df_catalogue::{CatalogueFault, Desk};
use df_store::Hall;
use df_value::Text;
use df_versions::{ChangeFault, Naming, Reader, Told};
use std::alloc::Global;
use std::sync::Wait;
use std::sync::ledger::Ledger;
use std::test::Fail;
use std::thread;
use std::thread::Threads;

const CLIENTS: u32 = 4;

/// How many rounds of four changes each client makes, an even number. For a long run by hand put 6,250 here: those are
/// 100,000 changes.
pub const ROUNDS: u32 = 26;

// In how many of its rounds the first client has another view come and go, which takes the longer the more rows there are.
const ROUNDS_OF_VIEWS: u32 = 26;

/// How many versions come: one of a view, of the four changes of a round three are accepted, and two of another view that
/// comes and goes.
pub const VERSIONS: u64 = 1 + (3 * CLIENTS * ROUNDS + 2 * ROUNDS_OF_VIEWS) as u64;

// What one thread changes the hall with: a desk of each frame.
#[derive(Drop)]
struct Client<Acc: Ledger, Del: Ledger> {
    alloc: Global,
    // Its number, below that of the clients.
    number: u32,
    desks: Vec<Desk<Acc, Del>>,
    // Whether all answers were those that were wanted.
    served: bool,
}

impl<Acc: Ledger, Del: Ledger> Client<Acc, Del> {
    // Makes all rounds. The first ones each wait for the watchers to see one more version.
    fn run<J: Naming, R: Wait>(&mut self, rt: &R, hall: &Hall<Acc, Del, J>, seen: &Seen)
        requires { AllowsAll J.allows }
    {
        for round in 0..ROUNDS {
            seen.wait(u64::from(round).min(LEAST_SEEN));
            // Three numbers for each client and round.
            let turn = round.wrapping_mul(CLIENTS).wrapping_add(self.number);
            let served = self.change(rt, hall, turn.wrapping_mul(3), (round % 2) as usize);
            let is_first = self.number == 0 && round < ROUNDS_OF_VIEWS;
            let views = if is_first {
                self.change_views(rt, hall)
            } else {
                Some(true)
            };
            self.served = self.served && served == Some(true) && views == Some(true);
        }
    }

    // A second view comes and goes.
    fn change_views<J: Naming, R: Wait>(&self, rt: &R, hall: &Hall<Acc, Del, J>) -> Option<bool>
        requires { AllowsAll J.allows }
    {
        let alloc = self.alloc;
        let name = Text::from_str(alloc, "h").ok()?;
        let plan = groups(alloc).ok()?;
        let nothing: Option<Told<J>> = None;
        let came = hall.register(rt, alloc, name, plan, nothing.as_ref()).ok()?;
        let went = hall.drop_view(rt, alloc, "h", Some(&came)).ok()?;
        Some(went.number() > came.number())
    }

    // Three rows come, one of them goes and another is replaced; the same chunk is refused from then on. Each call is told
    // of the one before.
    fn change<J: Naming, R: Wait>(
        &mut self,
        rt: &R,
        hall: &Hall<Acc, Del, J>,
        first: u32,
        frame: usize,
    ) -> Option<bool>
        requires { AllowsAll J.allows }
    {
        let alloc = self.alloc;
        let desk = self.desks.get_mut(frame)?;
        let rows = chunk(alloc, first, 3).ok()?;
        let replaced = [(first.wrapping_add(2), row(alloc, 7).ok()?)];
        let nothing: Option<Told<J>> = None;
        let told = hall
            .commit_chunk(rt, alloc, desk, &rows, nothing.as_ref())
            .ok()?;
        let told = hall
            .delete_rows(rt, alloc, desk, &[first], Some(&told))
            .ok()?;
        let told = hall
            .replace_rows(rt, alloc, desk, &replaced, Some(&told))
            .ok()?;
        match hall.commit_chunk(rt, alloc, desk, &rows, Some(&told)) {
            Err(ChangeFault::Refused(CatalogueFault::Taken(number), again)) => {
                Some(number == first && again.number() >= told.number())
            }
            _ => Some(false),
        }
    }
}

// The part of one thread.
#[derive(Drop)]
enum Actor<Acc: Ledger, Del: Ledger> {
    Changes(Client<Acc, Del>),
    Watches(Watcher),
}

impl<Acc: Ledger, Del: Ledger> Actor<Acc, Del> {
    fn run<J: Naming, R: Wait>(&mut self, rt: &R, hall: &Hall<Acc, Del, J>, seen: &Seen)
        requires { AllowsAll J.allows }
    {
        match self {
            Actor::Changes(client) => client.run(rt, hall, seen),
            Actor::Watches(watcher) => watcher.run(seen),
        }
    }
}

fn split_each<Acc: Ledger, Del: Ledger>(
    alloc: Global,
    desks: &mut [Desk<Acc, Del>],
) -> Result<Vec<Desk<Acc, Del>>, Fail> {
    let mut split = Vec::new(alloc);
    for desk in desks {
        split.push(desk.split().ok_or("a second desk")?)?;
    }
    Ok(split)
}

// The clients, each with desks that are split from these.
fn clients<Acc: Ledger, Del: Ledger>(
    alloc: Global,
    desks: &mut [Desk<Acc, Del>],
) -> Result<Vec<Actor<Acc, Del>>, Fail> {
    let mut actors = Vec::new(alloc);
    for number in 0..CLIENTS {
        actors.push(Actor::Changes(Client {
            alloc,
            number,
            desks: split_each(alloc, desks)?,
            served: true,
        }))?;
    }
    Ok(actors)
}

// A watcher for each reader, behind the others.
fn add_watchers<Acc: Ledger, Del: Ledger>(
    alloc: Global,
    actors: &mut Vec<Actor<Acc, Del>>,
    readers: Vec<Reader>,
) -> Result<(), Fail> {
    if readers.len() != WATCHERS {
        return Err("a reader for each watcher".into());
    }
    let mut place = 0usize;
    for reader in readers {
        let watcher = Watcher::new(alloc, place, reader, groups(alloc)?);
        actors.push(Actor::Watches(watcher))?;
        place = place.wrapping_add(1);
    }
    Ok(())
}

// Runs the actors, each in a thread of its own.
fn run_actors<
    Acc: Ledger + Send + Sync,
    Del: Ledger + Send + Sync,
    J: Naming + Send + Sync,
    R: Threads + Wait + Sync,
>(rt: &R, hall: &Hall<Acc, Del, J>, actors: &mut [Actor<Acc, Del>], last: u64)
    requires { AllowsAll J.allows }
{
    if actors.is_empty() {
        return;
    }
    let threads = actors.len();
    let counts = Seen::new(last);
    let seen = &counts;
    thread::for_each_mut(
        rt,
        actors,
        threads,
        &|_index, actor| { actor.run(rt, hall, seen) },
    );
}

// Takes the desks of the clients, if each was served, and each watcher saw what is right and then the last version.
fn take_desks<Acc: Ledger, Del: Ledger>(
    actors: &mut [Actor<Acc, Del>],
    all: &mut Vec<Desk<Acc, Del>>,
    last: u64,
) -> Result<(), Fail> {
    for actor in actors {
        match actor {
            Actor::Changes(client) => {
                if !client.served {
                    return Err("each change is answered as it should be".into());
                }
                all.append(&mut client.desks)?;
            }
            Actor::Watches(watcher) => {
                if !watcher.ends_with(last) {
                    return Err(
                        "versions have the rows of their plans, and the last one comes".into(),
                    );
                }
            }
        }
    }
    Ok(())
}

/// Clients with parts of these desks change the frames under a view, and watchers read it, up to the version of this
/// number. The desks of the clients.
pub fn change_at_once<
    Acc: Ledger + Send + Sync,
    Del: Ledger + Send + Sync,
    J: Naming + Send + Sync,
    R: Threads + Wait + Sync,
>(
    rt: &R,
    alloc: Global,
    hall: &Hall<Acc, Del, J>,
    desks: &mut [Desk<Acc, Del>],
    readers: Vec<Reader>,
    last: u64,
) -> Result<Vec<Desk<Acc, Del>>, Fail>
    requires { AllowsAll J.allows }
{
    let name = Text::from_str(alloc, "g")?;
    let nothing: Option<Told<J>> = None;
    accepted(hall.register(rt, alloc, name, groups(alloc)?, nothing.as_ref()))?;
    let mut actors = clients(alloc, desks)?;
    add_watchers(alloc, &mut actors, readers)?;
    run_actors(rt, hall, actors.as_mut_slice(), last);
    let mut all = Vec::new(alloc);
    take_desks(actors.as_mut_slice(), &mut all, last)?;
    Ok(all)
}
