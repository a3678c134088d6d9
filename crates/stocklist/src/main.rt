//! `stocklist`: current totals of goods that loader threads change. docs/LIBRARY.md explains each part.
#![tactic(auto)]

use clap::{ArgMatches, Command, Error, arg, value_parser};
use dataframes::{
    Agg, Boxed, CellRef, CellType, CsvFile, Dashboard, FinishFault, Finished, List, Load, Plan,
    Service, ServiceBuilder, ServiceFault, ServiceRuntime, Tell, Text, ViewTable, Watch, load_into,
    read_files, row_of,
};
use rand_core::{Rng, SeedableRng};
use rand_xoshiro::Xoshiro256PlusPlus;
use std::alloc::Global;
use std::fmt::Display;
use std::process::ExitCode;
use std::rt::{Clock, Runtime};
use std::time::Duration;
use std::{env, thread};

// The frame of the moves: of which good, and how many came, or left where it is below 0.
const MOVES: usize = 0;

fn stock(alloc: Global) -> Result<ServiceBuilder, FinishFault> {
    let keys = List::from_vec(vec![in alloc; Text::from_str(alloc, "good")?]?);
    let sum = Agg::Sum(Text::from_str(alloc, "count")?);
    let sums = List::from_vec(vec![in alloc; (Text::from_str(alloc, "total")?, sum)]?);
    let totals = Plan::GroupBy(Boxed::new(alloc, Plan::Scan(MOVES))?, keys, sums);
    ServiceBuilder::new(alloc)
        .frame(&[("good", CellType::Text), ("count", CellType::Int)])?
        .view("totals", totals)
}

// It loads its share of the files, or makes moves where there are none.
#[derive(Drop)]
struct Loader<'r, 'f, R> {
    rt: &'r R,
    files: &'f [CsvFile],
    random: Xoshiro256PlusPlus,
    rounds: u64,
    accepted: u64,
    deleted: u64,
    // Whether a file or a round, or a part of one, is left out.
    is_short: bool,
}

impl<'r, 'f, R: Clock + Eprint> Load for Loader<'r, 'f, R> {
    fn load<S: Service>(&mut self, service: &S) {
        for file in self.files {
            self.load_file(service, file);
        }
        self.make_rounds(service);
    }
}

impl<'r, 'f, R: Clock + Eprint> Loader<'r, 'f, R> {
    fn load_file<S: Service>(&mut self, service: &S, file: &CsvFile) {
        let Some(lines) = &file.lines else {
            return self.leave_out(file.path.as_str(), &"it cannot be read");
        };
        let loaded = load_into(service, MOVES, lines.as_slice());
        self.accepted = self.accepted.wrapping_add(loaded.rows as u64);
        if let Some(fault) = &loaded.refused {
            self.leave_out(file.path.as_str(), fault);
        }
    }

    fn make_rounds<S: Service>(&mut self, service: &S) {
        for _round in 0..self.rounds {
            if let Err(fault) = self.make_round(service) {
                self.leave_out("a round", &fault);
                if !fault.is_memory() {
                    return;
                }
            }
            thread::sleep(self.rt, Duration::from_millis(50));
        }
    }

    // Two moves come. The first is corrected, and the second, which was entered by mistake, is deleted.
    fn make_round<S: Service>(&mut self, service: &S) -> Result<(), ServiceFault<S::History>> {
        let ((one, ones), (two, twos)) = (self.next_move(), self.next_move());
        let lines = format!(in service.alloc(); "good,count\n{one},{ones}\n{two},{twos}\n")?;
        let came = service.append_csv(MOVES, lines.as_bytes())?;
        self.accepted = self.accepted.wrapping_add(came.rows as u64);
        let (good, count) = self.next_move();
        let corrected = row_of(service.alloc(), &[CellRef::Text(good), CellRef::Int(count)])?;
        let _told = service.replace(MOVES, &[(came.first, corrected)])?;
        let _told = service.delete(MOVES, &[came.first.wrapping_add(1)])?;
        self.deleted = self.deleted.wrapping_add(1);
        Ok(())
    }

    fn next_move(&mut self) -> (&'static str, i64) {
        let goods = ["apples", "bread", "cheese", "dates"];
        let good = goods[(self.random.next_u64() % 4) as usize];
        (good, (self.random.next_u64() % 20) as i64 - 5)
    }

    fn leave_out<D: Display>(&mut self, what: &str, why: &D) {
        let _ = eprintln!(self.rt; "{what}: {why}");
        self.is_short = true;
    }
}

// It shows the totals of the newest version, by good.
#[derive(Drop)]
struct Watcher<'a, R> {
    rt: &'a R,
    shown: Vec<(String, i128)>,
    // Whether memory was refused to the newest totals.
    is_behind: bool,
}

impl<'a, R: Eprint + AllocGlobal> Watch for Watcher<'a, R> {
    fn look<S: Tell>(&mut self, service: &S, dashboard: &mut Dashboard<S::History>) {
        let Some(version) = dashboard.follow(service.told()) else {
            return;
        };
        let table = dashboard.table(version.as_ref(), "totals").ok();
        let totals = table.and_then(|table| by_good(self.rt.alloc(), &table));
        self.is_behind = totals.is_none();
        let Some(totals) = totals else {
            return drop(eprintln!(self.rt; "totals: out of memory"));
        };
        for total in &totals {
            if self.shown.binary_search(total).is_err() {
                let _ = eprintln!(self.rt; "{}: {} {}", version.number(), total.0, total.1);
            }
        }
        self.shown = totals;
    }
}

// The totals of the view's rows, in the order of the goods; None where memory is refused. A good that is null has no name.
fn by_good(alloc: Global, table: &ViewTable<'_>) -> Option<Vec<(String, i128)>> {
    let mut totals = Vec::new(alloc);
    for at in 0..table.len() {
        let row = table.row(alloc, at).ok()??;
        let good = String::from_str(alloc, row.lent().text("good").unwrap_or("")).ok()?;
        let total = row.lent().int("total").unwrap_or(0);
        totals.push((good, total)).ok()?;
    }
    totals.sort().ok()?;
    Some(totals)
}

fn main(rt: HostRuntime) -> ExitCode {
    run(&rt).unwrap_or(ExitCode::from(2))
}

fn run<R: ServiceRuntime + Runtime>(rt: &R) -> Option<ExitCode> {
    let words: Vec<String> = env::args(rt).ok()?.collect(rt.alloc()).ok()?;
    match read_words(rt.alloc(), words.as_slice()) {
        Ok(words) => serve(rt, &words),
        Err(error) => {
            error.print(rt).ok()?;
            Some(ExitCode::from(if error.use_stderr() { 2 } else { 0 }))
        }
    }
}

fn read_words<'a>(alloc: Global, words: &'a [String]) -> Result<ArgMatches<'a>, Error> {
    Command::new(alloc, "stocklist")
        .about("Current totals of goods")
        .arg(arg!(in alloc; --file <PATH> ...))?
        .arg(arg!(in alloc; --loaders <NUMBER>).value_parser(value_parser!(u64).range(1..=16)))?
        .arg(arg!(in alloc; --seconds <NUMBER>).value_parser(value_parser!(u64).range(1..=600)))?
        .arg(arg!(in alloc; --seed <NUMBER>).value_parser(value_parser!(u64)))?
        .try_get_matches_from(words)
}

fn serve<R: ServiceRuntime + Runtime>(rt: &R, words: &ArgMatches<'_>) -> Option<ExitCode> {
    let alloc = rt.alloc();
    let files = read_files(rt, words.get_raw("file").unwrap_or(&[])).ok()?;
    let seconds: u64 = words.get_one("seconds").unwrap_or(1);
    let rounds = seconds.saturating_mul(20);
    let seed: u64 = words.get_one("seed").unwrap_or(1);
    let count: u64 = words.get_one("loaders").unwrap_or(4);
    // Each loader has a share of the files; the last shares may be empty.
    let share = files.len().div_ceil(count.max(1) as usize);
    let mut shares = files.chunks(share.max(1));
    let mut loaders = Vec::new(alloc);
    for number in 0..count {
        let loader = Loader {
            rt,
            files: shares.next().unwrap_or_default(),
            random: Xoshiro256PlusPlus::seed_from_u64(seed.wrapping_add(number)),
            rounds: if files.is_empty() { rounds } else { 0 },
            accepted: 0,
            deleted: 0,
            is_short: false,
        };
        loaders.push(loader).ok()?;
    }
    let watcher = Watcher {
        rt,
        shown: Vec::new(alloc),
        is_behind: false,
    };
    let watchers = vec![in alloc; watcher].ok()?;
    let finished = stock(alloc).ok()?.run(rt, loaders, watchers).ok()?;
    report(rt, &finished)
}

// It prints the books and the totals. All is well where the books are what the loaders counted, and nothing is left out.
fn report<R: Print + Eprint>(
    rt: &R,
    finished: &Finished<Loader<'_, '_, R>, Watcher<'_, R>>,
) -> Option<ExitCode> {
    let books = finished.totals_of(MOVES)?;
    let (accepted, deleted, live) = (books.accepted, books.deleted, books.live);
    println!(rt; "accepted {accepted}, deleted {deleted}, live {live}").ok()?;
    let watcher = finished.watchers.first()?;
    for (good, total) in watcher.shown.as_slice() {
        println!(rt; "{good} {total}").ok()?;
    }
    let loaders = finished.loaders.as_slice();
    let (came, went) = loaders.iter().fold((0u64, 0u64), |(came, went), loader| {
        let came = came.wrapping_add(loader.accepted);
        (came, went.wrapping_add(loader.deleted))
    });
    let is_counted = (came, went) == (accepted, deleted);
    if !is_counted {
        let _ = eprintln!(rt; "the loaders counted {came} accepted and {went} deleted");
    }
    let is_short = watcher.is_behind || loaders.iter().any(|loader| loader.is_short);
    Some(ExitCode::from(if is_counted && !is_short { 0 } else { 1 }))
}
