//! Catalogues: which frames they are opened over, lists of changes, the most views, and desks.
ghost use Rattle.std.specs.Prelude.{◌≡◌};
ghost use Rattle.df_state.specs.Desks.{AreInOrder};
ghost use Rattle.df_state.specs.Ledgers as ledgers;

use crate::given::{chunk, row, scan, schema, schemas};
use df_catalogue::{Catalogue, CatalogueFault, Change, Desk, NewFault, PARTS_OF_LEDGER};
use df_value::CellType::{self, Bool, Frac, Int, Text, Wide};
use df_value::{Cell, Chunk, List, Row};
use std::alloc::{AllocError, Global};
use std::marker::Brand;
use std::process::Abort;
use std::sync::ledger::{Blank, Ledger};
use std::test::Fail;

// What is done in a catalogue.
#[derive(Clone, Copy)]
enum CatalogueTest {
    // It is opened, or refused with this fault.
    Opens(Option<NewFault>),
    // It makes a list of changes.
    Replays,
    // It gets as many views as it may have.
    Crowds,
    // Its desks are split and joined.
    Splits,
}

impl CatalogueTest {
    // Runs the test in a catalogue of a frame for each of these types.
    fn run<R: Abort>(self, rt: &R, alloc: Global, kinds: &[CellType]) -> Result<(), Fail> {
        open::<Brand, Brand, R>(
            rt,
            alloc,
            Blank::new(PARTS_OF_LEDGER),
            Blank::new(PARTS_OF_LEDGER),
            kinds,
            self,
        )
    }
}

fn open<Acc: Ledger, Del: Ledger, R: Abort>(
    rt: &R,
    alloc: Global,
    accepted: Blank,
    deleted: Blank,
    kinds: &[CellType],
    test: CatalogueTest,
) -> Result<(), Fail>
    requires accepted_name { accepted.name ≡ Acc.name }
    requires accepted_parts { (accepted.parts ≡ Acc.parts)
        × (accepted.parts ≡ ledgers.parts_of_ledger) }
    requires deleted_name { deleted.name ≡ Del.name }
    requires deleted_parts { (deleted.parts ≡ Del.parts)
        × (deleted.parts ≡ ledgers.parts_of_ledger) }
{
    let opened = Catalogue::<Acc, Del>::new(alloc, accepted, deleted, schemas(alloc, kinds)?);
    if let CatalogueTest::Opens(wanted) = test {
        assert!(rt; opened.err() == wanted, "{kinds:?}");
        return Ok(());
    }
    let (mut catalogue, mut desks) = opened?;
    match test {
        CatalogueTest::Replays => replay(rt, alloc, &mut catalogue, desks.as_mut_slice()),
        CatalogueTest::Crowds => crowd(rt, alloc, &mut catalogue),
        _ => split(rt, alloc, &mut catalogue, desks),
    }
}

#[test]
fn frames_are_at_most_eight_of_base_types(rt: HostRuntime) -> Result<(), Fail> {
    let cases: [(&[CellType], Option<NewFault>); 7] = [
        (&[], None),
        (&[Int, Text, Bool, Int, Text, Bool, Int, Text], None),
        (&[Int; 9], Some(NewFault::TooManyFrames)),
        (&[Wide; 9], Some(NewFault::TooManyFrames)),
        (&[Int, Wide, Frac], Some(NewFault::DerivedType(1))),
        (&[Frac], Some(NewFault::DerivedType(0))),
        (
            &[Int, Int, Int, Int, Int, Int, Int, Wide],
            Some(NewFault::DerivedType(7)),
        ),
    ];
    for case in cases {
        CatalogueTest::Opens(case.1).run(&rt, rt.alloc(), case.0)?;
    }
    Ok(())
}

// A chunk without rows, of another schema than the first frame's.
fn unlike_chunk(alloc: Global) -> Result<Chunk, AllocError> {
    let schema = schema(alloc, Bool)?;
    let rows = List::from_vec(Vec::new(alloc));
    Chunk::new(alloc, &schema, 0, rows).map_err(|_| AllocError)
}

// Number 1 twice, the second time with a row of another schema than the first frame's.
fn unlike_rows(alloc: Global) -> Result<List<(u32, Row)>, AllocError> {
    let mut rows = Vec::with_capacity(alloc, 2)?;
    rows.push((1, row(alloc, Some(9))?))?;
    rows.push((1, Row::new(alloc, vec![in alloc; Cell::Bool(true)]?)?))?;
    Ok(List::from_vec(rows))
}

// Two rows come to the first frame. Then for it, and for one that is not there, what is of another schema, and a row goes
// that is not there.
fn changes(alloc: Global) -> Result<List<Change>, AllocError> {
    let mut changes = Vec::with_capacity(alloc, 7)?;
    changes.push(Change::Append(0, chunk(alloc, 0, &[Some(7), Some(8)])?))?;
    for frame in [0, 9] {
        changes.push(Change::Append(frame, unlike_chunk(alloc)?))?;
        changes.push(Change::Replace(frame, unlike_rows(alloc)?))?;
        let numbers = List::from_vec(vec![in alloc; 5]?);
        changes.push(Change::Delete(frame, numbers))?;
    }
    Ok(List::from_vec(changes))
}

fn replay<Acc: Ledger, Del: Ledger, R: Abort>(
    rt: &R,
    alloc: Global,
    catalogue: &mut Catalogue<Acc, Del>,
    desks: &mut [Desk<Acc, Del>],
) -> Result<(), Fail>
    requires { AreInOrder desks.old catalogue.old.state }
{
    let answers = catalogue.replay(alloc, desks, changes(alloc)?)?;
    let wanted = [
        None,
        Some(CatalogueFault::SchemaUnlike),
        Some(CatalogueFault::SchemaUnlike),
        Some(CatalogueFault::NotLive(5)),
        Some(CatalogueFault::NoFrame),
        Some(CatalogueFault::NoFrame),
        Some(CatalogueFault::NoFrame),
    ];
    assert!(rt; answers.as_slice() == wanted.as_slice());
    let desk = desks.first().ok_or("a desk")?;
    assert!(rt; desk.accepted() == 2 && desk.deleted() == 0);
    Ok(())
}

#[test]
fn changes_are_answered_in_turn(rt: HostRuntime) -> Result<(), Fail> {
    CatalogueTest::Replays.run(&rt, rt.alloc(), &[Int])
}

const NAMES: [&str; 32] = [
    "a", "b", "c", "d", "e", "f", "g", "h", "i", "j", "k", "l", "m", "n", "o", "p", "q", "r", "s",
    "t", "u", "v", "w", "x", "y", "z", "aa", "ab", "ac", "ad", "ae", "",
];

// The answer to a view of the first of frames of these types.
fn register<Acc: Ledger, Del: Ledger>(
    alloc: Global,
    catalogue: &mut Catalogue<Acc, Del>,
    name: &str,
    kinds: &[CellType],
) -> Result<Option<CatalogueFault>, AllocError> {
    let plan = scan(alloc, kinds)?;
    let name = df_value::Text::from_str(alloc, name)?;
    Ok(catalogue.register(alloc, name, plan).err())
}

// Registers 32 views of one frame. Then a name that is there is refused first, and a plan over other frames last.
fn crowd<Acc: Ledger, Del: Ledger, R: Abort>(
    rt: &R,
    alloc: Global,
    catalogue: &mut Catalogue<Acc, Del>,
) -> Result<(), Fail> {
    let unlike = register(alloc, catalogue, "a", &[Int, Int])?;
    assert!(rt; unlike == Some(CatalogueFault::PlanUnlike));
    for name in NAMES {
        assert!(rt; register(alloc, catalogue, name, &[Int])? == None);
    }
    let many = Some(CatalogueFault::TooManyViews);
    assert!(rt; register(alloc, catalogue, "new", &[Int])? == many);
    assert!(rt; register(alloc, catalogue, "new", &[Int, Int])? == many);
    let fault = register(alloc, catalogue, "a", &[Int, Int])?;
    assert!(rt; fault == Some(CatalogueFault::ViewExists));
    Ok(())
}

#[test]
fn views_are_at_most_32(rt: HostRuntime) -> Result<(), Fail> {
    CatalogueTest::Crowds.run(&rt, rt.alloc(), &[Int])
}

// The frame of a desk, its shares of the rows accepted and deleted, and its parts.
fn parts_of<Acc: Ledger, Del: Ledger>(desk: &Desk<Acc, Del>) -> (usize, u64, u64, u64) {
    (desk.frame(), desk.accepted(), desk.deleted(), desk.parts())
}

// How many desks a desk gives until it is refused.
fn split_often<Acc: Ledger, Del: Ledger>(desk: &mut Desk<Acc, Del>) -> u32 {
    for given in 0..17u32 {
        if desk.split().is_none() {
            return given;
        }
    }
    17
}

// A desk is split, two rows come by the second one, and the first one gets them. It does not get a desk of another
// frame.
fn split<Acc: Ledger, Del: Ledger, R: Abort>(
    rt: &R,
    alloc: Global,
    catalogue: &mut Catalogue<Acc, Del>,
    desks: Vec<Desk<Acc, Del>>,
) -> Result<(), Fail>
    requires { AreInOrder desks.items catalogue.old.state }
{
    let mut desks = desks;
    // What contracts alone tell of books and shares: the calls take place.
    catalogue.audit_all(desks.as_mut_slice());
    let _accepted = catalogue.accepted_book();
    let _deleted = catalogue.deleted_book();
    let foreign = desks.pop().ok_or("a desk of the second frame")?;
    let mut one = desks.pop().ok_or("a desk of the first frame")?;
    let mut other = one.split().ok_or("a second desk")?;
    catalogue.append(alloc, &mut other, &chunk(alloc, 0, &[Some(1), None])?)?;
    catalogue.audit(&mut other);
    assert!(rt; parts_of(&other) == (0, 2, 0, 32_768));
    let mut back = one.join(foreign).err().ok_or("a desk of another frame")?;
    assert!(rt; parts_of(&one) == (0, 0, 0, 32_768));
    assert!(rt; one.join(other).is_ok());
    assert!(rt; parts_of(&one) == (0, 2, 0, 65_536));
    assert!(rt; split_often(&mut back) == 16 && parts_of(&back) == (1, 0, 0, 1));
    Ok(())
}

#[test]
fn a_desk_gives_sixteen_and_takes_those_of_its_frame(rt: HostRuntime) -> Result<(), Fail> {
    CatalogueTest::Splits.run(&rt, rt.alloc(), &[Int, Int])
}
