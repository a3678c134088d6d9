//! Tables of as many rows as fill their blocks, and of one more or less.
ghost use Rattle.std.specs.Prelude.{◌≡◌, IfOk, T};
ghost use Rattle.std.specs.FinMap as finite;
ghost use Rattle.std.specs.List.{list_all};
ghost use Rattle.df_value.specs.Rows.{row_fits};
ghost use Rattle.df_column.specs.Tags.{tag_cmp};

use df_column::{Entry, Table, Tag, TextPool};
use df_delta::{Delta, apply};
use df_value::{Cell, CellType, List, Row, Schema, Text};
use std::alloc::{AllocError, Global};
use std::test::Fail;

// A number and a text.
fn schema(alloc: Global) -> Result<Schema, AllocError> {
    let number = (Text::from_str(alloc, "n")?, CellType::Int);
    let text = (Text::from_str(alloc, "t")?, CellType::Text);
    Schema::new(List::from_vec(vec![in alloc; number, text]?)).map_err(|_| AllocError)
}

// The row at a place: its number, or null at every third place, and of the texts a, b and a the next one.
fn row_at(alloc: Global, place: u32) -> Result<Row, AllocError> {
    let number = match place % 3 {
        2 => Cell::Null,
        _ => Cell::Int(i64::from(place)),
    };
    let text = if place % 3 == 1 { "b" } else { "a" };
    Row::new(
        alloc,
        vec![in alloc; number, Cell::Text(Text::from_str(alloc, text)?)]?,
    )
}

fn tag(first: u64) -> Tag {
    Tag {
        first,
        second: 0,
        third: 0,
    }
}

// The tag of the row at a place: every second number.
fn tag_at(place: u32) -> Tag {
    tag(u64::from(place) * 2)
}

// So many rows, as changes of no row.
fn rows_come(alloc: Global, count: u32) -> Result<Delta, AllocError> {
    let mut entries = Vec::new(alloc);
    for place in 0..count {
        let row = row_at(alloc, place)?;
        entries.push(Entry {
            tag: tag_at(place),
            old: None,
            new: Some(row),
        })?;
    }
    Delta::new(entries).map_err(|_| AllocError)
}

fn is_fitting(schema: &Schema, row: &(Tag, Row)) -> bool
    ensures { result ≡ row_fits schema.now row.now.1 }
{
    schema.fits(&row.1)
}

fn are_fitting(schema: &Schema, rows: &[(Tag, Row)]) -> bool
    ensures { result ≡ list_all (λ r. row_fits schema.now r.1) rows.now }
{
    rows.iter().all(|row| is_fitting(schema, row))
}

// The table of these rows.
fn table_of(alloc: Global, rows: &[(Tag, Row)]) -> Result<Table, AllocError>
    requires { T (finite.is_sorted tag_cmp rows.now) }
{
    let schema = schema(alloc)?;
    if !are_fitting(&schema, rows) {
        return Err(AllocError);
    }
    Table::from_rows(alloc, schema, rows)
}

// The table of the rows of another one.
fn made_again(alloc: Global, table: &Table) -> Result<Table, AllocError> {
    let rows = table.tagged_rows(alloc)?;
    table_of(alloc, rows.as_slice())
}

// Whether the table has this many rows, each at its tag, and finds it there alone.
fn has_rows(alloc: Global, table: &Table, count: u32) -> Result<bool, AllocError> {
    let mut place = 0u32;
    for at in 0..table.len() {
        let is_there = table.tag(at) == tag_at(place) && table.find(tag_at(place)) == Some(at);
        let is_between = table.find(tag(u64::from(place) * 2 + 1)).is_none();
        if !is_there || !is_between || table.row(alloc, at)? != row_at(alloc, place)? {
            return Ok(false);
        }
        place = place.wrapping_add(1);
    }
    Ok(place == count)
}

#[test]
fn tables_give_back_the_rows_that_they_are_made_of(rt: HostRuntime) -> Result<(), Fail> {
    let alloc = rt.alloc();
    for count in [0, 1, 1024, 1025, 2049] {
        let none = Table::new(alloc, schema(alloc)?)?;
        let came = apply(alloc, &none, &rows_come(alloc, count)?)?;
        let made = made_again(alloc, &came)?;
        assert!(rt;
            has_rows(alloc, &came, count)? && has_rows(alloc, &made, count)?,
            "{count}"
        );
    }
    Ok(())
}

// The place of a text in the pool.
fn put(pool: &mut TextPool, text: &str) -> Result<u32, AllocError> {
    if pool.len() < 1024 {
        pool.put(text)
    } else {
        Err(AllocError)
    }
}

#[test]
fn a_text_stands_in_a_pool_once(rt: HostRuntime) -> Result<(), Fail> {
    let mut pool = TextPool::new(rt.alloc());
    let places = [
        put(&mut pool, "a")?,
        put(&mut pool, "b")?,
        put(&mut pool, "a")?,
    ];
    assert!(rt; places == [0, 1, 0] && pool.len() == 2);
    Ok(())
}
