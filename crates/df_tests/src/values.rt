//! Values by themselves: cells, and rows of a chunk.
use crate::given::{rows, schema};
use df_value::{Cell, CellType, Chunk, ChunkFault, Frac, List, Row, compare, order};
use std::cmp::Ordering;
use std::test::Fail;

#[test]
fn cells_of_unlike_types_do_not_compare_nor_fit(rt: HostRuntime) {
    assert!(rt; order(&Cell::Int(-7), &Cell::Int(3)) == Ordering::Less);
    assert!(rt; order(&Cell::Bool(true), &Cell::Bool(false)) == Ordering::Greater);
    assert!(rt; order(&Cell::Wide(5), &Cell::Wide(5)) == Ordering::Equal);
    assert!(rt; compare(&Cell::Int(1), &Cell::Wide(1)) == None);
    assert!(rt; compare(&Cell::Null, &Cell::Null) == None);
    let mean = Frac::new(7, 2);
    assert!(rt; compare(&Cell::Frac(mean), &Cell::Frac(mean)) == None);
    assert!(rt; Cell::Int(5).fits(CellType::Int) && !Cell::Int(5).fits(CellType::Wide));
    assert!(rt; Cell::Null.fits(CellType::Frac));
}

#[test]
fn the_rows_of_a_chunk_fit_its_schema(rt: HostRuntime) -> Result<(), Fail> {
    let alloc = rt.alloc();
    let schema = schema(alloc, CellType::Int)?;
    let mut rows = rows(alloc, &[Some(5)])?.into_vec();
    rows.push(Row::new(alloc, vec![in alloc; Cell::Bool(true)]?)?)?;
    let answer = Chunk::new(alloc, &schema, 0, List::from_vec(rows));
    let refused = answer.err().ok_or("a fault")?;
    assert!(rt; refused.fault == ChunkFault::RowUnlike(1));
    Ok(())
}
