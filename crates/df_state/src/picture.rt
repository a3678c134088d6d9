//! Pictures: the tables of a catalogue at one moment.
ghost use Rattle.std.specs.Prelude.{◌≡◌, ◌↔◌, ◌<◌, ◌≤◌, ◌+◌, IfOk, IfSome, IsTrue, bytes_eq, find, length, map, option_map, position, slice_get};
ghost use Rattle.std.specs.Option.{option_copied};
ghost use Rattle.df_state.specs.Answers.{AnswersMemoryLast};
ghost use Rattle.df_frame.specs.FrameTables.{IsNumberedTable};
ghost use Rattle.df_state.specs.Pictures as pictures;
ghost use Rattle.df_value.specs.Limits as limits;

use crate::fault::CatalogueFault;
use df_column::Table;
use df_frame::{StoredChunk, row_numbers, row_tag};
use df_plan::{CheckedPlan, evaluate};
use df_value::{Duplicate, List, Row, Text};
use std::alloc::{AllocError, Global};
use std::marker::Model;

/// A view of a picture: its name, and its table.
pub struct PicturedView {
    pub name: Text,
    pub table: Table,
}

// A body that owns one drops it by a call.
impl Drop for PicturedView {
    fn drop(self) {
        let PicturedView { name, table } = self;
        drop(name);
        drop(table);
    }
}

/// The tables of a catalogue's frames and views, which no later change touches. They share the blocks of
/// the catalogue's own tables, so that a picture takes little memory. Contracts see the rows, a frame's behind their
/// numbers.
pub struct Picture {
    frames: Vec<Table>,
    views: Vec<PicturedView>,
}

// A body that owns one drops it by a call.
impl Drop for Picture {
    fn drop(self) {
        let Picture { frames, views } = self;
        drop(frames);
        drop(views);
    }
}

impl Model for Picture {
    ghost use Rattle.std.specs.Prelude.{map};
    ghost use Rattle.df_state.specs.Pictures.{AreNumberedTables, PictureParts, named_rows_in, numbered_rows_in};

    ghost Value = { PictureParts };

    ghost view = { λ p. record {
      frames = map numbered_rows_in p.frames.items;
      views = map named_rows_in p.views.items;
    } };

    ghost invariant = { λ p. AreNumberedTables p.frames.items };
}

impl Picture {
    /// The picture of these tables.
    pub fn of(frames: Vec<Table>, views: Vec<PicturedView>) -> Picture
        requires { pictures.AreNumberedTables frames.items }
        ensures frames { result.frames ≡ map pictures.numbered_rows_in frames.items }
        ensures views { result.views ≡ map pictures.named_rows_in views.items }
    {
        Picture { frames, views }
    }

    /// The rows of a frame by rising number, or that there is no such frame (C11).
    pub fn frame_rows(&self, alloc: Global, frame: usize) -> Result<List<Row>, CatalogueFault>
        ensures { AnswersMemoryLast (pictures.frame_rows_in self.now frame) result }
    {
        match self.frame_table(frame) {
            Some(table) => Ok(List::from_vec(table.rows(alloc)?)),
            None => Err(CatalogueFault::NoFrame),
        }
    }

    /// The numbers of the rows of a frame, rising, in step with
    /// [`frame_rows`](Picture::frame_rows), or that there is no such frame (C11).
    pub fn frame_numbers(&self, alloc: Global, frame: usize) -> Result<List<u32>, CatalogueFault>
        ensures { AnswersMemoryLast (pictures.frame_numbers_in self.now frame) result }
    {
        match self.frame_table(frame) {
            Some(table) => Ok(row_numbers(alloc, table)?),
            None => Err(CatalogueFault::NoFrame),
        }
    }

    /// Whether these rows stand in a frame from this place on, by rising number, under numbers that rise by one from this
    /// one, all below 2^32. It copies nothing and takes no memory, and looks for each block of rows once.
    pub fn are_rows(&self, frame: usize, place: usize, number: u32, rows: &[Row]) -> bool
        requires { number + length rows.now ≤ limits.row_numbers }
        ensures { IsTrue result ↔ (pictures.ReachesIn self.now frame place (length rows.now)
            × pictures.AreRowsIn self.now frame place number rows.now) }
    {
        match self.frame_table(frame) {
            Some(table) => table.are_rows(place, row_tag(number).first, rows),
            None => false,
        }
    }

    /// Whether the rows of a chunk stand in a frame from this place on, by rising number, under their numbers. It copies
    /// nothing and takes no memory.
    pub fn has_chunk(&self, frame: usize, place: usize, chunk: &StoredChunk) -> bool
        ensures { IsTrue result ↔
            (pictures.ReachesIn self.now frame place (length chunk.now.rows)
            × pictures.AreRowsIn self.now frame place chunk.now.first chunk.now.rows) }
    {
        match self.frame_table(frame) {
            Some(table) => chunk.stands_in(table, place),
            None => false,
        }
    }

    /// How many rows a frame has. It takes no memory.
    pub fn frame_len(&self, frame: usize) -> Option<u64>
        ensures { result ≡ pictures.frame_len_in self.now frame }
    {
        let table = self.frame_table(frame)?;
        Some(table.len() as u64)
    }

    /// The table of a view, or that no view has the name (C8).
    pub fn view_rows(&self, alloc: Global, name: &str) -> Result<List<Row>, CatalogueFault>
        ensures { AnswersMemoryLast (pictures.view_rows_in self.now name.now) result }
    {
        match self.view_table(name) {
            Some(table) => Ok(List::from_vec(table.rows(alloc)?)),
            None => Err(CatalogueFault::NoView),
        }
    }

    /// The names of the views, in the order in which they were registered.
    pub fn view_names(&self, alloc: Global) -> Result<List<Text>, AllocError>
        ensures { IfOk result (λ names. names ≡ map (λ v. v.0) self.now.views) }
    {
        names_in(alloc, self.views.as_slice())
    }

    /// The table of a plan over the frames of the picture, by the plain evaluator, whose time may grow with the square
    /// of the rows: a check of the live views compares it with [`view_rows`](Picture::view_rows).
    pub fn computed_rows(&self, alloc: Global, plan: &CheckedPlan) -> Result<List<Row>, AllocError>
        ensures { IfOk result (λ rows. rows ≡ pictures.value_in self.now plan.now) }
    {
        let frames = rows_of_tables(alloc, self.frames.as_slice())?;
        evaluate(alloc, plan, frames.as_slice())
    }

    // The table of the frame of this index.
    fn frame_table(&self, frame: usize) -> Option<&Table>
        ensures rows { option_map pictures.numbered_rows_in (option_copied result)
            ≡ slice_get self.now.frames frame }
        ensures numbered { IfSome (option_copied result) (λ t. IsNumberedTable t.rows) }
    {
        self.frames.get(frame)
    }

    /// The table of the view of this name, with the tags of its rows.
    pub fn view_table(&self, name: &str) -> Option<&Table>
        ensures { option_map pictures.rows_in (option_copied result)
            ≡ option_map (λ v. v.1) (find (λ v. bytes_eq v.0 name.now) self.now.views) }
    {
        table_named(self.views.as_slice(), name)
    }
}

// The rows of the tables.
fn rows_of_tables(alloc: Global, tables: &[Table]) -> Result<Vec<List<Row>>, AllocError>
    ensures { IfOk result (λ rows. rows.items ≡ map pictures.rows_in tables.now) }
{
    let mut rows = Vec::with_capacity(alloc, tables.len())?;
    for table in tables {
        rows.push(List::from_vec(table.rows(alloc)?))?;
    }
    Ok(rows)
}

// The names of the views.
fn names_in(alloc: Global, views: &[PicturedView]) -> Result<List<Text>, AllocError>
    ensures { IfOk result (λ names. names ≡ map (λ v. v.name) views.now) }
{
    let mut names = Vec::with_capacity(alloc, views.len())?;
    for view in views {
        names.push(view.name.copy(alloc)?)?;
    }
    Ok(List::from_vec(names))
}

// The table of the view of this name.
fn table_named<'a>(views: &'a [PicturedView], name: &str) -> Option<&'a Table>
    ensures { option_copied result
        ≡ option_map (λ v. v.table) (find (λ v. bytes_eq v.name name.now) views.now) }
{
    let at = index_of(views, name)?;
    Some(&views[at].table)
}

// The index of the view of this name.
fn index_of(views: &[PicturedView], name: &str) -> Option<usize>
    ensures value { result ≡ position (λ v. bytes_eq v.name name.now) views.now }
    ensures within { IfSome result (λ at. at < length views.now) }
{
    views.iter().position(|v| v.name.as_str() == name)
}
