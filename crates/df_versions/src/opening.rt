//! The opening of a history and of its readers.
ghost use Rattle.std.specs.Prelude.{◌≡◌, ◌+◌, ◌<◌, ◌≤◌, ◌^◌, ◌∷◌, [], All, IfOk, None, OnOk, drop, length};
ghost use Rattle.df_state.specs.Pictures.{picture_of};
ghost use Rattle.left_right.specs.Sides.{view};
ghost use Rattle.df_versions.specs.Histories.{IsHistoryOver, IsOpening, schemas_of};
ghost use Rattle.df_versions.specs.Newest.{newest};

use crate::history::{Head, History, Naming, open};
use crate::publisher::{Publisher, extended, show};
use crate::reader::Reader;
use crate::version::{Notes, Published, Version, VersionWriter};
use df_state::{Picture, State};
use logbook::Plain;
use std::alloc::{AllocError, Global};
use std::marker::Model;
use std::sync::{Arc, Wait};

/// A history of one state, whose version is published, with its readers. It has no name yet. Contracts see which history
/// it is, its states, and how many readers there are.
pub struct OpenedVersions {
    head: Head,
    history: History,
    writer: VersionWriter,
    readers: Vec<Reader>,
}

impl Model for OpenedVersions {
    ghost use Rattle.std.specs.Prelude.{◌≡◌, ◌∷◌, [], ℕ, List, All, length};
    ghost use Rattle.std.specs.Coded.{codes};
    ghost use Rattle.logbook.specs.Pages.{Book, book_coded};
    ghost use Rattle.left_right.specs.Sides.{view as view_of};
    ghost use Rattle.df_state.specs.declared.state.State.{State};
    ghost use Rattle.df_state.specs.contracts.state.State as state_type;
    ghost use Rattle.df_versions.specs.Histories.{IsHistoryOver, schemas_of};
    ghost use Rattle.df_versions.specs.HistoryRule.{head_of};

    ghost Value = { Book × List State × ℕ };

    ghost coded = { Prim.hlevel (codes, book_coded, state_type.the_row.coded) };

    ghost view = { λ o. (o.history.0, o.history.1, length o.readers.items) };

    ghost invariant = { λ o. (o.head ≡ head_of o.history.0)
        × IsHistoryOver (schemas_of o.history.1) o.history.1
        × (length o.history.1 ≡ 1)
        × (o.writer.desk.shown.value.history ≡ o.history)
        × ((view_of o.writer.desk.place).known ≡ o.history ∷ [])
        × All (λ r. r ≡ (o.history.0, (o.history.1, o.history.1))) o.readers.items };
}

// A reader that knows what the writer knows.
fn reader_of(writer: &mut VersionWriter, history: &History) -> Result<Reader, AllocError>
    requires { (view writer.old.desk.place).known ≡ history.now ∷ [] }
    ensures shown { writer.new.desk.shown ≡ writer.old.desk.shown }
    ensures known { (view writer.new.desk.place).known ≡ history.now ∷ [] }
    ensures reader { IfOk result (λ r. r ≡ (history.now.0, (history.now.1, history.now.1))) }
{
    let mut inner = writer.factory().reader()?;
    inner.learn::<Notes>(writer.tell::<Notes>());
    Ok(Reader::over(inner, history.again()))
}

fn keep(readers: &mut Vec<Reader>, history: &History, reader: Reader) -> Result<(), AllocError>
    requires all { All (λ r. r ≡ (history.now.0, (history.now.1, history.now.1))) readers.old.items }
    requires one { reader ≡ (history.now.0, (history.now.1, history.now.1)) }
    ensures all { All (λ r. r ≡ (history.now.0, (history.now.1, history.now.1))) readers.new.items }
    ensures count { OnOk result (length readers.new.items ≡ length readers.old.items + 1) }
{
    match readers.push(reader) {
        Ok(()) => Ok(()),
        Err(_) => Err(AllocError),
    }
}

// Makes the room that later versions need. What is appended here stays in the writer's log until the next publish, which
// brings a version more; from then on at most two are on the way to the writer's two copies.
fn make_room(writer: &mut VersionWriter, first: &Published) -> Result<(), AllocError>
    ensures desk { writer.new.desk ≡ writer.old.desk }
    ensures ready { OnOk result (newest writer.new.desk.shown.value.history
        (drop writer.new.behind writer.new.log.items) ≡ first.now.history) }
{
    append_again(writer, first)?;
    append_again(writer, first)?;
    append_again(writer, first)
}

fn append_again(writer: &mut VersionWriter, first: &Published) -> Result<(), AllocError>
    ensures desk { writer.new.desk ≡ writer.old.desk }
    ensures ready { OnOk result (newest writer.new.desk.shown.value.history
        (drop writer.new.behind writer.new.log.items) ≡ first.now.history) }
{
    let again = first.again()?;
    writer.append(again).map_err(|_| AllocError)
}

impl OpenedVersions {
    /// Opens a history with the state that M asks for, of which this is the picture, and so many readers.
    ///
    /// No reader is there yet when the first version is published, so that it waits for nobody.
    pub fn open<X, M: Plain<X, State, u64>, R: Wait>(
        rt: &R,
        alloc: Global,
        about: &X,
        picture: Picture,
        readers: usize,
    ) -> Result<OpenedVersions, AllocError>
        requires plain { M.state about.now ≡ None }
        requires opening { IsOpening (M.ask about.now) }
        requires picture { picture ≡ picture_of (M.ask about.now) }
        requires readers { readers ≤ 16 }
        ensures history { IfOk result (λ o. o.1 ≡ M.ask about.now ∷ []) }
        ensures readers { IfOk result (λ o. o.2 ≡ readers) }
    {
        let mut opened = start::<X, M, R>(rt, alloc, about, picture, readers + 1)?;
        for _ in 0..readers {
            if opened.add_reader().is_err() {
                opened.end(rt);
                return Err(AllocError);
            }
        }
        Ok(opened)
    }

    fn add_reader(&mut self) -> Result<(), AllocError>
        ensures same { (self.new.0 ≡ self.old.0) × (self.new.1 ≡ self.old.1) }
        ensures count { OnOk result (self.new.2 ≡ self.old.2 + 1) }
    {
        let reader = reader_of(&mut self.writer, &self.history)?;
        keep(&mut self.readers, &self.history, reader)
    }

    /// The publisher and the readers, under a name of the history. It waits for nobody and takes no memory.
    pub fn named<J: Naming>(self) -> (Publisher<J>, Vec<Reader>)
        requires book { self.0 ≡ J.book }
        requires schemas { schemas_of self.1 ≡ J.schemas }
        ensures publisher { result.0 ≡ self.1 }
        ensures over { IsHistoryOver J.schemas self.1 }
        ensures readers { All (λ r. r ≡ (J.book, (self.1, self.1))) result.1.items }
        ensures count { length result.1.items ≡ self.2 }
    {
        let OpenedVersions {
            head,
            history,
            writer,
            readers,
        } = self;
        (Publisher::over(head, history, writer), readers)
    }

    /// Ends it.
    pub fn end<R: Wait>(self, rt: &R) {
        let OpenedVersions {
            head: _,
            history: _,
            writer,
            readers: _,
        } = self;
        drop(writer.take(rt));
    }
}

// The history of one state, and the writer that shows it, with room for so many readers and itself.
fn start<X, M: Plain<X, State, u64>, R: Wait>(
    rt: &R,
    alloc: Global,
    about: &X,
    picture: Picture,
    slots: usize,
) -> Result<OpenedVersions, AllocError>
    requires plain { M.state about.now ≡ None }
    requires opening { IsOpening (M.ask about.now) }
    requires picture { picture ≡ picture_of (M.ask about.now) }
    requires slots { (0 < slots) × (slots < 2 ^ 32) }
    ensures history { IfOk result (λ o. o.1 ≡ M.ask about.now ∷ []) }
    ensures readers { IfOk result (λ o. o.2 ≡ 0) }
{
    let version = Arc::new(alloc, Version::new(0, picture))?;
    let (head, empty) = open();
    let history = extended::<X, M, R>(rt, &empty, &head, about);
    let _states = history.len();
    let first = Published {
        version,
        history: history.again(),
    };
    let second = first.again()?;
    let third = first.again()?;
    let mut writer = VersionWriter::new(alloc, first, second, slots)?;
    if make_room(&mut writer, &third).is_err() {
        drop(writer.take(rt));
        return Err(AllocError);
    }
    let (writer, ()) = show(writer, rt);
    Ok(OpenedVersions {
        head,
        history,
        writer,
        readers: Vec::new(alloc),
    })
}
