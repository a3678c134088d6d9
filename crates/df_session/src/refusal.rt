//! Why a command is refused.
ghost use Rattle.std.specs.Prelude.{◌≡◌};
ghost use Rattle.df_session.specs.declared.refusal.Refusal.TheVariants as refusal;

use df_document::DocumentFault;
use df_state::CatalogueFault;
use df_text::{CsvFault, ViewsFault};
use df_value::{ChunkFault, Text};
use std::alloc::{AllocError, AllocFailed};
use thiserror::Error;

/// Why a command is refused. The frames and views are then as they were.
#[derive(Debug, PartialEq, Eq, Error)]
pub enum Refusal {
    /// The line is no command of this shell.
    #[error("{0}")]
    Mistake(Mistake),
    /// The catalogue refuses it.
    #[error("{0}")]
    Store(CatalogueFault),
    /// The lines of a command are no records.
    #[error("{0}")]
    Csv(CsvFault),
    /// One of them has another number of fields than the frame has columns.
    #[error("{0:?}")]
    Length(RecordLength),
    /// The file of a load has no records of the frame.
    #[error("{0}")]
    File(CsvFault),
    /// The first bad cell of these: the number of its record, from 1, and the name of its
    /// column.
    #[error("record {0}, column {1:?}")]
    Cell(u64, Text),
    /// The frame of a declaration is none that a document may have.
    #[error("{0}")]
    Frame(ViewsFault),
    /// The view of a definition is none that a document may have; and why, in words, which are one line.
    #[error("{0}: {1:?}")]
    Definition(DocumentFault, Text),
    /// The rows of a command are no chunk.
    #[error("{0}")]
    Chunk(ChunkFault),
    /// A hall has no version for it.
    #[error("{0}")]
    Version(VersionFault),
    /// A table is not written to a file.
    #[error("{0}")]
    Write(WriteFault),
    /// Memory was refused.
    #[error("out of memory")]
    Memory,
}

// A body that owns one drops it by a call.
impl Drop for Refusal {
    fn drop(self) {
        match self {
            Refusal::Csv(fault) | Refusal::File(fault) => drop(fault),
            Refusal::Cell(_, column) => drop(column),
            Refusal::Frame(fault) => drop(fault),
            Refusal::Definition(fault, words) => {
                drop(fault);
                drop(words);
            }
            Refusal::Chunk(fault) => drop(fault),
            Refusal::Mistake(_)
            | Refusal::Store(_)
            | Refusal::Length(_)
            | Refusal::Version(_)
            | Refusal::Write(_)
            | Refusal::Memory => {}
        }
    }
}

/// What is wrong with a line.
#[derive(Clone, Copy, Debug, PartialEq, Eq, Drop, Error)]
pub enum Mistake {
    #[error("no such command")]
    NoCommand,
    #[error("a word is missing")]
    MissingWord,
    #[error("a word too many")]
    ExtraWord,
    /// The second word of an append, or a number of a list of them, is no number below 2^32.
    #[error("not a row number")]
    NotRowNumber,
    /// The last word of an append is no number below 2^64.
    #[error("not a count")]
    NotCount,
    #[error("not UTF-8")]
    NotText,
    #[error("a line of more than 1048576 bytes")]
    LongLine,
    /// The input ends before the lines of a command do.
    #[error("lines are missing")]
    MissingLines,
    /// The lines of CSV behind numbers are not as many rows.
    #[error("another number of rows")]
    OtherRowCount,
    /// The document has no view of this name.
    #[error("no such view")]
    NoView,
    /// The document has no frame and no view of this name.
    #[error("no such frame or view")]
    NoTable,
    /// The file under a path cannot be opened, or a read of it fails.
    #[error("no such file")]
    NoFile,
    /// A file of commands names another.
    #[error("commands of a file in a file of commands")]
    NestedSource,
    /// A frame is declared where the frames are settled.
    #[error("a frame behind the first change")]
    LateFrame,
    /// A question about versions, which a catalogue has not.
    #[error("only with --hall")]
    OnlyWithHall,
    /// A question about the work of a change, of which a hall tells nothing.
    #[error("not with --hall")]
    NotWithHall,
    /// What changes do to a view is asked, which is not watched.
    #[error("the view is not watched")]
    NotWatched,
    /// No page under this path follows the store.
    #[error("the path is not followed")]
    NotFollowed,
    /// The last change was none of rows, or came before the first watch.
    #[error("the last change was none of rows")]
    NoChange,
}

/// A record that is not as long as its frame is wide.
#[derive(Clone, Copy, Debug, PartialEq, Eq, Drop)]
pub struct RecordLength {
    /// Its number, from 1.
    pub record: u64,
    /// How many fields it has.
    pub fields: usize,
    /// How many columns its frame has.
    pub columns: usize,
}

/// Why a hall has no version for a command.
#[derive(Clone, Copy, Debug, PartialEq, Eq, Drop, Error)]
pub enum VersionFault {
    /// 2^64 - 1 versions were published.
    #[error("the versions are spent")]
    Spent,
    /// The hall knows fewer changes than the session was told of.
    #[error("the hall is behind")]
    Ahead,
    /// No version can be taken.
    #[error("no version")]
    Missing,
}

/// Why a file is not written.
#[derive(Clone, Copy, Debug, PartialEq, Eq, Drop, Error)]
pub enum WriteFault {
    /// The file beside it, which is to take its place, cannot be made.
    #[error("no file beside it can be made")]
    NotMade,
    /// A write to that file fails.
    #[error("a write fails")]
    NotWritten,
    /// That file cannot take its place.
    #[error("the file cannot take its place")]
    NotPlaced,
    /// Memory was refused.
    #[error("out of memory")]
    Memory,
}

impl From<Mistake> for Refusal {
    ghost from_gives = { λ m e. e ≡ refusal.Mistake m };

    fn from(mistake: Mistake) -> Refusal {
        Refusal::Mistake(mistake)
    }
}

impl From<CatalogueFault> for Refusal {
    ghost from_gives = { λ f e. e ≡ refusal.Store f };

    fn from(fault: CatalogueFault) -> Refusal {
        Refusal::Store(fault)
    }
}

impl From<WriteFault> for Refusal {
    ghost from_gives = { λ f e. e ≡ refusal.Write f };

    fn from(fault: WriteFault) -> Refusal {
        Refusal::Write(fault)
    }
}

impl From<AllocError> for Refusal {
    ghost from_gives = { λ _ e. e ≡ refusal.Memory };

    fn from(_e: AllocError) -> Refusal {
        Refusal::Memory
    }
}

impl<T: Drop> From<AllocFailed<T>> for Refusal {
    ghost from_gives = { λ _ e. e ≡ refusal.Memory };

    fn from(_e: AllocFailed<T>) -> Refusal {
        Refusal::Memory
    }
}
