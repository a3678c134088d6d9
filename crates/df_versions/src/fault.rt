//! Why a catalogue is not opened, and why a change is not made or not published.
use crate::history::Naming;
use crate::told::Told;
use df_state::CatalogueFault;

/// Why a version is not published.
#[derive(Clone, Copy, PartialEq, Eq, Drop)]
pub enum PublishFault {
    /// 2^64 - 1 versions were published.
    Spent,
    /// Memory was refused.
    Memory,
}

/// Why a catalogue that publishes its versions is not opened.
#[derive(Clone, Copy, PartialEq, Eq, Drop)]
pub enum OpenFault {
    /// More than 8 frames.
    TooManyFrames,
    /// The least index of a frame that has a column of another type than Int, Text and Bool.
    DerivedType(usize),
    /// More than 16 readers.
    TooManyReaders,
    /// Memory was refused. It comes last, where nothing else is refused.
    Memory,
}

/// Why a change is not made. What the catalogue holds and the newest version are then as they were.
#[derive(Drop)]
pub enum ChangeFault<J: Naming> {
    /// What the caller was told before is newer than the newest version.
    Ahead,
    /// 2^64 - 1 versions were published.
    Spent,
    /// The catalogue refuses the change, in the last state of what is told.
    Refused(CatalogueFault, Told<J>),
    /// Memory was refused.
    Memory,
}
