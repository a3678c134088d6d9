//! What is published.
ghost use Rattle.std.specs.Prelude.{◌≡◌, ◌+◌, IfOk, Some, bytes_eq, find, length, map, option_map};
ghost use Rattle.std.specs.Option.{option_copied};
ghost use Rattle.std.specs.Arc.{arc_value};
ghost use Rattle.df_state.specs.Answers.{AnswersMemoryLast};
ghost use Rattle.df_state.specs.Pictures as pictures;
ghost use Rattle.df_state.specs.Pictures.{IsPictureOfLegal, picture_of};
ghost use Rattle.df_state.specs.Reads as reads;
ghost use Rattle.df_state.specs.States.{value_over};
ghost use Rattle.df_state.specs.declared.state.State.{State};
ghost use Rattle.df_versions.specs.Histories.{last_state};

use crate::history::History;
use atomic_table::{Join, Split};
use crossbeam_utils::rule::{Outcome, Protocol};
use df_column::Table;
use df_plan::CheckedPlan;
use df_state::{CatalogueFault, Picture};
use df_value::{List, Row, Text};
use left_right::Absorb;
use left_right::writer::Writer;
use std::alloc::{AllocError, Global};
use std::marker::Model;
use std::sync::Arc;

/// The frames and views of a catalogue after some changes, and how many these were. Contracts see the number and the
/// picture, which is that of a legal state: so each view has the table of its plan over the frames of this version.
pub struct Version {
    number: u64,
    picture: Picture,
}

// A body that owns one drops it by a call.
impl Drop for Version {
    fn drop(self) {
        let Version { number: _, picture } = self;
        drop(picture);
    }
}

impl Model for Version {
    ghost use Rattle.std.specs.Prelude.{ℕ};
    ghost use Rattle.df_state.specs.Pictures.{IsPictureOfLegal, PictureParts};

    ghost Value = { ℕ × PictureParts };

    ghost view = { λ v. (v.number, v.picture) };

    ghost invariant = { λ v. IsPictureOfLegal v.picture };
}

impl Version {
    pub(crate) fn new(number: u64, picture: Picture) -> Version
        requires { IsPictureOfLegal picture }
        ensures { result ≡ (number, picture) }
    {
        Version { number, picture }
    }

    /// How many changes were accepted before. 0 is the opening state.
    pub fn number(&self) -> u64
        ensures { result ≡ self.now.0 }
    {
        self.number
    }

    /// The rows of a frame by rising number, or that there is no such frame (C11).
    pub fn frame_rows(&self, alloc: Global, frame: usize) -> Result<List<Row>, CatalogueFault>
        ensures answer { AnswersMemoryLast (pictures.frame_rows_in self.now.1 frame) result }
        ensures state { (s : State) → self.now.1 ≡ picture_of s
            → AnswersMemoryLast (reads.frame_rows_of s frame) result }
        ensures legal { IsPictureOfLegal self.now.1 }
    {
        self.picture.frame_rows(alloc, frame)
    }

    /// The numbers of the rows of a frame, rising, in step with
    /// [`frame_rows`](Version::frame_rows), or that there is no such frame (C11).
    pub fn frame_numbers(&self, alloc: Global, frame: usize) -> Result<List<u32>, CatalogueFault>
        ensures answer { AnswersMemoryLast (pictures.frame_numbers_in self.now.1 frame) result }
        ensures state { (s : State) → self.now.1 ≡ picture_of s
            → AnswersMemoryLast (reads.frame_numbers_of s frame) result }
        ensures legal { IsPictureOfLegal self.now.1 }
    {
        self.picture.frame_numbers(alloc, frame)
    }

    /// How many rows a frame has. It takes no memory.
    pub fn frame_len(&self, frame: usize) -> Option<u64>
        ensures answer { result ≡ pictures.frame_len_in self.now.1 frame }
        ensures state { (s : State) → self.now.1 ≡ picture_of s → result ≡ reads.live_of s frame }
        ensures legal { IsPictureOfLegal self.now.1 }
    {
        self.picture.frame_len(frame)
    }

    /// The table of a view, or that no view has the name (C8).
    pub fn view_rows(&self, alloc: Global, name: &str) -> Result<List<Row>, CatalogueFault>
        ensures answer { AnswersMemoryLast (pictures.view_rows_in self.now.1 name.now) result }
        ensures state { (s : State) → self.now.1 ≡ picture_of s
            → AnswersMemoryLast (reads.view_rows_of s name.now) result }
        ensures legal { IsPictureOfLegal self.now.1 }
    {
        self.picture.view_rows(alloc, name)
    }

    /// The table of the view of this name, with the tags of its rows.
    pub fn view_table(&self, name: &str) -> Option<&Table>
        ensures answer { option_map pictures.rows_in (option_copied result)
            ≡ option_map (λ v. v.1) (find (λ v. bytes_eq v.0 name.now) self.now.1.views) }
        ensures legal { IsPictureOfLegal self.now.1 }
    {
        self.picture.view_table(name)
    }

    /// The names of the views, in the order in which they were registered.
    pub fn view_names(&self, alloc: Global) -> Result<List<Text>, AllocError>
        ensures names { IfOk result (λ names. names ≡ map (λ v. v.0) self.now.1.views) }
        ensures legal { IsPictureOfLegal self.now.1 }
    {
        self.picture.view_names(alloc)
    }

    /// The table of a plan over the frames of this version, by the plain evaluator, whose time may grow with the square
    /// of the rows: a check of a view, whose plan it is, compares it with [`view_rows`](Version::view_rows).
    pub fn computed_rows(&self, alloc: Global, plan: &CheckedPlan) -> Result<List<Row>, AllocError>
        ensures answer { IfOk result (λ rows. rows ≡ pictures.value_in self.now.1 plan.now) }
        ensures state { (s : State) → self.now.1 ≡ picture_of s
            → IfOk result (λ rows. rows ≡ value_over s.frames plan.now) }
        ensures legal { IsPictureOfLegal self.now.1 }
    {
        self.picture.computed_rows(alloc, plan)
    }
}

/// The newest version, with the history that it ends. The writer of `left_right` has it twice.
pub struct Published {
    pub version: Arc<Version, Global>,
    pub history: History,
    pub ghost counted: { length history.1 ≡ (arc_value version).0 + 1 },
    pub ghost ends: { option_map picture_of (last_state history.1) ≡ Some (arc_value version).1 },
}

// A body that owns one drops it by a call.
impl Drop for Published {
    fn drop(self) {
        let Published { version, history } = self;
        drop(version);
        drop(history);
    }
}

impl Published {
    /// The same version once more. It takes no memory.
    pub fn again(&self) -> Result<Published, AllocError>
        ensures { IfOk result (λ p. p.history ≡ self.now.history) }
    {
        let version = Arc::try_clone(&self.version)?;
        Ok(Published {
            version,
            history: self.history.again(),
        })
    }
}

impl Absorb<Published> for Published {
    type State = History;

    ghost state = { λ p. p.history };

    ghost applied = { λ _ p. p.history };

    fn absorb_first(
        &mut self,
        operation: &Published,
        _other: &Published,
    ) -> Result<(), AllocError> {
        *self = operation.again()?;
        Ok(())
    }

    fn absorb_second(&mut self, operation: Published, _other: &Published) -> Result<(), Published> {
        *self = operation;
        Ok(())
    }
}

/// What a seat of the rule knows: the history of each version that it saw. No code makes one.
pub struct KnownVersions {
    // A clause reads an array as a list, of any length.
    pub known: [History; 0],
}

/// The rule of versions: all are of one history.
pub struct VersionRule;

impl Protocol<Published, KnownVersions> for VersionRule {
    ghost use Rattle.df_versions.specs.VersionRule.{Kept, knows_none};

    ghost holds = { Kept };

    ghost first = { knows_none };
}

/// The step at which the newest version is seen, or published.
pub struct Sees;

impl Outcome<Published, KnownVersions> for Sees {
    ghost use Rattle.df_versions.specs.VersionRule.{Looks};

    ghost then = { Looks };
}

/// How the writer tells a new reader which versions it saw.
pub struct Notes;

impl Split<KnownVersions> for Notes {
    ghost left = { λ v. v };

    ghost right = { λ v. v };
}

impl Join<KnownVersions> for Notes {
    ghost use Rattle.df_versions.specs.VersionRule.{knows_none};

    ghost both = { λ v w. w };

    ghost spent = { knows_none };
}

pub type VersionReader = left_right::reader::Reader<Published, KnownVersions, VersionRule>;

pub type VersionWriter = Writer<Published, Published, KnownVersions, VersionRule>;
