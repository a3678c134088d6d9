//! Why a view document is refused.
ghost use Rattle.std.specs.Prelude.{◌≡◌};
ghost use Rattle.df_text.specs.declared.fault.ViewsFault.TheVariants.{Memory};

use crate::document::Location;
use df_value::SchemaFault;
use std::alloc::{AllocError, AllocFailed};
use thiserror::Error;

/// Why bytes are no view document.
#[derive(Debug, PartialEq, Eq, Drop, Error)]
pub enum ViewsFault {
    /// The bytes are not UTF-8, or no TOML.
    #[error("not TOML")]
    NotToml,
    /// An unknown key, a missing key, a value of another kind, or an array of another length.
    #[error("another shape in {0:?}")]
    Shape(Location),
    /// A text in the place of a fixed word that is none of that place's words.
    #[error("an unknown word in {0:?}")]
    Word(Location),
    /// A name that an earlier frame, or an earlier view, has.
    #[error("a name that was given before in {0:?}")]
    Doubled(Location),
    /// More than 8 frames.
    #[error("more than 8 frames")]
    TooManyFrames,
    /// More than 32 views.
    #[error("more than 32 views")]
    TooManyViews,
    /// A name in the place of a frame's that no frame has.
    #[error("no such frame in {0:?}")]
    NoFrame(Location),
    /// The columns of the frame of this index are no schema.
    #[error("the columns of frame {0}: {1}")]
    Schema(usize, SchemaFault),
    /// A growth was refused.
    #[error("out of memory")]
    Memory,
}

impl From<AllocError> for ViewsFault {
    ghost from_gives = { λ _ e. e ≡ Memory };

    fn from(_e: AllocError) -> ViewsFault {
        ViewsFault::Memory
    }
}

impl<T: Drop> From<AllocFailed<T>> for ViewsFault {
    ghost from_gives = { λ _ e. e ≡ Memory };

    fn from(_e: AllocFailed<T>) -> ViewsFault {
        ViewsFault::Memory
    }
}
