//! The tags of rows.
ghost use Rattle.std.specs.Prelude.{◌≡◌};
ghost use Rattle.df_column.specs.Bounds as bounds;

use df_value::{Duplicate, Exact};
use std::alloc::{AllocError, Global};

/// Where a row of a table stands: three numbers, compared from left to right.
#[derive(Clone, Copy, PartialEq, Eq, PartialOrd, Ord)]
pub struct Tag {
    pub first: u64,
    pub second: u64,
    pub third: u64,
}

impl Exact for Tag {
    ghost use Rattle.std.proofs.Common.{rules};

    ghost decides = { Prim.search rules };
}

impl Duplicate for Tag {
    fn copy(&self, _alloc: Global) -> Result<Tag, AllocError> {
        Ok(*self)
    }
}

/// Whether there is a first tag, and it is above this one.
pub fn begins_behind(first: Option<Tag>, tag: Tag) -> bool
    ensures { result ≡ bounds.begins_behind first tag }
{
    match first {
        Some(first) => first > tag,
        None => false,
    }
}
