//! Rows at their tags, as a sequence holds and finds them.
ghost use Rattle.std.specs.Prelude.{◌≡◌};
ghost use Rattle.df_join.specs.GreatestTags as tags;

use df_column::Tag;
use df_tree::{Item, Monoid, Test};
use df_value::{Duplicate, Row};
use std::alloc::{AllocError, Global};
use std::marker::Model;

/// A row and the tag at which it stands, which contracts see as a pair.
pub struct TaggedRow {
    tag: Tag,
    row: Row,
}

// A body that owns one drops it by a call.
impl Drop for TaggedRow {
    fn drop(self) {
        let TaggedRow { tag: _, row } = self;
        drop(row);
    }
}

impl Model for TaggedRow {
    ghost use Rattle.std.specs.Prelude.{List};
    ghost use Rattle.df_value.specs.declared.cell.Cell.{Cell};
    ghost use Rattle.df_column.specs.declared.tag.Tag.{Tag as TagType};

    ghost Value = { TagType × List Cell };

    ghost view = { λ r. (r.tag, r.row) };

    ghost inverse = { λ p. record { tag = p.0; row = p.1 } };
}

impl TaggedRow {
    pub fn new(tag: Tag, row: Row) -> TaggedRow
        ensures { result ≡ (tag, row) }
    {
        TaggedRow { tag, row }
    }

    pub fn tag(&self) -> Tag
        ensures { result ≡ self.now.0 }
    {
        self.tag
    }

    pub fn row(&self) -> &Row
        ensures { result.now ≡ self.now.1 }
    {
        &self.row
    }
}

/// The greatest tag of some rows, if there are any.
#[derive(Clone, Copy)]
pub struct GreatestTag {
    tag: Option<Tag>,
}

/// The greater one of two tags.
fn greater(tag: Tag, other: Tag) -> Tag
    ensures { result ≡ tags.greater tag other }
{
    if tag < other { other } else { tag }
}

impl Monoid for GreatestTag {
    ghost use Rattle.df_join.specs.GreatestTags.{no_tag, greatest, greatest_laws};

    ghost none = { no_tag };

    ghost plus = { greatest };

    ghost laws = { greatest_laws };

    fn none() -> GreatestTag {
        GreatestTag { tag: None }
    }

    fn plus(self, other: GreatestTag) -> GreatestTag {
        match self.tag {
            None => other,
            Some(tag) => match other.tag {
                None => self,
                Some(others) => GreatestTag {
                    tag: Some(greater(tag, others)),
                },
            },
        }
    }
}

impl Item for TaggedRow {
    ghost use Rattle.df_join.specs.GreatestTags.{tag_of};

    type Measure = GreatestTag;

    ghost measure = { tag_of };

    fn measure(&self) -> GreatestTag {
        GreatestTag {
            tag: Some(self.tag),
        }
    }

    fn share(&self, alloc: Global) -> Result<TaggedRow, AllocError> {
        Ok(TaggedRow {
            tag: self.tag,
            row: self.row.copy(alloc)?,
        })
    }
}

/// Whether the greatest tag is at least this one.
#[derive(Clone, Copy)]
pub struct IsFrom {
    pub tag: Tag,
}

impl Test<GreatestTag> for IsFrom {
    ghost use Rattle.df_join.specs.GreatestTags.{is_from, is_from_stays};

    ghost passes = { λ t m. is_from t.tag m };

    ghost stays = { λ t x y. is_from_stays t.tag x y };

    fn passes(&self, sum: GreatestTag) -> bool {
        match sum.tag {
            None => false,
            Some(tag) => self.tag <= tag,
        }
    }
}
