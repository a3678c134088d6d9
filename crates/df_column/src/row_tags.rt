//! The tags of the rows of a block.
ghost use Rattle.std.specs.Prelude.{◌≡◌, ◌<◌, ◌≤◌, ◌+◌, ◌-◌, ◌++◌, ◌^◌, [], IfOk, OnOk, drop, length, map, slice_index_or};
ghost use Rattle.std.specs.List.{list_all, prefix_len};
ghost use Rattle.std.specs.Ordering.{is_lt};
ghost use Rattle.df_column.specs.Picks.{spliced};
ghost use Rattle.df_column.specs.RowTags as row_tags;
ghost use Rattle.df_column.specs.Rows.{AreRisingTags};
ghost use Rattle.df_column.specs.Sizes.{most_rows};
ghost use Rattle.df_column.specs.Tags.{tag_cmp};
ghost use Rattle.df_column.specs.declared.tag.Tag.{Tag};

use crate::picks::Pick;
use crate::tag::Tag;
use std::alloc::{AllocError, Global};
use std::marker::Model;

/// The tags of some rows.
pub enum KeptTags {
    /// The first numbers of tags whose other two are 0, as those of a frame's rows: 8 bytes a tag.
    Numbers(Vec<u64>),
    /// Tags of which one at least had another number that was not 0, when it came: 24 bytes a tag.
    Whole(Vec<Tag>),
}

// A body that owns one drops it by a call.
impl Drop for KeptTags {
    fn drop(self) {
        match self {
            KeptTags::Numbers(numbers) => drop(numbers),
            KeptTags::Whole(tags) => drop(tags),
        }
    }
}

/// The tags of some rows, which contracts see as a list. A block begins with numbers; a tag that is none makes all whole.
pub struct RowTags {
    kept: KeptTags,
}

// A body that owns one drops it by a call.
impl Drop for RowTags {
    fn drop(self) {
        let RowTags { kept } = self;
        drop(kept);
    }
}

impl Model for RowTags {
    ghost use Rattle.std.specs.Prelude.{List};
    ghost use Rattle.df_column.specs.RowTags.{tags_in};
    ghost use Rattle.df_column.specs.declared.tag.Tag.{Tag};

    ghost Value = { List Tag };

    ghost view = { λ t. tags_in t.kept };
}

/// The tag of this number and zeros.
fn number_tag(number: u64) -> Tag
    ensures { result ≡ row_tags.number_tag number }
{
    Tag {
        first: number,
        second: 0,
        third: 0,
    }
}

/// Whether all but the first number are 0.
fn is_number(tag: Tag) -> bool
    ensures { result ≡ row_tags.is_number tag }
{
    tag.second == 0 && tag.third == 0
}

/// Whether all but the first number of each picked row's tag are 0.
fn are_numbers(picks: &[Pick<'_>]) -> bool
    ensures { result ≡ list_all (λ p. row_tags.is_number p.tag) picks.now }
{
    picks.iter().all(|p| is_number(p.tag))
}

/// How many of the tags of these numbers stand before this one.
fn numbers_below(numbers: &[u64], tag: Tag) -> usize
    requires { AreRisingTags (map row_tags.number_tag numbers.now) }
    ensures count { result ≡ prefix_len (λ t. is_lt (tag_cmp t tag)) (map row_tags.number_tag numbers.now) }
    ensures within { result ≤ length numbers.now }
{
    numbers.partition_point(|n| number_tag(*n) < tag)
}

/// How many of the tags stand before this one.
fn tags_below(tags: &[Tag], tag: Tag) -> usize
    requires { AreRisingTags tags.now }
    ensures count { result ≡ prefix_len (λ t. is_lt (tag_cmp t tag)) tags.now }
    ensures within { result ≤ length tags.now }
{
    tags.partition_point(|t| *t < tag)
}

/// Adds the tags of these numbers.
fn push_number_tags(out: &mut Vec<Tag>, numbers: &[u64]) -> Result<(), AllocError>
    ensures { OnOk result (out.new.items ≡ out.old.items ++ map row_tags.number_tag numbers.now) }
{
    for number in numbers {
        out.push(number_tag(*number))?;
    }
    Ok(())
}

/// Adds the tags of the picked rows.
fn push_picked_tags(out: &mut Vec<Tag>, picks: &[Pick<'_>]) -> Result<(), AllocError>
    ensures { OnOk result (out.new.items ≡ out.old.items ++ map (λ p. p.tag) picks.now) }
{
    for pick in picks {
        out.push(pick.tag)?;
    }
    Ok(())
}

/// The numbers, with those of the picked rows' tags in place of the ones from `low` up to `high`.
fn spliced_numbers(
    alloc: Global,
    numbers: &[u64],
    low: usize,
    high: usize,
    picks: &[Pick<'_>],
) -> Result<Vec<u64>, AllocError>
    requires ordered { low ≤ high }
    requires in_range { high ≤ length numbers.now }
    requires few { low + length picks.now + (length numbers.now - high) ≤ most_rows }
    ensures { IfOk result (λ v. v.items ≡ spliced low high (map (λ p. p.tag.first) picks.now) numbers.now) }
{
    let mut out = Vec::with_capacity(alloc, low + picks.len() + (numbers.len() - high))?;
    out.extend_from_slice(&numbers[..low])?;
    for pick in picks {
        out.push(pick.tag.first)?;
    }
    out.extend_from_slice(&numbers[high..])?;
    Ok(out)
}

/// The tags, with those of the picked rows in place of the ones from `low` up to `high`.
fn spliced_tags(
    alloc: Global,
    tags: &[Tag],
    low: usize,
    high: usize,
    picks: &[Pick<'_>],
) -> Result<Vec<Tag>, AllocError>
    requires ordered { low ≤ high }
    requires in_range { high ≤ length tags.now }
    requires few { low + length picks.now + (length tags.now - high) ≤ most_rows }
    ensures { IfOk result (λ v. v.items ≡ spliced low high (map (λ p. p.tag) picks.now) tags.now) }
{
    let mut out = Vec::with_capacity(alloc, low + picks.len() + (tags.len() - high))?;
    out.extend_from_slice(&tags[..low])?;
    push_picked_tags(&mut out, picks)?;
    out.extend_from_slice(&tags[high..])?;
    Ok(out)
}

/// The tags of these numbers, with those of the picked rows in place of the ones from `low` up to `high`.
fn whole_tags(
    alloc: Global,
    numbers: &[u64],
    low: usize,
    high: usize,
    picks: &[Pick<'_>],
) -> Result<Vec<Tag>, AllocError>
    requires ordered { low ≤ high }
    requires in_range { high ≤ length numbers.now }
    requires few { low + length picks.now + (length numbers.now - high) ≤ most_rows }
    ensures { IfOk result (λ v. v.items ≡
        spliced low high (map (λ p. p.tag) picks.now) (map row_tags.number_tag numbers.now)) }
{
    let mut out = Vec::with_capacity(alloc, low + picks.len() + (numbers.len() - high))?;
    push_number_tags(&mut out, &numbers[..low])?;
    push_picked_tags(&mut out, picks)?;
    push_number_tags(&mut out, &numbers[high..])?;
    Ok(out)
}

/// The same, as numbers where all of these tags are.
fn numbers_with(
    alloc: Global,
    numbers: &[u64],
    low: usize,
    high: usize,
    picks: &[Pick<'_>],
) -> Result<KeptTags, AllocError>
    requires ordered { low ≤ high }
    requires in_range { high ≤ length numbers.now }
    requires few { low + length picks.now + (length numbers.now - high) ≤ most_rows }
    ensures { IfOk result (λ k. row_tags.tags_in k ≡
        spliced low high (map (λ p. p.tag) picks.now) (map row_tags.number_tag numbers.now)) }
{
    if are_numbers(picks) {
        let numbers = spliced_numbers(alloc, numbers, low, high, picks)?;
        return Ok(KeptTags::Numbers(numbers));
    }
    let tags = whole_tags(alloc, numbers, low, high, picks)?;
    Ok(KeptTags::Whole(tags))
}

/// The tags as they are kept, with those of the picked rows in place of the ones from `low` up to `high`.
fn spliced_kept(
    alloc: Global,
    kept: &KeptTags,
    low: usize,
    high: usize,
    picks: &[Pick<'_>],
) -> Result<KeptTags, AllocError>
    requires ordered { low ≤ high }
    requires in_range { high ≤ length (row_tags.tags_in kept.now) }
    requires few { low + length picks.now + (length (row_tags.tags_in kept.now) - high) ≤ most_rows }
    ensures { IfOk result (λ k. row_tags.tags_in k ≡
        spliced low high (map (λ p. p.tag) picks.now) (row_tags.tags_in kept.now)) }
{
    match kept {
        KeptTags::Numbers(numbers) => numbers_with(alloc, numbers, low, high, picks),
        KeptTags::Whole(tags) => Ok(KeptTags::Whole(spliced_tags(alloc, tags, low, high, picks)?)),
    }
}

impl RowTags {
    /// No tags.
    pub fn new(alloc: Global) -> RowTags
        ensures { result ≡ [] }
    {
        RowTags {
            kept: KeptTags::Numbers(Vec::new(alloc)),
        }
    }

    /// How many tags there are.
    pub fn len(&self) -> usize
        ensures { result ≡ length self.now }
    {
        match &self.kept {
            KeptTags::Numbers(numbers) => numbers.as_slice().len(),
            KeptTags::Whole(tags) => tags.as_slice().len(),
        }
    }

    /// The tag at this index.
    pub fn get(&self, at: usize) -> Tag
        requires { at < length self.now }
        ensures { (d : Tag) → result ≡ slice_index_or self.now at d }
    {
        match &self.kept {
            KeptTags::Numbers(numbers) => number_tag(numbers[at]),
            KeptTags::Whole(tags) => tags[at],
        }
    }

    /// Whether the tag at this index stands before this one.
    fn is_below(&self, at: usize, tag: Tag) -> bool
        requires { at < length self.now }
        ensures { (d : Tag) → result ≡ is_lt (tag_cmp (slice_index_or self.now at d) tag) }
    {
        self.get(at) < tag
    }

    /// How many of the tags from an index on stand before this one. It takes one comparison where that is none, and two
    /// where it is all.
    pub fn count_below(&self, from: usize, tag: Tag) -> usize
        requires rising { AreRisingTags self.now }
        requires from { from ≤ length self.now }
        ensures count { result ≡ prefix_len (λ t. is_lt (tag_cmp t tag)) (drop from self.now) }
        ensures within { from + result ≤ length self.now }
        ensures few { from + result < 2 ^ 64 }
    {
        let rows = self.len();
        if from == rows || !self.is_below(from, tag) {
            return 0;
        }
        if self.is_below(rows - 1, tag) {
            return rows - from;
        }
        match &self.kept {
            KeptTags::Numbers(numbers) => numbers_below(&numbers[from..], tag),
            KeptTags::Whole(tags) => tags_below(&tags[from..], tag),
        }
    }

    /// The tags, with those of the picked rows in place of the ones from `low` up to `high`. Where none stays, they are kept
    /// as those of the picked rows can be.
    pub fn spliced(
        &self,
        alloc: Global,
        low: usize,
        high: usize,
        picks: &[Pick<'_>],
    ) -> Result<RowTags, AllocError>
        requires ordered { low ≤ high }
        requires in_range { high ≤ length self.now }
        requires few { low + length picks.now + (length self.now - high) ≤ most_rows }
        ensures { IfOk result (λ v. v ≡ spliced low high (map (λ p. p.tag) picks.now) self.now) }
    {
        if low == 0 && high == self.len() {
            let kept = numbers_with(alloc, &[], 0, 0, picks)?;
            return Ok(RowTags { kept });
        }
        let kept = spliced_kept(alloc, &self.kept, low, high, picks)?;
        Ok(RowTags { kept })
    }
}
