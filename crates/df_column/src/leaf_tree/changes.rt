//! Changes of a tree of leaves, from its last leaf on.
ghost use Rattle.std.specs.Prelude.{◌≡◌, ◌<◌, ◌≤◌, ◌+◌, ◌++◌, ◌∷◌, [], IfNone, IfOk, IfSome, T, drop, length, map, take};
ghost use Rattle.std.specs.FinMap as finite;
ghost use Rattle.df_column.specs.BlockLists.{blocks_of_leaves};
ghost use Rattle.df_column.specs.Blocks.{AreOfDtypes, rows_of_blocks};
ghost use Rattle.df_column.specs.Changes.{after_changes};
ghost use Rattle.df_column.specs.Columns.{column_cells, dtype_of_column};
ghost use Rattle.df_column.specs.LeafTrees.{leaves_in};
ghost use Rattle.df_column.specs.Picks.{spliced};
ghost use Rattle.df_column.specs.Rows.{AreNewRows, are_even};
ghost use Rattle.df_column.specs.Tables.{AreRising, entry_change};
ghost use Rattle.df_tree.specs.Leaves.{items_in};
ghost use Rattle.df_column.specs.Tags.{tag_cmp};
ghost use Rattle.df_column.specs.TreeChanges.{AreChangedBehind, AreChangedFrom};

use crate::block_list::{BlockList, LEAF};
use crate::blocks::{entries_before, with_changes};
use crate::column::Column;
use crate::entry::Entry;
use crate::leaf::Leaf;
use crate::leaf_tree::{LeafTree, joined_leaves};
use crate::shared_leaf::SharedLeaf;
use crate::sharing::{reached, untouched};
use df_tree::{Item, Seq};
use std::alloc::{AllocError, Global};

/// The leaf with the blocks of a list in place of its own from one index up to another; none where one leaf cannot hold
/// them, or where there are no blocks.
fn spliced_leaf(
    alloc: Global,
    leaf: &Leaf,
    low: usize,
    high: usize,
    made: &BlockList,
) -> Result<Option<Leaf>, AllocError>
    requires ordered { low ≤ high }
    requires in_range { high ≤ length leaf.now }
    ensures { IfOk result (λ o. IfSome o (λ l. l ≡ spliced low high made.now leaf.now)) }
{
    let (leaves, added) = made.parts();
    let old = leaf.run();
    let many = low
        .saturating_add(added.len())
        .saturating_add(old.len() - high);
    if leaves.blocks() > 0 || many == 0 || many > LEAF {
        return Ok(None);
    }
    let run = old.spliced(alloc, low, high, added)?;
    let made = leaf.spliced(alloc, run, low, high)?;
    Ok(Some(made))
}

/// The leaves of these blocks, with the blocks of another list in place of the ones from one index up to another.
fn leaves_with(
    alloc: Global,
    blocks: &BlockList,
    low: usize,
    high: usize,
    made: &BlockList,
) -> Result<LeafTree, AllocError>
    requires ordered { low ≤ high }
    requires in_range { high ≤ length blocks.now }
    ensures { IfOk result (λ t. blocks_of_leaves t ≡ spliced low high made.now blocks.now) }
{
    let before = BlockList::new(alloc).joined(alloc, blocks, 0, low)?;
    let both = before.joined(alloc, made, 0, made.len())?;
    let all = both.joined(alloc, blocks, high, blocks.len())?;
    let leaves = all.into_leaves(alloc)?;
    Ok(leaves.into_tree())
}

/// The leaves that the blocks of a leaf make after the changes. Blocks before the first change and behind the last one are
/// shared, but for one that new rows go into, and where all fit in one leaf they are read only as [`Leaf::spliced`] says.
fn changed_leaf(
    alloc: Global,
    leaf: &Leaf,
    columns: &[Column],
    entries: &[Entry],
) -> Result<LeafTree, AllocError>
    requires rows { T (finite.is_sorted tag_cmp (rows_of_blocks leaf.now)) }
    requires types { AreOfDtypes (map dtype_of_column columns.now) leaf.now }
    requires empty { T (are_even 0 (map column_cells columns.now)) }
    requires entries { AreRising entries.now }
    requires fits { AreNewRows (map dtype_of_column columns.now) entries.now }
    ensures rows { IfOk result (λ t. rows_of_blocks (blocks_of_leaves t) ≡
        after_changes tag_cmp (rows_of_blocks leaf.now) (map entry_change entries.now)) }
    ensures types { IfOk result (λ t. AreOfDtypes (map dtype_of_column columns.now) (blocks_of_leaves t)) }
{
    let blocks = BlockList::of_run(alloc, leaf.run())?;
    let low = untouched(&blocks, entries);
    let high = reached(&blocks, low, entries);
    let none = BlockList::new(alloc);
    let made = with_changes(alloc, none, &blocks, low..high, false, columns, entries)?;
    if let Some(edited) = spliced_leaf(alloc, leaf, low, high, &made)? {
        return LeafTree::of_leaf(alloc, edited);
    }
    leaves_with(alloc, &blocks, low, high, &made)
}

/// The leaves with others in the place of the one at an index.
fn with_replaced(
    alloc: Global,
    leaves: &Seq<SharedLeaf>,
    at: usize,
    made: &LeafTree,
) -> Result<Option<Seq<SharedLeaf>>, AllocError>
    requires { at < length (items_in leaves.now) }
    ensures { IfOk result (λ o. leaves_in o ≡ take at (items_in leaves.now)
        ++ (made.now ++ drop (at + 1) (items_in leaves.now))) }
{
    if let Some(leaf) = made.only_leaf() {
        let mut run = Vec::with_capacity(alloc, 1)?;
        run.push(leaf.share(alloc)?)?;
        return Ok(Some(leaves.replaced(alloc, at, run)?));
    }
    let _ = leaves.len();
    let front = Some(leaves.first(alloc, at)?);
    let back = Some(leaves.behind(alloc, at + 1)?);
    let both = joined_leaves(alloc, &made.leaves, &back)?;
    joined_leaves(alloc, &front, &both)
}

/// A tree of which leaves were changed from the last one on: those from this index on, by the entries from an index on.
struct Changed {
    tree: LeafTree,
    at: usize,
    from: usize,
}

impl Drop for Changed {
    fn drop(self) {
        let Changed {
            tree,
            at: _,
            from: _,
        } = self;
        drop(tree);
    }
}

impl Changed {
    /// The tree, and how many entries stand before those that changed it.
    fn into_parts(self) -> (LeafTree, usize)
        ensures tree { result.0 ≡ self.tree }
        ensures from { result.1 ≡ self.from }
    {
        let Changed { tree, at: _, from } = self;
        (tree, from)
    }
}

impl LeafTree {
    /// The only leaf; none where there is none, or more.
    fn only_leaf(&self) -> Option<&SharedLeaf>
        ensures { IfSome result (λ l. self.now ≡ l.now ∷ []) }
    {
        match &self.leaves {
            Some(leaves) if leaves.len() == 1 => Some(leaves.get(0)),
            _ => None,
        }
    }

    /// The tree with others in the place of the leaf at an index.
    fn with_leaf_changed(
        &self,
        alloc: Global,
        at: usize,
        made: &LeafTree,
    ) -> Result<LeafTree, AllocError>
        requires { at < length (self.now) }
        ensures { IfOk result (λ t. t ≡ take at (self.now)
            ++ (made.now ++ drop (at + 1) (self.now))) }
    {
        let Some(leaves) = &self.leaves else {
            unreachable!();
        };
        let _ = made.totals();
        let leaves = with_replaced(alloc, leaves, at, made)?;
        Ok(LeafTree { leaves })
    }

    /// Changes one leaf more: the one into which the last of the first entries goes. None where they all stand before the
    /// first row.
    fn with_one_changed(
        &self,
        alloc: Global,
        columns: &[Column],
        entries: &[Entry],
        changed: &Changed,
    ) -> Result<Option<Changed>, AllocError>
        requires rows { T (finite.is_sorted tag_cmp (rows_of_blocks (blocks_of_leaves self.now))) }
        requires types { AreOfDtypes (map dtype_of_column columns.now) (blocks_of_leaves self.now) }
        requires empty { T (are_even 0 (map column_cells columns.now)) }
        requires entries { AreRising entries.now }
        requires fits { AreNewRows (map dtype_of_column columns.now) entries.now }
        requires changed { AreChangedBehind (map dtype_of_column columns.now) (self.now) entries.now (changed.now.tree) changed.now.at changed.now.from }
        ensures more { IfOk result (λ o. IfSome o (λ c. AreChangedBehind (map dtype_of_column columns.now) (self.now) entries.now (c.tree) c.at c.from)) }
        ensures fewer { IfOk result (λ o. IfSome o (λ c. c.at < changed.now.at)) }
        ensures none { IfOk result (λ o. IfNone o (AreChangedFrom (map dtype_of_column columns.now) (blocks_of_leaves self.now) entries.now (blocks_of_leaves changed.now.tree) changed.now.from)) }
    {
        let first = &entries[..changed.from];
        let Some(last) = first.last() else {
            return Ok(None);
        };
        let count = self.leaves_up_to(last.tag).count.min(changed.at);
        if count == 0 {
            return Ok(None);
        }
        let at = count - 1;
        let leaf = self.leaf(at);
        let from = entries_before(entries, leaf.first_tag());
        let made = changed_leaf(alloc, leaf.leaf(), columns, &first[from..])?;
        let tree = changed.tree.with_leaf_changed(alloc, at, &made)?;
        Ok(Some(Changed { tree, at, from }))
    }

    /// The tree after the changes, but for those that stand before its first row, and how many these are. New are only the
    /// leaves into which an entry goes, and the nodes on the way to them.
    pub fn changed(
        &self,
        alloc: Global,
        columns: &[Column],
        entries: &[Entry],
    ) -> Result<(LeafTree, usize), AllocError>
        requires rows { T (finite.is_sorted tag_cmp (rows_of_blocks (blocks_of_leaves self.now))) }
        requires types { AreOfDtypes (map dtype_of_column columns.now) (blocks_of_leaves self.now) }
        requires empty { T (are_even 0 (map column_cells columns.now)) }
        requires entries { AreRising entries.now }
        requires fits { AreNewRows (map dtype_of_column columns.now) entries.now }
        ensures { IfOk result (λ v. AreChangedFrom (map dtype_of_column columns.now) (blocks_of_leaves self.now)
            entries.now (blocks_of_leaves v.0) v.1) }
    {
        let mut changed = Changed {
            tree: self.share(alloc)?,
            at: self.len(),
            from: entries.len(),
        };
        while let Some(more) = self.with_one_changed(alloc, columns, entries, &changed)? {
            changed = more;
        }
        Ok(changed.into_parts())
    }
}
