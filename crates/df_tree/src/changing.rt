//! Edits that reserve the room that they need. Where memory is refused the items stay.
ghost use Rattle.std.specs.Prelude.{◌≡◌, ◌<◌, ◌≤◌, IfOk, MatchResult, Some, length, slice_get, slice_set};
ghost use Rattle.std.specs.List.{insert, remove};
ghost use Rattle.df_tree.specs.Leaves.{items_in};

use crate::item::Item;
use crate::seq::Seq;
use std::alloc::{AllocError, Global};

impl<I: Item> Seq<I> {
    /// Puts this item in place of the one at an index.
    pub fn set(&mut self, alloc: Global, index: usize, item: I) -> Result<(), AllocError>
        requires { index < length (items_in self.old) }
        ensures { MatchResult result
            (λ _. items_in self.new ≡ slice_set (items_in self.old) index item)
            (λ _. items_in self.new ≡ items_in self.old) }
    {
        self.reserve_at(alloc, index)?;
        self.put(index, item);
        Ok(())
    }

    /// Puts this item in, before the one at an index, or behind all of them.
    pub fn insert(&mut self, alloc: Global, index: usize, item: I) -> Result<(), AllocError>
        requires { index ≤ length (items_in self.old) }
        ensures { MatchResult result
            (λ _. items_in self.new ≡ insert (items_in self.old) index item)
            (λ _. items_in self.new ≡ items_in self.old) }
    {
        if self.len() == 0 {
            self.reserve_first(alloc)?;
            self.put_first(item);
            return Ok(());
        }
        if self.len() == usize::MAX {
            return Err(AllocError);
        }
        if index == 0 {
            self.reserve_at(alloc, 0)?;
            self.put_in(0, 0, item);
            return Ok(());
        }
        self.reserve_at(alloc, index - 1)?;
        self.put_in(index - 1, 1, item);
        Ok(())
    }

    /// Takes the item at an index out.
    pub fn remove(&mut self, alloc: Global, index: usize) -> Result<I, AllocError>
        requires { index < length (items_in self.old) }
        ensures gone { MatchResult result
            (λ _. items_in self.new ≡ remove (items_in self.old) index)
            (λ _. items_in self.new ≡ items_in self.old) }
        ensures taken { IfOk result (λ x. slice_get (items_in self.old) index ≡ Some x) }
    {
        self.reserve_at(alloc, index)?;
        Ok(self.take_at(index))
    }
}
