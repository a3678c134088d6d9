//! Leaves that several trees share.
ghost use Rattle.std.specs.Prelude.{◌≡◌, ◌∷◌, [], IfOk};
ghost use Rattle.df_column.specs.Blocks.{rows_of_blocks};
ghost use Rattle.df_column.specs.Changes.{IsHead};
ghost use Rattle.df_column.specs.LeafTotals.{totals_of};
ghost use Rattle.df_column.specs.LeafTrees.{AreFull};

use crate::leaf::Leaf;
use crate::leaf_totals::Totals;
use crate::run::Run;
use crate::tag::Tag;
use df_tree::Item;
use std::alloc::{AllocError, Global};
use std::marker::Model;
use std::sync::Arc;

/// A leaf that trees share, with what is asked of it on the way down: the tag of its first row, and how many blocks and
/// rows it has. Contracts see its blocks.
pub struct SharedLeaf {
    leaf: Arc<Leaf>,
    first: Tag,
    totals: Totals,
}

// A body that owns one drops it by a call.
impl Drop for SharedLeaf {
    fn drop(self) {
        let SharedLeaf {
            leaf,
            first: _,
            totals: _,
        } = self;
        drop(leaf);
    }
}

impl Model for SharedLeaf {
    ghost use Rattle.std.specs.Prelude.{List};
    ghost use Rattle.std.specs.Arc.{arc_value};
    ghost use Rattle.df_column.specs.Blocks.{BlockParts};
    ghost use Rattle.df_column.specs.SharedLeaves.{IsSharedLeaf};

    ghost Value = { List BlockParts };

    ghost view = { λ s. arc_value s.leaf };

    ghost invariant = { λ s. IsSharedLeaf (arc_value s.leaf) s.first s.totals };
}

impl Item for SharedLeaf {
    type Measure = Totals;

    ghost measure = { totals_of };

    // The leaf is not read.
    fn measure(&self) -> Totals {
        self.totals
    }

    // It takes no memory.
    fn share(&self, _alloc: Global) -> Result<SharedLeaf, AllocError> {
        Ok(SharedLeaf {
            leaf: Arc::try_clone(&self.leaf)?,
            first: self.first,
            totals: self.totals,
        })
    }
}

impl SharedLeaf {
    /// The leaf, to be shared.
    pub fn new(alloc: Global, leaf: Leaf) -> Result<SharedLeaf, AllocError>
        ensures leaf { IfOk result (λ s. s ≡ leaf) }
        ensures full { IfOk result (λ s. AreFull (s ∷ [])) }
    {
        let first = leaf.first_tag();
        let run = leaf.run();
        let totals = Totals {
            blocks: run.len(),
            rows: run.rows(),
        };
        let leaf = Arc::new(alloc, leaf)?;
        Ok(SharedLeaf {
            leaf,
            first,
            totals,
        })
    }

    /// The tag of the first row. The leaf is not read.
    pub fn first_tag(&self) -> Tag
        ensures { IsHead (rows_of_blocks self.now) result }
    {
        self.first
    }

    /// The leaf.
    pub fn leaf(&self) -> &Leaf
        ensures { result.now ≡ self.now }
    {
        &self.leaf
    }

    /// The blocks.
    pub fn run(&self) -> &Run
        ensures { result.now ≡ self.now }
    {
        self.leaf().run()
    }
}
