//! Where the rows of a frame come from.
ghost use Rattle.std.specs.Prelude.{◌≡◌, ◌<◌, ℕ, IfOk, List, Some, length, slice_get};
ghost use Rattle.df_value.specs.Chunks.{ChunkParts};
ghost use Rattle.df_value.specs.declared.chunk.Piece.{Piece};
ghost use Rattle.df_value.specs.declared.chunk.Piece.TheVariants as made_as;

use crate::chunk::Piece;
use std::alloc::{AllocError, Global};

/// A finite list of made chunks, the same at each call.
pub trait Source {
    // The chunks, in their order.
    ghost made: { Self → List Piece };

    // The number of the first row of the chunk at each index.
    ghost start_of: { Self → ℕ → ℕ };

    /// How many chunks there are.
    fn chunks(&self) -> u64
        ensures { result ≡ length (made self.now) };

    /// The chunk at this index, from 0. `Err` says that memory was refused.
    fn chunk(&self, alloc: Global, n: u64) -> Result<Piece, AllocError>
        requires { n < length (made self.now) }
        ensures { IfOk result (λ chunk. slice_get (made self.now) n ≡ Some chunk) };

    /// The number of the first row of the chunk at this index, which is known of a bad one too.
    fn start(&self, n: u64) -> u32
        requires { n < length (made self.now) }
        ensures { result ≡ start_of self.now n };

    // A good chunk begins with the row that `start_of` has for its index.
    ghost starts: { (source : Self) (n : ℕ) (chunk : ChunkParts)
        → slice_get (made source) n ≡ Some (made_as.Good chunk) → chunk.first ≡ start_of source n };
}
