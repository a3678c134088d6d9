//! What jobs made, and what is kept of it.
ghost use Rattle.std.specs.Prelude.{◌≡◌, IfOk, IfSome, length};
ghost use Rattle.std.specs.Option.{option_copied};
ghost use Rattle.df_value.specs.declared.chunk.Piece.TheVariants.{Good};
ghost use Rattle.df_jobs.specs.Made.{bad_cell_of, chunk_of, piece_in, rows_in};

use df_frame::StoredChunk;
use df_value::{BadCell, Chunk, Piece};
use std::alloc::{AllocError, Global};
use std::marker::Model;

/// A piece as its source made it, or a chunk whose rows stand in the blocks of a run.
pub enum KeptPiece {
    /// A piece as its source made it.
    Typed(Piece),
    /// A chunk whose rows stand in the blocks of a run.
    Stored(StoredChunk),
}

// A body that owns one drops it by a call.
impl Drop for KeptPiece {
    fn drop(self) {
        match self {
            KeptPiece::Typed(piece) => drop(piece),
            KeptPiece::Stored(chunk) => drop(chunk),
        }
    }
}

impl KeptPiece {
    // The chunk, if it is one. That of a source is moved, and copies are made of rows that stand in blocks.
    fn into_chunk(self, alloc: Global) -> Result<Option<Chunk>, AllocError>
        ensures { IfOk result (λ chunk. chunk ≡ chunk_of (piece_in self)) }
    {
        match self {
            KeptPiece::Typed(Piece::Good(chunk)) => Ok(Some(chunk)),
            KeptPiece::Typed(Piece::Bad(_)) => Ok(None),
            KeptPiece::Stored(stored) => Ok(Some(stored.to_chunk(alloc)?)),
        }
    }
}

/// What a job made. Contracts see the piece.
pub struct Made {
    kept: KeptPiece,
}

// A body that owns one drops it by a call.
impl Drop for Made {
    fn drop(self) {
        let Made { kept } = self;
        drop(kept);
    }
}

impl Model for Made {
    ghost use Rattle.df_value.specs.declared.chunk.Piece.{Piece};
    ghost use Rattle.df_jobs.specs.Made.{piece_in};

    ghost Value = { Piece };

    ghost view = { λ m. piece_in m.kept };
}

impl Made {
    /// A piece as its source made it.
    pub(crate) fn typed(piece: Piece) -> Made
        ensures { result ≡ piece }
    {
        Made {
            kept: KeptPiece::Typed(piece),
        }
    }

    /// A chunk whose rows stand in the blocks of a run.
    pub(crate) fn stored(chunk: StoredChunk) -> Made
        ensures { result ≡ Good chunk }
    {
        Made {
            kept: KeptPiece::Stored(chunk),
        }
    }

    /// What is kept of it.
    pub fn kept(&self) -> &KeptPiece
        ensures { piece_in result.now ≡ self.now }
    {
        &self.kept
    }

    /// The chunk, if it is one as its source made it.
    pub fn typed_chunk(&self) -> Option<&Chunk>
        ensures { IfSome (option_copied result) (λ chunk. self.now ≡ Good chunk) }
    {
        match &self.kept {
            KeptPiece::Typed(Piece::Good(chunk)) => Some(chunk),
            _ => None,
        }
    }

    /// The chunk, if it is one. That of a source is moved, and copies are made of rows that stand in blocks.
    pub(crate) fn into_chunk(self, alloc: Global) -> Result<Option<Chunk>, AllocError>
        ensures { IfOk result (λ chunk. chunk ≡ chunk_of self) }
    {
        let Made { kept } = self;
        kept.into_chunk(alloc)
    }

    /// The first bad cell, if there is one.
    pub fn bad_cell(&self) -> Option<&BadCell>
        ensures { option_copied result ≡ bad_cell_of self.now }
    {
        match &self.kept {
            KeptPiece::Typed(Piece::Bad(cell)) => Some(cell),
            _ => None,
        }
    }

    /// How many rows it gives to its frame.
    pub fn row_count(&self) -> usize
        ensures { result ≡ length (rows_in self.now) }
    {
        match &self.kept {
            KeptPiece::Typed(Piece::Good(chunk)) => chunk.rows().len(),
            KeptPiece::Typed(Piece::Bad(_)) => 0,
            KeptPiece::Stored(chunk) => chunk.len(),
        }
    }
}
