//! A source of good chunks.
ghost use Rattle.std.specs.Prelude.{◌≡◌, ◌+◌, ◌*◌, ◌<◌, ◌≤◌, ◌∷◌, [], IfOk};
ghost use Rattle.df_load_tests.specs.Pairs.{row_of};

use crate::given::{row, schema};
use df_value::{Chunk, List, Piece, Row, Schema, Source};
use std::alloc::{AllocError, Global};
use std::sync::atomic::{AtomicU64, Ordering};

/// Good chunks of two rows each, whose one cell is the row's number. The first number of a chunk is
/// by `step` greater than that of the chunk before, so that at step 1 two chunks share a number.
#[derive(Drop)]
pub struct Pairs {
    schema: Schema,
    count: u32,
    step: u32,
    calls: AtomicU64,
    ghost few: { count ≤ 255 },
    ghost short: { step ≤ 255 },
}

impl Pairs {
    /// So many chunks, with this step.
    pub fn new(alloc: Global, count: u8, step: u8) -> Result<Pairs, AllocError> {
        Ok(Pairs {
            schema: schema(alloc)?,
            count: u32::from(count),
            step: u32::from(step),
            calls: AtomicU64::new(0),
        })
    }

    /// How often a chunk was asked for.
    pub fn calls(&self) -> u64 {
        self.calls.load(Ordering::SeqCst)
    }
}

impl Source for Pairs {
    ghost use Rattle.df_load_tests.specs.Pairs.{pair-starts, pairs_of};

    ghost made = { λ s. pairs_of s.schema s.step s.count };

    ghost start_of = { λ s n. n * s.step };

    ghost starts = { λ s n chunk e. pair-starts s.schema s.step s.count n chunk e };

    fn chunks(&self) -> u64 {
        u64::from(self.count)
    }

    fn chunk(&self, alloc: Global, n: u64) -> Result<Piece, AllocError> {
        self.calls.fetch_add(1, Ordering::SeqCst);
        let first = self.start(n);
        match Chunk::new(alloc, &self.schema, first, two_rows(alloc, first)?) {
            Ok(chunk) => Ok(Piece::Good(chunk)),
            Err(_) => Err(AllocError),
        }
    }

    fn start(&self, n: u64) -> u32 {
        n as u32 * self.step
    }
}

// The rows of this number and of the next.
fn two_rows(alloc: Global, first: u32) -> Result<List<Row>, AllocError>
    requires { first < 65536 }
    ensures { IfOk result (λ rows. rows ≡ row_of first ∷ row_of (first + 1) ∷ []) }
{
    let rows = vec![in alloc; row(alloc, first)?, row(alloc, first + 1)?]?;
    Ok(List::from_vec(rows))
}
