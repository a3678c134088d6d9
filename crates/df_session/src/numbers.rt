//! The numbers at which further rows of frames begin.
ghost use Rattle.std.specs.Prelude.{◌≡◌, ◌+◌, ◌≤◌, IfOk, max, replicate, slice_index_or, string_bytes};
ghost use Rattle.df_state.specs.Changes.{change_at};
ghost use Rattle.df_frame.specs.Frames.{chunk_numbers};
ghost use Rattle.df_session.specs.Numbers as numbers;
ghost use Rattle.df_session.specs.Numbers.{noted, number_behind};
ghost use Rattle.df_session.specs.Told.{numbers_told};

use df_state::{CatalogueFault, Change};
use df_value::Chunk;
use std::alloc::{AllocError, Global};
use std::marker::Model;

/// Of each frame the number behind the highest that it ever accepted. Contracts see the list of them.
pub struct Numbers {
    next: Vec<u64>,
}

// A body that owns one drops it by a call.
impl Drop for Numbers {
    fn drop(self) {
        let Numbers { next } = self;
        drop(next);
    }
}

impl Model for Numbers {
    ghost use Rattle.std.specs.Prelude.{List, ℕ};

    ghost Value = { List ℕ };

    ghost view = { λ n. n.next.items };
}

impl Numbers {
    /// Those of so many frames that accepted nothing.
    pub fn new(alloc: Global, frames: usize) -> Result<Numbers, AllocError>
        ensures { IfOk result (λ n. n ≡ replicate frames 0) }
    {
        let next = vec![in alloc; 0; frames]?;
        Ok(Numbers { next })
    }

    /// That of a frame; 0 where there is none.
    pub fn get(&self, frame: usize) -> u64
        ensures { result ≡ slice_index_or self.now frame 0 }
    {
        match self.next.get(frame) {
            Some(next) => *next,
            None => 0,
        }
    }

    /// Notes that rows which end so were accepted. It takes no memory.
    pub fn note(&mut self, end: Option<(usize, u64)>)
        ensures { self.new ≡ noted end self.old }
    {
        if let Some(end) = end {
            self.raise(end.0, end.1);
        }
    }

    // The number of a frame is at least this one.
    fn raise(&mut self, frame: usize, end: u64)
        ensures { self.new ≡ change_at frame (max end) self.old }
    {
        if frame < self.next.len() {
            self.next[frame] = end.max(self.next[frame]);
        }
    }
}

/// Behind which number the rows of a change end, and in which frame.
pub fn end_of(change: &Change) -> Option<(usize, u64)>
    ensures { result ≡ numbers.end_of change.now }
{
    match change {
        Change::Append(frame, chunk) => Some((*frame, end_of_chunk(chunk))),
        Change::Delete(..) | Change::Replace(..) | Change::Register(..) | Change::DropView(..) =>
            None,
    }
}

/// The end of a change's rows, if it was made.
pub fn end_if_made(
    made: &Result<(), CatalogueFault>,
    end: Option<(usize, u64)>,
) -> Option<(usize, u64)>
    ensures { result ≡ numbers.end_if_made made.now end }
{
    match made {
        Ok(()) => end,
        Err(_) => None,
    }
}

fn end_of_chunk(chunk: &Chunk) -> u64
    ensures { result ≡ number_behind (chunk_numbers chunk.now) }
{
    let count = chunk.rows().len() as u64;
    if count == 0 {
        return 0;
    }
    u64::from(chunk.first()) + count
}

/// What is answered to so many rows that were accepted from a number on.
pub fn tell_numbers(alloc: Global, first: u32, count: usize) -> Result<String, AllocError>
    requires { count ≤ 4294967296 }
    ensures { IfOk result (λ text. string_bytes text ≡ numbers_told first count) }
{
    if count == 0 {
        return String::from_str(alloc, "ok\n");
    }
    let last = u64::from(first) + (count as u64 - 1);
    format!(in alloc; "ok {first}..{last}\n")
}
