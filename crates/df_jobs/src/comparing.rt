//! Whether the frames of a picture have the rows of the good chunks. Threads look for them side by side, and drop each
//! outcome as soon as its rows are found. No row is copied.
ghost use Rattle.std.specs.Prelude.{◌≡◌, ◌≢◌, ◌↔◌, ◌<◌, ℕ, true, All, IfNone, IfOk, IfSome, IsFalse, IsTrue, get_or, length, map, slice_index_or};
ghost use Rattle.std.specs.List.Sorted.{IsNonDecreasingBy, IsPermutation};
ghost use Rattle.df_state.specs.Pictures.{IsPictureOfLegal};
ghost use Rattle.df_jobs.specs.Expected.{HasAll, IsFound, StandsAt};
ghost use Rattle.df_jobs.specs.Jobs.{AreBegun, job_of};
ghost use Rattle.df_jobs.specs.Loaded.{AreLoadedIn, HasRows, IsUnlikeIn, chunk_rows, job_rows};

use crate::expected::{Expected, expect_all};
use crate::jobs::Outcome;
use crate::made::KeptPiece;
use df_frame::StoredChunk;
use df_state::Picture;
use df_value::{Chunk, Piece};
use std::alloc::{AllocError, Global};
use std::thread;
use std::thread::Threads;

/// The least frame of the picture, which has `frames` of them, whose rows are not those of the good chunks of these
/// outcomes at their numbers. At most `threads` threads look for the rows.
pub fn first_unlike<R: Threads + Sync>(
    rt: &R,
    alloc: Global,
    picture: &Picture,
    frames: usize,
    outcomes: Vec<Outcome>,
    threads: usize,
) -> Result<Option<usize>, AllocError>
    requires frames { frames ≡ length picture.now.frames }
    requires threads { 0 < threads }
    requires legal { IsPictureOfLegal picture.now }
    requires begun { AreBegun outcomes.items }
    ensures loaded { IfOk result (λ unlike. IfNone unlike
        (AreLoadedIn (map job_of outcomes.items) picture.now)) }
    ensures unlike { IfOk result (λ unlike. IfSome unlike
        (IsUnlikeIn (map job_of outcomes.items) picture.now)) }
{
    let outcomes = by_first(outcomes);
    let (all, counts) = expect_all(alloc, frames, outcomes)?;
    let mut all = all;
    find_all(rt, picture, all.as_mut_slice(), threads);
    Ok(first_not_found(picture, all.as_slice(), counts.as_slice()))
}

// The outcomes by the numbers of their first rows.
fn by_first(outcomes: Vec<Outcome>) -> Vec<Outcome>
    ensures same { IsPermutation outcomes.items result.items }
    ensures order { IsNonDecreasingBy (λ o. o.first) result.items }
{
    let mut outcomes = outcomes;
    outcomes.sort_unstable_by_key(|outcome| outcome.first);
    outcomes
}

// Looks for the rows of all outcomes, by so many threads.
fn find_all<R: Threads + Sync>(rt: &R, picture: &Picture, all: &mut [Expected], threads: usize)
    requires { 0 < threads }
    ensures count { length all.new ≡ length all.old }
    ensures each { (at : ℕ) (d : Expected) → at < length all.old →
        IsFound picture.now (slice_index_or all.old at d) (slice_index_or all.new at d) }
{
    thread::for_each_mut(rt, all, threads, &|_, expected| find(picture, expected));
}

// Looks for the rows of an outcome, and drops it where they stand in its frame.
fn find(picture: &Picture, expected: &mut Expected)
    ensures { IsFound picture.now expected.old expected.new }
{
    let Some(outcome) = expected.outcome.take() else {
        return;
    };
    if !has_rows(picture, expected.place, &outcome) {
        expected.outcome = Some(outcome);
    }
}

// Whether the rows of an outcome stand in its frame from a place on.
fn has_rows(picture: &Picture, place: usize, outcome: &Outcome) -> bool
    ensures has { result ≡ true → HasRows picture.now outcome.now.frame place
        (job_rows outcome.now.frame (job_of outcome.now)) }
    ensures alike { StandsAt picture.now outcome.now.frame place
        (job_rows outcome.now.frame (job_of outcome.now)) → result ≡ true }
{
    match outcome.made.kept() {
        KeptPiece::Typed(Piece::Good(chunk)) => has_typed(picture, outcome.frame, place, chunk),
        KeptPiece::Typed(Piece::Bad(_)) => true,
        KeptPiece::Stored(chunk) => has_stored(picture, outcome.frame, place, chunk),
    }
}

fn has_typed(picture: &Picture, frame: usize, place: usize, chunk: &Chunk) -> bool
    ensures { IsTrue result ↔ StandsAt picture.now frame place (chunk_rows chunk.now) }
{
    picture.are_rows(frame, place, chunk.first(), chunk.rows().as_slice())
}

fn has_stored(picture: &Picture, frame: usize, place: usize, chunk: &StoredChunk) -> bool
    ensures { IsTrue result ↔ StandsAt picture.now frame place (chunk_rows chunk.now) }
{
    picture.has_chunk(frame, place, chunk)
}

// The least frame that has not as many rows as its count says, or of which an outcome is left.
fn first_not_found(picture: &Picture, all: &[Expected], counts: &[usize]) -> Option<usize>
    ensures none { IfNone result ((frame : ℕ) → frame < length counts.now →
        HasAll picture.now frame all.now (get_or counts.now frame 0)) }
    ensures within { IfSome result (λ frame. frame < length counts.now) }
    ensures some { IfSome result (λ frame.
        HasAll picture.now frame all.now (get_or counts.now frame 0) → ⊥) }
    ensures before { IfSome result (λ frame. (k : ℕ) → k < frame →
        HasAll picture.now k all.now (get_or counts.now k 0)) }
{
    for frame in 0..counts.len() {
        if !has_all(picture, frame, all, counts[frame]) {
            return Some(frame);
        }
    }
    None
}

// Whether a frame has so many rows, and no outcome of it is left. The greatest count may be less than the sum.
fn has_all(picture: &Picture, frame: usize, all: &[Expected], count: usize) -> bool
    ensures { IsTrue result ↔ HasAll picture.now frame all.now count }
{
    count < usize::MAX && picture.frame_len(frame) == Some(count as u64) && !is_left(frame, all)
}

// Whether an outcome of a frame is left.
fn is_left(frame: usize, all: &[Expected]) -> bool
    ensures { IsFalse result ↔
        All (λ e. IfSome e.outcome (λ outcome. outcome.frame ≢ frame)) all.now }
{
    for expected in all {
        if let Some(outcome) = &expected.outcome {
            if outcome.frame == frame {
                return true;
            }
        }
    }
    false
}
