//! The texts of one column of a block.
ghost use Rattle.std.specs.Prelude.{◌≡◌, ℕ, ◌<◌, ◌≤◌, ◌++◌, ◌∷◌, [], length, slice_index_or, List, IfOk, OnOk, OnErr};
ghost use Rattle.df_column.specs.Pools as pools;
ghost use Rattle.df_column.specs.Pools.{IsRising, parts, place_of};

use std::alloc::{AllocError, Global};
use std::marker::Model;

/// The dictionary of one column of texts: each distinct text once, in the order in which they came.
/// Contracts see it as the list of its texts.
pub struct TextPool {
    bytes: Vec<u8>,
    ends: Vec<usize>,
}

// A body that owns one drops it by a call.
impl Drop for TextPool {
    fn drop(self) {
        let TextPool { bytes, ends } = self;
        drop(bytes);
        drop(ends);
    }
}

impl Model for TextPool {
    ghost use Rattle.std.specs.Prelude.{List, ℕ};
    ghost use Rattle.df_column.specs.Pools.{IsPool, parts};

    ghost Value = { List (List ℕ) };

    ghost view = { λ p. parts 0 p.bytes.items p.ends.items };

    ghost invariant = { λ p. IsPool p.bytes.items p.ends.items };
}

/// Where the part at this place begins.
pub fn start_of_part(ends: &[usize], place: usize) -> usize
    requires { place ≤ length ends.now }
    ensures { result ≡ pools.start_at 0 ends.now place }
{
    if place == 0 { 0 } else { ends[place - 1] }
}

/// Where the part at this place begins and ends.
fn span(ends: &[usize], place: usize, len: usize) -> (usize, usize)
    requires rising { IsRising 0 len ends.now }
    requires place { place < length ends.now }
    ensures start { result.0 ≡ pools.start_at 0 ends.now place }
    ensures end { result.1 ≡ slice_index_or ends.now place 0 }
    ensures ordered { result.0 ≤ result.1 }
    ensures within { result.1 ≤ len }
{
    (start_of_part(ends, place), ends[place])
}

/// The bytes of the part at this place.
fn part<'a>(bytes: &'a [u8], ends: &[usize], place: usize) -> &'a [u8]
    requires rising { IsRising 0 (length bytes.now) ends.now }
    requires place { place < length ends.now }
    ensures { (d : List ℕ) → result.now ≡ slice_index_or (parts 0 bytes.now ends.now) place d }
{
    let (start, end) = span(ends, place, bytes.len());
    &bytes[start..end]
}

/// The place of the text, if it is there.
fn place_in(bytes: &[u8], ends: &[usize], text: &[u8]) -> Option<usize>
    requires { IsRising 0 (length bytes.now) ends.now }
    ensures { result ≡ place_of text.now (parts 0 bytes.now ends.now) }
{
    for place in 0..ends.len() {
        if part(bytes, ends, place) == text {
            return Some(place);
        }
    }
    None
}

/// Adds the text, and gives its place.
fn push_text(bytes: &mut Vec<u8>, ends: &mut Vec<usize>, text: &[u8]) -> Result<u32, AllocError>
    requires { length ends.old.items < 1024 }
    ensures place { IfOk result (λ p. p ≡ length ends.old.items) }
    ensures ok_bytes { OnOk result (bytes.new.items ≡ bytes.old.items ++ text.now) }
    ensures ok_ends { OnOk result (ends.new.items ≡
        ends.old.items ++ length (bytes.old.items ++ text.now) ∷ []) }
    ensures err_bytes { OnErr result (bytes.new.items ≡ bytes.old.items) }
    ensures err_ends { OnErr result (ends.new.items ≡ ends.old.items) }
{
    let place = ends.len() as u32;
    ends.reserve(1)?;
    bytes.extend_from_slice(text)?;
    let _ = ends.push(bytes.len());
    Ok(place)
}

impl TextPool {
    /// A pool of no texts.
    pub fn new(alloc: Global) -> Self
        ensures { result ≡ [] }
    {
        TextPool {
            bytes: Vec::new(alloc),
            ends: Vec::new(alloc),
        }
    }

    /// The number of texts.
    pub fn len(&self) -> usize
        ensures { result ≡ length self.now }
    {
        let ends: &[usize] = &self.ends;
        ends.len()
    }

    /// The text at this place.
    pub fn get(&self, place: u32) -> &str
        requires { place < length self.now }
        ensures { (d : List ℕ) → result.now ≡ slice_index_or self.now place d }
    {
        let text = part(&self.bytes, &self.ends, place as usize);
        unsafe { str::from_utf8_unchecked(text) }
    }

    /// The place of the text, if it is there. Each text may be looked at.
    fn find(&self, text: &str) -> Option<usize>
        ensures { result ≡ place_of text.now self.now }
    {
        place_in(&self.bytes, &self.ends, text.as_bytes())
    }

    /// Adds the text at the end, and gives its place.
    pub(crate) fn push(&mut self, text: &str) -> Result<u32, AllocError>
        requires { length self.old < 1024 }
        ensures place { IfOk result (λ p. p ≡ length self.old) }
        ensures texts { OnOk result (self.new ≡ self.old ++ text.now ∷ []) }
        ensures err { OnErr result (self.new ≡ self.old) }
    {
        let place = push_text(&mut self.bytes, &mut self.ends, text.as_bytes())?;
        Ok(place)
    }

    /// The place of the text, which goes to the end if it is not there. Each text may be looked at.
    pub fn put(&mut self, text: &str) -> Result<u32, AllocError>
        requires { length self.old < 1024 }
        ensures place { IfOk result (λ p. p ≡
            pools.place_or_end (place_of text.now self.old) self.old) }
        ensures texts { OnOk result (self.new ≡
            pools.with_text (place_of text.now self.old) self.old text.now) }
        ensures err { OnErr result (self.new ≡ self.old) }
    {
        match self.find(text) {
            Some(place) => Ok(place as u32),
            None => {
                let place = self.push(text)?;
                Ok(place)
            }
        }
    }

    /// An equal pool.
    pub fn copy(&self, alloc: Global) -> Result<TextPool, AllocError>
        ensures { IfOk result (λ p. p ≡ self.now) }
    {
        Ok(TextPool {
            bytes: Vec::from_slice(alloc, &self.bytes)?,
            ends: Vec::from_slice(alloc, &self.ends)?,
        })
    }
}
