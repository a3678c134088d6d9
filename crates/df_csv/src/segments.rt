//! A CSV text cut into segments, of which each can be read alone.
ghost use Rattle.std.specs.Prelude.{◌≡◌, ◌≤◌, All, IfOk, IfSome, IsTrue, flat_map, length, max};
ghost use Rattle.csv.specs.Reading.{default_config, records, strip_bom};
ghost use Rattle.df_csv.specs.Segments.{IsCut};

use memchr::memchr;
use std::alloc::{AllocError, Global};

// The least bytes of a segment but the last.
const LEAST_BYTES_OF_SEGMENT: usize = 65_536;

/// At most `most` segments of about one size, at least one.
///
/// A text is cut behind line feeds. Where it has a double quote, so that a line feed may stand in a
/// field, it is one segment, and so it is where it is short or has no line feed to cut behind.
pub(crate) fn segments(alloc: Global, text: &[u8], most: usize) -> Result<Vec<&[u8]>, AllocError>
    requires { strip_bom text.now ≡ text.now }
    ensures whole { IfOk result (λ v. flat_map (λ s. s.now) v.items ≡ text.now) }
    ensures records { IfOk result (λ v.
        flat_map (λ s. records default_config s.now) v.items ≡ records default_config text.now) }
    ensures marks { IfOk result (λ v. All (λ s. strip_bom s.now ≡ s.now) v.items) }
    ensures few { IfOk result (λ v. length v.items ≤ max 1 most) }
{
    let mut segments = Vec::new(alloc);
    if memchr(b'"', text).is_some() {
        segments.push(text)?;
        return Ok(segments);
    }
    let size = LEAST_BYTES_OF_SEGMENT.max(text.len().div_ceil(most.max(1)));
    let mut rest = text;
    for _ in 1..most {
        let Some(at) = cut_of(rest, size) else {
            break;
        };
        let (segment, behind) = rest.split_at(at);
        segments.push(segment)?;
        rest = behind;
    }
    segments.push(rest)?;
    Ok(segments)
}

// The first place from `from` on behind a line feed at which no mark can stand, if there is one.
fn cut_of(text: &[u8], from: usize) -> Option<usize>
    ensures cut { IfSome result (IsCut text.now) }
    ensures behind { IfSome result (λ at. from ≤ at) }
{
    for at in from..text.len() {
        if at > 0 && text[at - 1] == b'\n' && text[at] != 0xEF {
            return Some(at);
        }
    }
    None
}
