//! The lines of refused chunks.
ghost use Rattle.std.specs.Prelude.{◌≡◌, ◌++◌, IfOk, OnOk, flat_map};
ghost use Rattle.df_app.specs.Loading.{line_of};

use df_document::refused_line;
use df_store::Refused;
use df_text::FrameSpec;
use df_value::List;
use std::alloc::{AllocError, Global};

/// The lines of chunks that were refused, in their order.
pub(crate) fn lines_of(
    alloc: Global,
    frames: &[FrameSpec],
    refused: &[Refused],
) -> Result<List<u8>, AllocError>
    ensures { IfOk result (λ lines. lines ≡ flat_map (line_of frames.now) refused.now) }
{
    let mut lines = Vec::new(alloc);
    for one in refused {
        push_line_of(alloc, &mut lines, frames, *one)?;
    }
    Ok(List::from_vec(lines))
}

fn push_line_of(
    alloc: Global,
    lines: &mut Vec<u8>,
    frames: &[FrameSpec],
    refused: Refused,
) -> Result<(), AllocError>
    ensures { OnOk result
        (lines.new.items ≡ lines.old.items ++ line_of frames.now refused) }
{
    match frames.get(refused.frame) {
        Some(frame) => {
            let line = refused_line(alloc, frame, refused.first as u128, refused.cell)?;
            lines.extend_from_slice(line.as_bytes())
        }
        None => Ok(()),
    }
}
