//! The lines of refused pieces.
ghost use Rattle.std.specs.Prelude.{◌≡◌, ◌++◌, IfOk, OnOk, flat_map, length, string_bytes};
ghost use Rattle.df_value.specs.Pieces.{refused_piece};
ghost use Rattle.df_document.specs.Refused as refused;
ghost use Rattle.df_document.specs.Refused.{name_at, paired, refused_in};

use df_text::{FrameSpec, escape};
use df_value::{BadCell, List, Piece, Schema};
use std::alloc::{AllocError, Global};

/// The lines of the refused pieces, of `chunk` records each, by frame and then by piece.
pub fn refused_lines(
    alloc: Global,
    frames: &[FrameSpec],
    pieces: &[List<Piece>],
    chunk: usize,
) -> Result<List<u8>, AllocError>
    requires { length pieces.now ≡ length frames.now }
    ensures { IfOk result
        (λ lines. lines ≡ flat_map (refused_in chunk) (paired frames.now pieces.now)) }
{
    let mut lines = Vec::new(alloc);
    for i in 0..frames.len() {
        push_refused(alloc, &mut lines, &frames[i], pieces[i].as_slice(), chunk)?;
    }
    Ok(List::from_vec(lines))
}

// The lines of a frame.
fn push_refused(
    alloc: Global,
    lines: &mut Vec<u8>,
    frame: &FrameSpec,
    pieces: &[Piece],
    chunk: usize,
) -> Result<(), AllocError>
    ensures { OnOk result
        (lines.new.items ≡ lines.old.items ++ refused_in chunk (frame.now, pieces.now)) }
{
    for n in 0..pieces.len() {
        // In u128 no product of two sizes is too large.
        let first = n as u128 * chunk as u128;
        push_line(alloc, lines, frame, first, &pieces[n])?;
    }
    Ok(())
}

fn push_line(
    alloc: Global,
    lines: &mut Vec<u8>,
    frame: &FrameSpec,
    first: u128,
    made: &Piece,
) -> Result<(), AllocError>
    ensures { OnOk result
        (lines.new.items ≡ lines.old.items
        ++ flat_map (refused.refused_line frame.now) (refused_piece first made.now)) }
{
    match made {
        Piece::Good(_) => Ok(()),
        Piece::Bad(cell) => {
            let line = refused_line(alloc, frame, first, *cell)?;
            lines.extend_from_slice(line.as_bytes())
        }
    }
}

/// The line of a piece with a bad cell, of which the first row has this number.
pub fn refused_line(
    alloc: Global,
    frame: &FrameSpec,
    first: u128,
    cell: BadCell,
) -> Result<String, AllocError>
    ensures { IfOk result
        (λ line. string_bytes line ≡ refused.refused_line frame.now (first, cell)) }
{
    let frame_name = escape(alloc, frame.name.as_str())?;
    let column_name = escape(alloc, name_in(&frame.schema, cell.column))?;
    let frame_name = frame_name.as_str();
    let column_name = column_name.as_str();
    let number = cell.number;
    format!(in alloc; "refused {frame_name} {first}: record {number}, column {column_name}\n")
}

fn name_in(schema: &Schema, at: usize) -> &str
    ensures { result.now ≡ name_at schema.now at }
{
    match schema.columns().get(at) {
        Some(column) => column.0.as_str(),
        None => "",
    }
}
