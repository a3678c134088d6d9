//! What a shell reads before its session begins.
use crate::buffers::Buffers;
use crate::definitions::Definitions;
use crate::fault::ShellFault;
use crate::session::Beginning;
use crate::writing::{Status, write_answer};
use df_document::{Files, OpenedDocument, open_document, refused_lines};
use df_value::{List, Piece};
use std::alloc::Global;
use std::io::{Read, Write};
use std::thread::Threads;

/// The records of a chunk of the first rows.
const RECORDS_OF_CHUNK: usize = 1000;

/// The most threads that read a file.
const THREADS_OF_FILE: usize = 4;

/// A document that was opened, and all that a session over it needs besides its store.
#[derive(Drop)]
pub struct Prepared {
    pub definitions: Definitions,
    /// The first rows of the frames.
    pub pieces: List<List<Piece>>,
    /// The lines of the chunks among them that are refused.
    pub refused: List<u8>,
    pub buffers: Buffers,
    pub beginning: Beginning,
}

impl Prepared {
    /// Writes the lines of the chunks that are refused.
    pub fn write_refused<W: Write>(&self, output: &mut W) -> Result<(), ShellFault> {
        write_answer(output, false, Status::Ok, &[self.refused.as_slice()])
    }
}

/// Opens a document, with the first rows of its frames in chunks of 1,000 records. At most 4 threads read a file.
pub fn prepare<R: Threads + Sync, V: Read, F: Files>(
    rt: &R,
    alloc: Global,
    document: &mut V,
    files: &mut F,
) -> Result<Prepared, ShellFault> {
    let buffers = Buffers::new(alloc)?;
    let opened = open_document(
        rt,
        alloc,
        document,
        files,
        THREADS_OF_FILE,
        RECORDS_OF_CHUNK,
    )?;
    let frames = opened.document.frames.as_slice();
    let refused = refused_lines(alloc, frames, opened.pieces.as_slice(), RECORDS_OF_CHUNK)?;
    let OpenedDocument {
        document,
        plans,
        pieces,
    } = opened;
    Ok(Prepared {
        definitions: Definitions { document, plans },
        pieces,
        refused,
        buffers,
        beginning: Beginning::Greeting,
    })
}
