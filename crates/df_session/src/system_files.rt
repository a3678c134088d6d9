//! Files of the system, written whole or not at all.
use crate::exporting::WriteFiles;
use crate::refusal::WriteFault;
use df_document::SystemFiles;
use std::alloc::Global;
use std::fs;
use std::fs::{File, OpenFile};
use std::io::Write;

/// A file is written beside its place, under its path with `.part` behind it, and then renamed.
impl<'a, R: fs::Files> WriteFiles for SystemFiles<'a, R> {
    ghost use Rattle.std.specs.Prelude.{⊤};

    // Of the system's files nothing is known.
    ghost Writes = { λ old new path bytes. ⊤ };

    fn write_whole(&mut self, alloc: Global, path: &str, bytes: &[u8]) -> Result<(), WriteFault> {
        let Ok(part) = format!(in alloc; "{path}.part") else {
            return Err(WriteFault::Memory);
        };
        let part = part.as_str();
        let Ok(file) = File::create_new(self.rt, part) else {
            return Err(WriteFault::NotMade);
        };
        let placed = fill(file, bytes).and_then(|()| place(self.rt, part, path));
        if placed.is_err() {
            let _ = fs::remove_file(self.rt, part);
        }
        placed
    }
}

// Writes the bytes, and waits until the disk has them.
fn fill<F: Write + OpenFile + Drop>(mut file: F, bytes: &[u8]) -> Result<(), WriteFault> {
    match file.write_all(bytes) {
        Ok(()) => file.sync_all().map_err(|_| WriteFault::NotWritten),
        Err(_) => Err(WriteFault::NotWritten),
    }
}

fn place<R: fs::Files>(files: &R, part: &str, path: &str) -> Result<(), WriteFault> {
    match fs::rename(files, part, path) {
        Ok(()) => Ok(()),
        Err(_) => Err(WriteFault::NotPlaced),
    }
}
