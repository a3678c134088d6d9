//! CSV files.
use std::alloc::AllocError;
use std::fs;
use std::rt::Runtime;

/// A CSV file: its path, and its bytes, if it can be read.
#[derive(Drop)]
pub struct CsvFile {
    pub path: String,
    pub lines: Option<Vec<u8>>,
}

/// Reads the files at these paths, each as a whole. Refused is memory for their paths; a file that cannot be read, or whose bytes
/// have no room, has no lines.
pub fn read_files<R: Runtime + AllocGlobal>(
    rt: &R,
    paths: &[&str],
) -> Result<Vec<CsvFile>, AllocError> {
    let mut files = Vec::with_capacity(rt.alloc(), paths.len())?;
    for path in paths {
        let lines = fs::read(rt, *path).ok();
        let path = String::from_str(rt.alloc(), path)?;
        files.push(CsvFile { path, lines })?;
    }
    Ok(files)
}
