//! The files that frames name.
ghost use Rattle.std.specs.Prelude.{◌≡◌, ℕ, List, option_map};
ghost use Rattle.df_document.specs.Files.{Opens};
ghost use Rattle.df_document.specs.declared.files.FileState.{FileState};
ghost use Rattle.df_document.specs.declared.files.FileState.TheVariants as known;

use df_value::List;
use std::fs;
use std::io::Read;

/// What is known of the file under a path. Contracts speak of it, and no code makes one.
pub enum FileState {
    /// Nothing: it may be there or not.
    Unknown,
    /// There is no file that can be opened.
    Absent,
    /// There is a file of these bytes.
    Bytes(List<u8>),
}

/// Opens the files that a document names.
pub trait Files {
    /// What reads an opened file from its start.
    type Reader: Read + Drop;

    // What is known of the file under each path.
    ghost file_at: { Self → List ℕ → FileState } = { λ _ _. known.Unknown };

    /// Opens the file under a path, which is taken as the document writes it. `None` where it
    /// cannot be opened.
    fn open(&mut self, path: &str) -> Option<Self::Reader>
        ensures same { file_at self.new ≡ file_at self.old }
        ensures opened { Opens (file_at self.old path.now)
            (option_map Self.Reader.remaining result) };
}

/// The files of the system, each under its path as it is written. A runtime opens them.
#[derive(Drop)]
pub struct SystemFiles<'a, R> {
    pub rt: &'a R,
}

impl<'a, R: fs::Files> Files for SystemFiles<'a, R> {
    type Reader = R::File;

    fn open(&mut self, path: &str) -> Option<R::File> {
        fs::open(self.rt, path).ok()
    }
}
