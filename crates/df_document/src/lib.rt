//! The opening of a view document: its bytes and the files that it names in, its checked plans and the records of its
//! frames out.
//!
//! [`open_document`] opens a document with its frames in typed pieces, [`open_sources`] with a source of each frame's
//! records, and [`open_next_view`] one more view. [`refused_lines`] tells the pieces that have a bad cell, and
//! [`document_fault_text`] gives the text of a fault. docs/ARCHITECTURE.md says where to add a fault.
#![tactic(auto)]

mod fault;
mod fault_texts;
mod files;
mod next_view;
mod opening;
mod pieces;
mod refused;

pub use fault::DocumentFault;
pub use fault_texts::{csv_text, document_fault_text, plan_text, views_text};
pub use files::{FileState, Files, SystemFiles};
pub use next_view::open_next_view;
pub use opening::{
    MOST_BYTES_OF_DOCUMENT, OpenedDocument, SourcedDocument, copy_schemas, open_document,
    open_sources,
};
pub use pieces::read_file;
pub use refused::{refused_line, refused_lines};
