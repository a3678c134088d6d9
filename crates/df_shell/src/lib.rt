//! The shell of the store: commands in, a line each, and the answer to each out, before the next one is read.
//!
//! [`run_shell`] opens a view document and answers commands to the end of input, from a [`Store`], which holds a catalogue;
//! [`run_hall_shell`] answers them from a [`HallStore`], which holds a hall; [`run_declared_shell`] takes no document. This crate also offers what its callers need
//! of `df_session`, which reads the commands. docs/ARCHITECTURE.md says where to add a command.
#![tactic(auto)]

mod checking;
mod declared_shell;
mod document_page;
mod hall_shell;
mod hall_store;
mod opening;
mod reading;
mod shell;
mod store;
mod version_reading;

pub use declared_shell::run_declared_shell;
pub use df_session::{
    Answer, AskedChange, COMMANDS, Command, CommandHelp, Definitions, DocumentCheck,
    MOST_BYTES_OF_LINE, Mistake, Part, Prompts, Question, Refusal, SessionEnd, SessionOptions,
    ShellFault, VersionFault, ViewStore, WriteFault, WriteFiles, answer_line, check_document,
    read_command, refusal_text, shell_fault_text, write_document_sql,
};
pub use document_page::write_document_page;
pub use hall_shell::run_hall_shell;
pub use hall_store::HallStore;
pub use shell::run_shell;
pub use store::Store;
