//! Commands, and a session that answers them from any store of views.
//!
//! [`read_command`] reads a [`Command`] from the words of a line, and [`answer_line`] answers it from a [`ViewStore`],
//! or with a [`Refusal`]. A [`WatchedStore`] tells what each change does to the views that are watched. A [`Session`] goes through the commands of an input by [`answer_from`], over a document that
//! [`prepare`] opened and a store that [`fill`] filled. docs/ARCHITECTURE.md says where to add a command.
#![tactic(auto)]

mod answering;
mod behind;
mod buffers;
mod change_store;
mod changing;
mod command;
mod declared_frames;
mod declaring;
mod defining;
mod definition_texts;
mod definitions;
mod describing;
mod document_check;
mod exporting;
mod fault;
mod filling;
mod followed;
mod following;
mod help;
mod lines;
mod loading;
mod numbers;
mod options;
mod parts;
mod plain_words;
mod prepared;
mod prompts;
mod question_words;
mod refusal;
mod refusal_codes;
mod refusal_texts;
mod refusal_words;
mod refusing;
mod reporting;
mod rows;
mod sections;
mod session;
mod sql_views;
mod system_files;
mod telling;
mod turns;
mod view_changes;
mod view_store;
mod view_table;
mod watched_store;
mod watches;
mod words;
mod writing;

pub use answering::{Answer, answer_line};
pub use buffers::Buffers;
pub use change_store::ChangeStore;
pub use command::{AskedChange, Command, Format, Part, Question, Watching, read_command};
pub use declared_frames::{Declaration, DeclaredFrames, answer_declaring};
pub use declaring::{Declared, Declaring};
pub use definitions::Definitions;
pub use describing::{RowCounts, describe_frames, describe_plan, describe_table};
pub use document_check::{DocumentCheck, check_document};
pub use exporting::{WriteFiles, export};
pub use fault::{ShellFault, shell_fault_text};
pub use filling::fill;
pub use followed::FollowedPages;
pub use help::{COMMANDS, CommandHelp};
pub use lines::MOST_BYTES_OF_LINE;
pub use loading::{Loaded, load};
pub use numbers::{Numbers, end_if_made, end_of};
pub use options::{SessionEnd, SessionOptions};
pub use parts::{write_part, write_rows};
pub use prepared::{Prepared, prepare};
pub use prompts::Prompts;
pub use refusal::{Mistake, RecordLength, Refusal, VersionFault, WriteFault};
pub use refusal_texts::refusal_text;
pub use reporting::report;
pub use session::{Beginning, Session, answer_from};
pub use sql_views::write_document_sql;
pub use telling::{books_of, names_lines, verdict};
pub use view_changes::tell_change;
pub use view_store::ViewStore;
pub use view_table::ViewTable;
pub use watched_store::WatchedStore;
pub use watches::Watches;
