//! The command lines of the programs, read by `clap`: [`words`] reads that of `dfviews`, and [`read_command_line`] that of
//! `dfshell`.
#![tactic(auto)]

mod reading_command_line;
mod reading_words;
mod run_line;
mod session_line;
mod version;

pub use reading_command_line::read_command_line;
pub use reading_words::words;
pub use run_line::Words;
pub use session_line::CommandLine;
