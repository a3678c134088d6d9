//! Faults of a document in words: where in the document, what is wrong there, and what would do.
//!
//! [`explanation`] tells of a fault that `df_document` answered for a document's bytes, which are read once more, and
//! [`next_view_words`] of a fault of one more view. A fault of the document's shape names its place itself, a
//! [`Location`](df_text::Location), whose frame or view, and whose step, are looked up in the document; the step of a plan
//! that does not check is found by [`faulty_step`].
#![tactic(auto)]

mod csv_words;
mod explaining;
mod forms;
mod names;
mod near;
mod next_view;
mod part;
mod place;
mod plan_place;
mod plan_words;
mod step_words;
mod unknown_words;
mod views_words;
mod written_view;

pub use explaining::explanation;
pub use next_view::next_view_words;
pub use plan_place::faulty_step;
