//! Views as a page for people: one document of HTML, which needs nothing else.
//!
//! A page is [`page_head`], the [`view_section`] of each view in order, and [`page_end`].
#![tactic(auto)]

mod bars;
mod cells;
mod columns;
mod escapes;
mod marks;
mod markup;
mod means;
mod pages;
mod sections;
mod style;

pub use pages::{page_end, page_head};
pub use sections::view_section;
