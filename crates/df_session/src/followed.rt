//! The pages that follow the store, and when they are written.
ghost use Rattle.std.specs.Prelude.{◌≡◌, ◌++◌, ◌∷◌, ◌==◌, ◌<◌, [], IfOk, OnErr, OnOk, false, if◌then◌else◌, length, string_bytes, unwrap_or, vec_capacity};
ghost use Rattle.std.specs.Option.{option_copied};
ghost use Rattle.df_session.specs.Following as following;
ghost use Rattle.df_session.specs.Following.{IsSoonBehind, without_path};

use crate::view_table::ViewTable;
use df_text::escape;
use df_value::{List, Text};
use std::alloc::{AllocError, Global};
use std::marker::Model;

/// So many milliseconds lie between two writes behind changes, at the least.
const SECOND: u128 = 1000;

/// What is known of a command, once it is answered.
#[derive(Clone, Copy)]
pub struct Moment {
    /// Whether it made a change.
    pub is_change: bool,
    /// When, in milliseconds of a clock. None: the clock cannot be read.
    pub now: Option<u128>,
}

/// Whether pages that were written at the first time may be written behind a change at the second.
pub fn is_due(last: Option<u128>, now: Option<u128>) -> bool
    ensures due { result ≡ following.is_due last now }
    ensures soon { result ≡ false → IsSoonBehind last now }
{
    match (last, now) {
        (Some(last), Some(now)) => now < last || now - last >= SECOND,
        _ => true,
    }
}

/// A page that follows the store. Contracts see the path of its file, the names of its views, and the tables that it shows.
pub struct FollowedPage {
    path: Text,
    views: List<Text>,
    // As they were when it was last written.
    tables: List<ViewTable>,
    // What is told where it is not written, up to the number of the change: then there may be no memory.
    unwritten: String,
}

// A body that owns one drops it by a call.
impl Drop for FollowedPage {
    fn drop(self) {
        let FollowedPage {
            path,
            views,
            tables,
            unwritten,
        } = self;
        drop(path);
        drop(views);
        drop(tables);
        drop(unwritten);
    }
}

impl Model for FollowedPage {
    ghost use Rattle.std.specs.Prelude.{◌≡◌, string_bytes};
    ghost use Rattle.df_session.specs.Following.{PageParts, page_code, unwritten_begin};

    ghost Value = { PageParts };

    ghost coded = { page_code };

    ghost view = { λ p. record { path = p.path; views = p.views; tables = p.tables } };

    ghost invariant = { λ p. string_bytes p.unwritten ≡ unwritten_begin p.path };
}

impl FollowedPage {
    /// That of these views, or without views of all, in the file under this path. It shows nothing yet.
    pub fn new(alloc: Global, path: Text, views: List<Text>) -> Result<FollowedPage, AllocError>
        ensures { IfOk result (λ p. p ≡ record { path = path; views = views; tables = [] }) }
    {
        match unwritten_begin(alloc, path.as_str()) {
            Ok(unwritten) => Ok(FollowedPage {
                path,
                views,
                tables: List::from_vec(Vec::new(alloc)),
                unwritten,
            }),
            Err(fault) => {
                drop(path);
                drop(views);
                Err(fault)
            }
        }
    }

    pub fn path(&self) -> &str
        ensures { result.now ≡ self.now.path }
    {
        self.path.as_str()
    }

    pub fn views(&self) -> &[Text]
        ensures { result.now ≡ self.now.views }
    {
        self.views.as_slice()
    }

    /// The tables that it shows.
    pub fn tables(&self) -> &[ViewTable]
        ensures { result.now ≡ self.now.tables }
    {
        self.tables.as_slice()
    }

    /// It shows these tables now, if there are any. It takes no memory.
    pub fn keep(&mut self, tables: Option<List<ViewTable>>)
        ensures { self.new ≡ record self.old { tables = unwrap_or tables self.old.tables } }
    {
        if let Some(tables) = tables {
            self.tables = tables;
        }
    }

    /// What is told where it is not written, up to the number of the change.
    pub fn unwritten(&self) -> &[u8]
        ensures { result.now ≡ following.unwritten_begin self.now.path }
    {
        self.unwritten.as_bytes()
    }
}

fn unwritten_begin(alloc: Global, path: &str) -> Result<String, AllocError>
    ensures { IfOk result (λ text. string_bytes text ≡ following.unwritten_begin path.now) }
{
    let path = escape(alloc, path)?;
    let path = path.as_str();
    format!(in alloc; "unwritten {path} ")
}

/// The pages that follow the store, each under another path.
pub struct FollowedPages {
    pub pages: Vec<FollowedPage>,
    /// The number of the change at which they were last written, or refused.
    pub number: u64,
    /// When that was, in milliseconds of a clock.
    pub at: Option<u128>,
}

// A body that owns one drops it by a call.
impl Drop for FollowedPages {
    fn drop(self) {
        let FollowedPages {
            pages,
            number: _,
            at: _,
        } = self;
        drop(pages);
    }
}

impl FollowedPages {
    /// None.
    pub fn new(alloc: Global) -> FollowedPages
        ensures { result.pages.items ≡ [] }
    {
        FollowedPages {
            pages: Vec::new(alloc),
            number: 0,
            at: None,
        }
    }

    /// The page under this path.
    pub fn page(&self, path: &str) -> Option<&FollowedPage>
        ensures { option_copied result ≡ following.page_at path.now self.now.pages.items }
    {
        self.pages.iter().find(|page| page.path() == path)
    }

    /// Whether the pages are to be written behind a command, where the last change has this number.
    pub fn must_write(&self, number: u64, moment: Moment) -> bool
        ensures { result ≡ following.must_write self.now.number self.now.at number moment }
    {
        number != self.number && (!moment.is_change || is_due(self.at, moment.now))
    }

    /// The pages were written at the change of this number, or refused.
    pub fn note(&mut self, number: u64, now: Option<u128>)
        ensures pages { self.new.pages.items ≡ self.old.pages.items }
        ensures number { self.new.number ≡ number }
        ensures at { self.new.at ≡ now }
    {
        self.number = number;
        self.at = now;
    }

    /// Room for one page more.
    pub fn reserve(&mut self) -> Result<(), AllocError>
        ensures room { OnOk result (length self.new.pages.items < vec_capacity self.new.pages) }
        ensures pages { self.new.pages.items ≡ self.old.pages.items }
        ensures number { self.new.number ≡ self.old.number }
        ensures at { self.new.at ≡ self.old.at }
    {
        self.pages.reserve(1)
    }

    /// One page more, in the place of that of its path, which was written at the change of this number. It takes no memory.
    pub fn begin(&mut self, page: FollowedPage, number: u64, now: Option<u128>)
        requires { length self.old.pages.items < vec_capacity self.old.pages }
        ensures pages { self.new.pages.items
            ≡ without_path page.path self.old.pages.items ++ page ∷ [] }
        ensures number { self.new.number
            ≡ (if length self.old.pages.items == 0 then number else self.old.number) }
        ensures at { self.new.at ≡ now }
    {
        if self.pages.is_empty() {
            self.number = number;
        }
        self.at = now;
        self.end(page.path());
        self.pages.push_reserved(page);
    }

    /// The page under this path no longer follows the store. It takes no memory.
    pub fn end(&mut self, path: &str)
        ensures pages { self.new.pages.items ≡ without_path path.now self.old.pages.items }
        ensures room { length self.old.pages.items < vec_capacity self.old.pages →
            length self.new.pages.items < vec_capacity self.new.pages }
        ensures number { self.new.number ≡ self.old.number }
        ensures at { self.new.at ≡ self.old.at }
    {
        self.pages.retain(|page| page.path() != path);
    }
}
