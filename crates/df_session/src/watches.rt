//! The views that are watched, and what is to be told of them.
ghost use Rattle.std.specs.Prelude.{◌≡◌, ◌⊎◌, ◌++◌, ◌==◌, ◌∷◌, [], IfOk, OnErr, OnOk, false, flat_map, length, string_bytes, true};
ghost use Rattle.df_session.specs.ViewChanges as view_changes;
ghost use Rattle.df_session.specs.Watching as watching;
ghost use Rattle.df_session.specs.Watching.{with_name, without_name};

use crate::view_changes::missed_begin;
use df_value::Text;
use std::alloc::{AllocError, Global};
use std::marker::Model;

/// A view that is watched. Contracts see its name.
pub struct WatchedView {
    name: Text,
    // What is told of a change that is missed, up to its number: then there may be no memory.
    missed: String,
}

// A body that owns one drops it by a call.
impl Drop for WatchedView {
    fn drop(self) {
        let WatchedView { name, missed } = self;
        drop(name);
        drop(missed);
    }
}

impl Model for WatchedView {
    ghost use Rattle.std.specs.Prelude.{◌≡◌, ℕ, List, string_bytes};
    ghost use Rattle.df_session.specs.ViewChanges.{missed_begin};

    ghost Value = { List ℕ };

    ghost view = { λ v. v.name };

    ghost invariant = { λ v. string_bytes v.missed ≡ missed_begin v.name };
}

impl WatchedView {
    /// That of this name.
    pub fn new(alloc: Global, name: &str) -> Result<WatchedView, AllocError>
        ensures { IfOk result (λ v. v ≡ name.now) }
    {
        let missed = missed_begin(alloc, name)?;
        let name = Text::from_str(alloc, name)?;
        Ok(WatchedView { name, missed })
    }

    pub fn name(&self) -> &str
        ensures { result.now ≡ self.now }
    {
        self.name.as_str()
    }

    /// What is told of a change that is missed, up to its number.
    pub fn missed(&self) -> &[u8]
        ensures { result.now ≡ view_changes.missed_begin self.now }
    {
        self.missed.as_bytes()
    }
}

/// The views that are watched, in the order in which their watches began, what is still to be told of them, and whether
/// something of them is missed.
pub struct Watches {
    views: Vec<WatchedView>,
    told: Vec<u8>,
    is_missing: bool,
}

// A body that owns one drops it by a call.
impl Drop for Watches {
    fn drop(self) {
        let Watches {
            views,
            told,
            is_missing: _,
        } = self;
        drop(views);
        drop(told);
    }
}

impl Model for Watches {
    ghost use Rattle.df_session.specs.Watching.{WatchParts};

    ghost Value = { WatchParts };

    ghost view = { λ w. record {
      names = w.views.items;
      told = w.told.items;
      is_missing = w.is_missing;
    } };
}

impl Watches {
    /// No view is watched.
    pub fn new(alloc: Global) -> Watches
        ensures { result ≡ record { names = []; told = []; is_missing = false } }
    {
        Watches {
            views: Vec::new(alloc),
            told: Vec::new(alloc),
            is_missing: false,
        }
    }

    /// The views.
    pub fn views(&self) -> &[WatchedView]
        ensures { result.now ≡ self.now.names }
    {
        self.views.as_slice()
    }

    /// What is still to be told of them.
    pub fn told(&self) -> &[u8]
        ensures { result.now ≡ self.now.told }
    {
        self.told.as_slice()
    }

    /// Whether something of them is missed.
    pub fn is_missing(&self) -> bool
        ensures { result ≡ self.now.is_missing }
    {
        self.is_missing
    }

    /// Whether no view is watched.
    pub fn is_empty(&self) -> bool
        ensures { result ≡ (length self.now.names == 0) }
    {
        self.views.is_empty()
    }

    /// Whether the view of this name is watched.
    pub fn is_watched(&self, name: &str) -> bool
        ensures { result ≡ watching.is_watched name.now self.now.names }
    {
        self.views.iter().any(|view| view.name() == name)
    }

    /// A view is watched behind the others, if it was not before.
    pub fn begin(&mut self, view: WatchedView) -> Result<(), AllocError>
        ensures begun { OnOk result
            (self.new ≡ record self.old { names = with_name view self.old.names }) }
        ensures same { OnErr result (self.new ≡ self.old) }
    {
        if self.is_watched(view.name()) {
            return Ok(());
        }
        Ok(self.views.push(view)?)
    }

    /// The view of this name is no longer watched, if it was before. It takes no memory.
    pub fn end(&mut self, name: &str)
        ensures { self.new ≡ record self.old { names = without_name name.now self.old.names } }
    {
        self.views.retain(|view| view.name() != name);
    }

    /// This is to be told of a change, if nothing is missed before it. Where there is no memory for it, it is missed.
    pub fn tell(&mut self, text: &[u8])
        ensures { (self.new ≡ record self.old { is_missing = true })
            ⊎ ((self.old.is_missing ≡ false)
            × (self.new ≡ record self.old { told = self.old.told ++ text.now })) }
    {
        if self.is_missing {
            return;
        }
        self.is_missing = self.told.extend_from_slice(text).is_err();
    }

    /// What a change did is missed.
    pub fn miss(&mut self)
        ensures { self.new ≡ record self.old { is_missing = true } }
    {
        self.is_missing = true;
    }

    /// All was told.
    pub fn forget(&mut self)
        ensures { self.new ≡ record self.old { told = []; is_missing = false } }
    {
        self.told.clear();
        self.is_missing = false;
    }
}
