//! What a view document says.
use df_plan::Plan;
use df_value::{List, Named, Schema, Text};

/// The frames and views that a document names, each in the document's order.
pub struct Views {
    pub frames: List<FrameSpec>,
    pub views: List<ViewSpec>,
}

// A body that owns one drops it by a call.
impl Drop for Views {
    fn drop(self) {
        let Views { frames, views } = self;
        drop(frames);
        drop(views);
    }
}

/// A frame: its name, its columns, and where its records come from.
pub struct FrameSpec {
    pub name: Text,
    pub schema: Schema,
    pub source: FrameSource,
}

// A body that owns one drops it by a call.
impl Drop for FrameSpec {
    fn drop(self) {
        let FrameSpec {
            name,
            schema,
            source,
        } = self;
        drop(name);
        drop(schema);
        drop(source);
    }
}

impl Named for FrameSpec {
    ghost name_of = { λ f. f.name };

    fn name(&self) -> &Text {
        &self.name
    }
}

/// Where the records of a frame come from.
pub enum FrameSource {
    /// The path of a file that has the CSV, as the document writes it.
    Path(Text),
    /// The CSV itself.
    Text(Text),
}

// A body that owns one drops it by a call.
impl Drop for FrameSource {
    fn drop(self) {
        match self {
            FrameSource::Path(path) => drop(path),
            FrameSource::Text(text) => drop(text),
        }
    }
}

/// A view: its name, and the plan that makes it of the document's frames.
pub struct ViewSpec {
    pub name: Text,
    pub plan: Plan,
}

// A body that owns one drops it by a call.
impl Drop for ViewSpec {
    fn drop(self) {
        let ViewSpec { name, plan } = self;
        drop(name);
        drop(plan);
    }
}

impl Named for ViewSpec {
    ghost name_of = { λ v. v.name };

    fn name(&self) -> &Text {
        &self.name
    }
}

/// The part of a document that a fault is in.
#[derive(Clone, Copy, Debug, PartialEq, Eq)]
pub enum Location {
    /// The table of the whole document.
    Top,
    /// The frame of this index, from 0.
    Frame(usize),
    /// The view of this index, from 0.
    View(usize),
    /// A step of a view, by the index of the view and the index of the step.
    Step(usize, usize),
    /// An item of a step, by the indices of the view and of the step and by its index in the step's array, in which the
    /// word has index 0. A fault within the right side of a join is told of that item.
    Item(usize, usize, usize),
}

impl Location {
    ghost use Rattle.std.specs.Prelude.{◌≡◌};
    ghost use Rattle.df_text.specs.Locations as locations;

    /// The step of this index, where this is a view; else this part.
    pub fn step(self, index: usize) -> Location
        ensures { result ≡ locations.step_at self index }
    {
        match self {
            Location::View(view) => Location::Step(view, index),
            _ => self,
        }
    }

    /// The item of this index, where this is a step; else this part.
    pub fn item(self, index: usize) -> Location
        ensures { result ≡ locations.item_at self index }
    {
        match self {
            Location::Step(view, step) => Location::Item(view, step, index),
            _ => self,
        }
    }
}
