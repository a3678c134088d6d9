//! What a document and a session name.
ghost use Rattle.std.specs.Prelude.{◌≡◌, ◌<◌, IfSome, length};
ghost use Rattle.std.specs.Option.{option_copied};
ghost use Rattle.df_session.specs.Asked.{frame_index_of, plan_named};
ghost use Rattle.df_session.specs.Described.{schema_named};

use df_plan::CheckedPlan;
use df_text::Views;
use df_value::{List, Schema, index_of_name};

/// The frames and views that a document names, behind these the views that the session defined, and the checked plans of all
/// views, in their order.
pub struct Definitions {
    pub document: Views,
    pub plans: List<CheckedPlan>,
}

// A body that owns one drops it by a call.
impl Drop for Definitions {
    fn drop(self) {
        let Definitions { document, plans } = self;
        drop(document);
        drop(plans);
    }
}

impl Definitions {
    /// The index of the frame of this name.
    pub fn frame_index(&self, name: &str) -> Option<usize>
        ensures value { result ≡ frame_index_of self.now name.now }
        ensures within { IfSome result (λ at. at < length self.now.document.frames) }
    {
        index_of_name(self.document.frames.as_slice(), name)
    }

    /// The plan of the view of this name.
    pub fn plan(&self, name: &str) -> Option<&CheckedPlan>
        ensures { option_copied result ≡ plan_named self.now name.now }
    {
        let at = index_of_name(self.document.views.as_slice(), name)?;
        self.plans.get(at)
    }

    /// The schema of the frame of this name, or else of the view.
    pub fn schema(&self, name: &str) -> Option<&Schema>
        ensures { option_copied result ≡ schema_named self.now name.now }
    {
        match self.frame_index(name) {
            Some(at) => Some(&self.document.frames.as_slice()[at].schema),
            None => Some(self.plan(name)?.schema()),
        }
    }
}
