//! Changes of the views.

use df_plan::CheckedPlan;
use df_value::Text;

/// A change of the views.
#[derive(Drop)]
pub enum ViewChange<'a> {
    /// A view of this name and plan is added last.
    Register(Text, CheckedPlan),
    /// The view of this name is taken out.
    Drop(&'a str),
}
