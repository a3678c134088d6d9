//! How a run ends.
use df_value::List;

/// How a run ends that wrote all of its output.
#[derive(Clone, Copy, PartialEq, Eq)]
pub enum Outcome {
    /// No chunk was refused.
    Clean,
    /// A chunk was refused for a bad cell; the output says which.
    Refused,
}

/// What a run writes, and how it then ends.
pub struct Output {
    pub text: List<u8>,
    pub outcome: Outcome,
}

// A body that owns one drops it by a call.
impl Drop for Output {
    fn drop(self) {
        let Output { text, outcome } = self;
        drop(text);
        drop(outcome);
    }
}
