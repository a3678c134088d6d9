//! Why a worker stops.
ghost use Rattle.std.specs.Prelude.{◌≡◌};
ghost use Rattle.df_jobs.specs.Stops.{earlier_stop};

use std::alloc::AllocError;

/// Why a worker stops before no job is left.
#[derive(Clone, Copy, PartialEq, Eq)]
pub enum Stop {
    /// Memory was refused.
    Memory,
    /// 2^64 - 1 versions were published.
    Spent,
    /// It was told of a later version than the newest one.
    Ahead,
}

impl Stop {
    /// Of two reasons the one that a load answers.
    pub(crate) fn earlier(self, other: Stop) -> Stop
        ensures { result ≡ earlier_stop self other }
    {
        match (self, other) {
            (Stop::Memory, _) | (_, Stop::Memory) => Stop::Memory,
            (Stop::Spent, _) | (_, Stop::Spent) => Stop::Spent,
            (Stop::Ahead, Stop::Ahead) => Stop::Ahead,
        }
    }
}

impl From<AllocError> for Stop {
    fn from(_e: AllocError) -> Stop {
        Stop::Memory
    }
}
