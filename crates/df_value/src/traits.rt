//! What the small types have in common: equality that is identity, and a copy that takes the
//! allocator.
ghost use Rattle.std.specs.Prelude.{◌≡◌, ◌↔◌, IsTrue, IfOk};

use std::alloc::{AllocError, Global};

/// A type whose `==` holds of a value and itself alone, so that an equal value can stand for it.
pub trait Exact: Eq {
    ghost decides: { (a b : Self) → IsTrue (Self.eq a b) ↔ (a ≡ b) };
}

/// A type that can be copied, where memory allows.
///
/// `Clone` of the standard library does not say that the copy is the value itself; this does.
pub trait Duplicate: Sized + Drop {
    /// An equal value, or the refusal of memory.
    fn copy(&self, alloc: Global) -> Result<Self, AllocError>
        ensures { IfOk result (λ r. r ≡ self.now) };
}

/// Whether two values are one and the same.
pub fn same<T: Exact>(a: &T, b: &T) -> bool
    ensures { IsTrue result ↔ (a.now ≡ b.now) }
{
    a == b
}

impl<A: Exact, B: Exact> Exact for (A, B) {
    ghost use Rattle.df_value.specs.Exactly.{pair_decides};

    ghost decides = { pair_decides A.decides B.decides };
}

impl<A: Duplicate, B: Duplicate> Duplicate for (A, B) {
    fn copy(&self, alloc: Global) -> Result<(A, B), AllocError> {
        Ok((self.0.copy(alloc)?, self.1.copy(alloc)?))
    }
}
