//! Calls over values that may have been refused, and one that drops. Each stands for exits of its
//! caller, whose proof grows with every value that lives at every exit.
ghost use Rattle.std.specs.Prelude.{◌≡◌, ◌++◌, ◌∷◌, [], IfOk, Ok, OnOk};

use std::alloc::AllocError;

/// The two values, where both were made.
pub fn both<A: Drop, B: Drop>(
    first: Result<A, AllocError>,
    second: Result<B, AllocError>,
) -> Result<(A, B), AllocError>
    ensures first { IfOk result (λ pair. first ≡ Ok pair.0) }
    ensures second { IfOk result (λ pair. second ≡ Ok pair.1) }
{
    match (first, second) {
        (Ok(first), Ok(second)) => Ok((first, second)),
        _ => Err(AllocError),
    }
}

/// Adds a value, where it was made.
pub fn push_made<T: Drop>(items: &mut Vec<T>, made: Result<T, AllocError>) -> Result<(), AllocError>
    ensures { OnOk result
        ((x : T) × (made ≡ Ok x) × (items.new.items ≡ items.old.items ++ x ∷ [])) }
{
    Ok(items.push(made?)?)
}

/// What was made, once a value that it was made of is dropped.
pub fn then_drop<R, T: Drop>(made: R, value: T) -> R
    ensures { result ≡ made }
{
    drop(value);
    made
}
