//! Sets of the row numbers that a change lists. A look-up takes the logarithm of the set's size.
ghost use Rattle.std.specs.Prelude.{◌≡◌, ◌==◌, [], IfOk, map};
ghost use Rattle.std.specs.List.{list_any};
ghost use Rattle.df_frame.specs.Refusals.{doubled_number_after};

use crate::numbered::HasNumber;
use std::alloc::{AllocError, Global};
use std::collections::BTreeSet;

/// The first number that stands earlier in the list. Where memory is refused it is found without a
/// set, in a time that grows with the square of the list's length.
pub fn first_doubled_number<N: HasNumber>(alloc: Global, items: &[N]) -> Option<u32>
    ensures { result ≡ doubled_number_after [] (map N.number_of items.now) }
{
    match first_in_set(alloc, items) {
        Ok(found) => found,
        Err(_) => first_in_list(items),
    }
}

// The first number that is in the set of those before it.
fn first_in_set<N: HasNumber>(alloc: Global, items: &[N]) -> Result<Option<u32>, AllocError>
    ensures { IfOk result (λ found. found ≡ doubled_number_after [] (map N.number_of items.now)) }
{
    let mut seen = BTreeSet::new(alloc);
    for item in items {
        let number = item.number();
        if !seen.insert(number)? {
            return Ok(Some(number));
        }
    }
    Ok(None)
}

// The first number that stands in the list before it.
fn first_in_list<N: HasNumber>(items: &[N]) -> Option<u32>
    ensures { result ≡ doubled_number_after [] (map N.number_of items.now) }
{
    for i in 0..items.len() {
        let number = items[i].number();
        if stands_in(number, &items[..i]) {
            return Some(number);
        }
    }
    None
}

fn stands_in<N: HasNumber>(number: u32, items: &[N]) -> bool
    ensures { result ≡ list_any (λ item. N.number_of item == number) items.now }
{
    items.iter().any(|item| item.number() == number)
}
