//! Putting columns among others, by name.
ghost use Rattle.std.specs.Prelude.{◌≡◌, ◌++◌, ◌∷◌, [], IfOk, OnOk, filter, map, not};
ghost use Rattle.std.specs.Option.{option_copied};
ghost use Rattle.df_ops.specs.NamedColumns as named_columns;
ghost use Rattle.df_ops.specs.NamedColumns.{added_or_own};

use df_value::{Duplicate, List, Text, has_name, push_made};
use std::alloc::{AllocError, Global};

/// Each of one's own, replaced in its place by the added one of its name; then the added ones of
/// new names, in their order.
#[tactic(auto, unfolding(crate::specs::NamedColumns::with_columns))]
pub fn with_columns<T: Duplicate>(
    alloc: Global,
    own: &[(Text, T)],
    added: &[(Text, T)],
) -> Result<List<(Text, T)>, AllocError>
    ensures { IfOk result (λ r. r ≡ named_columns.with_columns own.now added.now) }
{
    let mut out = all_replaced(alloc, own, added)?;
    for item in added {
        push_new(alloc, &mut out, own, item)?;
    }
    Ok(List::from_vec(out))
}

fn all_replaced<T: Duplicate>(
    alloc: Global,
    own: &[(Text, T)],
    added: &[(Text, T)],
) -> Result<Vec<(Text, T)>, AllocError>
    ensures { IfOk result (λ r. r.items ≡ map (added_or_own added.now) own.now) }
{
    let mut out = Vec::with_capacity(alloc, own.len())?;
    for item in own {
        push_made(&mut out, replacement(item, added).copy(alloc))?;
    }
    Ok(out)
}

fn replacement<'a, T>(own: &'a (Text, T), added: &'a [(Text, T)]) -> &'a (Text, T)
    ensures { result.now ≡ added_or_own added.now own.now }
{
    first_of_name(&own.0, added).unwrap_or(own)
}

fn first_of_name<'a, T>(name: &Text, items: &'a [(Text, T)]) -> Option<&'a (Text, T)>
    ensures { option_copied result ≡ named_columns.first_of_name name.now items.now }
{
    items.iter().find(|item| item.0 == *name)
}

// Adds a copy of the item, if it has a new name.
fn push_new<T: Duplicate>(
    alloc: Global,
    out: &mut Vec<(Text, T)>,
    own: &[(Text, T)],
    item: &(Text, T),
) -> Result<(), AllocError>
    ensures { OnOk result
        (out.new.items
        ≡ out.old.items
        ++ filter (λ a. not (named_columns.has_column a.0 own.now)) (item.now ∷ [])) }
{
    if !has_name(own, item.0.as_str()) {
        out.push(item.copy(alloc)?)?;
    }
    Ok(())
}
