//! Lists of items that have names: columns, keys, frames, views.
ghost use Rattle.std.specs.Prelude.{◌≡◌, ◌<◌, [], ℕ, IfSome, List as Seq, length, map};
ghost use Rattle.std.specs.List.{IsDistinct};
ghost use Rattle.std.specs.Option.{IsNone, option_copied};
ghost use Rattle.std.specs.Str.{bytes_eq};
ghost use Rattle.df_value.specs.Names as names;
ghost use Rattle.df_value.specs.Names.{IsFirstDoubled};

use crate::text::Text;

/// What has a name.
pub trait Named {
    ghost name_of: { Self → Seq ℕ };

    /// Its name.
    fn name(&self) -> &Text
        ensures { result.now ≡ name_of self.now };
}

impl Named for Text {
    ghost name_of = { λ name. name };

    fn name(&self) -> &Text {
        self
    }
}

impl<T> Named for (Text, T) {
    ghost name_of = { λ item. item.0 };

    fn name(&self) -> &Text {
        &self.0
    }
}

/// Whether an item has this name.
pub fn has_name<N: Named>(items: &[N], name: &str) -> bool
    ensures { result ≡ names.has_name N.name_of name.now items.now }
{
    items.iter().any(|item| item.name().as_str() == name)
}

/// The index of the first item of this name, from 0.
pub fn index_of_name<N: Named>(items: &[N], name: &str) -> Option<usize>
    ensures value { result ≡ names.index_of_name N.name_of name.now items.now }
    ensures within { IfSome result (λ i. i < length items.now) }
{
    items.iter().position(|item| item.name().as_str() == name)
}

/// The first name that stands earlier in the list.
pub fn first_doubled_name<N: Named>(items: &[N]) -> Option<&Text>
    ensures value { option_copied result ≡ names.doubled_name_after N.name_of [] items.now }
    ensures distinct { IsNone result → IsDistinct bytes_eq (map N.name_of items.now) }
    ensures first { IfSome result (λ name. IsFirstDoubled name.now (map N.name_of items.now)) }
{
    first_standing_earlier(items)
}

fn first_standing_earlier<N: Named>(items: &[N]) -> Option<&Text>
    ensures { option_copied result ≡ names.doubled_name_after N.name_of [] items.now }
{
    for i in 0..items.len() {
        let name = items[i].name();
        if has_name(&items[..i], name.as_str()) {
            return Some(name);
        }
    }
    None
}
