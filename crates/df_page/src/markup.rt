//! Tags.
ghost use Rattle.std.specs.Prelude.{◌≡◌, ◌++◌, OnOk, map};
ghost use Rattle.df_page.specs.Markup.{markup, tag_bytes};

use crate::escapes::push_escaped;
use std::alloc::AllocError;

/// Appends tags, each with the text behind it.
pub fn push_tags(out: &mut Vec<u8>, tags: &[(&str, &str)]) -> Result<(), AllocError>
    ensures { OnOk result (out.new.items
        ≡ out.old.items ++ markup (map (λ t. (t.0.now, t.1.now)) tags.now)) }
{
    for (tag, text) in tags {
        push_tag(out, tag, text)?;
    }
    Ok(())
}

#[tactic(auto, unfolding(crate::specs::Markup::tag_bytes))]
fn push_tag(out: &mut Vec<u8>, tag: &str, text: &str) -> Result<(), AllocError>
    ensures { OnOk result (out.new.items ≡ out.old.items ++ tag_bytes (tag.now, text.now)) }
{
    out.push(b'<')?;
    out.extend_from_slice(tag.as_bytes())?;
    out.push(b'>')?;
    push_escaped(out, text.as_bytes())
}
