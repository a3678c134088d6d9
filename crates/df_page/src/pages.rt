//! What stands before and behind the sections of a page.
ghost use Rattle.std.specs.Prelude.{◌≡◌, ◌++◌, IfOk, OnOk, codes, decimal, string_bytes};
ghost use Rattle.df_page.specs.Markup.{markup};
ghost use Rattle.df_page.specs.Pages.{change_tags, end_of, first_tags, head_of, reload_tags, title_tags};

use crate::markup::push_tags;
use crate::style::STYLE;
use std::alloc::{AllocError, Global};

/// What stands before the first section of a page, in UTF-8: the title and the number of the last
/// change.
///
/// With `reload` the browser loads the page again every two seconds.
pub fn page_head(
    alloc: Global,
    title: &str,
    change: u64,
    reload: bool,
) -> Result<Vec<u8>, AllocError>
    ensures { IfOk result (λ v. v.items ≡ head_of title.now change reload) }
{
    let mut out = Vec::new(alloc);
    push_first(&mut out)?;
    push_reload(&mut out, reload)?;
    push_title(alloc, &mut out, title, change)?;
    Ok(out)
}

fn push_first(out: &mut Vec<u8>) -> Result<(), AllocError>
    ensures { OnOk result (out.new.items ≡ out.old.items ++ markup first_tags) }
{
    push_tags(
        out,
        &[
            ("!doctype html", "\n"),
            ("html lang=\"en\"", "\n"),
            ("head", "\n"),
            ("meta charset=\"utf-8\"", "\n"),
            (
                "meta name=\"viewport\" content=\"width=device-width, initial-scale=1\"",
                "\n",
            ),
        ],
    )
}

fn push_reload(out: &mut Vec<u8>, reload: bool) -> Result<(), AllocError>
    ensures { OnOk result (out.new.items ≡ out.old.items ++ markup (reload_tags reload)) }
{
    if reload {
        push_tags(out, &[("meta http-equiv=\"refresh\" content=\"2\"", "\n")])
    } else {
        push_tags(out, &[])
    }
}

fn push_title(alloc: Global, out: &mut Vec<u8>, title: &str, change: u64) -> Result<(), AllocError>
    ensures { OnOk result (out.new.items ≡ out.old.items ++ markup (title_tags title.now change)) }
{
    push_tags(
        out,
        &[
            ("title", title),
            ("/title", "\n"),
            ("style", STYLE),
            ("/style", "\n"),
            ("/head", "\n"),
            ("body", "\n"),
            ("header", "\n"),
            ("h1", title),
            ("/h1", "\n"),
        ],
    )?;
    push_change(alloc, out, change)?;
    push_tags(out, &[("/header", "\n"), ("main", "\n")])
}

fn push_change(alloc: Global, out: &mut Vec<u8>, change: u64) -> Result<(), AllocError>
    ensures { OnOk result (out.new.items ≡ out.old.items ++ markup (change_tags change)) }
{
    let text = format!(in alloc; "change {change}")?;
    push_tags(out, &[("p", text.as_str()), ("/p", "\n")])
}

/// What stands behind the last section of a page.
#[tactic(auto, unfolding(crate::specs::Pages::end_of, crate::specs::Markup::markup, crate::specs::Markup::tag_bytes, crate::specs::Markup::escaped))]
pub fn page_end() -> &'static str
    ensures { result.now ≡ end_of }
{
    "</main>\n</body>\n</html>\n"
}
