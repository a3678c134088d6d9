//! Bars behind whole numbers.
ghost use Rattle.std.specs.Prelude.{◌≡◌, ◌<◌, ◌≤◌, ◌^◌, IfOk, string_bytes};
ghost use Rattle.df_page.specs.Bars as bars;

use crate::columns::Column;
use std::alloc::{AllocError, Global};

// From here on a thousandfold may not fit.
const LARGE: u128 = 1 << 118;

/// The tag of a whole number, which has its bar.
pub fn bar_tag(alloc: Global, column: &Column, number: i128) -> Result<String, AllocError>
    ensures { IfOk result (λ s. string_bytes s ≡ bars.bar_tag column.now number) }
{
    let side = side(column.has_negative, number.is_negative());
    let width = bar_width(number.unsigned_abs(), column.greatest);
    format!(in alloc; "td class=\"{side}\" style=\"--w:{width}\"")
}

fn side(has_negative: bool, is_negative: bool) -> &'static str
    ensures { result.now ≡ bars.side has_negative is_negative }
{
    match (has_negative, is_negative) {
        (false, _) => "bar",
        (true, false) => "bar positive",
        (true, true) => "bar negative",
    }
}

fn bar_width(size: u128, greatest: u128) -> u128
    ensures value { result ≡ bars.bar_width size greatest }
    ensures most { result ≤ 1000 }
    ensures widest { size ≡ greatest → 0 < greatest → result ≡ 1000 }
{
    if greatest < LARGE {
        thousandths(size.min(greatest), greatest)
    } else {
        thousandths(size.min(greatest) / 1024, greatest / 1024)
    }
}

fn thousandths(part: u128, whole: u128) -> u128
    requires { part < 2 ^ 118 }
    ensures { result ≡ bars.thousandths part whole }
{
    1000 * part / whole.max(1)
}
