//! Means as decimals.
ghost use Rattle.std.specs.Prelude.{◌≡◌, ◌+◌, ◌*◌, ◌<◌, ◌≤◌, ◌^◌, ◌++◌, IfOk, OnOk, string_bytes, unsigned_abs};
ghost use Rattle.df_page.specs.Means as means;
ghost use Rattle.df_page.specs.Means.{IsNearest, mean_thousandths, sign_of, three_digits};

use df_value::Frac;
use std::alloc::{AllocError, Global};

// So many whole ones and thousandths.
#[derive(Clone, Copy)]
struct Rounded {
    whole: u128,
    part: u128,
}

/// A mean as a decimal of three places, rounded to the nearest, and half to even.
pub fn mean_decimal(alloc: Global, mean: &Frac) -> Result<String, AllocError>
    ensures { IfOk result (λ s. string_bytes s ≡ means.mean_decimal mean.now) }
{
    let rounded = round(mean);
    let sign = sign(mean.sum(), &rounded);
    let whole = rounded.whole;
    let mut text = format!(in alloc; "{sign}{whole}.")?;
    push_three_digits(&mut text, rounded.part)?;
    Ok(text)
}

fn sign(sum: i128, rounded: &Rounded) -> &'static str
    ensures { result.now ≡ sign_of sum (1000 * rounded.now.whole + rounded.now.part) }
{
    if sum.is_negative() && (rounded.whole != 0 || rounded.part != 0) {
        "-"
    } else {
        ""
    }
}

fn push_three_digits(text: &mut String, number: u128) -> Result<(), AllocError>
    requires { number < 1000 }
    ensures { OnOk result (string_bytes text.new ≡ string_bytes text.old ++ three_digits number) }
{
    text.push(char::from(48 + (number / 100) as u8))?;
    text.push(char::from(48 + (number / 10 % 10) as u8))?;
    text.push(char::from(48 + (number % 10) as u8))
}

fn round(mean: &Frac) -> Rounded
    ensures value { 1000 * result.whole + result.part ≡ mean_thousandths mean.now }
    ensures part { result.part < 1000 }
    ensures nearest { IsNearest (1000 * unsigned_abs mean.now.0) (unsigned_abs mean.now.1)
        (1000 * result.whole + result.part) }
{
    let size = mean.sum().unsigned_abs();
    let count = count_of(mean);
    let thousandths = nearest(1000 * (size % count), count);
    Rounded {
        whole: size / count + thousandths / 1000,
        part: thousandths % 1000,
    }
}

fn count_of(mean: &Frac) -> u128
    ensures value { result ≡ unsigned_abs mean.now.1 }
    ensures counted { 0 < result }
    ensures few { result ≤ 2 ^ 63 }
{
    u128::from(mean.count().unsigned_abs())
}

fn nearest(number: u128, count: u128) -> u128
    requires counted { 0 < count }
    requires few { count ≤ 2 ^ 63 }
    requires below { number < 1000 * count }
    ensures value { result ≡ means.nearest number count }
    ensures few { result ≤ 1000 }
{
    let whole = number / count;
    let rest = number % count;
    if 2 * rest < count {
        whole
    } else if count < 2 * rest {
        whole + 1
    } else if whole % 2 == 0 {
        whole
    } else {
        whole + 1
    }
}
