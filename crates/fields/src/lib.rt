// What stands in a field: its bytes, read as a number, a rate, a date or a letter; nothing where it is nothing that it may be.
#![tactic(auto)]

ghost use Rattle.std.specs.Prelude.{◌≡◌, ◌≤◌, length};
ghost use Rattle.std.proofs.Math.Option.{map};
ghost use Rattle.answers.specs.Options.{answer};
ghost use Rattle.paper.specs.Text.{number_in, date_in};
ghost use Rattle.paper.specs.Rows.{kind_in};
ghost use Rattle.paper.specs.Days.{day_of};
ghost use Rattle.tables.specs.Numbers.{kind_number};
ghost use Rattle.fields.specs.Values.{digits_in, ranged_in, rate_in, duration_in, letter_in};

use days::{Date, Day};

// Digits as the number that they mean; at most 19, so that it fits.
fn digits(text: &[u8]) -> Option<u64>
    requires { length text.now ≤ 19 }
    ensures { result ≡ answer (digits_in text.now) }
{
    let mut n: u64 = 0; // any unit
    for &b in text {
        if !b.is_ascii_digit() {
            return None;
        }
        n = 10 * n + u64::from(b - b'0');
    }
    Some(n)
}

// A number: digits with no leading zero.
fn plain(text: &[u8]) -> Option<u64>
    ensures { result ≡ answer (number_in text.now) }
{
    if text.is_empty() || 19 < text.len() {
        return None;
    }
    if 1 < text.len() && text[0] == b'0' {
        return None;
    }
    digits(text)
}

// A number from a lowest to a highest.
pub fn number(
    text: &[u8],
    lowest: u64, // the field's unit
    highest: u64, // the field's unit
) -> Option<u64>
    ensures { result ≡ answer (ranged_in lowest highest text.now) }
{
    let n = plain(text)?; // the field's unit
    ((lowest <= n) & (n <= highest)).then_some(n)
}

// A rate, ten-thousandths of a percent: a number in its range that may have `-` before it.
pub fn rate(text: &[u8]) -> Option<i64>
    ensures { result ≡ answer (rate_in text.now) }
{
    let [first, rest @ ..] = text else { // a byte, and those behind it
        return None;
    };
    if *first == b'-' {
        Some(whole::negative(number(rest, 1, 200_000)?))
    } else {
        Some(whole::positive(number(text, 0, 200_000)?))
    }
}

// A border or duration, ten-thousandths of a year, for a kind that has one; 0 for a blank one of a kind that has none.
pub fn duration(text: &[u8], has: bool) -> Option<u64>
    ensures { result ≡ answer (duration_in has text.now) }
{
    if has {
        number(text, 1, 1_000_000)
    } else {
        text.is_empty().then_some(0)
    }
}

// A date's eight digits; 0, which is no date, for anything else, as `date_in` says.
pub fn date(text: &[u8]) -> Date
    ensures { result ≡ date_in text.now }
{
    if text.len() != 8 {
        return 0;
    }
    digits(text).unwrap_or(0)
}

// The day of a date.
pub fn day(text: &[u8]) -> Option<Day>
    ensures { result ≡ answer (day_of (date_in text.now)) }
{
    days::day_of(date(text))
}

// A kind by its letter, as the number that `kind_number` has for it: 0 government, 1 corporate, 2 inflation linked, 3 floating.
pub fn kind(text: &[u8]) -> Option<u64>
    ensures { result ≡ answer (map kind_number (kind_in text.now)) }
{
    match text {
        [b'G'] => Some(0),
        [b'C'] => Some(1),
        [b'I'] => Some(2),
        [b'F'] => Some(3),
        _ => None,
    }
}

// One of two letters by its number, as `tables::Trade` has it: 0 the first, 1 the second.
pub fn letter(
    text: &[u8],
    zero: u8, // a byte
    one: u8, // a byte
) -> Option<u64>
    ensures { result ≡ answer (letter_in zero one text.now) }
{
    let &[b] = text else { // a byte
        return None;
    };
    if b == zero {
        Some(0)
    } else {
        (b == one).then_some(1)
    }
}
