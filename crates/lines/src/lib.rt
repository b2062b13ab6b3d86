// Lines of the report: numbers as digits, fields and whole lines, written into the lent buffer from a place on.
// Each function gives the place behind what it wrote.
#![tactic(auto)]

ghost use Rattle.std.specs.Prelude.{◌+◌, ◌≤◌, ◌<◌, max, ◌≡◌, [], ◌∷◌, ◌++◌, length};
ghost use Rattle.paper.specs.Text.{semicolon, digits, signed_digits};
ghost use Rattle.paper.specs.Explanation.{setter_of, setter_letter, setter_line};
ghost use Rattle.lines.specs.Written.{Wrote, money_text, code_text, mark_line, position_line, total_line, security_line, taken_line, refusal_line};

use std::cmp::Ordering;
use tables::{Code, Money};

// Handed on beside the buffer: no plainer in a struct that holds both, whose every clause would have to say that it holds the same one.
pub type Place = usize; // in the report, bytes

// A text as it is, byte by byte: std's copy of a slice casts addresses to numbers, which differ in 32-bit code (docs/DECISIONS.md).
#[inline(always)]
fn put(report: &mut [u8], at: Place, text: &[u8]) -> Place
    requires { at + length text.now ≤ length report.old }
    ensures { Wrote text.now at report.old result report.new }
{
    for (i, &byte) in text.iter().enumerate() {
        report[at + i] = byte;
    }
    at + text.len()
}

// A number in digits: as many as it has powers of ten, and one.
fn put_number(
    report: &mut [u8],
    at: Place,
    n: u64, // any unit
) -> Place
    requires { at + length (digits n) ≤ length report.old }
    ensures { Wrote (digits n) at report.old result report.new }
{
    let behind = at + 1 + n.max(1).ilog10() as usize;
    itoa::write_digits(n, report, behind);
    behind
}

// A number and the byte that ends its field.
fn put_field(
    report: &mut [u8],
    at: Place,
    n: u64, // any unit
    end: u8, // a byte
) -> Place
    requires { at + length (digits n ++ (end ∷ [])) ≤ length report.old }
    ensures { Wrote (digits n ++ (end ∷ [])) at report.old result report.new }
{
    let behind = put_number(report, at, n);
    put(report, behind, &[end])
}

// A signed number and the byte that ends its field.
fn put_signed_field(
    report: &mut [u8],
    at: Place,
    z: i64, // any unit
    end: u8, // a byte
) -> Place
    requires { at + length (signed_digits z ++ (end ∷ [])) ≤ length report.old }
    ensures { Wrote (signed_digits z ++ (end ∷ [])) at report.old result report.new }
{
    let first = if z < 0 { put(report, at, b"-") } else { at };
    put_field(report, first, z.unsigned_abs(), end)
}

// The three letters of a currency, and `;`.
fn put_currency(report: &mut [u8], at: Place, money: Money) -> Place
    requires { (money < 79_507) × (at + 4 ≤ length report.old) }
    ensures { Wrote (money_text money ++ (semicolon ∷ [])) at report.old result report.new }
{
    let first = (48 + money / 1849) as u8; // a byte
    let second = (48 + money / 43 % 43) as u8; // a byte
    let third = (48 + money % 43) as u8; // a byte
    put(report, at, &[first, second, third, b';'])
}

// The twelve bytes of a code, and `;`: those in base 43 from the last to the first, then the digit behind them.
fn put_code(report: &mut [u8], at: Place, code: Code) -> Place
    requires { at + 13 ≤ length report.old }
    ensures { Wrote (code_text code ++ (semicolon ∷ [])) at report.old result report.new }
{
    let mut n = code / 10; // the bytes not written yet, in base 43
    for i in (0..11).rev() {
        report[at + i] = (48 + n % 43) as u8;
        n /= 43;
    }
    put(report, at + 11, &[(48 + code % 10) as u8, b';'])
}

// The mark-to-market of the trade on a line of the sheet.
pub fn mark_line(
    report: &mut [u8],
    at: Place,
    money: Money,
    line: u64, // of the sheet, from 1
    mark: i64, // cents
) -> Place
    requires currency { money < 79_507 }
    requires room { at + length (mark_line line (money_text money) mark) ≤ length report.old }
    ensures { Wrote (mark_line line (money_text money) mark) at report.old result report.new }
{
    let first = put(report, at, b"M;");
    let second = put_field(report, first, line, b';');
    let third = put_currency(report, second, money);
    put_signed_field(report, third, mark, b'\n')
}

// A class's positions in a currency, and its margin.
pub fn position_line(
    report: &mut [u8],
    at: Place,
    money: Money,
    class: u64, // from 1
    long: u64, // whole units
    short: u64, // whole units
    margin: u64, // whole units
) -> Place
    requires currency { money < 79_507 }
    requires room { at + length (position_line (money_text money) class long short margin) ≤ length report.old }
    ensures { Wrote (position_line (money_text money) class long short margin) at report.old result report.new }
{
    let first = put(report, at, b"K;");
    let second = put_currency(report, first, money);
    let third = put_field(report, second, class, b';');
    let fourth = put_field(report, third, long, b';');
    let fifth = put_field(report, fourth, short, b';');
    put_field(report, fifth, margin, b'\n')
}

// A currency's totals.
pub fn total_line(
    report: &mut [u8],
    at: Place,
    money: Money,
    mark: i64, // cents
    initial: u64, // whole units
    total: u64, // cents
) -> Place
    requires currency { money < 79_507 }
    requires room { at + length (total_line (money_text money) mark initial total) ≤ length report.old }
    ensures { Wrote (total_line (money_text money) mark initial total) at report.old result report.new }
{
    let first = put(report, at, b"Z;");
    let second = put_currency(report, first, money);
    let third = put_signed_field(report, second, mark, b';');
    let fourth = put_field(report, third, initial, b';');
    put_field(report, fourth, total, b'\n')
}

// The net of a security.
pub fn security_line(
    report: &mut [u8],
    at: Place,
    code: Code,
    net: i64, // whole units
) -> Place
    requires { at + length (security_line (code_text code) net) ≤ length report.old }
    ensures { Wrote (security_line (code_text code) net) at report.old result report.new }
{
    let first = put(report, at, b"P;");
    let second = put_code(report, first, code);
    put_signed_field(report, second, net, b'\n')
}

// What the row of the priority list on a line of the sheet took from a class.
pub fn taken_line(
    report: &mut [u8],
    at: Place,
    line: u64, // of the sheet, from 1
    long: u64, // off it, whole units
    short: u64, // off it, whole units
) -> Place
    requires { at + length (taken_line line long short) ≤ length report.old }
    ensures { Wrote (taken_line line long short) at report.old result report.new }
{
    let first = put(report, at, b"R;");
    let second = put_field(report, first, line, b';');
    let third = put_field(report, second, long, b';');
    put_field(report, third, short, b'\n')
}

// The letter of the larger side: L the long, S the short, E where they are equal.
fn setter_letter(
    long: u64, // whole units
    short: u64, // whole units
) -> u8
    ensures { (result ∷ []) ≡ setter_letter (setter_of long short) }
{
    match long.cmp(&short) {
        Ordering::Less => b'S',
        Ordering::Equal => b'E',
        Ordering::Greater => b'L',
    }
}

// The remaining side that set the margin, and its amount.
pub fn setter_line(
    report: &mut [u8],
    at: Place,
    long: u64, // whole units
    short: u64, // whole units
) -> Place
    requires { at + length (setter_line (setter_of long short) (max long short)) ≤ length report.old }
    ensures { Wrote (setter_line (setter_of long short) (max long short)) at report.old result report.new }
{
    let first = put(report, at, b"B;");
    let second = put(report, first, &[setter_letter(long, short), b';']);
    put_field(report, second, long.max(short), b'\n')
}

// A refusal, as the forecast prints it.
pub fn refusal_line(
    report: &mut [u8],
    at: Place,
    number: u64, // of the refusal
    line: u64, // of the sheet, 0 where it has none
) -> Place
    requires { at + length (refusal_line number line) ≤ length report.old }
    ensures { Wrote (refusal_line number line) at report.old result report.new }
{
    let first = put(report, at, b"N;");
    let second = put_field(report, first, number, b';');
    put_field(report, second, line, b'\n')
}
