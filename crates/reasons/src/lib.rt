// Why a class's margin in a currency is what it is, as lines in the lent buffer: the nets of its securities, what each row of the
// priority list took from it, and the remaining side that set the margin.
#![tactic(auto)]

ghost use Rattle.std.specs.Prelude.{◌≡◌, ℕ, ◌+◌, ◌≤◌, ◌<◌, pos, nat_abs, length, get_or};
ghost use Rattle.paper.specs.Lists.{Each};
ghost use Rattle.paper.specs.Refusals.{has_class};
ghost use Rattle.paper.specs.Offsetting.{offset_row};
ghost use Rattle.paper.specs.Bounds.{most_net_cents, PriorityFacts, BookFacts};
ghost use Rattle.tables.specs.Back.{paper_classes};
ghost use Rattle.offsetting.specs.Books.{book_of, row_of};
ghost use Rattle.lines.specs.Written.{Wrote};
ghost use Rattle.reasons.specs.Texts.{asked_of, net_line_if, net_texts, taken_line_if, row_text, remaining_text, reason_text, Explainable};

use lines::Place;
use margin::Opening;
use offsetting::{Book, Whole};
use tables::{Classes, Code, PriorityRow, Securities, Tables};
use valuation::SignedCents;

// Whether a class has a C row. Up to 40 it is looked up as the classes of an O row are; above that, where no C row of a sheet is,
// row by row.
fn has_class(
    classes: &Classes,
    class: u64, // any number
) -> bool
    ensures { result ≡ has_class (paper_classes classes.now) class }
{
    if 40 < class {
        // No `any`, whose items 32-bit code reads otherwise (docs/DECISIONS.md).
        for row in classes.as_slice() {
            if row.class == class {
                return true;
            }
        }
        return false;
    }
    let known = priorities::known_classes(classes);
    known[class as usize]
}

// The rank of a currency, by any bytes, where the tables have it and a class, by any number.
pub fn asked(
    tables: &Tables,
    currency: &[u8],
    class: u64, // any number
) -> Option<usize>
    ensures { result ≡ asked_of tables.now currency.now class }
{
    let own = codes::currency(currency)?;
    let rank = tables::ranked(tables.securities.currencies.as_slice(), own).ok()?;
    has_class(&tables.classes, class).then_some(rank)
}

// The P line of a security, where it is one of those asked for and its net is not zero.
fn put_net(
    report: &mut [u8],
    at: Place,
    own: bool,
    code: Code,
    net: i64, // whole units
) -> Place
    requires { at + length (net_line_if own code net) ≤ length report.old }
    ensures { Wrote (net_line_if own code net) at report.old result report.new }
{
    if !own || net == 0 {
        return at;
    }
    lines::security_line(report, at, code, net)
}

// The P lines of a class in a currency, in sheet order.
fn net_lines(
    report: &mut [u8],
    securities: &Securities,
    worths: &[SignedCents; 200],
    rank: usize, // currency
    class: usize, // its number
) -> Place
    requires worths { (i : ℕ) → nat_abs (get_or worths.now i (pos 0)) ≤ most_net_cents }
    requires room { length (net_texts securities.now worths.now rank class) ≤ length report.old }
    ensures { Wrote (net_texts securities.now worths.now rank class) 0 report.old result report.new }
{
    let mut at: Place = 0;
    for (i, row) in securities.rows.as_slice().iter().enumerate() {
        let own = (row.currency as usize == rank) & (row.class as usize == class);
        let net = whole::rounded(worths[i], 100); // whole units
        at = put_net(report, at, own, securities.codes[i], net);
    }
    at
}

// The R line of a row, where it took something.
fn put_taken(
    report: &mut [u8],
    at: Place,
    line: u64, // of the sheet, from 1
    long: Whole, // off it
    short: Whole, // off it
) -> Place
    requires { at + length (taken_line_if line long short) ≤ length report.old }
    ensures { Wrote (taken_line_if line long short) at report.old result report.new }
{
    if (long == 0) & (short == 0) {
        return at;
    }
    lines::taken_line(report, at, line, long, short)
}

// A row of the priority list taken off the positions, and its R line, where it took something from the class.
fn take_row(
    report: &mut [u8],
    at: Place,
    line: u64, // of the sheet, from 1
    class: usize, // its number
    book: &mut Book,
    row: PriorityRow,
) -> Place
    requires facts { (class ≤ 40) × PriorityFacts (row_of row) × BookFacts (book_of book.old) }
    requires room { at + length (row_text line class (book_of book.old) (offset_row (row_of row) (book_of book.old))) ≤ length report.old }
    ensures left { book_of book.new ≡ offset_row (row_of row) (book_of book.old) }
    ensures written { Wrote (row_text line class (book_of book.old) (offset_row (row_of row) (book_of book.old))) at report.old result report.new }
{
    let long_met = book.long[class]; // whole units
    let short_met = book.short[class]; // whole units
    book.offset_row(row);
    put_taken(
        report,
        at,
        line,
        long_met - book.long[class],
        short_met - book.short[class],
    )
}

// The R lines of the rows that took something from a class, in sheet order, and the B line of what they leave. `first` is the line
// of the first row.
fn remaining_lines(
    report: &mut [u8],
    from: Place,
    first: usize, // line of the sheet
    priorities: &[PriorityRow],
    class: usize, // its number
    mut book: Book,
) -> Place
    requires rows { (first ≤ 43) × (class ≤ 40) × (length priorities.now ≤ 200) × Each (λ o. PriorityFacts (row_of o)) priorities.now }
    requires book { BookFacts (book_of book) }
    requires room { from + length (remaining_text first priorities.now class (book_of book)) ≤ length report.old }
    ensures { Wrote (remaining_text first priorities.now class (book_of book)) from report.old result report.new }
{
    let mut at = from;
    for (i, &row) in priorities.iter().enumerate() {
        let line = (first + i) as u64; // of the sheet
        at = take_row(report, at, line, class, &mut book, row);
    }
    lines::setter_line(report, at, book.long[class], book.short[class])
}

// The whole explanation of a class in the currency of a rank, from the buffer's start; gives its length.
pub fn write(
    report: &mut [u8],
    tables: &Tables,
    rank: usize, // currency
    class: usize, // its number
) -> Place
    requires explainable { Explainable tables.now rank class }
    requires room { length (reason_text tables.now rank class) ≤ length report.old }
    ensures { Wrote (reason_text tables.now rank class) 0 report.old result report.new }
{
    let Opening { worths, book } = margin::opening_of(tables, rank);
    let at = net_lines(report, &tables.securities, &worths, rank, class);
    remaining_lines(
        report,
        at,
        3 + tables.classes.len(),
        tables.priorities.as_slice(),
        class,
        book,
    )
}
