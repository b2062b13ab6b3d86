// The report: the figures of a sheet as lines in the lent buffer, M lines first, then each currency's. A full one has a K line for
// every class; a quiet one leaves out those of zeros.
#![tactic(auto)]

ghost use Rattle.std.specs.Prelude.{◌+◌, ◌≤◌, ◌<◌, length};
ghost use Rattle.lines.specs.Written.{Wrote};
ghost use Rattle.report.specs.Texts.{Writable, Classed, marked, mark_texts, listed_line, position_texts, currency_texts, report_text};

use lines::Place;
use margin::{Currency, Figures};
use offsetting::Whole;
use tables::{Classes, Money, Tables};
use valuation::SignedCents;

// The M line of a trade, where it is margined. A flag, since one that is not has a mark too, 0.
fn put_mark(
    report: &mut [u8],
    at: Place,
    margined: bool,
    money: Money,
    line: u64, // of the sheet, from 1
    mark: SignedCents,
) -> Place
    requires currency { money < 79_507 }
    requires room { at + length (marked margined line money mark) ≤ length report.old }
    ensures { Wrote (marked margined line money mark) at report.old result report.new }
{
    if !margined {
        return at;
    }
    lines::mark_line(report, at, money, line, mark)
}

// The M lines of the margined trades, in sheet order.
fn mark_lines(report: &mut [u8], tables: &Tables, figures: &Figures) -> Place
    requires writable { Writable tables.now }
    requires room { length (mark_texts tables.now figures.now) ≤ length report.old }
    ensures { Wrote (mark_texts tables.now figures.now) 0 report.old result report.new }
{
    let securities = &tables.securities.rows;
    let first = 3 + tables.classes.len() + tables.priorities.len() + securities.len(); // line
    let mut at: Place = 0;
    for (i, trade) in tables.trades.as_slice().iter().enumerate() {
        let security = securities.at(trade.security as usize);
        at = put_mark(
            report,
            at,
            trade.margined,
            tables.securities.currencies.at(security.currency as usize),
            (first + i) as u64,
            figures.marks[i],
        );
    }
    at
}

// The K line of a class; in a quiet report none where its long, short and margin are all zero.
fn put_position(
    report: &mut [u8],
    at: Place,
    full: bool, // or quiet, as `kit` has it
    money: Money,
    class: u64, // from 1
    long: Whole,
    short: Whole,
    margin: Whole,
) -> Place
    requires currency { money < 79_507 }
    requires room { at + length (listed_line full money class long short margin) ≤ length report.old }
    ensures { Wrote (listed_line full money class long short margin) at report.old result report.new }
{
    let zeros = (long == 0) & (short == 0) & (margin == 0);
    if !full & zeros {
        return at;
    }
    lines::position_line(report, at, money, class, long, short, margin)
}

// The K lines of a currency, by rising class.
fn position_lines(
    report: &mut [u8],
    from: Place,
    full: bool, // or quiet, as `kit` has it
    money: Money,
    classes: &Classes,
    figures: &Currency,
) -> Place
    requires classed { (money < 79_507) × Classed classes.now }
    requires room { from + length (position_texts full money classes.now figures.now) ≤ length report.old }
    ensures { Wrote (position_texts full money classes.now figures.now) from report.old result report.new }
{
    let mut next = from;
    for (i, row) in classes.as_slice().iter().enumerate() {
        let class = row.class as usize;
        next = put_position(
            report,
            next,
            full,
            money,
            row.class,
            figures.book.long[class],
            figures.book.short[class],
            figures.margins[i],
        );
    }
    next
}

// The lines of all currencies, rising: K lines, then the Z line.
fn currency_lines(
    report: &mut [u8],
    from: Place,
    full: bool, // or quiet, as `kit` has it
    tables: &Tables,
    figures: &Figures,
) -> Place
    requires writable { Writable tables.now }
    requires room { from + length (currency_texts full tables.now figures.now) ≤ length report.old }
    ensures { Wrote (currency_texts full tables.now figures.now) from report.old result report.new }
{
    let known = tables.securities.currencies.as_slice();
    let each = figures.currencies.as_slice();
    let mut at = from;
    // By rank, and no `zip`: 32-bit code reads otherwise the options of references that its `next` gives.
    for rank in 0..known.len().min(each.len()) {
        let money = known[rank];
        let currency = &each[rank];
        let behind = position_lines(report, at, full, money, &tables.classes, currency);
        at = lines::total_line(
            report,
            behind,
            money,
            currency.mark,
            currency.initial,
            currency.total,
        );
    }
    at
}

// The whole report, from the buffer's start; gives its length.
pub fn write(
    report: &mut [u8],
    full: bool, // or quiet, as `kit` has it
    tables: &Tables,
    figures: &Figures,
) -> Place
    requires writable { Writable tables.now }
    requires room { length (report_text full tables.now figures.now) ≤ length report.old }
    ensures { Wrote (report_text full tables.now figures.now) 0 report.old result report.new }
{
    let at = mark_lines(report, tables, figures);
    currency_lines(report, at, full, tables, figures)
}
