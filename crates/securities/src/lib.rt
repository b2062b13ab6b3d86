// S rows: read from their lines, judged by those above and by the C rows, and put into their table, each with its class and the
// place of its currency among the rising ones; the section is their table, or the refusal of one.
#![tactic(auto)]

ghost use Rattle.std.specs.Prelude.{◌≡◌, true, ℕ, ◌+◌, ◌≤◌, ◌<◌, length, drop};
ghost use Rattle.paper.specs.Refusals.{security_kind};
ghost use Rattle.paper.specs.Text.{lines};
ghost use Rattle.paper.specs.Sheet.{section};
ghost use Rattle.answers.specs.Options.{answer};
ghost use Rattle.places.specs.Places.{ended_length, Stands};
ghost use Rattle.tables.specs.Back.{paper_classes, ranged};
ghost use Rattle.securities.specs.Read.{security_terms, coupon_dates, security_read};
ghost use Rattle.securities.specs.Ranks.{with_rank};
ghost use Rattle.securities.specs.Section.{security_section, judged_of, Small, security_of};

use answers::{Refusal, Refused};
use classes::{Class, Duration, Kind};
use days::Day;
use places::{Line, Place};
use tables::{Classes, Code, Money, Rows, Securities, Security};

// What an S row says of its security, but for its coupon dates.
#[derive(Clone, Copy)]
struct Terms {
    number: Code,
    currency: Money,
    kind: Kind,
    duration: Duration, // 0 for a kind that has none
    price: u64, // hundred-thousandths of a percent
    coupon: u64, // hundred-thousandths of a percent a year
    payments: u64, // a year
}

// An S row.
#[derive(Clone, Copy)]
struct SecurityRow {
    code: Place, // where it stands: document 01 wants it in the row's answer
    terms: Terms,
    previous: Day, // coupon
    next: Day, // coupon
}

// What stands in the fields of an S row that are no dates: code; currency; kind; duration; price; coupon; payments a year.
fn security_terms(s: &[u8], line: &Line) -> Option<Terms>
    requires { (k : ℕ) → k + 1 < 10 → Stands s.now line.now.ends k }
    ensures { result ≡ answer (security_terms s.now line.now.ends) }
{
    let number = codes::code(line.field(s, 0))?; // of the code
    let currency = codes::currency(line.field(s, 1))?; // by its number
    let kind = fields::kind(line.field(s, 2))?; // by its number
    let duration = fields::duration(line.field(s, 3), kind < 2)?; // ten-thousandths of a year
    let price = fields::number(line.field(s, 4), 1, 20_000_000)?; // hundred-thousandths of a percent
    let coupon = fields::number(line.field(s, 5), 0, 2_000_000)?; // hundred-thousandths of a percent a year
    let payments = fields::number(line.field(s, 6), 1, 4)?; // a year
    if payments == 3 {
        return None;
    }
    Some(Terms {
        number,
        currency,
        kind,
        duration,
        price,
        coupon,
        payments,
    })
}

// The previous and the next coupon date of an S row, where they are days, the second 1 to 400 days after the first.
fn coupon_dates(s: &[u8], line: &Line) -> Option<(Day, Day)>
    requires { (k : ℕ) → k + 1 < 10 → Stands s.now line.now.ends k }
    ensures { result ≡ answer (coupon_dates s.now line.now.ends) }
{
    let previous = fields::day(line.field(s, 7))?;
    let next = fields::day(line.field(s, 8))?;
    days::follows(previous, next, 400).then_some((previous, next))
}

// The S row of the line that starts at a place; `end` is the place behind the last LF of the sheet.
fn security_row(s: &[u8], at: Place, end: Place) -> Result<(SecurityRow, Place), Refusal>
    requires { (at < end) × (end ≡ ended_length s.now) }
    ensures { result ≡ security_read s.now at }
{
    let line = places::line_at(s, at, end);
    if line.count != 10 {
        return Err(Refusal::Row);
    }
    let terms = security_terms(s, &line).ok_or(Refusal::Field)?;
    let (previous, next) = coupon_dates(s, &line).ok_or(Refusal::Date)?;
    let row = SecurityRow {
        code: line.ends[0] + 1,
        terms,
        previous,
        next,
    };
    Ok((row, line.next))
}

// The class of a row, or the rule that it breaks: there is room for it and for its currency, its code rises, it has a class.
fn judged(
    above: &Securities,
    there: bool, // its currency stands above
    last: Option<Code>, // above
    number: Code,
    class: Option<Class>,
) -> Result<Class, Refusal>
    ensures { result ≡ judged_of (length above.now.rows.items) there (length above.now.currencies.items) last number class }
{
    if 200 <= above.rows.len() || (!there && 8 <= above.currencies.len()) {
        return Err(Refusal::Count);
    }
    if let Some(last) = last {
        if number <= last {
            return Err(Refusal::Order);
        }
    }
    class.ok_or(Refusal::Classless)
}

// What the table keeps of a row. The place of its currency is given when all rows are read.
fn security_of(row: SecurityRow, class: Class) -> Security
    requires { Small row × (class ≤ 40) }
    ensures { result ≡ security_of row class }
{
    Security {
        price: row.terms.price as u32,
        coupon: row.terms.coupon as u32,
        payments: row.terms.payments as u32,
        previous: row.previous as u32,
        next: row.next as u32,
        class: class as u32,
        currency: 0,
    }
}

// Gives rows the places of their currencies among all that there are.
fn with_ranks(
    rows: &mut Rows<Security, 200>,
    money: &[Money], // of the rows
    currencies: &[Money],
)
    requires { (length money.now ≤ length rows.old.items) × (length currencies.now ≤ 8) }
    ensures { rows.new.items ≡ with_rank currencies.now money.now rows.old.items }
{
    // By their index: `rows.iter_mut().zip(money)` was tried, and no invariant can name the rows that it writes.
    for (i, &own) in money.iter().enumerate() {
        let (Ok(rank) | Err(rank)) = tables::ranked(currencies, own);
        let mut row = rows.as_slice()[i];
        row.currency = rank as u32;
        rows.set(i, row);
    }
}

// The S rows from a place on, with the place behind them. `end` is the place behind the last LF of the sheet.
// Not inlined, so that its stack is free again behind it.
#[inline(never)]
pub fn security_section(
    s: &[u8],
    from: Place,
    end: Place,
    classes: &Classes,
    first: u32, // line of the first row
) -> Result<(Securities, Place), Refused>
    requires { (from ≤ end) × (end ≡ ended_length s.now) × (ranged classes.now ≡ true) }
    ensures { result ≡ security_section (paper_classes classes.now) s.now from (section (security_kind (paper_classes classes.now)) (first, lines (drop from s.now))) }
{
    let mut table = Securities::new();
    // Beside the rows, not in them: a row has its currency's place, which is not known before the last row.
    let mut money: Rows<Money, 200> = Rows::new();
    let mut last: Option<Code> = None;
    let mut at: Place = from;
    while sections::goes_on(s, at, end, b'S') {
        let count = table.rows.len(); // rows
        let line = first as u64 + count as u64; // of the sheet
        let read = security_row(s, at, end);
        let Ok((row, next)) = read else { // as document 01 names it
            return Err(Refused {
                refusal: read.unwrap_err(),
                line,
            });
        };
        let terms = row.terms;
        let standing = tables::ranked(table.currencies.as_slice(), terms.currency);
        let class = classes::class_of(classes.as_slice(), terms.kind, terms.duration);
        let judged = judged(&table, standing.is_ok(), last, terms.number, class);
        let Ok(class) = judged else {
            return Err(Refused {
                refusal: judged.unwrap_err(),
                line,
            });
        };
        if let Err(rank) = standing {
            table.currencies = tables::inserted(table.currencies, rank, terms.currency);
        }
        table.rows.push(security_of(row, class));
        table.codes[count] = terms.number;
        money.push(terms.currency);
        last = Some(terms.number);
        at = next;
    }
    with_ranks(
        &mut table.rows,
        money.as_slice(),
        table.currencies.as_slice(),
    );
    Ok((table, at))
}
