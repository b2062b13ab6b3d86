// T rows: read from their lines, judged by the S rows, and put into their table, each with the place of its security, whether it is
// margined, and its accrual day; the section is their table, or the refusal of one.
#![tactic(auto)]

ghost use Rattle.std.specs.Prelude.{◌≡◌, ℕ, ◌+◌, ◌≤◌, ◌<◌, length, take, drop};
ghost use Rattle.paper.specs.Days.{working_after};
ghost use Rattle.paper.specs.Refusals.{trade_kind};
ghost use Rattle.paper.specs.Text.{date_in, lines};
ghost use Rattle.paper.specs.Sheet.{section};
ghost use Rattle.answers.specs.Options.{answer};
ghost use Rattle.places.specs.Places.{ended_length, Stands};
ghost use Rattle.tables.specs.Ranks.{Searchable};
ghost use Rattle.trades.specs.Read.{rate_of, trade_terms, trade_days, trade_read};
ghost use Rattle.trades.specs.Found.{period_in, margined_on, period_holds, judged_of, Small, trade_of};
ghost use Rattle.trades.specs.Section.{trade_section};

use answers::{Refusal, Refused};
use days::Day;
use places::{Line, Place};
use tables::{Code, Securities, Security, Trade, Trades};

// What a T row says of its trade, but for its dates.
#[derive(Clone, Copy)]
struct Terms {
    trade: u64, // 0 repo, 1 cash; a number as in `tables::Trade`
    side: u64, // 0 seller, 1 purchaser; the same
    number: Code,
    nominal: u64, // whole units
    amount: u64, // cents
    rate: i64, // ten-thousandths of a percent; 0 for cash
}

// A T row.
#[derive(Clone, Copy)]
struct TradeRow {
    code: Place, // where it stands
    terms: Terms,
    first: Day,
    last: Day, // 0 for cash
}

// The rate of a repo; 0 for cash, whose last date and rate are blank.
fn rate_of(cash: bool, last: &[u8], rate: &[u8]) -> Option<i64>
    ensures { result ≡ answer (rate_of cash last.now rate.now) }
{
    if cash {
        (last.is_empty() && rate.is_empty()).then_some(0)
    } else {
        fields::rate(rate)
    }
}

// What stands in the fields of a T row that are no dates: trade; side; code; nominal; amount; rate.
fn trade_terms(s: &[u8], line: &Line) -> Option<Terms>
    requires { (k : ℕ) → k + 1 < 9 → Stands s.now line.now.ends k }
    ensures { result ≡ answer (trade_terms s.now line.now.ends) }
{
    let trade = fields::letter(line.field(s, 0), b'R', b'C')?; // 0 repo, 1 cash
    let side = fields::letter(line.field(s, 1), b'S', b'P')?; // 0 seller, 1 purchaser
    let number = codes::code(line.field(s, 2))?; // of the code
    let nominal = fields::number(line.field(s, 3), 1, 100_000_000)?; // whole units
    let amount = fields::number(line.field(s, 4), 1, 30_000_000_000)?; // cents
    let rate = rate_of(trade == 1, line.field(s, 6), line.field(s, 7))?; // ten-thousandths of a percent
    Some(Terms {
        trade,
        side,
        number,
        nominal,
        amount,
        rate,
    })
}

// The first and the last day of a trade: a repo's last is 1 to 730 days after its first, cash has none, and 0 stands for it.
fn trade_days(cash: bool, first: &[u8], last: &[u8]) -> Option<(Day, Day)>
    ensures { result ≡ answer (trade_days cash (date_in first.now) (date_in last.now)) }
{
    let first = fields::day(first)?;
    if cash {
        return Some((first, 0));
    }
    let last = fields::day(last)?;
    days::follows(first, last, 730).then_some((first, last))
}

// The T row of the line that starts at a place; `end` is the place behind the last LF of the sheet.
fn trade_row(s: &[u8], at: Place, end: Place) -> Result<(TradeRow, Place), Refusal>
    requires { (at < end) × (end ≡ ended_length s.now) }
    ensures { result ≡ trade_read s.now at }
{
    let line = places::line_at(s, at, end);
    if line.count != 9 {
        return Err(Refusal::Row);
    }
    let terms = trade_terms(s, &line).ok_or(Refusal::Field)?;
    let days = trade_days(terms.trade == 1, line.field(s, 5), line.field(s, 6));
    let (first, last) = days.ok_or(Refusal::Date)?;
    let row = TradeRow {
        code: line.ends[2] + 1,
        terms,
        first,
        last,
    };
    Ok((row, line.next))
}

// Whether a trade is margined on a calculation day.
fn is_margined(cash: bool, today: Day, first: Day, last: Day) -> bool
    ensures { result ≡ margined_on cash today first last }
{
    if cash {
        today < first
    } else {
        first <= today && today < last
    }
}

// Whether an accrual day is in the coupon period of its security, as a margined trade asks.
fn in_period(margined: bool, day: Day, security: &Security) -> bool
    ensures { result ≡ period_holds margined day security.now }
{
    !margined || (u64::from(security.previous)..u64::from(security.next)).contains(&day)
}

// What the table keeps of a row.
fn trade_of(
    row: TradeRow,
    security: usize, // its place
    margined: bool,
    accrual: Day,
) -> Trade
    requires { Small row × (security < 200) × (accrual < 150_000) }
    ensures { result ≡ trade_of row security margined accrual }
{
    Trade {
        amount: row.terms.amount,
        rate: row.terms.rate,
        nominal: row.terms.nominal as u32,
        first: row.first as u32,
        accrual: accrual as u32,
        security: security as u8,
        trade: row.terms.trade as u8,
        side: row.terms.side as u8,
        margined,
    }
}

// What the table keeps of a row with so many above it, or the rule that it breaks: there is room, its security is there, its
// accrual day is in the coupon period. `working` is the first working day after calculation.
fn judged(
    row: TradeRow,
    count: usize, // rows above
    today: Day,
    working: Day,
    securities: &Securities,
) -> Result<Trade, Refusal>
    requires row { Small row × (working < 150_000) }
    requires codes { (length securities.now.rows.items ≤ 200) × Searchable securities.now.codes (length securities.now.rows.items) }
    ensures { result ≡ judged_of today working securities.now count row }
{
    if 500 <= count {
        return Err(Refusal::Count);
    }
    let found = tables::find(&securities.codes, securities.rows.len(), row.terms.number);
    let place = found.ok_or(Refusal::Missing)?; // of its security
    let cash = row.terms.trade == 1;
    let margined = is_margined(cash, today, row.first, row.last);
    let accrual: Day = if cash { row.first } else { working };
    if in_period(margined, accrual, &securities.rows[place]) {
        Ok(trade_of(row, place, margined, accrual))
    } else {
        Err(Refusal::Period)
    }
}

// The T rows from a place on, with the place behind them; `today` is the calculation day and `working` the first working day after
// it. `end` is the place behind the last LF of the sheet.
// Not inlined, so that its stack is free again behind it.
#[inline(never)]
pub fn trade_section(
    s: &[u8],
    from: Place,
    end: Place,
    today: Day,
    working: Day,
    securities: &Securities,
    first: u32, // line of the first row
) -> Result<(Trades, Place), Refused>
    requires sheet_and_days { (from ≤ end) × (end ≡ ended_length s.now) × (working ≡ working_after today) × (working < 150_000) }
    requires codes { (length securities.now.rows.items ≤ 200) × Searchable securities.now.codes (length securities.now.rows.items) }
    ensures { result ≡ trade_section today (take (length securities.now.rows.items) securities.now.codes) s.now from (section (trade_kind today (period_in securities.now)) (first, lines (drop from s.now))) }
{
    let mut table = Trades::new();
    let mut at: Place = from;
    while sections::goes_on(s, at, end, b'T') {
        let line = first as u64 + table.len() as u64; // of the sheet
        let read = trade_row(s, at, end);
        let Ok((row, next)) = read else { // as document 01 names it
            return Err(Refused {
                refusal: read.unwrap_err(),
                line,
            });
        };
        let judged = judged(row, table.len(), today, working, securities);
        let Ok(trade) = judged else {
            return Err(Refused {
                refusal: judged.unwrap_err(),
                line,
            });
        };
        table.push(trade);
        at = next;
    }
    Ok((table, at))
}
