// A sheet, read: the header, the D row, then the sections C, O, S and T, and no line behind them.
#![tactic(auto)]

ghost use Rattle.std.specs.Prelude.{◌≡◌, ◌≤◌, ◌<◌, length, drop};
ghost use Rattle.paper.specs.Days.{day};
ghost use Rattle.paper.specs.Units.{Date};
ghost use Rattle.paper.specs.Answer.{tables_of};
ghost use Rattle.paper.specs.Text.{lines};
ghost use Rattle.paper.specs.Sheet.{read_tables, read_sheet};
ghost use Rattle.places.specs.Places.{ended_length};
ghost use Rattle.sheet.specs.Whole.{held_sheet};

use answers::{Refusal, Refused};
use days::Day;
use places::Place;
use tables::Tables;

// The sections behind the D row, from a place on line 3; `today` is the day of calculation.
fn tables_from(s: &[u8], from: Place, end: Place, today: Day) -> Result<Tables, Refused>
    requires { (length s.now ≤ 65_536) × (from ≤ end) × (end ≡ ended_length s.now) × (today < 146_097) }
    ensures { (date : Date) → today ≡ day date → result ≡ held_sheet (read_tables date (3, lines (drop from s.now))) }
{
    let (classes, next) = classes::class_section(s, from, end, 3)?;
    let first = 3 + classes.len() as u32; // line of the O rows
    let (priorities, next) = priorities::priority_section(s, next, end, &classes, first)?;
    let second = first + priorities.len() as u32; // line of the S rows
    let (securities, next) = securities::security_section(s, next, end, &classes, second)?;
    let third = second + securities.rows.len() as u32; // line of the T rows
    let working = days::working_after(today);
    let (trades, next) = trades::trade_section(s, next, end, today, working, &securities, third)?;
    if next != s.len() {
        return Err(Refused {
            refusal: Refusal::Row,
            line: third as u64 + trades.len() as u64,
        });
    }
    Ok(Tables {
        classes,
        priorities,
        securities,
        trades,
    })
}

// A sheet of at most 65,536 bytes to its tables, or to the refusal of a line.
fn read_lines(s: &[u8]) -> Result<Tables, Refused>
    requires { length s.now ≤ 65_536 }
    ensures { result ≡ held_sheet (read_sheet s.now) }
{
    if let Err(refusal) = head::header(s) {
        return Err(Refused { refusal, line: 1 });
    }
    let read = head::date_row(s);
    let Ok((today, next)) = read else { // as document 01 names it
        return Err(Refused {
            refusal: read.unwrap_err(),
            line: 2,
        });
    };
    tables_from(s, next, places::ended(s), today)
}

// A sheet to its tables, or to its refusal and line: first by the room of the report buffer, then by its size, then by its lines.
pub fn read_sheet(
    s: &[u8],
    room: usize, // bytes
) -> Result<Tables, Refused>
    ensures { result ≡ held_sheet (tables_of room s.now) }
{
    if room < 32768 {
        return Err(Refused {
            refusal: Refusal::Room,
            line: 0,
        });
    }
    if 65536 < s.len() {
        return Err(Refused {
            refusal: Refusal::Length,
            line: 0,
        });
    }
    read_lines(s)
}
