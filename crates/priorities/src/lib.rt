// O rows: read from their lines, judged by the C rows, and put into their table; the section is their table, or the refusal of
// one.
#![tactic(auto)]

ghost use Rattle.std.specs.Prelude.{◌≡◌, true, ℕ, ◌+◌, ◌≤◌, ◌<◌, drop};
ghost use Rattle.paper.specs.Refusals.{priority_kind};
ghost use Rattle.paper.specs.Text.{lines};
ghost use Rattle.paper.specs.Sheet.{section};
ghost use Rattle.answers.specs.Options.{answer};
ghost use Rattle.places.specs.Places.{ended_length, Stands};
ghost use Rattle.tables.specs.Back.{paper_classes, ranged};
ghost use Rattle.priorities.specs.Read.{priority_fields, priority_read};
ghost use Rattle.priorities.specs.Known.{known_of, broken_of};
ghost use Rattle.priorities.specs.Section.{priority_section};

use answers::{Refusal, Refused};
use places::{Line, Place};
use tables::{Classes, Priorities, PriorityRow};

// What stands in the fields of an O row: class; class; factor.
fn priority_fields(s: &[u8], line: &Line) -> Option<PriorityRow>
    requires { (k : ℕ) → k + 1 < 4 → Stands s.now line.now.ends k }
    ensures { result ≡ answer (priority_fields s.now line.now.ends) }
{
    let first = fields::number(line.field(s, 0), 1, 40)?; // class
    let second = fields::number(line.field(s, 1), 1, 40)?; // class
    let factor = fields::number(line.field(s, 2), 0, 10_000)?; // ten-thousandths
    Some(PriorityRow {
        first,
        second,
        factor,
    })
}

// The O row of the line that starts at a place; `end` is the place behind the last LF of the sheet.
fn priority_row(s: &[u8], at: Place, end: Place) -> Result<(PriorityRow, Place), Refusal>
    requires { (at < end) × (end ≡ ended_length s.now) }
    ensures { result ≡ priority_read s.now at }
{
    let line = places::line_at(s, at, end);
    if line.count != 4 {
        return Err(Refusal::Row);
    }
    let row = priority_fields(s, &line).ok_or(Refusal::Field)?;
    Ok((row, line.next))
}

// Which class numbers up to 40 have a C row.
pub fn known_classes(classes: &Classes) -> [bool; 41]
    ensures { result ≡ known_of (paper_classes classes.now) }
{
    let mut known: [bool; 41] = [false; 41];
    for row in classes.as_slice() {
        if row.class <= 40 {
            known[row.class as usize] = true;
        }
    }
    known
}

// The rule that a row breaks with so many above it: there is room, both classes are known.
fn broken(
    known: &[bool; 41],
    count: usize, // rows above
    row: PriorityRow,
) -> Option<Refusal>
    requires { (row.first ≤ 40) × (row.second ≤ 40) }
    ensures { result ≡ broken_of known.now count row }
{
    let known: &[bool] = known; // as a slice: a proof is told its length
    if 200 <= count {
        return Some(Refusal::Count);
    }
    if known[row.first as usize] & known[row.second as usize] {
        None
    } else {
        Some(Refusal::Missing)
    }
}

// The O rows from a place on, with the place behind them. `end` is the place behind the last LF of the sheet.
// Not inlined, so that its stack is free again behind it.
#[inline(never)]
pub fn priority_section(
    s: &[u8],
    from: Place,
    end: Place,
    classes: &Classes,
    first: u32, // line of the first row
) -> Result<(Priorities, Place), Refused>
    requires { (from ≤ end) × (end ≡ ended_length s.now) × (ranged classes.now ≡ true) }
    ensures { result ≡ priority_section s.now from (section (priority_kind (paper_classes classes.now)) (first, lines (drop from s.now))) }
{
    let known = known_classes(classes);
    let mut table = Priorities::new();
    let mut at: Place = from;
    while sections::goes_on(s, at, end, b'O') {
        let line = first as u64 + table.len() as u64; // of the sheet
        let read = priority_row(s, at, end);
        let Ok((row, next)) = read else { // as document 01 names it
            return Err(Refused {
                refusal: read.unwrap_err(),
                line,
            });
        };
        if let Some(refusal) = broken(&known, table.len(), row) {
            return Err(Refused { refusal, line });
        }
        table.push(row);
        at = next;
    }
    Ok((table, at))
}
