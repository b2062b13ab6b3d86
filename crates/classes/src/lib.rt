// C rows: read from their lines, judged by those above, and put into their table; the section is their table, or the refusal of
// one. Of the rows above, what judges a row is kept: refusal 9 in constant time.
#![tactic(auto)]

ghost use Rattle.std.specs.Prelude.{◌≡◌, ℕ, [], ◌+◌, ◌≤◌, ◌<◌, drop};
ghost use Rattle.paper.specs.Refusals.{class_kind};
ghost use Rattle.paper.specs.Text.{lines};
ghost use Rattle.paper.specs.Sheet.{section};
ghost use Rattle.answers.specs.Options.{answer};
ghost use Rattle.places.specs.Places.{ended_length, Stands};
ghost use Rattle.tables.specs.Numbers.{kind_number};
ghost use Rattle.tables.specs.Back.{kind_of};
ghost use Rattle.classes.specs.Search.{class_in};
ghost use Rattle.classes.specs.Read.{class_fields, class_read};
ghost use Rattle.classes.specs.Seen.{seen_of, fits_of, after_of, broken_of};
ghost use Rattle.classes.specs.Section.{class_section};

use answers::{Refusal, Refused};
use places::{Line, Place};
use tables::{ClassRow, Classes};

pub type Class = u64; // a class's number: 1 to 40

pub type Kind = u64; // a kind's number, as in `tables::ClassRow`: 0 government, 1 corporate, 2 inflation linked, 3 floating

pub type Duration = u64; // a border, ten-thousandths of a year: 0 for a kind that has none

// What the rows above tell.
#[derive(Clone, Copy)]
struct Seen {
    last: Class, // of the row above; 0, below every class, where there is none: an option would be opened at each comparison
    least: [Duration; 4], // for each kind, the least border that its next row may have: 0 while the kind has no row
}

impl Seen {
    // No row above.
    fn none() -> Seen
        ensures { result ≡ seen_of [] }
    {
        Seen {
            last: 0,
            least: [0; 4],
        }
    }

    // Whether a row may stand below those seen: classes rise, and the borders of one kind.
    fn fits(&self, row: ClassRow) -> bool
        requires { row.kind < 4 }
        ensures { result ≡ fits_of self.now row }
    {
        self.last < row.class && self.least[row.kind as usize] <= row.border
    }

    // The row too is seen.
    fn add(&mut self, row: ClassRow)
        requires { (row.kind < 4) × (row.border ≤ 1_000_000) }
        ensures { self.new ≡ after_of self.old row }
    {
        self.last = row.class;
        self.least[row.kind as usize] = row.border + 1;
    }
}

// What stands in the fields of a C row: class; kind; border; deposit factor.
fn class_fields(s: &[u8], line: &Line) -> Option<ClassRow>
    requires { (k : ℕ) → k + 1 < 5 → Stands s.now line.now.ends k }
    ensures { result ≡ answer (class_fields s.now line.now.ends) }
{
    let class = fields::number(line.field(s, 0), 1, 40)?;
    let kind = fields::kind(line.field(s, 1))?; // by its number
    let border = fields::duration(line.field(s, 2), kind < 2)?; // ten-thousandths of a year
    let deposit = fields::number(line.field(s, 3), 0, 10_000)?; // ten-thousandths
    Some(ClassRow {
        class,
        kind,
        border,
        deposit,
    })
}

// The C row of the line that starts at a place; `end` is the place behind the last LF of the sheet.
fn class_row(s: &[u8], at: Place, end: Place) -> Result<(ClassRow, Place), Refusal>
    requires { (at < end) × (end ≡ ended_length s.now) }
    ensures { result ≡ class_read s.now at }
{
    let line = places::line_at(s, at, end);
    if line.count != 5 {
        return Err(Refusal::Row);
    }
    let row = class_fields(s, &line).ok_or(Refusal::Field)?;
    Ok((row, line.next))
}

// The rule that a row breaks with so many above it: there is room, it fits.
fn broken(
    seen: &Seen,
    count: usize, // rows above
    row: ClassRow,
) -> Option<Refusal>
    requires { row.kind < 4 }
    ensures { result ≡ broken_of seen.now count row }
{
    if 40 <= count {
        Some(Refusal::Count)
    } else if seen.fits(row) {
        None
    } else {
        Some(Refusal::Order)
    }
}

// The C rows from a place on, with the place behind them. `end` is the place behind the last LF of the sheet.
// Not inlined, so that its stack is free again behind it.
#[inline(never)]
pub fn class_section(
    s: &[u8],
    from: Place,
    end: Place,
    first: u32, // line of the first row
) -> Result<(Classes, Place), Refused>
    requires { (from ≤ end) × (end ≡ ended_length s.now) }
    ensures { result ≡ class_section s.now from (section class_kind (first, lines (drop from s.now))) }
{
    let mut table = Classes::new();
    let mut at: Place = from;
    let mut seen = Seen::none();
    while sections::goes_on(s, at, end, b'C') {
        let line = first as u64 + table.len() as u64; // of the sheet
        let read = class_row(s, at, end);
        let Ok((row, next)) = read else { // as document 01 names it
            return Err(Refused {
                refusal: read.unwrap_err(),
                line,
            });
        };
        if let Some(refusal) = broken(&seen, table.len(), row) {
            return Err(Refused { refusal, line });
        }
        table.push(row);
        seen.add(row);
        at = next;
    }
    Ok((table, at))
}

// ---- the class of a security, among the rows of a table

// The kind that a number of the table stands for: each from 3 on is floating.
fn kind_of(
    kind: u64, // by its number
) -> Kind
    ensures { result ≡ kind_number (kind_of kind) }
{
    if kind < 3 { kind } else { 3 }
}

// The number of the first class of a kind whose border is not below a duration.
// By a `for`, and not by `find`, which answers with an option of a reference: 32-bit code reads it otherwise (docs/DECISIONS.md,
// "Hosts").
pub fn class_of(rows: &[ClassRow], kind: Kind, duration: Duration) -> Option<Class>
    ensures { result ≡ class_in rows.now kind duration }
{
    for row in rows {
        if kind_of(row.kind) == kind && duration <= row.border {
            return Some(row.class);
        }
    }
    None
}
