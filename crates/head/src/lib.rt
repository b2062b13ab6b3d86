// The head of a sheet: its header and its D row, the fields of which a reader hands out one after another.
#![tactic(auto)]

ghost use Rattle.std.specs.Prelude.{◌≡◌, ◌≤◌, length};
ghost use Rattle.places.specs.Places.{ended_length};
ghost use Rattle.head.specs.Fields.{field_length, handed_out, behind_field};
ghost use Rattle.head.specs.Read.{header_read, date_read};

use answers::Refusal;
use days::{Date, Day};
use places::Place;

// The last date that a calculation may be for.
const LAST_DATE: Date = 23_991_220;

// Stands on the lent sheet, and hands out one field after another, each with the mark that ends it.
#[derive(Drop)]
struct Reader<'a> {
    sheet: &'a [u8],
    at: Place, // where the next field starts
    ghost within: { at ≤ length sheet.now },
}

// The bytes of the field that a text starts with, its mark, `;` or LF, with them; all of the text where it has none.
fn field_length(text: &[u8]) -> usize
    ensures { result ≡ field_length text.now }
{
    for (i, b) in text.iter().enumerate() {
        if *b == b';' || *b == b'\n' {
            return i + 1;
        }
    }
    text.len()
}

impl<'a> Reader<'a> {
    // The field that it stands before; then it stands behind it.
    fn next(&mut self) -> &'a [u8]
        ensures lent { self.new.sheet ≡ self.old.sheet }
        ensures moved { self.new.at ≡ behind_field self.old.sheet.now self.old.at }
        ensures field { result.now ≡ handed_out self.old.sheet.now self.old.at }
    {
        let rest = &self.sheet[self.at..];
        let size = field_length(rest); // bytes
        self.at += size;
        &rest[..size]
    }
}

// The header: `BRM;`, then `1` and LF.
pub fn header(s: &[u8]) -> Result<(), Refusal>
    ensures { result ≡ header_read s.now }
{
    let mut reader = Reader { sheet: s, at: 0 };
    if reader.next() != b"BRM;".as_slice() {
        return Err(Refusal::Header);
    }
    if reader.next() != b"1\n".as_slice() {
        return Err(Refusal::Version);
    }
    Ok(())
}

// The D row, behind a header that is right: its letter, and a day that a calculation may be for; with the place of the next line.
pub fn date_row(s: &[u8]) -> Result<(Day, Place), Refusal>
    requires { 6 ≤ ended_length s.now }
    ensures { result ≡ date_read s.now }
{
    let mut reader = Reader { sheet: s, at: 6 };
    if reader.next() != b"D;".as_slice() {
        return Err(Refusal::Row);
    }
    let text = reader.next().strip_suffix(b"\n").ok_or(Refusal::Row)?; // of the date
    let date = fields::date(text);
    if LAST_DATE < date {
        return Err(Refusal::Date);
    }
    let day = days::day_of(date).ok_or(Refusal::Date)?;
    Ok((day, reader.at))
}
