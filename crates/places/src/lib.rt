// Lines and fields by their places: a line of a lent sheet is looked through once, for where its fields end.
#![tactic(auto)]

ghost use Rattle.std.specs.Prelude.{◌≡◌, ◌+◌, ◌-◌, ◌≤◌, ◌<◌, eqb, length, get_or};
ghost use Rattle.paper.specs.Text.{LF};
ghost use Rattle.places.specs.Places.{ended_length, line_at, field_text, Stands};

pub type Place = usize; // in the sheet, in bytes from its start

// A line: its number of fields, where the first ten end, and where the next line starts.
#[derive(Drop)]
pub struct Line {
    pub count: usize, // fields
    pub ends: [Place; 10], // of the first ten; no vector, since the count goes on past them
    pub next: Place,
}

impl Line {
    // The field so many places behind the letter, as a part of the sheet.
    pub fn field<'a>(
        &self,
        s: &'a [u8],
        k: usize, // fields behind the letter
    ) -> &'a [u8]
        requires { Stands s.now self.now.ends k }
        ensures { result.now ≡ field_text s.now self.now.ends k }
    {
        &s[self.ends[k] + 1..self.ends[k + 1]]
    }

    // Whether a field is blank.
    pub fn is_blank(
        &self,
        k: usize, // fields behind the letter
    ) -> bool
        requires { (k < 9) × (get_or self.now.ends k 0 < 18446744073709551615) }
        ensures { result ≡ eqb (get_or self.now.ends k 0 + 1) (get_or self.now.ends (k + 1) 0) }
    {
        self.ends[k] + 1 == self.ends[k + 1]
    }
}

// The place behind the last LF: each line that starts before it has its LF.
// By a `for` over places, and not by `rposition`, in which there are options of references: 32-bit code reads these otherwise
// (docs/DECISIONS.md, "Hosts").
pub fn ended(s: &[u8]) -> Place
    ensures { result ≡ ended_length s.now }
{
    for i in (0..s.len()).rev() {
        if s[i] == b'\n' {
            return i + 1;
        }
    }
    0
}

// The line that starts at a place. An LF stands right before `end`, so that the line has one.
// Its bytes are looked at by eights, and not by a `for`, which is slower (docs/DECISIONS.md, "Speed"): unrolled, that is too long
// to be put into each caller, where registers run short.
pub fn line_at(s: &[u8], at: Place, end: Place) -> Line
    requires { (at < end) × (end ≤ length s.now) × (get_or s.now (end - 1) 0 ≡ LF) }
    ensures { result ≡ line_at s.now at }
{
    let mut ends: [Place; 10] = [0; 10];
    let mut count: usize = 0; // fields that ended
    let mut i: Place = at;
    loop {
        let mut k: usize = 0; // bytes of the eight
        while k < 8 {
            let b = s[i]; // a byte
            if b == b'\n' {
                if count < 10 {
                    ends[count] = i;
                }
                return Line {
                    count: count + 1,
                    ends,
                    next: i + 1,
                };
            }
            if b == b';' {
                if count < 10 { // there are more
                    ends[count] = i;
                }
                count += 1;
            }
            i += 1;
            k += 1;
        }
    }
}
