// Sections of a sheet: whether one goes on at a line. What a row and a section answer, how a section's loop goes, and how a row's
// fields are read, is said once, over the row kind, in specs and proofs.
// A section's loop stands with its row kind: what judges a row and what is kept of those above differ in type and in what is lent, and
// one loop over closures for both is no plainer. It goes by a place and counts no index.
#![tactic(auto)]

ghost use Rattle.std.specs.Prelude.{◌≡◌};
ghost use Rattle.places.specs.Places.{ended_length};
ghost use Rattle.sections.specs.Sections.{goes_on};

use places::Place;

// Whether a section goes on at a place: a line stands there, and its whole first field is the section's letter.
// `end` is the place behind the last LF of the sheet.
pub fn goes_on(
    s: &[u8],
    at: Place,
    end: Place,
    letter: u8, // a byte
) -> bool
    requires { (end ≡ ended_length s.now) × (letter ≡ 10 → ⊥) × (letter ≡ 59 → ⊥) }
    ensures { result ≡ goes_on s.now at end letter }
{
    if end <= at {
        return false;
    }
    if s[at] != letter {
        return false;
    }
    let b = s[at + 1]; // a byte
    if b == b';' {
        return true;
    }
    b == b'\n'
}
