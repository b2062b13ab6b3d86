// Codes and currencies in a field: letters and digits, with the digit that checks a code, as one number that orders as the bytes
// do.
#![tactic(auto)]

ghost use Rattle.std.specs.Prelude.{◌≡◌, length};
ghost use Rattle.answers.specs.Options.{answer};
ghost use Rattle.codes.specs.Counts.{checked_in, code_in, currency_in};

use tables::{Code, Money};

// What digits count, in two numbers, the second times 256: the last of them once, and doubled. Held apart, they were measured to be
// slower (docs/DECISIONS.md, "Codes").
type Counts = u16;

// What a byte of a code counts (02, b), from `0` to `Z`; 0xffff for a byte that no code has, as `counts_table` says.
static COUNTS: [Counts; 43] = [
    0x0000, 0x0201, 0x0402, 0x0603, 0x0804, 0x0105, 0x0306, 0x0507, 0x0708, 0x0909, 0xffff, 0xffff,
    0xffff, 0xffff, 0xffff, 0xffff, 0xffff, 0x0102, 0x0303, 0x0504, 0x0705, 0x0906, 0x0207, 0x0408,
    0x0609, 0x080a, 0x0a0b, 0x0204, 0x0405, 0x0606, 0x0807, 0x0a08, 0x0309, 0x050a, 0x070b, 0x090c,
    0x0b0d, 0x0306, 0x0507, 0x0708, 0x0909, 0x0b0a, 0x040b,
];

// Twelve bytes as a code's number where eleven letters or digits and a digit stand there, and the digit checks them. One pass: it
// makes the number, and keeps what the digits so far count, both where the last of them counts once and where it is doubled,
// since only the end tells which.
fn checked_number(text: &[u8]) -> Option<Code>
    requires { length text.now ≡ 12 }
    ensures { result ≡ answer (checked_in text.now) }
{
    let mut n: Code = 0; // the bytes so far, in base 43
    let mut counts: Counts = 0; // of all digits so far
    for &b in &text[..11] {
        if !(b'0'..=b'Z').contains(&b) {
            return None;
        }
        let more = COUNTS[usize::from(b - b'0')]; // Counts, of the byte
        if more == 0xffff {
            return None;
        }
        n = 43 * n + u64::from(b - b'0');
        // A letter is two digits: what was doubled before it still is. Behind a digit it is not.
        let moved = if b < b'A' {
            counts / 256 + 256 * (counts % 256)
        } else {
            counts
        }; // Counts, of the digits before the byte
        counts = moved + more;
    }
    let last = text[11]; // a byte
    if !last.is_ascii_digit() {
        return None;
    }
    let digit = last - b'0'; // 0 to 9
    ((counts / 256 + u16::from(digit)) % 10 == 0).then_some(10 * n + u64::from(digit))
}

// A field that is a code as its number.
pub fn code(text: &[u8]) -> Option<Code>
    ensures { result ≡ answer (code_in text.now) }
{
    if text.len() != 12 {
        return None;
    }
    if text[0].is_ascii_uppercase() & text[1].is_ascii_uppercase() {
        checked_number(text)
    } else {
        None
    }
}

// A field that is a currency, three letters, as its number.
pub fn currency(text: &[u8]) -> Option<Money>
    ensures { result ≡ answer (currency_in text.now) }
{
    let &[a, b, c] = text else { // bytes
        return None;
    };
    if a.is_ascii_uppercase() & b.is_ascii_uppercase() & c.is_ascii_uppercase() {
        Some(1849 * u64::from(a - b'0') + 43 * u64::from(b - b'0') + u64::from(c - b'0'))
    } else {
        None
    }
}
