// A sheet on standard input to what the forecast prints for it on standard output: its report, quiet, or with one word full; or with
// two words, a currency and a class, why the margin of that class is what it is; and `N;refusal;line` alone where it is refused.
#![tactic(auto)]

ghost use Rattle.std.specs.Prelude.{◌≤◌, ℕ, List, IfOk, OnErr, length};
ghost use Rattle.std.specs.Io.KnownBytes.{Consumes};
ghost use Rattle.given.specs.Bytes.{Gave};
ghost use Rattle.io.specs.Counts.{IsPrefixLen};

use std::env::Env;
use std::io;
use std::io::{Print, Read};

// How many words the call has behind the program's name, counted up to 3.
fn words(rt: &impl Env) -> usize {
    (1..4)
        .take_while(|place| given::is_there(rt.arg(*place, &mut [0])))
        .count()
}

// The explanation for the currency and the class that the words name. A class is written as on the sheet; any other word is a
// class that no sheet has, and so is a word that is too long.
fn show_why(rt: &impl Env, sheet: &[u8], out: &mut [u8]) -> usize
    requires { 32_768 ≤ length out.old }
    ensures { IsPrefixLen result out.new }
{
    let mut currency_room = [0u8; 4096];
    let mut digits_room = [0u8; 4096];
    let currency = given::word(rt.arg(1, &mut currency_room), &currency_room);
    let digits = given::word(rt.arg(2, &mut digits_room), &digits_room);
    let class = fields::number(digits, 1, 40).unwrap_or(0); // 0 for one that no sheet has
    shown::show_why(sheet, currency, class, out)
}

// The quiet report, or where there is one word the full one, or where there are two the explanation that they ask for.
fn show_asked(rt: &impl Env, sheet: &[u8], out: &mut [u8]) -> usize
    requires { 32_768 ≤ length out.old }
    ensures { IsPrefixLen result out.new }
{
    match words(rt) {
        1 => shown::show(sheet, out, true),
        2 => show_why(rt, sheet, out),
        _ => shown::show(sheet, out, false),
    }
}

// Reads until the room is full or the input ends, and gives what it read.
#[tactic(auto, using(given::proofs::Reading::read_on, given::proofs::Reading::read_all))]
fn read_full<'a, R: Read>(input: &mut R, room: &'a mut [u8]) -> io::Result<&'a [u8]>
    ensures within { IfOk result (λ text. length text.now ≤ length room.old) }
    ensures bytes { IfOk result (λ text. Gave (R.remaining input.old) (R.remaining input.new) (length room.old) text.now) }
    ensures err { OnErr result ((lost : List ℕ) × Consumes (R.remaining input.old) (R.remaining input.new) lost) }
{
    // By hand, since std's `read_to_end` asks for a heap, and its `read_exact` does not say how much it read.
    let mut size: usize = 0; // bytes read
    while size < room.len() {
        let more = input.read(&mut room[size..])?; // bytes
        if more == 0 {
            break;
        }
        size += more;
    }
    Ok(&room[..size])
}

fn main(rt: HostRuntime) -> io::Result<()> {
    // One byte more than a sheet may have, so that a longer one is seen.
    let mut room = [0u8; 65537];
    let mut out = [0u8; 32768];
    let sheet = read_full(&mut rt.stdin(), &mut room)?;
    let shown = show_asked(&rt, sheet, &mut out); // bytes
    rt.write_all(&out[..shown])
}
