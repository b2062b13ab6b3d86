// The figures of document 01 that are not starred, and the cases under tests/, run on the kit itself and compared.
// Its arguments are the cases, each as three files: a sheet, and what the forecast prints for it, quiet and full.
#![tactic(auto)]

ghost use Rattle.std.specs.Prelude.{◌≤◌, ℕ, List, IfOk, OnErr, length};
ghost use Rattle.std.specs.Io.KnownBytes.{Consumes};
ghost use Rattle.given.specs.Bytes.{Gave};

use std::env::Env;
use std::fs::Files;
use std::io::{Print, Read};
use std::{fs, io, str};

// What was run, and whether the kit gave what is expected.
fn say(rt: &impl Print, name: &[u8], same: bool) -> io::Result<()> {
    rt.write_all(name)?;
    if same {
        rt.write_all(b": as expected\n")
    } else {
        rt.write_all(b": DIFFERS\n")
    }
}

// Reads until the room is full or the input ends, and gives what it read.
#[tactic(auto, using(given::proofs::Reading::read_on, given::proofs::Reading::read_all))]
fn read_full<'a, R: Read>(input: &mut R, room: &'a mut [u8]) -> io::Result<&'a [u8]>
    ensures within { IfOk result (λ text. length text.now ≤ length room.old) }
    ensures bytes { IfOk result (λ text. Gave (R.remaining input.old) (R.remaining input.new) (length room.old) text.now) }
    ensures err { OnErr result ((lost : List ℕ) × Consumes (R.remaining input.old) (R.remaining input.new) lost) }
{
    // By hand, since std's `read_to_end` asks for a heap, and its `read_exact` does not say how much it read.
    let mut size: usize = 0; // bytes read
    while size < room.len() {
        let more = input.read(&mut room[size..])?; // bytes
        if more == 0 {
            break;
        }
        size += more;
    }
    Ok(&room[..size])
}

// What stands in a file, as far as there is room; nothing where it cannot be opened.
fn read_file<'a>(rt: &impl Files, name: &[u8], room: &'a mut [u8]) -> io::Result<&'a [u8]>
    ensures { IfOk result (λ text. length text.now ≤ length room.old) }
{
    let Ok(path) = str::from_utf8(name) else {
        return Ok(&[]);
    };
    let Ok(mut file) = fs::open(rt, path) else {
        return Ok(&[]);
    };
    read_full(&mut file, room)
}

// Whether the report of a sheet is the text in the file at a place among the arguments.
fn is_shown(
    rt: &(impl Env + Files),
    sheet: &[u8],
    text_place: usize, // among the arguments
    full: bool, // or quiet, as `shown` has it
) -> io::Result<bool> {
    let mut name_room = [0u8; 4096];
    let mut text_room = [0u8; 32768];
    let mut out = [0u8; 32768];
    let name = given::word(rt.arg(text_place, &mut name_room), &name_room);
    let expected = read_file(rt, name, &mut text_room)?;
    let shown = shown::show(sheet, &mut out, full); // bytes
    Ok(&out[..shown] == expected)
}

// One case, by the place of the first of its three files among the arguments.
fn run_case(
    rt: &(impl Env + Files + Print),
    place: usize, // among the arguments
) -> io::Result<()>
    requires { place ≤ 3_000 }
{
    let mut name_room = [0u8; 4096];
    let mut sheet_room = [0u8; 65537];
    let name = given::word(rt.arg(place, &mut name_room), &name_room);
    let sheet = read_file(rt, name, &mut sheet_room)?;
    let quiet = is_shown(rt, sheet, place + 1, false)?;
    let full = is_shown(rt, sheet, place + 2, true)?;
    say(rt, name, quiet & full)
}

// Whether the entries of both listings refuse a sheet with this number.
fn both_refuse(
    sheet: &[u8],
    out: &mut [u8],
    number: u64, // 65,536 × refusal + line, as the entries give it, for C
) -> bool {
    let quiet = kit::brm_margin(sheet, out); // bytes, or a refusal's number
    let full = kit::brm_margin_full(sheet, out); // bytes, or a refusal's number
    (quiet == number) & (full == number)
}

// Figure 10: a sheet of 65,536 bytes is judged by its lines, here refused 3 by its first, which is empty; one byte more, and
// it is refused 2. A buffer of 32,767 bytes is refused 1, whatever the sheet.
fn run_sizes(rt: &impl Print) -> io::Result<()> {
    let most = [10u8; 65536];
    let over = [10u8; 65537];
    let mut out = [0u8; 32768];
    let mut short = [0u8; 32767];
    let judged = both_refuse(&most, &mut out, 3 * 65536 + 1);
    say(rt, b"a sheet of 65,536 bytes", judged)?;
    let too_long = both_refuse(&over, &mut out, 2 * 65536);
    say(rt, b"a sheet of 65,537 bytes", too_long)?;
    let too_short = both_refuse(&most, &mut short, 65536);
    say(rt, b"a buffer of 32,767 bytes", too_short)
}

fn main(rt: HostRuntime) -> io::Result<()> {
    run_sizes(&rt)?;
    for case in 0..1000 {
        let place: usize = 3 * case + 1; // among the arguments
        if !given::is_there(rt.arg(place + 2, &mut [0])) {
            break;
        }
        run_case(&rt, place)?;
    }
    Ok(())
}
