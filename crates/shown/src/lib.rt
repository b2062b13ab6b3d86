// What the forecast prints: the text of the kit's answer, or `N;refusal;line` alone.
#![tactic(auto)]

ghost use Rattle.std.specs.Prelude.{◌≡◌, ◌/◌, ◌≤◌, ◌<◌, length};
ghost use Rattle.io.specs.Counts.{IsPrefixLen};
ghost use Rattle.paper.specs.Answer.{answer_by, explained, kit};
ghost use Rattle.lines.specs.Written.{Wrote};
ghost use Rattle.shown.specs.Shown.{Told, shown_text};

// What an entry's number tells: the length of the text that stands at the start, or a refusal, whose line is then written there.
// A number stays, since it is what the entries give, for C.
#[tactic(auto, using(crate::proofs::Answers::refusal_short))]
fn tell(
    number: u64, // of an entry
    out: &mut [u8],
) -> usize
    requires { (32_768 ≤ length out.old) × (number / 65_536 < 100) }
    ensures { Told number out.old result out.new }
{
    if number < 65536 {
        number as usize
    } else {
        lines::refusal_line(out, 0, number / 65536, number % 65536)
    }
}

// The number that the kit gives for a sheet, by the entry of the listing.
fn ask(
    sheet: &[u8],
    out: &mut [u8],
    full: bool, // or quiet, as `kit` has it
) -> u64
    ensures { (result, out.new) ≡ kit full sheet.now out.old }
{
    if full {
        kit::brm_margin_full(sheet, out)
    } else {
        kit::brm_margin(sheet, out)
    }
}

// The text of the kit's answer to a sheet, at the start of the lent bytes; gives its length.
// No slice of them is given, since `written` says what each of the lent bytes is afterwards.
pub fn show(
    sheet: &[u8],
    out: &mut [u8],
    full: bool, // or quiet, as `kit` has it
) -> usize
    requires { 32_768 ≤ length out.old }
    ensures written { Wrote (shown_text (answer_by full (length out.old) sheet.now)) 0 out.old result out.new }
    ensures prefix { IsPrefixLen result out.new }
{
    let number = ask(sheet, out, full);
    tell(number, out)
}

// ... and to a question about it.
pub fn show_why(
    sheet: &[u8],
    currency: &[u8],
    class: u64, // any number
    out: &mut [u8],
) -> usize
    requires { 32_768 ≤ length out.old }
    ensures written { Wrote (shown_text (explained (length out.old) sheet.now currency.now class)) 0 out.old result out.new }
    ensures prefix { IsPrefixLen result out.new }
{
    let number = kit::brm_explain(sheet, currency, class, out);
    tell(number, out)
}
