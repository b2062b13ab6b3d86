// The kit's entries, for a spreadsheet and other hosts: a sheet and a lent report buffer to one number. Accepted, the text's length,
// the text at the buffer's start; refused, 65,536 × refusal + line, the buffer as it was.
#![tactic(auto)]

ghost use Rattle.std.specs.Prelude.{◌≡◌, ◌≤◌, IfErr};
ghost use Rattle.paper.specs.Report.{full, quiet};
ghost use Rattle.paper.specs.Answer.{kit, explainer};
ghost use Rattle.kit.specs.Numbers.{number_given};

use answers::{Refusal, Refused};
use lines::Place;

// The one number of an answer.
fn number(answer: Result<Place, Refused>) -> u64
    requires { IfErr answer (λ f. f.line ≤ 65_535) }
    ensures { result ≡ number_given answer }
{
    match answer {
        Ok(length) => length as u64,
        Err(refused) => 65536 * refused.refusal.number() + refused.line,
    }
}

// The report of a sheet, full or quiet; gives its length.
fn report_on(
    sheet: &[u8],
    report: &mut [u8],
    all: bool, // the K lines, or those that are not of zeros: a bool, as the paper's listing is
) -> Result<Place, Refused>
    ensures answer { (number_given result, report.new) ≡ kit all sheet.now report.old }
    ensures small { IfErr result (λ f. f.line ≤ 65_535) }
{
    // Looked at where it stands: `?` would move the tables twice, and a call's stack is to stay below 256 KB.
    match &sheet::read_sheet(sheet, report.len()) {
        Ok(tables) => {
            let figures = margin::figures_of(tables);
            Ok(report::write(report, all, tables, &figures))
        }
        Err(refused) => Err(*refused),
    }
}

// Why the margin of a class in a currency is what it is; gives the explanation's length.
fn explain(
    sheet: &[u8],
    currency: &[u8],
    class: u64, // any number
    report: &mut [u8],
) -> Result<Place, Refused>
    ensures answer { (number_given result, report.new) ≡ explainer currency.now class sheet.now report.old }
    ensures small { IfErr result (λ f. f.line ≤ 65_535) }
{
    match &sheet::read_sheet(sheet, report.len()) {
        Ok(tables) => {
            let Some(rank) = reasons::asked(tables, currency, class) else {
                return Err(Refused {
                    refusal: Refusal::Question,
                    line: 0,
                });
            };
            Ok(reasons::write(report, tables, rank, class as usize))
        }
        Err(refused) => Err(*refused),
    }
}

// The quiet report of a sheet: no K line has long, short and margin all zero.
pub fn brm_margin(sheet: &[u8], report: &mut [u8]) -> u64
    ensures { (result, report.new) ≡ kit quiet sheet.now report.old }
{
    number(report_on(sheet, report, false))
}

// The full report of a sheet: in each currency a K line for every class.
pub fn brm_margin_full(sheet: &[u8], report: &mut [u8]) -> u64
    ensures { (result, report.new) ≡ kit full sheet.now report.old }
{
    number(report_on(sheet, report, true))
}

// Why the margin of a class in a currency is what it is.
pub fn brm_explain(
    sheet: &[u8],
    currency: &[u8],
    class: u64, // any number
    report: &mut [u8],
) -> u64
    ensures { (result, report.new) ≡ explainer currency.now class sheet.now report.old }
{
    number(explain(sheet, currency, class, report))
}
