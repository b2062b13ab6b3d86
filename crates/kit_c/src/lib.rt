// The kit's entries as C functions, each byte buffer as an address and a length: hosts/kit.h.
#![tactic(auto)]

ghost use Rattle.std.specs.Prelude.{◌≡◌};
ghost use Rattle.paper.specs.Report.{full, quiet};
ghost use Rattle.paper.specs.Answer.{kit, explainer};

// The quiet report of a sheet: no K line has long, short and margin all zero.
#[unsafe(no_mangle)]
pub extern "C" fn brm_margin(sheet: &[u8], report: &mut [u8]) -> u64
    ensures { (result, report.new) ≡ kit quiet sheet.now report.old }
{
    kit::brm_margin(sheet, report)
}

// The full report of a sheet: in each currency a K line for every class.
#[unsafe(no_mangle)]
pub extern "C" fn brm_margin_full(sheet: &[u8], report: &mut [u8]) -> u64
    ensures { (result, report.new) ≡ kit full sheet.now report.old }
{
    kit::brm_margin_full(sheet, report)
}

// Why the margin of a class in a currency is what it is.
#[unsafe(no_mangle)]
pub extern "C" fn brm_explain(
    sheet: &[u8],
    currency: &[u8],
    class: u64, // any number
    report: &mut [u8],
) -> u64
    ensures { (result, report.new) ≡ explainer currency.now class sheet.now report.old }
{
    kit::brm_explain(sheet, currency, class, report)
}
