// What the code answers: refusals by their kinds, each with its number. How an option and a refusal of the paper stand in the code
// is said here once, in specs.
#![tactic(auto)]

ghost use Rattle.std.specs.Prelude.{◌≡◌};
ghost use Rattle.answers.specs.Refusals.{number_of};

pub type Number = u64; // of a refusal

pub type Line = u64; // of a sheet

// Why a sheet is refused, or a question.
#[derive(Clone, Copy)]
pub enum Refusal {
    Room, // the report buffer is too small
    Length, // the sheet is too long
    Header,
    Version,
    Row, // a line that stands in no section, or has not its number of fields
    Field,
    Date,
    Count, // a row too many, or a currency
    Order, // a row that should stand further up
    Missing, // a class or a security that is not on the sheet
    Classless, // a security without a class
    Period, // an accrual day outside the coupon period
    Question, // a currency or a class that the sheet lacks
}

impl Refusal {
    // The number that stands for it in an answer.
    pub fn number(self) -> Number
        ensures { result ≡ number_of self }
    {
        match self {
            Refusal::Room => 1,
            Refusal::Length => 2,
            Refusal::Header => 3,
            Refusal::Version => 4,
            Refusal::Row => 5,
            Refusal::Field => 6,
            Refusal::Date => 7,
            Refusal::Count => 8,
            Refusal::Order => 9,
            Refusal::Missing => 10,
            Refusal::Classless => 11,
            Refusal::Period => 12,
            Refusal::Question => 13,
        }
    }
}

// A refusal and its line.
#[derive(Clone, Copy)]
pub struct Refused {
    pub refusal: Refusal,
    pub line: Line, // of the sheet, 0 where it has none
}
