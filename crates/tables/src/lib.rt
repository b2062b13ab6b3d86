// The tables of a sheet, as reading makes them and margining takes them. They hold values, and no place of a sheet: a code as one
// number and a currency as another, dates as days, and what judging a row found out. Numbers are no wider than their range.
#![tactic(auto)]

ghost use Rattle.std.specs.Prelude.{◌≡◌, [], ◌≤◌, ◌<◌, take};
ghost use Rattle.arrayvec.specs.ArrayVec.{array_vec_len};
ghost use Rattle.tables.specs.Ranks.{Searchable, found_place, ranked_of, inserted_at};
ghost use Rattle.tables.specs.Held.{no_tables, security_table, held_tables};
ghost use Rattle.tables.specs.Blanks.{no_security};

mod rows;

pub use rows::{Blank, Rows};

pub type Code = u64; // a code as one number, which orders as its bytes do

pub type Money = u64; // a currency as one number, which orders as its bytes do

pub type Factor = u64; // ten-thousandths

// A C row.
#[derive(Clone, Copy, Default)]
pub struct ClassRow {
    pub class: u64, // 1..40
    pub kind: u64, // 0 government, 1 corporate, 2 inflation linked, 3 floating; no enum: `classes::class_of` promises an answer for every number
    pub border: u64, // ten-thousandths of a year; 0 for a kind that has none
    pub deposit: Factor,
}

impl Blank for ClassRow {
    ghost use Rattle.tables.specs.Blanks.{no_class};

    ghost blank = { no_class };

    fn blank() -> ClassRow {
        ClassRow::default()
    }
}

pub type Classes = Rows<ClassRow, 40>; // the C rows

// An O row.
#[derive(Clone, Copy, Default)]
pub struct PriorityRow {
    pub first: u64, // class
    pub second: u64, // class
    pub factor: Factor,
}

impl Blank for PriorityRow {
    ghost use Rattle.tables.specs.Blanks.{no_priority};

    ghost blank = { no_priority };

    fn blank() -> PriorityRow {
        PriorityRow::default()
    }
}

pub type Priorities = Rows<PriorityRow, 200>; // the O rows

impl Blank for Money {
    ghost blank = { 0 };

    fn blank() -> Money {
        0 // no currency
    }
}

pub type Currencies = Rows<Money, 8>; // the currencies of the S rows, rising

// What valuing asks of an S row, with its class and the place of its currency among the rising ones.
#[derive(Clone, Copy, Default)]
pub struct Security {
    pub price: u32, // hundred-thousandths of a percent
    pub coupon: u32, // hundred-thousandths of a percent a year
    pub payments: u32, // a year
    pub previous: u32, // coupon day, from 1 January 2000
    pub next: u32, // coupon day, from 1 January 2000
    pub class: u32, // 1..40
    pub currency: u32, // its place among the currencies
}

impl Blank for Security {
    ghost use Rattle.tables.specs.Blanks.{no_security};

    ghost blank = { no_security };

    fn blank() -> Security {
        no_security()
    }
}

// The S rows, their codes in a column of their own, with the highest number behind them, and their currencies.
#[derive(Clone, Copy)]
pub struct Securities {
    pub rows: Rows<Security, 200>,
    pub codes: [Code; 256], // no vector: `find` looks at all its places, in turns that no count changes
    pub currencies: Currencies,
}

impl Securities {
    // No S rows, and no currency.
    pub fn new() -> Securities
        ensures { result ≡ security_table [] [] }
    {
        Securities {
            rows: Rows::new(),
            codes: [18446744073709551615; 256],
            currencies: Rows::new(),
        }
    }
}

// What valuing asks of a T row, with the place of its security, whether it is margined, and its accrual day.
#[derive(Clone, Copy, Default)]
pub struct Trade {
    pub amount: u64, // cents
    pub rate: i64, // ten-thousandths of a percent; 0 for cash
    pub nominal: u32, // whole units
    pub first: u32, // day, from 1 January 2000
    pub accrual: u32, // day, from 1 January 2000
    pub security: u8, // its place among the S rows
    pub trade: u8, // 0 repo, 1 cash; no enum: `valuation::value_of` promises an answer for every number
    pub side: u8, // 0 seller, 1 purchaser; the same
    pub margined: bool,
}

impl Blank for Trade {
    ghost use Rattle.tables.specs.Blanks.{no_trade};

    ghost blank = { no_trade };

    fn blank() -> Trade {
        Trade::default()
    }
}

pub type Trades = Rows<Trade, 500>; // the T rows

// All tables of a sheet.
#[derive(Clone, Copy)]
pub struct Tables {
    pub classes: Classes,
    pub priorities: Priorities,
    pub securities: Securities,
    pub trades: Trades,
}

// What stands where the table of securities has no row.
pub fn no_security() -> Security
    ensures { result ≡ no_security }
{
    Security {
        price: 0,
        coupon: 0,
        payments: 0,
        previous: 0,
        next: 0,
        class: 0,
        currency: 0,
    }
}

// The tables of no rows.
pub fn no_tables() -> Tables
    ensures { result ≡ held_tables no_tables }
{
    Tables {
        classes: Classes::new(),
        priorities: Priorities::new(),
        securities: Securities::new(),
        trades: Trades::new(),
    }
}

// ---- where a code or a currency stands

// The place of a code among rising ones, by quarters, where it is there. Four turns, whatever the count: the compiler makes them
// one after the other, without a branch that could be guessed wrong, and the three codes of a turn are looked at side by side.
// Tried, and slower: bisection with a branch a step, 2.35 times plain Rust's time for a sheet, where this took 2.1.
pub fn find(
    codes: &[Code; 256],
    count: usize, // codes
    code: Code,
) -> Option<usize>
    requires { (count ≤ 200) × Searchable codes.now count }
    ensures { result ≡ found_place (take count codes.now) code }
{
    let codes: &[Code] = codes; // as a slice: a proof is told its length
    let mut low: usize = 0; // the codes before it are below the code
    let mut size: usize = 256; // codes from there on, among which the first that is not below it stands
    while 1 < size {
        let part = size / 4; // codes
        let first = if codes[low + part - 1] < code {
            part
        } else {
            0
        }; // codes
        let second = if codes[low + 2 * part - 1] < code {
            part
        } else {
            0
        }; // codes
        let third = if codes[low + 3 * part - 1] < code {
            part
        } else {
            0
        }; // codes
        low += first + second + third;
        size = part;
    }
    if low < count && codes[low] == code {
        Some(low)
    } else {
        None
    }
}

// Where a currency stands among rising ones (`Ok`), or would stand: behind those that come before it. As many turns as there are,
// at most eight: no branch depends on what they are, since one that is guessed wrong costs more than the few steps left. Tried, and
// slower: a search with branches, 2.1 times plain Rust's time for a sheet, where this took 2.04.
pub fn ranked(numbers: &[Money], own: Money) -> Result<usize, usize>
    ensures { result ≡ ranked_of numbers.now own }
{
    let mut rank: usize = 0; // currencies before it
    let mut more: usize = 1; // 1 while all so far come before it, then 0
    for &number in numbers {
        more = if number < own { more } else { 0 };
        rank += more;
    }
    if rank < numbers.len() && numbers[rank] == own {
        Ok(rank)
    } else {
        Err(rank)
    }
}

// Rising currencies with one more at its rank, where there are fewer than eight: each from there on gives its place to the one
// before it. Past them all it is put behind the last.
pub fn inserted(
    currencies: Currencies,
    rank: usize, // currencies before it
    own: Money,
) -> Currencies
    requires { array_vec_len currencies < 8 }
    ensures { result ≡ inserted_at currencies rank own }
{
    let mut numbers = currencies;
    let mut moved: Money = own;
    for i in rank..currencies.len() {
        let number: Money = numbers.as_slice()[i];
        numbers.set(i, moved);
        moved = number;
    }
    numbers.push(moved);
    numbers
}
