// From tables to figures: each trade's mark-to-market, and for each currency the remaining positions and margin of each
// class, the initial margin and the total.
#![tactic(auto)]

ghost use Rattle.std.specs.Prelude.{◌≡◌, ℕ, ◌+◌, ◌≤◌, ◌<◌, ◌^◌, pos, nat_abs, ◌+ℤ◌, length, get_or, set};
ghost use Rattle.paper.specs.Lists.{Each};
ghost use Rattle.paper.specs.Rounding.{rounded as rounded_of};
ghost use Rattle.paper.specs.Offsetting.{total as total_of};
ghost use Rattle.paper.specs.Bounds.{PriorityFacts, BookFacts, most_net_cents, most_position, most_initial, most_mark_sum};
ghost use Rattle.offsetting.specs.Books.{book_of, row_of};
ghost use Rattle.margin.specs.Sums.{Placed, sums_of};
ghost use Rattle.margin.specs.Openings.{Seated, with_net, nets_of, openings_of};
ghost use Rattle.margin.specs.Figures.{ClassRanged, TablesRanged, Opened, margin_in, margins_of, opening_of, currency_of, figures_of};

use offsetting::{Book, Whole};
use tables::{Blank, ClassRow, PriorityRow, Rows, Security, Tables, Trade};
use valuation::{Cents, SignedCents};

// The sums of the trades. No vectors: a mark or a sum is written where its trade, security or currency stands, from the last trade on.
#[derive(Drop)]
struct Sums {
    pub marks: [SignedCents; 500], // of each trade, 0 where it is not margined
    pub worths: [SignedCents; 200], // of each security
    pub totals: [SignedCents; 8], // mark-to-market of each currency
}

// The margins of the classes, and their sum.
#[derive(Drop)]
struct Margins {
    pub each: [Whole; 40], // by the places of the C rows; no vector: written from the last row on
    pub initial: Whole,
}

// What one currency begins with.
#[derive(Drop)]
pub struct Opening {
    pub worths: [SignedCents; 200], // of each security, of this currency or another
    pub book: Book,
}

// The figures of one currency.
#[derive(Clone, Copy, Default)]
pub struct Currency {
    pub book: Book, // remaining
    pub margins: [Whole; 40], // by the places of the C rows; no vector, as in the margins
    pub mark: SignedCents,
    pub initial: Whole,
    pub total: Cents,
}

impl Blank for Currency {
    ghost use Rattle.margin.specs.Blanks.{no_currency};

    ghost blank = { no_currency };

    // What stands where there is no currency.
    fn blank() -> Currency {
        Currency {
            book: Book {
                long: [0; 41],
                short: [0; 41],
            },
            margins: [0; 40],
            mark: 0,
            initial: 0,
            total: 0,
        }
    }
}

// The figures of a sheet.
#[derive(Clone, Copy)]
pub struct Figures {
    pub marks: [SignedCents; 500], // of each trade, 0 where it is not margined; no vector, as in the sums
    pub currencies: Rows<Currency, 8>, // rising
}

// An amount onto the sum at a place.
fn add_to(
    sums: &mut [SignedCents],
    place: usize, // among the sums
    amount: SignedCents,
)
    requires { (place < length sums.old) × (nat_abs amount + nat_abs (get_or sums.old place (pos 0)) < 2 ^ 63) }
    ensures { sums.new ≡ set sums.old place (amount +ℤ get_or sums.old place (pos 0)) }
{
    sums[place] = whole::sum(amount, sums[place]);
}

// The trades valued and summed, from the last to the first.
fn sums_of(trades: &[Trade], securities: &Rows<Security, 200>) -> Sums
    requires { (length trades.now ≤ 500) × Each (Placed securities.now.items) trades.now }
    ensures { result ≡ sums_of securities.now.items trades.now }
{
    let mut sums = Sums {
        marks: [0; 500],
        worths: [0; 200],
        totals: [0; 8],
    };
    // By index: backwards over an iterator, an invariant has the items so far and no place to write a mark at.
    for i in (0..trades.len()).rev() {
        let place = trades[i].security as usize; // among the securities
        let security = securities.at(place); // zeros behind the rows
        let valued = valuation::value_of(trades[i], security);
        sums.marks[i] = valued.mark;
        add_to(&mut sums.worths, place, valued.worth);
        add_to(&mut sums.totals, security.currency as usize, valued.mark);
    }
    sums
}

// A security's worth is rounded once to its net, which is long or short.
#[tactic(auto, using(crate::proofs::Positions::net_small))]
fn add_net(book: &mut Book, class: usize, worth: SignedCents)
    requires { (class ≤ 40) × (nat_abs worth ≤ most_net_cents) × (get_or book.old.long class 0 ≤ most_position) × (get_or book.old.short class 0 ≤ most_position) }
    ensures { book.new ≡ with_net class (rounded_of worth 100) book.old }
{
    let net = whole::rounded(worth, 100); // whole units
    book.long[class] += whole::above_zero(net);
    book.short[class] += whole::below_zero(net);
}

// The opening positions of each currency, from the last security to the first.
fn openings_of(securities: &[Security], worths: &[SignedCents; 200]) -> [Book; 8]
    requires { (length securities.now ≤ 200) × Each Seated securities.now × ((i : ℕ) → nat_abs (get_or worths.now i (pos 0)) ≤ most_net_cents) }
    ensures { result ≡ openings_of (nets_of securities.now worths.now) }
{
    let mut openings = [Book::default(); 8];
    // By index: there is room for more worths than securities, and a zip that goes backwards would first make them even.
    for i in (0..securities.len()).rev() {
        let security = securities[i];
        add_net(
            &mut openings[security.currency as usize],
            security.class as usize,
            worths[i],
        );
    }
    openings
}

// The opening positions of the currency of a rank, with the worths that its securities' nets are rounded from.
// Not inlined, so that its stack is free again behind it.
#[inline(never)]
pub fn opening_of(
    tables: &Tables,
    rank: usize, // currency
) -> Opening
    requires { TablesRanged tables.now × (rank < 8) }
    ensures value { result ≡ opening_of tables.now rank }
    ensures amounts { Opened result }
{
    let trades = tables.trades.as_slice();
    let securities = tables.securities.rows.as_slice();
    let Sums { worths, .. } = sums_of(trades, &tables.securities.rows);
    let openings = openings_of(securities, &worths);
    let book = openings[rank]; // whole units
    Opening { worths, book }
}

// The margin of a class: its deposit factor's share of the larger remaining side.
fn margin_of(row: ClassRow, book: &Book) -> Whole
    requires { ClassRanged row × BookFacts (book_of book.now) }
    ensures { result ≡ margin_in (book_of book.now) row }
{
    let class = row.class as usize;
    offsetting::share(
        row.deposit,
        whole::greatest(book.long[class], book.short[class]),
    )
}

// The margins of the classes, and their sum, from the last to the first.
fn margins_of(classes: &[ClassRow], book: &Book) -> Margins
    requires { (length classes.now ≤ 40) × Each ClassRanged classes.now × BookFacts (book_of book.now) }
    ensures { result ≡ margins_of (book_of book.now) classes.now }
{
    let mut margins = Margins {
        each: [0; 40],
        initial: 0,
    };
    // By index: backwards over an iterator, an invariant has the items so far and no place to write a margin at.
    for i in (0..classes.len()).rev() {
        let margin = margin_of(classes[i], book); // whole units
        margins.each[i] = margin;
        margins.initial += margin;
    }
    margins
}

// 100 × initial less the mark-to-market sum, or 0 where that is below zero.
fn total(initial: Whole, mark: SignedCents) -> Cents
    requires { (initial ≤ most_initial) × (nat_abs mark ≤ most_mark_sum) }
    ensures { result ≡ total_of initial mark }
{
    whole::above_zero(whole::difference(whole::positive(100 * initial), mark))
}

// The figures of one currency from its opening positions.
fn currency_of(
    mut book: Book,
    classes: &[ClassRow],
    priorities: &[PriorityRow],
    mark: SignedCents,
) -> Currency
    requires rows { (length classes.now ≤ 40) × Each ClassRanged classes.now × Each (λ o. PriorityFacts (row_of o)) priorities.now }
    requires amounts { BookFacts (book_of book) × (nat_abs mark ≤ most_mark_sum) }
    ensures { result ≡ currency_of classes.now priorities.now mark (book_of book) }
{
    book.offset_all(priorities);
    let Margins {
        each: margins,
        initial,
    } = margins_of(classes, &book);
    Currency {
        book,
        margins,
        mark,
        initial,
        total: total(initial, mark),
    }
}

// The figures of an accepted sheet.
// Not inlined, so that its stack is free again behind it.
#[inline(never)]
pub fn figures_of(tables: &Tables) -> Figures
    requires { TablesRanged tables.now }
    ensures { result ≡ figures_of tables.now }
{
    let classes = tables.classes.as_slice();
    let priorities = tables.priorities.as_slice();
    let securities = tables.securities.rows.as_slice();
    let trades = tables.trades.as_slice();
    let Sums {
        marks,
        worths,
        totals,
    } = sums_of(trades, &tables.securities.rows);
    let openings = openings_of(securities, &worths);
    let mut currencies = Rows::new();
    // By rank: openings and totals have places that no currency has.
    for rank in 0..tables.securities.currencies.len() {
        currencies.push(currency_of(openings[rank], classes, priorities, totals[rank]));
    }
    Figures { marks, currencies }
}
