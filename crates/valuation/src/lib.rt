// One trade, valued: accrued coupon, revaluated amount, repo interest, sign and mark-to-market.
// Whether it is margined, and to which day its coupon accrues, its row knows already.
#![tactic(auto)]

ghost use Rattle.std.specs.Prelude.{◌≡◌, true, ◌≤◌, nat_abs};
ghost use Rattle.paper.specs.Valuation.{accrued as accrued_of, revaluated as revaluated_of, interest as interest_for, sign_of, mark_to_market};
ghost use Rattle.paper.specs.Bounds.{most_quote, most_worth, most_interest_days, most_interest};
ghost use Rattle.valuation.specs.Valued.{Quoted, Ranged, trade_of, side_of, quote_on, interest_on, value_of};

use tables::{Security, Trade};

pub type Day = u32; // from 1 January 2000

pub type Days = u64; // a number of days

pub type Quote = u64; // hundred-thousandths of a percent

pub type Cents = u64;

pub type SignedCents = i64;

pub type Whole = u64; // whole units

pub type SignedWhole = i64; // whole units

pub type Rate = i64; // ten-thousandths of a percent

pub type Sign = i64; // +1 or -1

// A trade's figures; 0 and 0 where it is not margined.
#[derive(Drop)]
pub struct Valued {
    pub worth: SignedCents, // revaluated amount × sign
    pub mark: SignedCents, // mark-to-market
}

// Coupon accrued over the days run of its period.
pub fn accrued(
    coupon: Quote, // a year
    payments: u64, // a year
    run: Days,
    period: Days,
) -> Quote
    requires { (coupon ≤ 2_000_000) × (1 ≤ payments) × (payments ≤ 4) × (run ≤ period) × (1 ≤ period) × (period ≤ 400) }
    ensures { result ≡ accrued_of coupon payments run period }
{
    whole::nearest(coupon * run, payments * period)
}

// What a nominal is worth at a quote.
pub fn revaluated(nominal: Whole, quote: Quote) -> Cents
    requires { (nominal ≤ 100_000_000) × (quote ≤ most_quote) }
    ensures { result ≡ revaluated_of nominal quote }
{
    whole::nearest(nominal * quote, 100000)
}

// Repo interest on an amount; whole units.
pub fn interest(days: Days, amount: Cents, rate: Rate) -> SignedWhole
    requires { (days ≤ most_interest_days) × (amount ≤ 30_000_000_000) × (nat_abs rate ≤ 200_000) }
    ensures { result ≡ interest_for days amount rate }
{
    whole::rounded(
        whole::product(whole::positive(days * amount), rate),
        36000000000,
    )
}

// +1 for who is to receive the bond, -1 for who is to deliver it.
pub fn sign_of(
    trade: u8, // 0 repo, 1 cash; no enum: what it promises, it promises for every number
    side: u8, // 0 seller, 1 purchaser; the same
) -> Sign
    ensures { result ≡ sign_of (trade_of trade) (side_of side) }
{
    match (trade == 1, side == 1) {
        (true, true) | (false, false) => 1, // cash's purchaser, a repo's seller
        (true, false) | (false, true) => -1, // cash's seller, a repo's purchaser
    }
}

// Mark-to-market: (revaluated - amount - 100 × interest) × sign.
pub fn mark_to_market(
    worth: Cents, // revaluated amount
    amount: Cents,
    due: SignedWhole, // interest
    sign: Sign,
) -> SignedCents
    requires { (worth ≤ most_worth) × (amount ≤ 30_000_000_000) × (nat_abs due ≤ most_interest) × (nat_abs sign ≡ 1) }
    ensures { result ≡ mark_to_market worth amount due sign }
{
    let gain = whole::difference(whole::positive(worth), whole::positive(amount)); // cents
    let unsigned = whole::difference(gain, whole::product(100, due)); // cents
    whole::product(unsigned, sign)
}

// Price and coupon accrued on a day of the coupon period.
#[tactic(auto, using(crate::proofs::Within::quote_within))]
fn quote_on(security: Security, day: Day) -> Quote
    requires { Quoted security day }
    ensures { result ≡ quote_on security day }
{
    let run = (day - security.previous) as u64; // days
    let period = (security.next - security.previous) as u64; // days
    let coupon = accrued(
        security.coupon as u64,
        security.payments as u64,
        run,
        period,
    );
    security.price as u64 + coupon
}

// The interest of a trade: cash has none, a repo's runs from its first day to its accrual day.
fn interest_of(trade: Trade) -> SignedWhole
    requires { Ranged trade }
    ensures { result ≡ interest_on trade }
{
    if trade.trade == 1 {
        return 0;
    }
    let days = (trade.accrual - trade.first) as u64;
    interest(days, trade.amount, trade.rate)
}

// The figures of a trade in its security.
#[tactic(auto, using(crate::proofs::Within::within))]
pub fn value_of(trade: Trade, security: Security) -> Valued
    requires { trade.margined ≡ true → Ranged trade × Quoted security trade.accrual }
    ensures { result ≡ value_of trade security }
{
    if !trade.margined {
        return Valued { worth: 0, mark: 0 };
    }
    let worth = revaluated(trade.nominal as u64, quote_on(security, trade.accrual)); // cents
    let sign = sign_of(trade.trade, trade.side);
    Valued {
        worth: whole::product(whole::positive(worth), sign),
        mark: mark_to_market(worth, trade.amount, interest_of(trade), sign),
    }
}
