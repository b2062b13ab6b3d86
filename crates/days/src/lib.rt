// Days: what day a date of eight digits is, and which working day comes after a day.
#![tactic(auto)]

mod table;

ghost use Rattle.std.specs.Prelude.{true, ◌≡◌, ◌+◌, ◌-◌, ◌*◌, ◌/◌, ◌≤◌, ◌<◌, take, get_or};
ghost use Rattle.paper.specs.Lists.{between, sum};
ghost use Rattle.paper.specs.Days.{leap, new_years, month_days, is_real, day_in, day_of, weekday, year_of, spring_moon, easter, is_closing, is_open, working_after};
ghost use Rattle.answers.specs.Options.{answer};

pub use table::new_years;

pub type Date = u64; // eight digits as one number

pub type Day = u64; // days from 1 January 2000

pub type Year = u64; // of the Gregorian calendar

pub type Month = u64; // of a year, from 0

pub type Days = u64; // a number of days

pub type DayOfWeek = u64; // 0 for Monday to 6 for Sunday

const SATURDAY: DayOfWeek = 5;

// Every fourth year, but of the centuries every fourth only.
fn is_leap(y: Year) -> bool
    ensures { result ≡ leap y }
{
    y % 4 == 0 && (y % 100 != 0 || y % 400 == 0)
}

// The days of a year before a month, were February of 30 days: then months have 31 and 30 by turns, July and August both 31.
fn even_before(month: Month) -> Days
    requires { month ≤ 12 }
    ensures { result ≡ (367 * month + 5) / 12 }
{
    (367 * month + 5) / 12
}

// The days of a month; 0 past December.
fn month_days(y: Year, month: Month) -> Days
    ensures { result ≡ get_or (month_days (leap y)) month 0 }
{
    if 11 < month {
        return 0;
    }
    if month == 1 {
        if is_leap(y) { 29 } else { 28 }
    } else {
        even_before(month + 1) - even_before(month)
    }
}

// The days of a year before a month.
fn days_before(y: Year, month: Month) -> Days
    requires { month < 12 }
    ensures { result ≡ sum (take month (month_days (leap y))) }
{
    let even = even_before(month); // days
    if month < 2 {
        return even;
    }
    if is_leap(y) { even - 1 } else { even - 2 }
}

// Whether there is such a day of the month; `day` counts from 0.
fn is_real(y: Year, month: Month, day: Days) -> bool
    ensures { result ≡ is_real y month day }
{
    (2000..=2399).contains(&y) && day < month_days(y, month)
}

// The 1 January of a year of the table.
fn new_year(y: Year) -> Day
    requires { (2000 ≤ y) × (y ≤ 2399) }
    ensures { result ≡ get_or new_years (y - 2000) 0 }
{
    new_years()[(y - 2000) as usize]
}

// The day of a year, a month and a day of the month that are real.
fn day_in(y: Year, month: Month, day: Days) -> Day
    requires { is_real y month day ≡ true }
    ensures { result ≡ day_in y month day }
{
    new_year(y) + days_before(y, month) + day
}

// The day of a date, or nothing where there is no such day of 2000 to 2399.
pub fn day_of(date: Date) -> Option<Day>
    ensures { result ≡ answer (day_of date) }
{
    let y: Year = date / 10_000;
    let month = date / 100 % 100; // of the year, from 1
    let day = date % 100; // of the month, from 1
    if 1 <= month && 1 <= day && is_real(y, month - 1, day - 1) {
        Some(day_in(y, month - 1, day - 1))
    } else {
        None
    }
}

// Whether a day is one to so many days after another.
pub fn follows(first: Day, second: Day, most: Days) -> bool
    ensures { result ≡ between 1 most (second - first) }
{
    first < second && second - first <= most
}

// The weekday: 1 January 2000 was a Saturday.
pub fn weekday(day: Day) -> DayOfWeek
    ensures { result ≡ weekday day }
{
    (day % 7 + 5) % 7
}

// The year of a day. No year has more than 366 days, so the guess is never late; over 400 years it is at most one year early.
fn year_of(day: Day) -> Year
    requires { day < 146_400 }
    ensures { result ≡ year_of day }
{
    let guess: Year = 2000 + day / 366;
    if guess == 2399 || day < new_year(guess + 1) {
        guess
    } else {
        guess + 1
    }
}

// The first full moon of spring, in days after 21 March.
fn spring_moon(y: Year) -> Days
    requires { y ≤ 2399 }
    ensures { result ≡ spring_moon y }
{
    let cycle = y % 19; // years
    let century = y / 100; // hundreds of years
    let later = century - century / 4; // days, for leap days left out
    let earlier = (8 * century + 13) / 25; // days, for a moon quicker than its cycle
    let round: Days = (19 * cycle + 15 + later - earlier) % 30;
    match round {
        29 => 28,
        28 if 10 < cycle => 27,
        _ => round,
    }
}

// Easter Sunday: the first Sunday after that moon.
fn easter(y: Year) -> Day
    requires { (2000 ≤ y) × (y ≤ 2399) }
    ensures { result ≡ easter y }
{
    let moon = day_in(y, 2, 20) + spring_moon(y); // day
    let next: Day = moon + 1;
    next + (6 - weekday(next))
}

// Whether a day is one of a year's closing days: 1 January, Good Friday, Easter Monday, 1 May, 25 and 26 December, in the paper's
// order.
fn is_closing(y: Year, day: Day) -> bool
    requires { (2000 ≤ y) × (y ≤ 2399) }
    ensures { result ≡ is_closing y day }
{
    let sunday: Day = easter(y);
    day == day_in(y, 0, 0)
        || day == sunday - 2
        || day == sunday + 1
        || day == day_in(y, 4, 0)
        || day == day_in(y, 11, 24)
        || day == day_in(y, 11, 25)
}

// Whether a day is a working day.
pub fn is_open(day: Day) -> bool
    requires { day < 146_400 }
    ensures { result ≡ is_open day }
{
    weekday(day) < SATURDAY && !is_closing(year_of(day), day)
}

// The first working day after a day. The fifth day is open where the first four are not, so it is not tested.
pub fn working_after(day: Day) -> Day
    requires { day < 146_097 }
    ensures { result ≡ working_after day }
{
    let mut d: Day = day + 1;
    let mut left: Days = 4; // days to test
    let first: Day = loop { // as document 01 names it
        if left == 0 || is_open(d) {
            break d;
        }
        d += 1;
        left -= 1;
    };
    first
}
