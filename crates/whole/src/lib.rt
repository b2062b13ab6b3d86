// Arithmetic with no finance in it: rounding, least and greatest, and signed numbers.
// A number's unit is its caller's: what is divided has the unit of the quotient times that of the divisor.
#![tactic(auto)]

ghost use Rattle.std.specs.Prelude.{◌≡◌, ◌+◌, ◌*◌, ◌<◌, ◌^◌, min, max, pos, neg_ℤ, nat_abs, ◌+ℤ◌, ◌-ℤ◌, ◌*ℤ◌};
ghost use Rattle.paper.specs.Rounding.{nearest as nearest_of, rounded as rounded_of};
ghost use Rattle.paper.specs.Signs.{above_zero, below_zero};

// To the nearest, by quotient and remainder; a tie goes up. Nothing is added to the product, so any will do.
#[tactic(auto, using(paper::proofs::Rounding::nearest_less, paper::proofs::Rounding::nearest_tie, paper::proofs::Rounding::nearest_more))]
pub fn nearest(
    product: u64, // any unit
    divisor: u64, // any unit
) -> u64
    requires { 0 < divisor }
    ensures { result ≡ nearest_of product divisor }
{
    let quotient = product / divisor; // the product's unit over the divisor's
    let remainder = product % divisor; // the product's unit
    let missing = divisor - remainder; // the same
    if remainder < missing {
        quotient // less than half
    } else if remainder == missing {
        quotient + 1 // the tie: up
    } else {
        quotient + 1 // more than half
    }
}

// The smaller of two numbers of one unit.
pub fn least(
    a: u64, // any unit
    b: u64, // the same
) -> u64
    ensures { result ≡ min a b }
{
    a.min(b)
}

// The larger of two numbers of one unit.
pub fn greatest(
    a: u64, // any unit
    b: u64, // the same
) -> u64
    ensures { result ≡ max a b }
{
    a.max(b)
}

// A number not below zero, as a signed one.
pub fn positive(
    n: u64, // any unit
) -> i64
    requires { n < 2 ^ 63 }
    ensures { result ≡ pos n }
{
    n as i64
}

// A size, taken below zero.
pub fn negative(
    n: u64, // any unit
) -> i64
    requires { n < 2 ^ 63 }
    ensures { result ≡ neg_ℤ (pos n) }
{
    difference(0, positive(n))
}

// The part above zero of a signed number, else 0.
pub fn above_zero(
    z: i64, // any unit
) -> u64
    ensures { result ≡ above_zero z }
{
    if z < 0 { 0 } else { z as u64 }
}

// The part below zero of a signed number, taken positive, else 0.
pub fn below_zero(
    z: i64, // any unit
) -> u64
    requires { nat_abs z < 2 ^ 63 }
    ensures { result ≡ below_zero z }
{
    above_zero(difference(0, z))
}

// To the nearest, a tie away from zero: the size is rounded and its sign put back.
#[tactic(auto, using(paper::proofs::Rounding::rounded_pos, paper::proofs::Rounding::rounded_negsuc, paper::proofs::Rounding::nearest_below))]
pub fn rounded(
    product: i64, // any unit
    divisor: u64, // any unit
) -> i64
    requires { (0 < divisor) × (nat_abs product < 2 ^ 63) }
    ensures { result ≡ rounded_of product divisor }
{
    if product < 0 {
        negative(nearest(below_zero(product), divisor))
    } else {
        positive(nearest(above_zero(product), divisor))
    }
}

// A sum of two signed numbers of one unit.
pub fn sum(
    a: i64, // any unit
    b: i64, // the same
) -> i64
    requires { nat_abs a + nat_abs b < 2 ^ 63 }
    ensures { result ≡ a +ℤ b }
{
    a + b
}

// A difference of two signed numbers of one unit.
pub fn difference(
    a: i64, // any unit
    b: i64, // the same
) -> i64
    requires { nat_abs a + nat_abs b < 2 ^ 63 }
    ensures { result ≡ a -ℤ b }
{
    a - b
}

// A product of two signed numbers.
pub fn product(
    a: i64, // any unit
    b: i64, // any unit
) -> i64
    requires { nat_abs a * nat_abs b < 2 ^ 63 }
    ensures { result ≡ a *ℤ b }
{
    a * b
}
