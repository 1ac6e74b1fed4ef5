// Rounding: a numerator over a positive denominator, down, and to the nearest whole number.
#![tactic(auto)]

ghost use Rattle.std.specs.Prelude.{◌≡◌, ◌-◌, ◌*◌, ◌%◌, ◌^◌, ◌≤◌, ◌<◌, pos, nat_abs, ◌<ℤ◌};
ghost use Rattle.rounding.specs.Rounding.{round};
ghost use Rattle.rounding.specs.Internal.Floor.{floor};

// Wholes added before a division and taken away after it, so that no negative number is divided; an i32 has no bit of them.
const WHOLES: i64 = 4294967296;

// Rounded down, and never toward zero: with some wholes more the numerator is not negative.
pub fn floor_division(numerator: i64, denominator: i64) -> i64
    requires { (pos 0 <ℤ denominator) × (nat_abs denominator ≤ 2 ^ 30) × (nat_abs numerator < 2 ^ 32 * nat_abs denominator) }
    ensures { result ≡ floor numerator (nat_abs denominator) }
{
    let raised = numerator + WHOLES * denominator;
    let quotient = raised as u64 / denominator as u64;
    quotient as i64 - WHOLES
}

// Rounded to the nearest whole number, halves going away from zero, and narrowed: the denominator is even, and the numerator at most as
// many denominators as an i32 can say. Below zero the numerator is one less, so that its halves go down.
pub fn rounded(numerator: i64, denominator: i64) -> i32
    requires { (pos 0 <ℤ denominator) × (nat_abs denominator ≤ 2 ^ 30) × (nat_abs numerator ≤ (2 ^ 31 - 1) * nat_abs denominator)
        × (nat_abs denominator % 2 ≡ 0) }
    ensures { result ≡ round numerator (nat_abs denominator) }
{
    let sign = numerator >> 63;
    let top = numerator + sign + denominator / 2;
    let whole = floor_division(top, denominator);
    whole as i32
}
