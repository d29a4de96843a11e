#![tactic(auto)]
// Floats to whole numbers, and the lesser and the greater of two floats. Every `f32` has an answer.
ghost use Rattle.std.specs.Prelude.{◌≡◌, ◌+◌, ◌*◌, ◌^◌, ◌≤◌, true, false, T, pos};
ghost use Rattle.std.specs.Float.Ieee as Ieee;
ghost use Rattle.std.specs.Float.{fin};
ghost use Rattle.std.specs.Float.Ieee.{to_signed};
ghost use Rattle.std.specs.Float.Ieee.Positive.{num, den};
ghost use Rattle.ops.specs.Round.{fraction, rounded_to, floor_to, ceil_to};
ghost use Rattle.ops.specs.Order.{lesser_of, greater_of};

// How many times 2^-23 an x is that is at least 1 and below 2^31: no digit is lost.
// In x's bits, `exponent` is 127 at 1.0 and one more at each doubling, and `digits` are x's 24 digits with the leading one put back.
// The largest such f32 is 2^31 - 2^7, so `whole` has room to round up.
fn scaled(x: f32) -> u64
    requires at_least_one { T (Ieee.le (fin false 1 (pos 0)) x) }
    requires below_limit { T (Ieee.lt x (fin false 1 (pos 31))) }
    ensures same_value { num x * 2 ^ 23 ≡ result * den x }
    ensures room { result + 2 ^ 30 ≤ 2 ^ 54 }
{
    let bits = f32::to_bits(x) as u64;
    let exponent = bits >> 23;
    let digits = (bits & 0x7f_ffff) | 0x80_0000;
    digits << (exponent - 127)
}

// Such an x as a whole number: the one at or above it where it is to go away from zero, and else the one at or below it.
fn whole<const AWAY: bool>(x: f32) -> i32
    requires at_least_one { T (Ieee.le (fin false 1 (pos 0)) x) }
    requires below_limit { T (Ieee.lt x (fin false 1 (pos 31))) }
    ensures { result ≡ pos (fraction AWAY (num x) (den x)) }
{
    let parts = scaled(x);
    let raised = if AWAY { parts + 0x7f_ffff } else { parts };
    (raised >> 23) as i32
}

// The rounding that the three below share: which of the numbers above 0 and below 0 go away from zero. The others go toward it.
// NaN passes no test, and so gives 0.
fn rounded<const ABOVE_AWAY: bool, const BELOW_AWAY: bool>(x: f32) -> i32
    ensures { result ≡ rounded_to 31 ABOVE_AWAY BELOW_AWAY x }
{
    if x >= 1.0 {
        if x < 2147483648.0 {
            return whole::<ABOVE_AWAY>(x);
        }
        return i32::MAX;
    }
    if x < 0.0 {
        if x > -1.0 {
            return if BELOW_AWAY { -1 } else { 0 };
        }
        if x > -2147483648.0 {
            return -whole::<BELOW_AWAY>(-x);
        }
        return i32::MIN;
    }
    if ABOVE_AWAY && x > 0.0 {
        return 1;
    }
    0
}

// Toward zero.
#[tactic(auto, using(crate::proofs::Rounding::truncation_is))]
pub fn truncate(x: f32) -> i32
    ensures { result ≡ to_signed 31 x }
{
    rounded::<false, false>(x)
}

// Down.
#[tactic(auto, using(crate::proofs::Rounding::floor_is))]
pub fn floor(x: f32) -> i32
    ensures { result ≡ floor_to 31 x }
{
    rounded::<false, true>(x)
}

// Up.
#[tactic(auto, using(crate::proofs::Rounding::ceil_is))]
pub fn ceil(x: f32) -> i32
    ensures { result ≡ ceil_to 31 x }
{
    rounded::<true, false>(x)
}

// The lesser and the greater are two functions: with one, and a parameter for the side, the comparison would be no plainer.
#[tactic(auto, unfolding(crate::specs::Order::lesser_of))]
pub fn lesser(a: f32, b: f32) -> f32
    ensures { result ≡ lesser_of a b }
{
    if b < a { b } else { a }
}

#[tactic(auto, unfolding(crate::specs::Order::greater_of))]
pub fn greater(a: f32, b: f32) -> f32
    ensures { result ≡ greater_of a b }
{
    if a < b { b } else { a }
}
