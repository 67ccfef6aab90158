// Module 1: what Rust has of `f64` and Rattle has not. Root, truncation and rounding up, proved equal to
// IEEE 754's definitions, total on every value; and the tests of a float that the layers above share.
#![tactic(auto)]

ghost use Rattle.std.specs.Prelude.{◌≡◌, ℕ, ◌+◌, ◌-◌, ◌*◌, ◌^◌, ◌<◌, ◌≤◌, IfSome, from_bits};
ghost use Rattle.std.specs.Float.{binary64};
ghost use Rattle.std.specs.Float.Ieee.{to_unsigned};
ghost use Rattle.floats.specs.Sqrt.{root_of, sqrt_of};
ghost use Rattle.floats.specs.Posts.{Rounded, Written};
ghost use Rattle.floats.specs.Ceil.{ceil_of};
ghost use Rattle.floats.specs.Tests.{abs_of, min_of, max_of, finite, within, same_bits};

// A number from 1 up and below 4: in units of 2^-52, and as the bit pattern of an `f64`, which `guess` reads. Nothing is
// proved of how near the two are.
#[derive(Clone, Copy)]
struct Radicand {
    units: u64,
    pattern: u64,
    ghost from_one: { 2 ^ 52 ≤ units },
    ghost below_four: { units ≤ 2 ^ 54 - 2 },
    ghost finite: { pattern < 2047 * 2 ^ 52 },
}

// The 53 binary digits of a normal value, as a whole number.
#[derive(Clone, Copy)]
struct Significand {
    digits: u64,
    ghost from_one: { 2 ^ 52 ≤ digits },
    ghost below_two: { digits < 2 ^ 53 },
}

// The whole number nearest to √(m.units * 2^52), a binary digit at a time. After each turn r is the root
// of the digits read so far, cut to a whole number, and `rest` what they are above its square.
fn root(m: Radicand) -> u64
    ensures { Rounded (m.units * 2 ^ 52) result }
{
    // the digits to read, the next two on top; after the first 27 turns they are zeros
    let mut w: u64 = m.units * 1024;
    let mut r: u64 = 0;
    let mut rest: u64 = 0;
    for _ in 0..53_u64 {
        rest = rest * 4 + w / 0x4000_0000_0000_0000;
        w <<= 2;
        r *= 2;
        if rest > r * 2 {
            rest -= r * 2 + 1;
            r += 1;
        }
    }
    if rest > r { r + 1 } else { r }
}

// A guess at √m * 2^52. Nothing is proved of how near it is: `corrected` sees to that.
#[tactic(auto, using(crate::proofs::Cases::finite_no_nan))]
fn guess(m: Radicand) -> Significand {
    let w = m.pattern;
    let m = f64::from_bits(w);
    let half = m * 0.5;
    // a guess at 1 / √m, by the exponent's half, within 3.5%, then three steps of Newton's method
    let a = f64::from_bits(0x5fe6_eb50_c7b5_37a9 - w / 2);
    let b = a * (1.5 - half * a * a);
    let c = b * (1.5 - half * b * b);
    let d = c * (1.5 - half * c * c);
    // and one more for m / √m
    let g = m * d;
    let e = g + (m - g * g) * (d * 0.5);
    let fraction = if e.is_nan() {
        0
    } else {
        e.to_bits() % 0x10_0000_0000_0000
    };
    Significand {
        digits: fraction + 0x10_0000_0000_0000,
    }
}

// The whole number nearest to √(m.units * 2^52), where that is q, q - 1 or q + 1, and else perhaps none.
// The product q * q takes two words. With q = a * 2^27 + b it is summed up from its upper digits
// down, and each sum that is too large for one word ends the work.
// Kept: with `checked_sub` and `?` a root takes a seventh longer: past its aim on the second machine (docs/PERFORMANCE.md).
fn corrected(m: Radicand, guess: Significand) -> Option<u64>
    ensures { IfSome result (λ q. Rounded (m.units * 2 ^ 52) q) }
{
    let q = guess.digits;
    let a = q / 0x800_0000;
    let b = q % 0x800_0000;
    let aa = a * a * 4;
    if m.units + 8 < aa {
        return None;
    }
    let c = m.units + 8 - aa;
    if c >= 0x4_0000_0000 {
        return None;
    }
    let ab = a * b;
    if c * 0x100_0000 < ab {
        return None;
    }
    let d = c * 0x100_0000 - ab;
    if d >= 0x4_0000_0000 {
        return None;
    }
    let bb = b * b;
    if d * 0x1000_0000 + q < bb {
        return None;
    }
    // m.units * 2^52 + q - q * q + 2^55
    let f = d * 0x1000_0000 + q - bb;
    if f > 0x80_0000_0000_0000 {
        if f <= 0x80_0000_0000_0000 + q * 2 {
            Some(q)
        } else if f <= 0x80_0000_0000_0002 + q * 4 {
            Some(q + 1)
        } else {
            None
        }
    } else if f + q * 2 >= 0x80_0000_0000_0003 {
        Some(q - 1)
    } else {
        None
    }
}

// The whole number nearest to √(m.units * 2^52).
fn nearest(m: Radicand) -> u64
    ensures { Rounded (m.units * 2 ^ 52) result }
{
    corrected(m, guess(m)).unwrap_or_else(|| root(m))
}

// The bit pattern of the root of a value of a.digits * 2^(h - 1074) units, each the smallest value.
fn assembled(a: Significand, h: u64) -> u64
    requires least { 1022 ≤ h }
    requires largest { h ≤ 3119 }
    ensures { Written (root_of 53 1074 (a.digits * 2 ^ h)) result }
{
    let q = nearest(Radicand {
        units: a.digits << (h % 2),
        pattern: a.digits + (h % 2) * 0x10_0000_0000_0000 + 0x3fe0_0000_0000_0000,
    });
    (h / 2 - 26) * 0x10_0000_0000_0000 + q
}

// The bit pattern of the root of the finite value above zero whose pattern is b.
fn root_bits(b: u64) -> u64
    requires above_zero { 0 < b }
    requires finite { b < 2047 * 2 ^ 52 }
    ensures { Written (sqrt_of (from_bits binary64 b)) result }
{
    let field = b / 0x10_0000_0000_0000;
    let fraction = b % 0x10_0000_0000_0000;
    if field == 0 {
        // a subnormal value: bring its first digit to the place of a normal value's
        let z = u64::from(fraction.leading_zeros() - 11);
        let digits = fraction << z;
        assembled(Significand { digits }, 1074 - z)
    } else {
        let digits = fraction + 0x10_0000_0000_0000;
        assembled(Significand { digits }, field + 1073)
    }
}

// √x, rounded to the nearest `f64`. A NaN and a value below zero give a NaN, -0.0 gives -0.0.
// Kept: not std's `f64::sqrt`, which is the processor's operation: document 01 names a root that the program makes.
pub fn sqrt(x: f64) -> f64
    ensures { result ≡ sqrt_of x }
{
    if x > 0.0 {
        let b = x.to_bits();
        if b < 0x7ff0_0000_0000_0000 {
            f64::from_bits(root_bits(b))
        } else {
            x
        }
    } else if x == 0.0 {
        x // the zero itself, with its sign
    } else {
        f64::NAN
    }
}

// Rust's `x as u64`: x without its fraction, brought to the nearest end of the range where it is
// out of it, and 0 for a NaN.
pub fn truncated(x: f64) -> u64
    ensures { result ≡ to_unsigned 64 x }
{
    std::num::saturating_f64_to_u64(x)
}

// The whole number at or next above x. From 2^52 on in size every value is whole.
#[tactic(auto, using(crate::proofs::Values::ceil_is))]
pub fn ceil(x: f64) -> f64
    ensures { result ≡ ceil_of x }
{
    x.ceil()
}

// The magnitude.
// Kept: only a name for std's `abs`: contracts speak of `abs_of`, and std's of its own definition.
#[tactic(auto, using(crate::proofs::Choices::magnitude))]
pub fn abs(x: f64) -> f64
    ensures { result ≡ abs_of x }
{
    x.abs()
}

// The smaller of two, and the first of two that are equal. A NaN gives way to the other.
// Kept: of two equal values, as 0 and -0, std's `f64::min` may give either.
#[tactic(auto, unfolding(crate::specs::Tests::min_of))]
pub fn min(a: f64, b: f64) -> f64
    ensures { result ≡ min_of a b }
{
    if b < a || a.is_nan() { b } else { a }
}

// The larger of two, and the first of two that are equal. A NaN gives way to the other.
// Kept: of two equal values, as 0 and -0, std's `f64::max` may give either.
#[tactic(auto, unfolding(crate::specs::Tests::max_of))]
pub fn max(a: f64, b: f64) -> f64
    ensures { result ≡ max_of a b }
{
    if a < b || a.is_nan() { b } else { a }
}

// Neither a NaN nor an infinity.
#[tactic(auto, using(crate::proofs::Choices::finite_is))]
pub fn is_finite(x: f64) -> bool
    ensures { result ≡ finite x }
{
    x.is_finite()
}

// Whether x is finite and of magnitude at most a finite limit.
pub fn is_within(limit: f64, x: f64) -> bool
    ensures { result ≡ within limit x }
{
    // both tests, with no branch: a loop over a slice then takes several values at a time
    (-limit <= x) & (x <= limit)
}

// Whether two values are the same bit for bit. A NaN has no pattern of its own, and is the same as nothing.
// Kept: `==` takes the two zeros for equal, and `total_cmp` asks that neither value is a NaN.
#[tactic(auto, unfolding(crate::specs::Tests::same_bits))]
pub fn same_bits(a: f64, b: f64) -> bool
    ensures { result ≡ same_bits a b }
{
    a == b && a.to_bits() == b.to_bits()
}
