// Numbers of 160 binary digits in four limbs of 40, the lowest first: distance, shift, and the one rounding to a double's bits.
#![tactic(auto)]

ghost use Rattle.std.specs.Prelude.{◌≡◌, eqb, pos, get_or};
ghost use Prim.Native.Nat.{◌+◌, ◌-◌, ◌*◌, ◌/◌, ◌%◌, ◌^◌, ◌<◌, ◌≤◌, compare};
ghost use Rattle.limbs.specs.Limbs.{value_of, Reduced, Carried, DifferenceWithBias, without_bias, SignedDifference, ShiftedLeft};
ghost use Rattle.limbs.specs.Nearest.{rounded};
ghost use Rattle.limbs.specs.Packed.{leading_digits, packed, units_of, most_scale};
ghost use Rattle.limbs.specs.Side.{side_of, packed_side, rounded_side};

use std::cmp::Ordering;

// What a size was rounded to, a number or a double's bits without the sign, and its side of the size: less than it, equal to it or greater.
#[derive(Clone, Copy)]
pub struct Rounding {
    pub unsigned: u64,
    pub side: Ordering,
}

// A number of 160 binary digits: four limbs of 40, the lowest first.
#[derive(Clone, Copy)]
pub struct U160 {
    pub limbs: [u64; 4],
    pub ghost reduced: { Reduced limbs },
}

// How far two numbers are apart, and whether the second is the larger.
#[derive(Clone, Copy)]
pub struct SignMagnitude {
    pub magnitude: U160,
    pub negative: bool,
}

// A magnitude shifted left, and by how many digits.
#[derive(Clone, Copy)]
struct Shifted {
    magnitude: U160,
    by: u64,
}

// What a limb stays below.
pub const LIMB: u64 = 1 << 40;

// The largest limb.
const LARGEST_LIMB: u64 = (1 << 40) - 1;

// The same number with 40 digits in each of the first three limbs.
pub fn propagate(a: [u64; 4]) -> [u64; 4]
    requires { (get_or a 0 0 < 2 ^ 62) × (get_or a 1 0 < 2 ^ 62) × (get_or a 2 0 < 2 ^ 62) × (get_or a 3 0 < 2 ^ 62) }
    ensures { Carried (value_of a) (get_or a 3 0 + 2 ^ 23) result }
{
    let b = a[1] + (a[0] >> 40);
    let c = a[2] + (b >> 40);
    let d = a[3] + (c >> 40);
    [a[0] % LIMB, b % LIMB, c % LIMB, d]
}

// A limb less another, with `more` added.
fn limb_difference(x: u64, y: u64, more: u64) -> u64
    requires { (x < 2 ^ 40) × (y ≤ more) × (more ≤ 2 ^ 40) }
    ensures { result ≡ x + more - y }
{
    x + more - y
}

// 2^160 less.
fn without_bias(a: [u64; 4]) -> [u64; 4]
    requires { 2 ^ 40 ≤ get_or a 3 0 }
    ensures { result ≡ without_bias a }
{
    [a[0], a[1], a[2], a[3] - LIMB]
}

// A limb shifted left by d digits: those of x that stay in it, and those that come from the limb under it.
fn shift_limb(x: u64, under: u64, d: u64) -> u64
    requires { (d < 40) × (under < 2 ^ 40) }
    ensures { result ≡ x * 2 ^ d % 2 ^ 40 + under * 2 ^ d / 2 ^ 40 }
{
    (x << d) % LIMB + (under >> (40 - d))
}

// The quotient q or the next number, whichever is nearer, by its rest and half of the divisor; at an exact half the next where `tie_up` says so: the rest
// then counts one more, which passes the half.
pub fn round_by(q: u64, rest: u64, half: u64, tie_up: bool) -> u64
    requires { (q < 2 ^ 63) × (rest < 2 ^ 63) }
    ensures { result ≡ rounded tie_up q (compare rest half) }
{
    q + u64::from(rest + u64::from(tie_up) > half)
}

// The side of n, to which a quotient q with this rest was rounded.
fn rounding_side(q: u64, rest: u64, n: u64) -> Ordering
    ensures { result ≡ rounded_side q rest n }
{
    if rest == 0 {
        return Ordering::Equal;
    }
    if n > q {
        Ordering::Greater
    } else {
        Ordering::Less
    }
}

// The bits with this exponent field above this significand, whose hidden digit adds one to the field.
fn assemble(exponent: u64, significand: u64) -> u64
    requires { (exponent < 2 ^ 12) × (exponent * 2 ^ 52 + significand < 2 ^ 64) }
    ensures { result ≡ exponent * 2 ^ 52 + significand }
{
    (exponent << 52) + significand
}

impl U160 {
    // Whether the number is 0.
    pub fn is_zero(self) -> bool
        ensures { result ≡ eqb (value_of self.limbs) 0 }
    {
        let a = self.limbs;
        a[0] + a[1] + a[2] + a[3] == 0
    }

    // The number less the other, with 2^160 more, which is not negative.
    fn difference_with_bias(self, other: U160) -> [u64; 4]
        ensures { DifferenceWithBias self.limbs other.limbs result }
    {
        let a = self.limbs;
        let b = other.limbs;
        propagate([
            limb_difference(a[0], b[0], LIMB),
            limb_difference(a[1], b[1], LARGEST_LIMB),
            limb_difference(a[2], b[2], LARGEST_LIMB),
            limb_difference(a[3], b[3], LARGEST_LIMB),
        ])
    }

    // How far the number and the other are apart, and whether the other is the larger.
    pub fn signed_difference(self, other: U160) -> SignMagnitude
        ensures { SignedDifference result.negative (value_of result.magnitude.limbs) (value_of self.limbs) (value_of other.limbs) }
    {
        let biased = self.difference_with_bias(other);
        if biased[3] >= LIMB {
            return SignMagnitude {
                magnitude: U160 {
                    limbs: without_bias(biased),
                },
                negative: false,
            };
        }
        SignMagnitude {
            magnitude: U160 {
                limbs: without_bias(other.difference_with_bias(self)),
            },
            negative: true,
        }
    }

    // Shifted left by whole limbs, until the last limb is not 0.
    // Kept: that the number is not 0 stays a clause of three methods, since a type for it would be built once and taken apart in each.
    fn shift_limbs(self) -> Shifted
        requires nonzero { 0 < value_of self.limbs }
        ensures shifted_left { ShiftedLeft self.limbs result.magnitude.limbs result.by }
        ensures last_nonzero { 0 < get_or result.magnitude.limbs 3 0 }
        ensures at_most_three { result.by ≤ 120 }
    {
        let a = self.limbs;
        if a[3] > 0 {
            return Shifted {
                magnitude: self,
                by: 0,
            };
        }
        if a[2] > 0 {
            return Shifted {
                magnitude: U160 {
                    limbs: [0, a[0], a[1], a[2]],
                },
                by: 40,
            };
        }
        if a[1] > 0 {
            return Shifted {
                magnitude: U160 {
                    limbs: [0, 0, a[0], a[1]],
                },
                by: 80,
            };
        }
        Shifted {
            magnitude: U160 {
                limbs: [0, 0, 0, a[0]],
            },
            by: 120,
        }
    }

    // Shifted left by d digits, which the last limb has room for.
    fn shift_digits(self, d: u64) -> U160
        requires within_limb { d < 40 }
        requires has_room { get_or self.limbs 3 0 < 2 ^ (40 - d) }
        ensures shifted_left { ShiftedLeft self.limbs result.limbs d }
        ensures last_shifted { get_or self.limbs 3 0 * 2 ^ d ≤ get_or result.limbs 3 0 }
    {
        let a = self.limbs;
        U160 {
            limbs: [
                shift_limb(a[0], 0, d),
                shift_limb(a[1], a[0], d),
                shift_limb(a[2], a[1], d),
                shift_limb(a[3], a[2], d),
            ],
        }
    }

    // Shifted left until the leading digit of the 160 is set.
    fn normalise(self) -> Shifted
        requires nonzero { 0 < value_of self.limbs }
        ensures shifted_left { ShiftedLeft self.limbs result.magnitude.limbs result.by }
        ensures leading_set { 2 ^ 39 ≤ get_or result.magnitude.limbs 3 0 }
        ensures below_160 { result.by < 160 }
    {
        let m = self.shift_limbs();
        let d = u64::leading_zeros(m.magnitude.limbs[3]) as u64 - 24;
        Shifted {
            magnitude: m.magnitude.shift_digits(d),
            by: m.by + d,
        }
    }

    // The digits below the 53 leading ones, as a number of units of which 2^27 are a half: 27 digits, and one that is set where any lower digit is.
    fn lower_digits(self) -> u64
        ensures beside_half { compare result (2 ^ 27) ≡ compare (value_of self.limbs % 2 ^ 107 * 2) (2 ^ 107) }
        ensures fits { result < 2 ^ 28 }
        ensures beside_zero { compare result 0 ≡ compare (value_of self.limbs % 2 ^ 107) 0 }
    {
        let a = self.limbs;
        let rest = a[2] % (1 << 27) * 2;
        rest + u64::from(a[1] + a[0] > 0)
    }

    // The 53 leading digits of the 160, to the nearest number, an exact half to the even one.
    fn leading_digits(self) -> Rounding
        ensures nearest { result.unsigned ≡ leading_digits self.limbs }
        ensures side { result.side ≡ side_of (pos (leading_digits self.limbs * 2 ^ 107)) (pos (value_of self.limbs)) }
    {
        let a = self.limbs;
        let q = a[3] * 8192 + (a[2] >> 27);
        let rest = self.lower_digits();
        let n = round_by(q, rest, 1 << 27, q % 2 == 1);
        Rounding {
            unsigned: n,
            side: rounding_side(q, rest, n),
        }
    }

    // The bits, without the sign, of the double nearest to the number × 2^e / 2^80 units of 2^-1074. A subnormal one drops no digit.
    pub fn nearest_bits(self, e: u64) -> Rounding
        requires nonzero { 0 < value_of self.limbs }
        requires scale { e ≤ most_scale }
        requires whole_units { units_of self.limbs e * 2 ^ 80 ≡ value_of self.limbs * 2 ^ e }
        ensures nearest { result.unsigned ≡ packed (units_of self.limbs e) }
        ensures side { result.side ≡ packed_side (units_of self.limbs e) }
    {
        let n = self.normalise();
        let digits = n.magnitude.leading_digits();
        let unshifted = 27 + e;
        if n.by <= unshifted {
            return Rounding {
                unsigned: assemble(unshifted - n.by, digits.unsigned),
                side: digits.side,
            };
        }
        Rounding {
            unsigned: digits.unsigned >> (n.by - unshifted),
            side: Ordering::Equal,
        }
    }
}
