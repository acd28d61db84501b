// Level arithmetic.
#![tactic(auto)]

ghost use Rattle.std.specs.Prelude.{◌≡◌, [], ◌+◌, ◌-◌, ◌*◌, ◌/◌, ◌%◌, ◌^◌, ◌<◌, ◌≤◌, length, ◌-ℤ◌, nat_abs, ◌+ℤ◌};
ghost use Rattle.std.specs.Float.Ieee.Nearest.{closest};
ghost use Rattle.lists.specs.Lists.{exceptions};
ghost use Rattle.level.specs.Double.{exponent_field, fraction, finite_bits, significand, negative, signed};
ghost use Rattle.level.specs.Level.{top};
ghost use Rattle.level.specs.ByField.{TopOfField, by_formula};
ghost use Rattle.level.specs.Cut.{shift_of, rest_of, rounded_up};
ghost use Rattle.level.specs.Carry.{carry_base, carry_of, residue_of, split_of, total_of};
ghost use Rattle.level.specs.Contributions.{contributions_of};
ghost use Rattle.level.specs.Finest.{finest};

mod tops;

use tops::TOPS;

// How many units of its top a row's size stays below, and the largest size of a contribution.
pub const LEVEL_BOUND: u64 = 1 << 39;

// A total is its carry times this, and its residue.
pub const CARRY_BASE: u64 = 1 << 50;

// The exponent field of a double's bits.
pub fn exponent_field(bits: u64) -> u64
    ensures { result ≡ exponent_field bits }
{
    (bits >> 52) & 0x7FF
}

// The fraction of a double's bits.
pub fn fraction_field(bits: u64) -> u64
    ensures { result ≡ fraction bits }
{
    bits & 0xF_FFFF_FFFF_FFFF
}

// The significand, with the hidden digit of a normal double.
pub fn significand(bits: u64) -> u64
    ensures { result ≡ significand bits }
{
    if exponent_field(bits) == 0 {
        fraction_field(bits)
    } else {
        fraction_field(bits) | (1 << 52)
    }
}

// Whether the sign bit is set.
pub fn is_negative(bits: u64) -> bool
    ensures { result ≡ negative bits }
{
    bits >> 63 == 1
}

// Whether the bits are neither an infinity's nor a NaN's.
pub fn is_finite(bits: u64) -> bool
    ensures { result ≡ finite_bits bits }
{
    exponent_field(bits) != 2047
}

// The entry of the exponent field e in a constant table of tops that passes its test.
fn listed_top(tops: &[u8; 2046], e: u64) -> u8
    requires { (length tops.now ≡ 2046) × (exceptions by_formula 0 tops.now ≡ []) × (0 < e) × (e < 2047) }
    ensures { TopOfField e result }
{
    tops[(e - 1) as usize]
}

// The top of every row with the exponent field e. Kept: that e is a normal double's stays a clause of these functions, since a type for it would be built anew at each remainder. A constant array is built on the stack wherever it is read, but for the entries that the compiler
// rules out. So `usual_top` and `block_top` take a remainder that changes nothing: it says among which entries the field's own is.
fn field_top(e: u64) -> u64
    requires { (0 < e) × (e < 2047) }
    ensures { TopOfField e result }
{
    listed_top(&TOPS, e) as u64
}

// The same for sizes from 2^-27 to 2^37, as lengths in millimetres usually have.
fn usual_top(e: u64) -> u64
    requires { (995 < e) × (e < 1060) }
    ensures { TopOfField e result }
{
    field_top(996 + (e - 996) % 64)
}

// The same for the fields of a block of 256.
fn block_top(block: u64, e: u64) -> u64
    requires { (e / 256 ≡ block) × (0 < e) × (e < 2047) }
    ensures { TopOfField e result }
{
    field_top(256 * block + e % 256)
}

// The same for any field. There is no ninth block, so the last arm is never taken.
fn any_top(e: u64) -> u64
    requires { (0 < e) × (e < 2047) }
    ensures { TopOfField e result }
{
    match e / 256 {
        0 => block_top(0, e),
        1 => block_top(1, e),
        2 => block_top(2, e),
        3 => block_top(3, e),
        4 => block_top(4, e),
        5 => block_top(5, e),
        6 => block_top(6, e),
        7 => block_top(7, e),
        _ => field_top(e),
    }
}

// The row's top: by the exponent field, or by the fraction's size where that is 0.
fn top_level(bits: u64) -> u64
    ensures { result ≡ top bits }
{
    let e = exponent_field(bits);
    if 996 <= e && e < 1060 {
        return usual_top(e);
    }
    if e == 2047 {
        return 52;
    }
    if e != 0 {
        return any_top(e);
    }
    u64::from(LEVEL_BOUND <= fraction_field(bits))
}

// The power of two that the significand's last digit counts.
fn scale(bits: u64) -> u64
    ensures { result ≡ exponent_field bits - 1 }
{
    exponent_field(bits).saturating_sub(1)
}

// The finest power of a row that is zero; a finite row that is not zero has a smaller one.
pub const HIGHEST_POWER: u32 = 2098;

// The row's finest power: the place, counted from that of 2^-1074, of the lowest binary digit of its significand that is 1.
pub fn finest_power(bits: u64) -> u32
    ensures { result ≡ finest bits }
{
    let s = significand(bits);
    if s == 0 {
        return HIGHEST_POWER;
    }
    scale(bits) as u32 + u64::trailing_zeros(s)
}

// How many binary digits of the significand stand below the unit of the row's top, t.
fn shift(bits: u64, t: u64) -> u64
    requires { t ≡ top bits }
    ensures { result ≡ shift_of bits }
{
    40 * t - scale(bits)
}

// 2^d.
pub fn power(d: u64) -> u64
    requires { d < 64 }
    ensures { result ≡ 2 ^ d }
{
    1 << d
}

// The last d binary digits of x.
pub fn last_digits(x: u64, d: u64) -> u64
    requires { d < 64 }
    ensures { result ≡ x % 2 ^ d }
{
    x & (power(d) - 1)
}

// 1 for an odd number, 0 for an even one.
fn parity(x: u64) -> u64
    ensures { result ≡ x % 2 }
{
    x & 1
}

// The whole number nearest to x / 2^d, an exact half going to the even number: half a unit less one and the quotient's parity
// carry into the quotient just where it is to be rounded up.
fn nearest(x: u64, d: u64) -> u64
    requires { (x < 2 ^ 53) × (d < 54) }
    ensures { result ≡ closest x (2 ^ d) }
{
    if d == 0 {
        return x;
    }
    let below_half = power(d - 1) - 1;
    (x + below_half + parity(x >> d)) >> d
}

// A size cut at the unit 2^d: its number of units, what is left, and whether the units came to more than the size.
#[derive(Clone, Copy)]
struct Cut {
    units: u64,
    rest: u64,
    rounded_up: bool,
}

// A size of so many units of 1, cut at 2^d.
fn cut_at(x: u64, d: u64) -> Cut
    requires { (x < 2 ^ 53) × (d < 54) }
    ensures { (result.units ≡ closest x (2 ^ d)) × (result.rest ≡ rest_of x (2 ^ d)) × (result.rounded_up ≡ rounded_up x (2 ^ d)) }
{
    let units = nearest(x, d);
    let whole = units << d;
    Cut {
        units,
        rest: x.abs_diff(whole),
        rounded_up: x < whole,
    }
}

// What stands one and two levels below a cut, of a rest in units of 2^d.
#[derive(Clone, Copy)]
struct Lower {
    middle: u64,
    rounded_up: bool,
    low: u64,
}

// The rest's units one and two levels below, each to the nearest number.
fn lower_two(rest: u64, d: u64) -> Lower
    requires { (rest * 2 ≤ 2 ^ d) × (d < 54) }
    ensures { (result.middle ≡ closest (rest * 2 ^ 40) (2 ^ d)) × (result.rounded_up ≡ rounded_up (rest * 2 ^ 40) (2 ^ d)) × (result.low ≡ closest (rest_of (rest * 2 ^ 40) (2 ^ d) * 2 ^ 40) (2 ^ d)) }
{
    if d <= 40 {
        return Lower {
            middle: rest << (40 - d),
            rounded_up: false,
            low: 0,
        };
    }
    let c = cut_at(rest, d - 40);
    Lower {
        middle: c.units,
        rounded_up: c.rounded_up,
        low: c.rest << (80 - d),
    }
}

// A number of a sign and a magnitude.
pub fn with_sign(sign: bool, magnitude: u64) -> i64
    requires { magnitude < 2 ^ 63 }
    ensures { result ≡ signed sign magnitude }
{
    let x = magnitude as i64;
    if sign { -x } else { x }
}

// A row's top, and what it gives to its top and to the two levels below; a level below 0 receives 0.
#[derive(Clone, Copy)]
pub struct Contributions {
    pub top: u32,
    pub high: i64,
    pub middle: i64,
    pub low: i64,
}

// The contributions of the row with these bits.
pub fn contributions_of(bits: u64) -> Contributions
    ensures { result ≡ contributions_of bits }
{
    let t = top_level(bits);
    let d = shift(bits, t);
    let sign = is_negative(bits);
    let first = cut_at(significand(bits), d);
    let next = lower_two(first.rest, d);
    let sign1 = sign ^ first.rounded_up;
    let sign2 = sign1 ^ next.rounded_up;
    Contributions {
        top: t as u32,
        high: with_sign(sign, first.units),
        middle: with_sign(sign1, next.middle),
        low: with_sign(sign2, next.low),
    }
}

// A total as it is kept: carry × 2^50 + residue.
#[derive(Clone, Copy)]
pub struct SplitTotal {
    pub residue: u64,
    pub carry: i64,
}

// The low 50 bits.
fn residue_of(total: i64) -> u64
    ensures { result ≡ residue_of total }
{
    (total & 0x3_FFFF_FFFF_FFFF) as u64
}

// A shift that copies the sign rounds down.
fn carry_of(total: i64) -> i64
    ensures { result ≡ carry_of total }
{
    total >> 50
}

// A total as it is kept.
pub fn split(total: i64) -> SplitTotal
    ensures { result ≡ split_of total }
{
    SplitTotal {
        residue: residue_of(total),
        carry: carry_of(total),
    }
}

// A sum of two signed numbers whose sizes leave room for it.
pub fn plus(x: i64, y: i64) -> i64
    requires { nat_abs x + nat_abs y < 2 ^ 63 }
    ensures { result ≡ x +ℤ y }
{
    x + y
}

// Two totals added. A residue may be 2^50 itself, as that of an opposite may (subtract_totals).
// Kept: the bounds of totals differ here, in add_totals, in subtract_totals and in crate finish, so that no one type holds them.
fn add_up_to_base(a: SplitTotal, b: SplitTotal) -> SplitTotal
    requires { (a.residue ≤ carry_base) × (b.residue ≤ carry_base) × (nat_abs a.carry < 2 ^ 61) × (nat_abs b.carry < 2 ^ 61) }
    ensures { result ≡ split_of (total_of a +ℤ total_of b) }
{
    let sum = a.residue + b.residue;
    let carried = with_sign(false, sum >> 50);
    SplitTotal {
        residue: last_digits(sum, 50),
        carry: plus(plus(a.carry, b.carry), carried),
    }
}

// Two totals added.
pub fn add_totals(a: SplitTotal, b: SplitTotal) -> SplitTotal
    requires { (a.residue < carry_base) × (b.residue < carry_base) × (nat_abs a.carry < 2 ^ 61) × (nat_abs b.carry < 2 ^ 61) }
    ensures { result ≡ split_of (total_of a +ℤ total_of b) }
{
    add_up_to_base(a, b)
}

// One total taken off another: what is added is its residue's distance to 2^50, and the carry complemented, which makes up for it.
pub fn subtract_totals(a: SplitTotal, b: SplitTotal) -> SplitTotal
    requires { (a.residue ≤ carry_base) × (b.residue ≤ carry_base) × (nat_abs a.carry < 2 ^ 61) × (nat_abs b.carry < 2 ^ 60) }
    ensures { result ≡ split_of (total_of a -ℤ total_of b) }
{
    let opposite = SplitTotal {
        residue: CARRY_BASE - b.residue,
        carry: !b.carry,
    };
    add_up_to_base(a, opposite)
}
