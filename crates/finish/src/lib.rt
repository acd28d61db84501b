// Finishing a section: the double nearest to its kept value, and the mill figure of that double.
#![tactic(auto)]

ghost use Rattle.std.specs.Prelude.{◌≡◌, cond, ◌+◌, ◌-◌, ◌*◌, ◌%◌, ◌^◌, ◌<◌, ◌≤◌, IsTrue, nat_abs};
ghost use Rattle.std.proofs.Math.Option.{some};
ghost use Rattle.std.specs.Float.Ieee.Scale.{finite};
ghost use Rattle.level.specs.Carry.{InRange};
ghost use Rattle.level.specs.Double.{signed};
ghost use Rattle.refusal.specs.Outcome.{accepted, refused};
ghost use Rattle.refusal.specs.Answer.{outcome_of};
ghost use Rattle.record.specs.Section.{kept, meaning};
ghost use Rattle.limbs.specs.Nearest.{nearest_by};
ghost use Rattle.finish.specs.Figure.{away_from_zero, mill_figure, beyond};
ghost use Rattle.finish.specs.Finish.{figure_of, line_of, sum_outcome, figure_outcome, line_outcome};
ghost use Rattle.finish.specs.Answer.{sum_answer};
ghost use Rattle.finish.specs.Exact.{answered_exact, exactness_outcome};
ghost use Rattle.finish.specs.Steps.{LookedUp, kept_sum, sum_of_bits};
ghost use Rattle.finish.specs.Biased.{carry_bias, total_bias, biased_carry, biased_total, Stacked};

use level::SplitTotal;
use limbs::U160;
use refusal::Refusal;
use soundness::{SoundRecord, SoundTable};
use std::cmp::Ordering;

// A section's sum: a finite double with its side of the kept value, absent, or too large; or the table is not sound.
// Kept: document 01 asks for an enum with an f64 in a case, so it is no Result.
#[derive(Clone, Copy)]
pub enum SectionSum {
    Finite(f64, Ordering),
    Absent,
    TooLarge,
    NotSound,
}

// A finite sum, and its side of the kept value.
#[derive(Clone, Copy)]
pub struct RoundedSum {
    pub sum: f64,
    pub side: Ordering,
}

// A section's number, its row count, its sum, its mill figure and the sum's side of the kept value.
#[derive(Clone, Copy)]
pub struct FinishedLine {
    pub key: u32,
    pub count: u32,
    pub sum: f64,
    pub figure: i32,
    pub side: Ordering,
}

impl SectionSum {
    // The finite sum, or why there is none.
    pub fn rounded(self) -> Result<RoundedSum, Refusal>
        ensures { outcome_of result ≡ sum_answer self }
    {
        match self {
            SectionSum::Finite(sum, side) => Ok(RoundedSum { sum, side }),
            SectionSum::Absent => Err(Refusal::SectionAbsent),
            SectionSum::TooLarge => Err(Refusal::SumTooLarge),
            SectionSum::NotSound => Err(Refusal::TableNotSound),
        }
    }
}

// The carry with a bias of 2^22, which gives a total one of 2^72: none is negative then.
fn biased_carry(c: i64) -> u64
    requires { nat_abs c < carry_bias }
    ensures biased { result ≡ biased_carry c }
    ensures fits { result < 2 ^ 23 }
{
    level::plus(c, 1 << 22) as u64
}

// What of a biased total stands above its 40 low digits, of which a carry has 1,024 times 2^40.
fn high_digits(h: SplitTotal) -> u64
    requires in_range { InRange h }
    ensures fits { result < 2 ^ 34 }
    ensures with_low_digits { h.residue % 2 ^ 40 + 2 ^ 40 * result ≡ biased_total h }
{
    (h.residue >> 40) + biased_carry(h.carry) * 1024
}

// The three biased totals in limbs, each one limb above the next.
fn biased_limbs(high: SplitTotal, middle: SplitTotal, low: SplitTotal) -> U160
    requires high_in_range { InRange high }
    requires middle_in_range { InRange middle }
    requires low_in_range { InRange low }
    ensures { Stacked (biased_total high) (biased_total middle) (biased_total low) result.limbs }
{
    U160 {
        limbs: limbs::propagate([
            low.residue % limbs::LIMB,
            high_digits(low) + middle.residue % limbs::LIMB,
            high_digits(middle) + high.residue % limbs::LIMB,
            high_digits(high),
        ]),
    }
}

// The three totals' biases in limbs, 2^72 each.
fn bias_limbs() -> U160
    ensures { Stacked total_bias total_bias total_bias result.limbs }
{
    U160 {
        limbs: [0, 1 << 32, 1 << 32, 1 << 32],
    }
}

// The 63 bits without a sign, with it set.
fn set_sign(unsigned: u64) -> u64
    requires { unsigned < 2 ^ 63 }
    ensures { result ≡ unsigned + 2 ^ 63 }
{
    unsigned | (1 << 63)
}

// The sum that a sign and the other 63 bits stand for, with the side of its size.
fn sum_of_bits(unsigned: u64, negative: bool, side: Ordering) -> SectionSum
    ensures { result ≡ sum_of_bits unsigned negative side }
{
    if unsigned >= 2047 << 52 {
        return SectionSum::TooLarge;
    }
    if negative {
        return SectionSum::Finite(f64::from_bits(set_sign(unsigned)), side.reverse());
    }
    SectionSum::Finite(f64::from_bits(unsigned), side)
}

// The sum of a record: the double nearest to its kept value, whose first limb counts level top - 2.
pub fn record_sum(r: SoundRecord) -> SectionSum
    ensures { result ≡ kept_sum (kept (meaning r.raw)) }
{
    let d = biased_limbs(r.raw.high, r.raw.middle, r.raw.low).signed_difference(bias_limbs());
    if d.magnitude.is_zero() {
        return SectionSum::Finite(0.0, Ordering::Equal);
    }
    let rounding = d.magnitude.nearest_bits(40 * (r.raw.top as u64));
    sum_of_bits(rounding.unsigned, d.negative, rounding.side)
}

// 100 times m / 2^r to the nearest whole number, an exact half going to the larger one, which of a size is away from zero.
fn nearest_hundredths(m: u64, r: u64) -> u64
    requires fits { m < 2 ^ 53 }
    requires nonzero { 0 < r }
    ensures { result ≡ nearest_by away_from_zero (m * 100) (2 ^ r) }
{
    if r > 62 {
        return 0;
    }
    let n = m * 100;
    limbs::round_by(n >> r, level::last_digits(n, r), level::power(r - 1), true)
}

// How many binary digits of the significand stand below 1.
fn digits_below_one(exponent: u64) -> u64
    requires { exponent ≤ 1074 }
    ensures with_exponent { result + (exponent - 1) ≡ 1074 }
    ensures nonzero { 0 < result }
{
    1075 - exponent.max(1)
}

// The figure of a sign and a size, if it is in range: the largest size is i32's largest number.
fn figure_of_size(n: u64, negative: bool) -> Result<i32, Refusal>
    ensures { outcome_of result ≡ cond (beyond (signed negative n)) (refused 15) (accepted (signed negative n)) }
{
    let Ok(size) = i32::try_from(n) else {
        return Err(Refusal::FigureTooLarge);
    };
    Ok(if negative { -size } else { size })
}

// The mill figure of a finite sum.
fn mill_figure(sum: f64) -> Result<i32, Refusal>
    requires finite { IsTrue (finite sum) }
    ensures { outcome_of result ≡ cond (beyond (mill_figure sum)) (refused 15) (accepted (mill_figure sum)) }
{
    let bits = f64::to_bits(sum);
    let exponent = level::exponent_field(bits);
    if exponent > 1074 {
        return Err(Refusal::FigureTooLarge);
    }
    let negative = level::is_negative(bits);
    figure_of_size(
        nearest_hundredths(level::significand(bits), digits_below_one(exponent)),
        negative,
    )
}

// The record of a section in a sound table.
fn look_up(table: &[u8], g: usize, key: u32) -> Result<SoundRecord, Refusal>
    ensures { LookedUp result table.now g key }
{
    let t = SoundTable::new(table, g).ok_or(Refusal::TableNotSound)?;
    t.find(key).ok_or(Refusal::SectionAbsent)
}

// The mill figure of a record.
#[tactic(auto, using(crate::proofs::Outcomes::rounded_finite))]
fn record_figure(r: SoundRecord) -> Result<i32, Refusal>
    ensures { outcome_of result ≡ figure_of (some (meaning r.raw)) }
{
    mill_figure(record_sum(r).rounded()?.sum)
}

// The finished line of a record.
#[tactic(auto, using(crate::proofs::Outcomes::rounded_finite))]
pub fn record_line(r: SoundRecord) -> Result<FinishedLine, Refusal>
    ensures { outcome_of result ≡ line_of (some (meaning r.raw)) }
{
    let rounded = record_sum(r).rounded()?;
    let figure = mill_figure(rounded.sum)?;
    Ok(FinishedLine {
        key: r.raw.key,
        count: r.raw.count,
        sum: rounded.sum,
        figure,
        side: rounded.side,
    })
}

// The sum of section key in a table of g records.
pub fn sum(table: &[u8], g: usize, key: u32) -> SectionSum
    ensures { sum_answer result ≡ sum_outcome table.now g key }
{
    match look_up(table, g, key) {
        Ok(r) => record_sum(r),
        Err(Refusal::SectionAbsent) => SectionSum::Absent,
        Err(_) => SectionSum::NotSound,
    }
}

// Its mill figure.
pub fn figure(table: &[u8], g: usize, key: u32) -> Result<i32, Refusal>
    ensures { outcome_of result ≡ figure_outcome table.now g key }
{
    record_figure(look_up(table, g, key)?)
}

// Its finished line.
pub fn line(table: &[u8], g: usize, key: u32) -> Result<FinishedLine, Refusal>
    ensures { outcome_of result ≡ line_outcome table.now g key }
{
    record_line(look_up(table, g, key)?)
}

// Whether the levels of a record drop nothing of its rows: with a top of 2 or less level 0 is kept, and otherwise every row has to be a whole number of
// the lowest kept units.
fn record_exactness(r: SoundRecord) -> bool
    ensures { result ≡ answered_exact (meaning r.raw) }
{
    r.raw.top <= 2 || 40 * ((r.raw.top as u64) - 2) <= r.raw.finest as u64
}

// Whether the section's kept value is known to be the exact sum of its rows.
pub fn exactness(table: &[u8], g: usize, key: u32) -> Result<bool, Refusal>
    ensures { outcome_of result ≡ exactness_outcome table.now g key }
{
    Ok(record_exactness(look_up(table, g, key)?))
}
