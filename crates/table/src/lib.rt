// What the calls on tables share: the tests of two columns, and sections combined by value.
#![tactic(auto)]

ghost use Rattle.std.specs.Prelude.{◌≡◌, ◌+◌, ◌≤◌, ◌<◌, pos};
ghost use Rattle.level.specs.Level.{below};
ghost use Rattle.level.specs.Carry.{split_of};
ghost use Rattle.record.specs.Section.{meaning, record_of};
ghost use Rattle.table.specs.Combine.{of_row, both_at, combine};
ghost use Rattle.table.specs.Calls.{most_rows, column_outcome};
ghost use Rattle.refusal.specs.Answer.{outcome_of};
ghost use Rattle.table.specs.Steps.{split_in};

use columns::{Columns, Kind};
use level::SplitTotal;
use record::Record;
use refusal::Refusal;
use soundness::SoundRecord;

// The largest row count that a record has room for.
pub const MOST_ROWS: u64 = 4294967295;

// The tests that every call makes that takes columns, in document 01's order: 7 to 10.
pub fn check_columns(
    table: &[u8],
    g: usize,
    keys: &[u8],
    values: &[u8],
    kind: Kind,
    work_len: usize,
) -> Result<(), Refusal>
    ensures { outcome_of result ≡ column_outcome kind table.now g keys.now values.now work_len }
{
    let columns = Columns { keys, values, kind };
    if !soundness::is_sound(table, g) {
        return Err(Refusal::TableNotSound);
    }
    if work_len < table.len() {
        return Err(Refusal::WorkTooShort);
    }
    if !columns.fit() {
        return Err(Refusal::ColumnLengths);
    }
    if columns.any_not_finite() {
        return Err(Refusal::RowNotFinite);
    }
    Ok(())
}

// A level that holds nothing.
pub fn nothing() -> SplitTotal
    ensures { result ≡ split_of (pos 0) }
{
    SplitTotal {
        residue: 0,
        carry: 0,
    }
}

// What a record holds at level j.
pub fn split_in(r: Record, j: u32) -> SplitTotal
    requires { j ≤ 52 }
    ensures { result ≡ split_in r j }
{
    if j == r.top {
        return r.high;
    }
    if j + 1 == r.top {
        return r.middle;
    }
    if j + 2 == r.top {
        return r.low;
    }
    nothing()
}

// What two records hold together d levels below level t; below level 0 there is nothing.
fn total_below(a: SoundRecord, b: SoundRecord, t: u32, d: u32) -> SplitTotal
    requires { t ≤ 52 }
    ensures { result ≡ split_of (below (both_at (meaning a.raw) (meaning b.raw)) t d) }
{
    if t < d {
        return nothing();
    }
    level::add_totals(split_in(a.raw, t - d), split_in(b.raw, t - d))
}

// Two records of one section and one top as one: their levels stand side by side.
// Kept: that one count has room for both stays a clause of the three ways to combine, since it is a fact of the pair.
pub fn combined_same_top(a: SoundRecord, b: SoundRecord) -> Record
    requires { (a.raw.top ≡ b.raw.top) × (a.raw.count + b.raw.count ≤ most_rows) }
    ensures { result ≡ record_of (combine (meaning a.raw) (meaning b.raw)) }
{
    let x = a.raw;
    let y = b.raw;
    Record {
        key: x.key,
        count: x.count + y.count,
        top: x.top,
        finest: x.finest.min(y.finest),
        high: level::add_totals(x.high, y.high),
        middle: level::add_totals(x.middle, y.middle),
        low: level::add_totals(x.low, y.low),
    }
}

// Two records of one section as one, level by level.
pub fn combined_by_level(a: SoundRecord, b: SoundRecord) -> Record
    requires { a.raw.count + b.raw.count ≤ most_rows }
    ensures { result ≡ record_of (combine (meaning a.raw) (meaning b.raw)) }
{
    let t = a.raw.top.max(b.raw.top);
    let count = a.raw.count + b.raw.count;
    Record {
        key: a.raw.key,
        count,
        top: t,
        finest: a.raw.finest.min(b.raw.finest),
        high: total_below(a, b, t, 0),
        middle: total_below(a, b, t, 1),
        low: total_below(a, b, t, 2),
    }
}

// Two records of one section as one.
pub fn combined(a: SoundRecord, b: SoundRecord) -> Record
    requires { a.raw.count + b.raw.count ≤ most_rows }
    ensures { result ≡ record_of (combine (meaning a.raw) (meaning b.raw)) }
{
    if a.raw.top == b.raw.top {
        return combined_same_top(a, b);
    }
    // Copies of their own, so that records of one top stay in registers and only these are stored for the call.
    let x = a;
    let y = b;
    combined_by_level(x, y)
}

// The record of one row.
pub fn row_record(key: u32, bits: u64) -> SoundRecord
    ensures { result.raw ≡ record_of (of_row (record { key = key; bits = bits })) }
{
    let c = level::contributions_of(bits);
    let raw = Record {
        key,
        count: 1,
        top: c.top,
        finest: level::finest_power(bits),
        high: level::split(c.high),
        middle: level::split(c.middle),
        low: level::split(c.low),
    };
    SoundRecord { raw }
}
