// Taking the rows of two columns back out of a table: all of them or none. The patch's own table is made in the work buffer; the table is written only when the removal is known to be accepted.
#![tactic(auto)]

ghost use Rattle.std.specs.Prelude.{◌≡◌, true, false, ◌*◌, ◌≤◌, ◌<◌, T, length};
ghost use Rattle.lists.specs.Lists.{any_of};
ghost use Rattle.level.specs.Level.{below};
ghost use Rattle.level.specs.Carry.{carry_base, split_of};
ghost use Rattle.columns.specs.Columns.{columns_fit};
ghost use Rattle.record.specs.Layout.{record_at};
ghost use Rattle.record.specs.Sound.{sound};
ghost use Rattle.record.specs.Section.{sections, meaning, record_of, find, written};
ghost use Rattle.table.specs.Calls.{overflows, cleared};
ghost use Rattle.refusal.specs.Answer.{outcome_of};
ghost use Rattle.overflow.specs.Counts.{count_in};
ghost use Rattle.remove.specs.Remaining.{without_at, without, without_if, remaining, exceeds_for, too_few_rows, total_exceeds};
ghost use Rattle.remove.specs.Calls.{patch_sections, remove_outcome, remove_leaves};
ghost use Rattle.remove.specs.Steps.{Stands, compared_outcome, TakenOut};

use columns::{Columns, Kind};
use level::SplitTotal;
use record::Record;
use refusal::Refusal;
use soundness::{SoundRecord, SoundTable};

// What r holds d levels below its top without what p holds there; below level 0 there is nothing.
fn total_without(r: SoundRecord, p: SoundRecord, d: u32) -> SplitTotal
    ensures { result ≡ split_of (below (without_at (meaning r.raw) (meaning p.raw)) r.raw.top d) }
{
    if r.raw.top < d {
        return table::nothing();
    }
    let j = r.raw.top - d;
    level::subtract_totals(table::split_in(r.raw, j), table::split_in(p.raw, j))
}

// A held record without the patch's record p of its section.
fn record_without(r: SoundRecord, p: SoundRecord) -> Record
    requires { p.raw.count ≤ r.raw.count }
    ensures { result ≡ record_of (without (meaning r.raw) (meaning p.raw)) }
{
    Record {
        key: r.raw.key,
        count: r.raw.count - p.raw.count,
        top: r.raw.top,
        finest: r.raw.finest,
        high: total_without(r, p, 0),
        middle: total_without(r, p, 1),
        low: total_without(r, p, 2),
    }
}

// What is known of a section that has at least as many rows in the table as in the patch: whether it is held at a lower top. `hint` is the place that the patch's next section tries
// first; a wrong place would cost time alone, so that nothing is promised of it.
#[derive(Clone, Copy)]
struct Enough {
    too_low: bool,
    hint: usize,
}

// How the patch's record i stands to any table; None where that has fewer rows.
fn compare_section(
    t: SoundTable<'_>,
    patch: SoundTable<'_>,
    i: usize,
    hint: usize,
) -> Option<Enough>
    requires { i < patch.groups }
    ensures { Stands (find (record_at patch.entry.bytes.now (i * 64)).key (sections t.entry.bytes.now t.entry.groups)) (meaning (record_at patch.entry.bytes.now (i * 64))) result }
{
    match absorb::locate_in(t, hint, patch.key(i)) {
        Err(_) => None,
        Ok(j) => {
            if t.count(j) < patch.count(i) {
                return None;
            }
            Some(Enough {
                too_low: t.top(j) < patch.top(i),
                hint: j + 1,
            })
        }
    }
}

// Whether the table has at least as many rows of each of the patch's sections, and none at a lower top: 20 and 21.
fn compare_sections(t: SoundTable<'_>, patch: SoundTable<'_>) -> Result<(), Refusal>
    ensures { outcome_of result ≡ compared_outcome (sections t.entry.bytes.now t.entry.groups) (sections patch.entry.bytes.now patch.entry.groups) }
{
    let mut any_too_low = false;
    let mut hint = 0;
    for i in 0..patch.groups {
        let Some(e) = compare_section(t, patch, i, hint) else {
            return Err(Refusal::TooFewRows);
        };
        any_too_low |= e.too_low;
        hint = e.hint;
    }
    if any_too_low {
        return Err(Refusal::RaisesTop);
    }
    Ok(())
}

// A held record without what the patch has for its section, and the place that the next section tries first, of which nothing is promised.
#[derive(Clone, Copy)]
struct Reduction {
    remaining: Record,
    hint: usize,
}

// The record r, reduced by what the patch has for its section.
fn reduce(r: SoundRecord, patch: SoundTable<'_>, hint: usize) -> Reduction
    requires { count_in r.raw.key (sections patch.bytes.now patch.groups) ≤ r.raw.count }
    ensures { result.remaining ≡ record_of (without_if (meaning r.raw) (find r.raw.key (sections patch.entry.bytes.now patch.entry.groups))) }
{
    match absorb::locate_in(patch, hint, r.raw.key) {
        Ok(i) => Reduction {
            remaining: record_without(r, patch.record(i)),
            hint: i + 1,
        },
        Err(i) => Reduction {
            remaining: r.raw,
            hint: i,
        },
    }
}

// Whether a total of the record is larger than so many rows allow; 22 asks it of the rows that remain.
fn exceeds_for(r: Record, count: u32) -> bool
    requires { (r.high.residue < carry_base) × (r.middle.residue < carry_base) × (r.low.residue < carry_base) }
    ensures { result ≡ exceeds_for count (meaning r) }
{
    if !soundness::total_sound(r.high, count) {
        return true;
    }
    if !soundness::total_sound(r.middle, count) {
        return true;
    }
    !soundness::total_sound(r.low, count)
}

// Whether a remaining total would be too large for the remaining rows: 22.
fn any_exceeds(t: SoundTable<'_>, patch: SoundTable<'_>) -> bool
    requires { too_few_rows (sections t.bytes.now t.groups) (sections patch.bytes.now patch.groups) ≡ false }
    ensures { result ≡ total_exceeds (sections t.entry.bytes.now t.entry.groups) (sections patch.entry.bytes.now patch.entry.groups) }
{
    let mut hint = 0;
    for i in 0..t.groups {
        let held = t.record(i);
        let x = reduce(held, patch, hint);
        if exceeds_for(x.remaining, x.remaining.count) {
            return true;
        }
        hint = x.hint;
    }
    false
}

// The records that remain, moved down over those that go; how many they are.
// Kept: the bytes are written, and between two writes they hold no sound table, so that soundness is a clause and no type; so it is in the callers.
fn keep_remaining(table: &mut [u8], g: usize, patch: SoundTable<'_>) -> usize
    requires sound_table { T (sound table.old g) }
    requires enough_rows { too_few_rows (sections table.old g) (sections patch.bytes.now patch.groups) ≡ false }
    ensures { (result ≡ length (remaining (sections table.old g) (sections patch.entry.bytes.now patch.entry.groups))) × (table.new ≡ written (remaining (sections table.old g) (sections patch.entry.bytes.now patch.entry.groups)) table.old) }
{
    let mut kept = 0;
    let mut hint = 0;
    for i in 0..g {
        let raw = record::get(table, i);
        let x = reduce(SoundRecord { raw }, patch, hint);
        if 0 < x.remaining.count {
            record::put(table, kept, x.remaining);
            kept += 1;
        }
        hint = x.hint;
    }
    kept
}

// The patch taken out of the table, unless 20, 21 or 22 holds; what the records that remain do not use of the former ones becomes zero.
fn subtract_patch(table: &mut [u8], g: usize, patch: SoundTable<'_>) -> Result<usize, Refusal>
    requires { T (sound table.old g) }
    ensures { TakenOut table.old g (sections table.old g) (sections patch.entry.bytes.now patch.entry.groups) (outcome_of result) table.new }
{
    let held = SoundTable::known(table, g);
    compare_sections(held, patch)?;
    if any_exceeds(held, patch) {
        return Err(Refusal::TotalExceeds);
    }
    let kept = keep_remaining(table, g, patch);
    codec::clear_part(table, kept * 64, g * 64);
    Ok(kept)
}

// Good columns made a table of their own in the work buffer, and taken out. A patch of more sections than the table holds has one that is absent.
fn remove_in(
    table: &mut [u8],
    g: usize,
    columns: Columns<'_>,
    work: &mut [u8],
) -> Result<usize, Refusal>
    requires sound_table { T (sound table.old g) }
    requires work_as_long { length table.old ≤ length work.old }
    requires fit { columns_fit columns.kind columns.keys.now columns.values.now ≡ true }
    requires no_overflow { any_of overflows (patch_sections columns.kind columns.keys.now columns.values.now) ≡ false }
    ensures { TakenOut table.old g (sections table.old g) (patch_sections columns.entry.kind columns.entry.keys.now columns.entry.values.now) (outcome_of result) table.new }
{
    match add::add_rows(work, 0, g, columns.keys, columns.values, columns.kind) {
        Some(n) => subtract_patch(table, g, SoundTable::known(work, n)),
        None => Err(Refusal::TooFewRows),
    }
}

// The removal, with the work buffer left as it comes. A section of more rows than a count can say has more than any that is held.
fn remove_checked(
    table: &mut [u8],
    g: usize,
    columns: Columns<'_>,
    work: &mut [u8],
) -> Result<usize, Refusal>
    ensures answer { outcome_of result ≡ remove_outcome columns.entry.kind table.old g columns.entry.keys.now columns.entry.values.now (length work.old) }
    ensures content { table.new ≡ remove_leaves columns.entry.kind table.old g columns.entry.keys.now columns.entry.values.now (length work.old) }
{
    table::check_columns(
        table,
        g,
        columns.keys,
        columns.values,
        columns.kind,
        work.len(),
    )?;
    let too_many = overflow::any_overflow(SoundTable::known(work, 0), columns.keys);
    if too_many {
        Err(Refusal::TooFewRows)
    } else {
        remove_in(table, g, columns, work)
    }
}

// Removes the rows of the two columns, whose values are of a kind: all of them, or none. The work buffer holds only zeros afterwards.
pub fn remove(
    table: &mut [u8],
    g: usize,
    keys: &[u8],
    values: &[u8],
    kind: Kind,
    work: &mut [u8],
) -> Result<usize, Refusal>
    ensures answer { outcome_of result ≡ remove_outcome kind table.old g keys.now values.now (length work.old) }
    ensures content { table.new ≡ remove_leaves kind table.old g keys.now values.now (length work.old) }
    ensures work { work.new ≡ cleared work.old }
{
    let columns = Columns { keys, values, kind };
    let answer = remove_checked(table, g, columns, work);
    codec::clear(work);
    answer
}
