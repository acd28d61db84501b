// A record, or a row, brought into a table: combined with the record of its key, or inserted in the gap.
#![tactic(auto)]

ghost use Rattle.std.specs.Prelude.{IfOk, ◌≡◌, true, false, ◌+◌, ◌*◌, ◌≤◌, ◌<◌, T, length};
ghost use Rattle.lists.specs.Lists.{any_of};
ghost use Rattle.columns.specs.Columns.{column_row_count, columns_fit, row_at};
ghost use Rattle.record.specs.Layout.{record_at, records, capacity};
ghost use Rattle.record.specs.Keys.{record_keys, rising, place};
ghost use Rattle.record.specs.Sound.{sound, sound_record};
ghost use Rattle.record.specs.Section.{sections, meaning, record_of};
ghost use Rattle.table.specs.Combine.{of_row, combine, absorb};
ghost use Rattle.table.specs.Calls.{most_rows, overflows};
ghost use Rattle.absorb.specs.Steps.{PutAt, Absorbs};

use codec::Field;
use columns::Columns;
use soundness::{SoundRecord, SoundTable};

// The place of a key. The hint is tried first: rows come in runs of one section, and two tables with the same sections are walked side by side.
// Kept: it asks less than a sound table, so it takes the bytes and the group count.
pub fn locate(t: &[u8], g: usize, hint: usize, key: u32) -> Result<usize, usize>
    requires { (g * 64 ≤ length t.now) × T (rising (record_keys (records t.now g))) }
    ensures { result ≡ place key (record_keys (records t.now g)) }
{
    if hint < g {
        if u32::read(t, hint * 64) == key {
            return Ok(hint);
        }
    }
    record::binary_search(t, g, key)
}

// The same in a sound table: an index that is found is that of one of its records.
pub fn locate_in(t: SoundTable<'_>, hint: usize, key: u32) -> Result<usize, usize>
    ensures place { result ≡ place key (record_keys (records t.entry.bytes.now t.entry.groups)) }
    ensures within { IfOk result (λ i. i < t.entry.groups) }
{
    locate(t.bytes, t.groups, hint, key)
}

// How far the rows of columns are brought in: the table's group count, and the place that the next row tries first. A wrong place would cost time alone, so that
// nothing is promised of it.
#[derive(Clone, Copy)]
pub struct Absorbed {
    pub groups: usize,
    pub last: usize,
}

// Record i combined with r. Records of one top, as nearly all are, have a write of their own, from which the compiler leaves
// the key out, so that the next search need not wait for it. The others are copied for the call, as in table::combined.
fn combine_at(t: &mut [u8], i: usize, r: SoundRecord)
    requires in_bounds { i * 64 + 64 ≤ length t.old }
    requires old_sound { T (sound_record (record_at t.old (i * 64))) }
    requires few_together { (record_at t.old (i * 64)).count + r.raw.count ≤ most_rows }
    ensures { PutAt t.old (i * 64) (record_of (combine (meaning (record_at t.old (i * 64))) (meaning r.raw))) t.new }
{
    let raw = record::get(t, i);
    let old = SoundRecord { raw };
    if raw.top == r.raw.top {
        record::put(t, i, table::combined_same_top(old, r));
    } else {
        let a = old;
        let b = r;
        record::put(t, i, table::combined_by_level(a, b));
    }
}

// The record r brought into a table that may have `room` groups: how far it is then, if there is room.
// Kept: the bytes are written, and between two writes they hold no sound table, so that soundness is a clause and no type; so is the room, a number beside them.
fn absorb_record(t: &mut [u8], so_far: Absorbed, room: usize, r: SoundRecord) -> Option<Absorbed>
    requires sound_table { T (sound t.old so_far.groups) }
    requires within_room { (so_far.groups ≤ room) × (room ≤ capacity (length t.old)) }
    requires no_overflow { any_of overflows (absorb (meaning r.raw) (sections t.old so_far.groups)) ≡ false }
    ensures { Absorbs (meaning r.raw) room (sections t.old so_far.groups) t.new result }
{
    let groups = so_far.groups;
    match locate(t, groups, so_far.last, r.raw.key) {
        Ok(i) => {
            combine_at(t, i, r);
            Some(Absorbed { groups, last: i })
        }
        Err(i) => {
            if groups < room {
                record::insert(t, groups, i, r.raw);
                return Some(Absorbed {
                    groups: groups + 1,
                    last: i,
                });
            }
            None
        }
    }
}

// Row i of the columns brought into the table.
// Kept: soundness is a clause, as in absorb_record; so it is that the columns fit, since a type for it would be taken apart in every clause.
pub fn absorb_row(
    t: &mut [u8],
    so_far: Absorbed,
    room: usize,
    columns: Columns<'_>,
    i: usize,
) -> Option<Absorbed>
    requires sound_table { T (sound t.old so_far.groups) }
    requires within_room { (so_far.groups ≤ room) × (room ≤ capacity (length t.old)) }
    requires within_columns { (columns_fit columns.kind columns.keys.now columns.values.now ≡ true) × (i < column_row_count columns.keys.now) }
    requires no_overflow { any_of overflows (absorb (of_row (row_at columns.kind columns.keys.now columns.values.now i)) (sections t.old so_far.groups)) ≡ false }
    ensures { Absorbs (of_row (row_at columns.entry.kind columns.entry.keys.now columns.entry.values.now i)) room (sections t.old so_far.groups) t.new result }
{
    let r = table::row_record(columns.key(i), columns.bits(i));
    absorb_record(t, so_far, room, r)
}
