// Whether an add would make a row count overflow (11), seen before any row is placed.
#![tactic(auto)]

ghost use Rattle.std.specs.Prelude.{◌≡◌, List, ℕ, ◌≤◌};
ghost use Rattle.lists.specs.Lists.{any_of};
ghost use Rattle.columns.specs.declared.Kind.{Kind};
ghost use Rattle.columns.specs.Columns.{column_keys};
ghost use Rattle.record.specs.Section.{Section, sections};
ghost use Rattle.table.specs.Calls.{overflows, add_sections};
ghost use Rattle.overflow.specs.Counts.{count_in, count_overflows};

use codec::Field;
use soundness::SoundTable;

// The largest row count, as a number of rows in lent columns.
const MOST_ROWS: usize = table::MOST_ROWS as usize;

// Whether the rows with the number k, and c that are held, are more than a row count can say. Rows are counted only where there are enough of them.
fn count_overflows(keys: &[u8], k: u32, c: u32) -> bool
    ensures { result ≡ count_overflows keys.now k c }
{
    let held = c as usize;
    if keys.len() / 4 <= MOST_ROWS - held {
        return false;
    }
    MOST_ROWS - held < columns::count_key(keys, k)
}

// Whether the row count of a section of the table would overflow.
fn section_overflows(t: SoundTable<'_>, keys: &[u8]) -> bool
    ensures { result ≡ any_of (λ (s : Section). count_overflows keys.now s.key s.count) (sections t.entry.bytes.now t.entry.groups) }
{
    for j in 0..t.groups {
        if count_overflows(keys, t.key(j), t.count(j)) {
            return true;
        }
    }
    false
}

// The row count that a table holds of section k.
fn held_count(t: SoundTable<'_>, k: u32) -> u32
    ensures { result ≡ count_in k (sections t.entry.bytes.now t.entry.groups) }
{
    match t.find(k) {
        Some(r) => r.raw.count,
        None => 0,
    }
}

// Whether the row count of a row's section would overflow.
fn row_overflows(t: SoundTable<'_>, keys: &[u8]) -> bool
    ensures { result ≡ any_of (λ k. count_overflows keys.now k (count_in k (sections t.entry.bytes.now t.entry.groups))) (column_keys keys.now) }
{
    let n = keys.len() / 4;
    for i in 0..n {
        let k = u32::read(keys, 4 * i);
        if count_overflows(keys, k, held_count(t, k)) {
            return true;
        }
    }
    false
}

// Whether a section would have more rows than its count can say. A section that the table does not hold can have them only where 2^32 rows or more are added.
pub fn any_overflow(t: SoundTable<'_>, keys: &[u8]) -> bool
    ensures { (kind : Kind) (vs : List ℕ) → result ≡ any_of overflows (add_sections kind t.entry.bytes.now t.entry.groups keys.now vs) }
{
    if keys.len() / 4 <= MOST_ROWS {
        return section_overflows(t, keys);
    }
    row_overflows(t, keys)
}
