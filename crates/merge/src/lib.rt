// Merging one table into another, in place and without a work buffer.
#![tactic(auto)]

ghost use Rattle.std.specs.Prelude.{◌≡◌, true, false, ◌*◌, ◌<◌, ◌≤◌, T, MatchOption, length};
ghost use Rattle.lists.specs.Lists.{any_of};
ghost use Rattle.refusal.specs.Answer.{outcome_of};
ghost use Rattle.record.specs.Sound.{sound};
ghost use Rattle.record.specs.Section.{record_of, written};
ghost use Rattle.table.specs.Calls.{overflows, merge_sections, merge_outcome, merge_leaves};
ghost use Rattle.merge.specs.Steps.{WithoutLast, union, taken_section, StepBack};

use record::Record;
use refusal::Refusal;
use soundness::SoundTable;
use std::cmp::Ordering;

// A sound table without its last record.
fn without_last(t: SoundTable<'_>) -> SoundTable<'_>
    requires some_left { 0 < t.groups }
    ensures { WithoutLast t.entry result }
{
    SoundTable {
        bytes: t.bytes,
        groups: t.groups - 1,
    }
}

// Two tables that are walked together, from their last records to their first.
#[derive(Clone, Copy)]
pub struct TablePair<'a, 'b> {
    pub first: SoundTable<'a>,
    pub second: SoundTable<'b>,
}

impl<'a, 'b> TablePair<'a, 'b> {
    // What is left once the last section of the union is taken away: that of the larger of the two last keys, and an equal key is taken from both.
    #[tactic(auto, using(crate::proofs::Walk::second_back, crate::proofs::Walk::first_back, crate::proofs::Walk::both_back, std::proofs::lemmas::Cmp::ranked))]
    fn previous(self) -> TablePair<'a, 'b>
        requires some_left { 0 < self.second.groups }
        ensures { StepBack self.entry result }
    {
        let first = self.first;
        let second = self.second;
        if first.groups == 0 {
            return TablePair {
                first,
                second: without_last(second),
            };
        }
        let last = first.key(first.groups - 1);
        match last.cmp(&second.key(second.groups - 1)) {
            Ordering::Less => TablePair {
                first,
                second: without_last(second),
            },
            Ordering::Equal => TablePair {
                first: without_last(first),
                second: without_last(second),
            },
            Ordering::Greater => TablePair {
                first: without_last(first),
                second,
            },
        }
    }

    // The rows of the section that is taken away where `left` is what is left.
    #[tactic(auto, using(crate::proofs::Walk::second_count, crate::proofs::Walk::first_count, crate::proofs::Walk::both_count))]
    fn taken_count(self, left: TablePair<'_, '_>) -> u64
        requires { StepBack self left }
        ensures { result ≡ (taken_section self.entry left.entry).count }
    {
        let i = left.first.groups;
        let j = left.second.groups;
        if i == self.first.groups {
            return self.second.count(j) as u64;
        }
        if j == self.second.groups {
            return self.first.count(i) as u64;
        }
        self.first.count(i) as u64 + self.second.count(j) as u64
    }

    // The record of that section.
    #[tactic(auto, using(crate::proofs::Walk::second_taken, crate::proofs::Walk::first_taken, crate::proofs::Walk::both_taken, crate::proofs::Walk::both_count, table::proofs::State::record_meaning))]
    fn taken_record(self, left: TablePair<'_, '_>) -> Record
        requires step { StepBack self left }
        requires no_overflow { overflows (taken_section self left) ≡ false }
        ensures { result ≡ record_of (taken_section self.entry left.entry) }
    {
        let i = left.first.groups;
        let j = left.second.groups;
        if i == self.first.groups {
            return self.second.record(j).raw;
        }
        if j == self.second.groups {
            return self.first.record(i).raw;
        }
        table::combined(self.first.record(i), self.second.record(j))
    }

    // How many sections two tables have together, unless one of them has more rows than its count can say.
    fn united(self) -> Option<usize>
        ensures { MatchOption result (any_of overflows (union self.entry) ≡ true) (λ n. (any_of overflows (union self.entry) ≡ false) × (n ≡ length (union self.entry))) }
    {
        let mut both = self;
        let mut n = 0;
        // Kept: two tables are walked back at once, each step as their keys say, which no range says.
        while 0 < both.second.groups {
            let left = both.previous();
            if table::MOST_ROWS < both.taken_count(left) {
                return None;
            }
            both = left;
            n += 1;
        }
        Some(n + both.first.groups)
    }
}

// The sections of both tables, `groups` of them, written from the last one to the first.
// Kept: the first table's bytes are written, so they can't be lent as a sound table's as well, and its soundness stays a clause.
#[tactic(auto, using(crate::proofs::Writing::no_overflow_last, crate::proofs::Writing::all_written))]
fn write_union(first: &mut [u8], g1: usize, second_table: SoundTable<'_>, groups: usize)
    requires first_sound { T (sound first.old g1) }
    requires no_overflow { any_of overflows (merge_sections first.old g1 second_table.bytes.now second_table.groups) ≡ false }
    requires union_groups { groups ≡ length (merge_sections first.old g1 second_table.bytes.now second_table.groups) }
    requires in_bounds { groups * 64 ≤ length first.old }
    ensures { first.new ≡ written (merge_sections first.old g1 second_table.entry.bytes.now second_table.entry.groups) first.old }
{
    let mut a = g1;
    let mut b = second_table.groups;
    let mut k = groups;
    // Kept: two tables are walked back at once, as in united.
    while 0 < b {
        let both = TablePair {
            first: SoundTable {
                bytes: first,
                groups: a,
            },
            second: SoundTable {
                bytes: second_table.bytes,
                groups: b,
            },
        };
        let left = both.previous();
        let r = both.taken_record(left);
        a = left.first.groups;
        b = left.second.groups;
        k -= 1;
        record::put(first, k, r);
    }
}

// What a merge answers; it is known before a byte is written.
#[tactic(auto, using(crate::proofs::Outcome::first_not_sound, crate::proofs::Outcome::second_not_sound, crate::proofs::Outcome::too_many_rows, crate::proofs::Outcome::too_many_keys, crate::proofs::Outcome::fitting))]
fn decide(first: &[u8], g1: usize, second: &[u8], g2: usize) -> Result<usize, Refusal>
    ensures { outcome_of result ≡ merge_outcome first.now g1 second.now g2 }
{
    let both = TablePair {
        first: SoundTable::new(first, g1).ok_or(Refusal::TableNotSound)?,
        second: SoundTable::new(second, g2).ok_or(Refusal::TableNotSound)?,
    };
    let groups = both.united().ok_or(Refusal::TooManyRows)?;
    if record::capacity(first.len()) < groups {
        return Err(Refusal::TooManyKeys);
    }
    Ok(groups)
}

// Document 01's merge: the sections of the second table brought into the first.
pub fn merge(first: &mut [u8], g1: usize, second: &[u8], g2: usize) -> Result<usize, Refusal>
    ensures answer { outcome_of result ≡ merge_outcome first.old g1 second.now g2 }
    ensures content { first.new ≡ merge_leaves first.old g1 second.now g2 }
{
    let united = decide(first, g1, second, g2)?;
    let second_table = SoundTable {
        bytes: second,
        groups: g2,
    };
    write_union(first, g1, second_table, united);
    Ok(united)
}
