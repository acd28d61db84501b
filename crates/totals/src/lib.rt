// How many sections and rows a table has.
#![tactic(auto)]

ghost use Rattle.std.specs.Prelude.{◌≡◌};
ghost use Rattle.record.specs.Section.{sections};
ghost use Rattle.refusal.specs.Answer.{outcome_of};
ghost use Rattle.totals.specs.Totals.{row_total, table_totals, totals_outcome};

use refusal::Refusal;
use soundness::SoundTable;

// The numbers of a table as a whole: of its sections, and of their rows.
#[derive(Clone, Copy)]
pub struct TableTotals {
    pub groups: u64,
    pub count: u64,
}

// The row counts of all records, added up. There are at most 1,024 of 32 bits each, so that 64 bits are enough.
fn row_total(t: SoundTable<'_>) -> u64
    ensures { result ≡ row_total (sections t.entry.bytes.now t.entry.groups) }
{
    let mut count: u64 = 0;
    for i in 0..t.groups {
        count += t.count(i) as u64;
    }
    count
}

// The totals of a sound table.
pub fn table_totals(t: SoundTable<'_>) -> TableTotals
    ensures { result ≡ table_totals (sections t.entry.bytes.now t.entry.groups) }
{
    TableTotals {
        groups: t.groups as u64,
        count: row_total(t),
    }
}

// The totals of a table of g records.
pub fn totals(table: &[u8], g: usize) -> Result<TableTotals, Refusal>
    ensures { outcome_of result ≡ totals_outcome table.now g }
{
    let t = SoundTable::new(table, g).ok_or(Refusal::TableNotSound)?;
    Ok(table_totals(t))
}
