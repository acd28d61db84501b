// The report: its text, line by line and whole.
#![tactic(auto)]

ghost use Rattle.std.specs.Prelude.{◌≡◌, ◌+◌, ◌≤◌, ◌++◌, length, IsTrue};
ghost use Rattle.std.specs.Float.Ieee.Scale.{finite};
ghost use Rattle.codec.specs.Cells.{image};
ghost use Rattle.refusal.specs.Answer.{outcome_of};
ghost use Rattle.refusal.specs.Number.{number_of};
ghost use Rattle.refusal.specs.Outcome.{refused};
ghost use Rattle.record.specs.Section.{meaning, sections};
ghost use Rattle.finish.specs.Answer.{sum_answer};
ghost use Rattle.finish.specs.Steps.{FiniteSum};
ghost use Rattle.numerals.specs.Numerals.{decimal};
ghost use Rattle.report.specs.Text.{space, line_feed, refusal_text, last_fields, line_with, finished_text, line_text, total_line, table_text, columns_text, report_text};
ghost use Rattle.report.specs.Answer.{print_outcome, print_leaves};
ghost use Rattle.report.specs.Steps.{longest_text};

use columns::Columns;
use finish::{FinishedLine, SectionSum};
use numerals::{Bits, Text};
use refusal::Refusal;
use soundness::{SoundRecord, SoundTable};
use totals::TableTotals;

// The longest text.
pub const LONGEST_TEXT: usize = 4096;

// The bytes of a table of 64 groups, and of its work buffer.
const TABLE_BYTES: usize = 64 * 64;

// "refused", a refusal's number and a line feed.
#[tactic(auto, unfolding(crate::specs::Text::refusal_text))]
fn print_refusal(text: &mut Text<LONGEST_TEXT>, r: Refusal)
    requires { length text.old + length (refusal_text (number_of r) ++ line_feed) ≤ longest_text }
    ensures { text.new ≡ text.old ++ (refusal_text (number_of r) ++ line_feed) }
{
    text.push_bytes(b"refused ");
    text.push_field(u32::from(r), b'\n');
}

// Section and row count, a space after each.
fn print_key_and_count(text: &mut Text<LONGEST_TEXT>, key: u32, count: u32)
    requires { length text.old + length (decimal key ++ space ++ decimal count ++ space) ≤ longest_text }
    ensures { text.new ≡ text.old ++ decimal key ++ space ++ decimal count ++ space }
{
    text.push_field(key, b' ');
    text.push_field(count, b' ');
}

// A finished line.
fn print_line(text: &mut Text<LONGEST_TEXT>, line: FinishedLine)
    requires fits { length text.old + length (finished_text line) ≤ longest_text }
    requires finite_sum { IsTrue (finite line.sum) }
    ensures { text.new ≡ text.old ++ finished_text line }
{
    print_key_and_count(text, line.key, line.count);
    text.push_field(Bits(f64::to_bits(line.sum)), b' ');
    text.push_field(line.figure, b' ');
    // a side as Card 2's number: -1, 0 or 1
    text.push_field(line.side as i32, b'\n');
}

// The end of a line that is not finished: the sum and its figure's refusal, or a refused sum in place of both, and a line feed. It has no side.
#[tactic(auto, unfolding(crate::specs::Text::last_fields, crate::specs::Text::figure_fields))]
fn print_refused_fields(text: &mut Text<LONGEST_TEXT>, answer: SectionSum, why: Refusal)
    requires fits { length text.old + length (last_fields (sum_answer answer) (refused (number_of why)) ++ line_feed) ≤ longest_text }
    requires finite_sum { FiniteSum answer }
    ensures { text.new ≡ text.old ++ last_fields (sum_answer answer) (refused (number_of why)) ++ line_feed }
{
    match answer {
        SectionSum::Finite(x, _) => {
            text.push_field(Bits(f64::to_bits(x)), b' ');
            print_refusal(text, why);
        }
        SectionSum::TooLarge => print_refusal(text, Refusal::SumTooLarge),
        SectionSum::Absent => print_refusal(text, Refusal::SectionAbsent),
        SectionSum::NotSound => print_refusal(text, Refusal::TableNotSound),
    }
}

// The line of a section whose finished line is refused.
#[tactic(auto, unfolding(crate::specs::Text::line_with))]
fn print_unfinished(
    text: &mut Text<LONGEST_TEXT>,
    key: u32,
    count: u32,
    answer: SectionSum,
    why: Refusal,
)
    requires fits { length text.old + length (line_with key count (last_fields (sum_answer answer) (refused (number_of why)))) ≤ longest_text }
    requires finite_sum { FiniteSum answer }
    ensures { text.new ≡ text.old ++ line_with key count (last_fields (sum_answer answer) (refused (number_of why))) }
{
    print_key_and_count(text, key, count);
    print_refused_fields(text, answer, why);
}

// The line of a sound record's section.
fn print_section(text: &mut Text<LONGEST_TEXT>, r: SoundRecord)
    requires { length text.old + length (line_text (meaning r.raw)) ≤ longest_text }
    ensures { text.new ≡ text.old ++ line_text (meaning r.raw) }
{
    match finish::record_line(r) {
        Ok(line) => print_line(text, line),
        Err(why) => print_unfinished(text, r.raw.key, r.raw.count, finish::record_sum(r), why),
    }
}

// A line for each section of the table.
fn print_sections(text: &mut Text<LONGEST_TEXT>, t: SoundTable<'_>)
    requires { length text.old + length (image line_text (sections t.bytes.now t.groups)) ≤ longest_text }
    ensures { text.new ≡ text.old ++ image line_text (sections t.entry.bytes.now t.entry.groups) }
{
    for i in 0..t.groups {
        print_section(text, t.record(i));
    }
}

// The total line: how many sections and rows there are.
#[tactic(auto, unfolding(crate::specs::Text::total_line))]
fn print_totals(text: &mut Text<LONGEST_TEXT>, totals: TableTotals)
    requires { length text.old + length (total_line totals) ≤ longest_text }
    ensures { text.new ≡ text.old ++ total_line totals }
{
    text.push_bytes(b"total ");
    text.push_field(totals.groups, b' ');
    text.push_field(totals.count, b'\n');
}

// The head line, a line for each section, and the total line.
#[tactic(auto, unfolding(crate::specs::Text::head_line, crate::specs::Text::table_text))]
fn print_table(text: &mut Text<LONGEST_TEXT>, t: SoundTable<'_>)
    requires { length text.old + length (table_text (sections t.bytes.now t.groups)) ≤ longest_text }
    ensures { text.new ≡ text.old ++ table_text (sections t.entry.bytes.now t.entry.groups) }
{
    text.push_bytes(b"section rows bits hundredths side\n");
    print_sections(text, t);
    print_totals(text, totals::table_totals(t));
}

// What two columns print.
fn print_columns(text: &mut Text<LONGEST_TEXT>, columns: Columns<'_>)
    requires { length text.old + length (columns_text columns.kind columns.keys.now columns.values.now) ≤ longest_text }
    ensures { text.new ≡ text.old ++ columns_text columns.entry.kind columns.entry.keys.now columns.entry.values.now }
{
    let mut table = [0u8; TABLE_BYTES];
    let mut work = [0u8; TABLE_BYTES];
    match add::add(
        &mut table,
        0,
        columns.keys,
        columns.values,
        columns.kind,
        &mut work,
    ) {
        Ok(g) => print_table(text, SoundTable::known(&table, g)),
        Err(r) => print_refusal(text, r),
    }
}

// What the file prints.
fn print_file(text: &mut Text<LONGEST_TEXT>, file: &[u8])
    requires { length text.old + length (report_text file.now) ≤ longest_text }
    ensures { text.new ≡ text.old ++ report_text file.now }
{
    match patch::read(file) {
        Ok(rows) => {
            let columns = Columns::new(patch::keys(file), patch::values(file), rows.kind);
            print_columns(text, columns);
        }
        Err(why) => print_refusal(text, why),
    }
}

// The report of a file, at the front of a lent buffer; a buffer that is too short is untouched.
pub fn report(file: &[u8], out: &mut [u8]) -> Result<usize, Refusal>
    ensures answer { outcome_of result ≡ print_outcome out.old (report_text file.now) }
    ensures content { out.new ≡ print_leaves out.old (report_text file.now) }
{
    let mut text = Text::new();
    print_file(&mut text, file);
    let printed = text.as_bytes();
    let n = printed.len();
    if out.len() < n {
        return Err(Refusal::OutputTooShort);
    }
    out[..n].copy_from_slice(printed);
    Ok(n)
}
