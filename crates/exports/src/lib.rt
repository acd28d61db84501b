// The public calls for other languages, which crate exports_c gives to C under the same names. A call returns a number of at least 0, or minus the refusal's number; further numbers go
// out through references, and are 0 when the call is refused.
// Kept: numbers for refusals and widths, and a table as its bytes and a group count, are the C interface.
#![tactic(auto)]

ghost use Rattle.std.specs.Prelude.{◌≡◌, [], ℕ, ◌≤◌, ◌<◌, ◌^◌, pos, neg_ℤ, length};
ghost use Rattle.refusal.specs.Number.{number_of};
ghost use Rattle.refusal.specs.Outcome.{accepted};
ghost use Rattle.refusal.specs.Answer.{outcome_of};
ghost use Rattle.columns.specs.Columns.{width};
ghost use Rattle.patch.specs.File.{kind_of, file_outcome, key_start, value_start};
ghost use Rattle.patch.specs.Serializer.{write_outcome, write_leaves};
ghost use Rattle.table.specs.Calls.{cleared, merge_outcome, merge_leaves};
ghost use Rattle.limbs.specs.Side.{side_number};
ghost use Rattle.finish.specs.Finish.{sum_outcome, figure_outcome, line_outcome};
ghost use Rattle.finish.specs.Exact.{exactness_outcome};
ghost use Rattle.totals.specs.Totals.{totals_outcome};
ghost use Rattle.checkpoint.specs.Calls.{save_outcome, save_leaves, load_outcome, load_leaves};
ghost use Rattle.report.specs.Text.{report_text};
ghost use Rattle.report.specs.Answer.{print_outcome, print_leaves};
ghost use Rattle.exports.specs.Width.{kind_of_width, width_kind, no_kind_outcome, add_of_width, add_of_width_leaves, remove_of_width, remove_of_width_leaves};
ghost use Rattle.exports.specs.Calls.{returned, returns_count, returns_zero, returns_flag, writes, double_bits};

use columns::Kind;
use refusal::Refusal;

// Minus a refusal's number.
fn minus(r: Refusal) -> i64
    ensures { result ≡ neg_ℤ (pos (number_of r)) }
{
    level::with_sign(true, u32::from(r) as u64)
}

// The row count of a patch file, where its columns start, and how many bytes each of its values has.
pub fn girth_read(file: &[u8], keys_at: &mut u64, values_at: &mut u64, value_width: &mut u64) -> i64
    ensures answer { result ≡ returned (λ x. x.count) (file_outcome file.now) }
    ensures key_start { keys_at.new ≡ key_start (kind_of file.now) file.now }
    ensures value_start { values_at.new ≡ value_start (kind_of file.now) file.now }
    ensures width { value_width.new ≡ writes 0 (λ x. width x.kind) (file_outcome file.now) }
{
    let key_start = patch::key_start(file) as u64;
    let value_start = patch::value_start(file) as u64;
    *keys_at = key_start;
    *values_at = value_start;
    *value_width = 0;
    match patch::read(file) {
        Ok(rows) => {
            *value_width = columns::value_width(rows.kind) as u64;
            rows.count as i64
        }
        Err(r) => minus(r),
    }
}

// The count that a call answers, of groups or of bytes written, or minus the refusal's number.
fn count_or_minus(a: Result<usize, Refusal>) -> i64
    requires { (n : ℕ) → outcome_of a ≡ accepted n → n < 2 ^ 63 }
    ensures { result ≡ returns_count (outcome_of a) }
{
    match a {
        Ok(n) => n as i64,
        Err(r) => minus(r),
    }
}

// The kind of value that has so many bytes, if there is one.
// Kept: as a TryFrom it would have an error type of its own for one number, and be no plainer.
fn kind_of_width(value_width: u64) -> Option<Kind>
    ensures { width_kind result ≡ kind_of_width value_width }
{
    match value_width {
        8 => Some(Kind::Double),
        4 => Some(Kind::Single),
        _ => None,
    }
}

// Columns whose values have a width of no kind: as with any others that no row count fits, 7 and 8 go before 9.
fn refuse_unknown_width(table: &mut [u8], g: u64, work: &mut [u8]) -> i64
    ensures answer { result ≡ returns_count (no_kind_outcome table.old g (length work.old)) }
    ensures content { table.new ≡ table.old }
    ensures work { work.new ≡ cleared work.old }
{
    let unfit = [0u8; 1];
    count_or_minus(add::add(table, g as usize, &unfit, &unfit, Kind::Double, work))
}

// Adds the rows of two columns to a table of g records, each value having so many bytes. The work buffer holds only zeros afterwards.
pub fn girth_add(
    table: &mut [u8],
    g: u64,
    keys: &[u8],
    values: &[u8],
    value_width: u64,
    work: &mut [u8],
) -> i64
    ensures answer { result ≡ returns_count (add_of_width (kind_of_width value_width) table.old g keys.now values.now (length work.old)) }
    ensures content { table.new ≡ add_of_width_leaves (kind_of_width value_width) table.old g keys.now values.now (length work.old) }
    ensures work { work.new ≡ cleared work.old }
{
    match kind_of_width(value_width) {
        Some(kind) => count_or_minus(add::add(table, g as usize, keys, values, kind, work)),
        None => refuse_unknown_width(table, g, work),
    }
}

// Removes the rows of two columns from a table of g records, each value having so many bytes. The work buffer holds only zeros afterwards.
pub fn girth_remove(
    table: &mut [u8],
    g: u64,
    keys: &[u8],
    values: &[u8],
    value_width: u64,
    work: &mut [u8],
) -> i64
    ensures answer { result ≡ returns_count (remove_of_width (kind_of_width value_width) table.old g keys.now values.now (length work.old)) }
    ensures content { table.new ≡ remove_of_width_leaves (kind_of_width value_width) table.old g keys.now values.now (length work.old) }
    ensures work { work.new ≡ cleared work.old }
{
    match kind_of_width(value_width) {
        Some(kind) => {
            count_or_minus(remove::remove(table, g as usize, keys, values, kind, work))
        }
        None => refuse_unknown_width(table, g, work),
    }
}

// Merges a table of g2 records into one of g1.
pub fn girth_merge(first: &mut [u8], g1: u64, second: &[u8], g2: u64) -> i64
    ensures answer { result ≡ returns_count (merge_outcome first.old g1 second.now g2) }
    ensures content { first.new ≡ merge_leaves first.old g1 second.now g2 }
{
    count_or_minus(merge::merge(first, g1 as usize, second, g2 as usize))
}

// The sum of a section, as 64 bits, and its side of the kept value.
pub fn girth_sum(table: &[u8], g: u64, key: u32, bits: &mut u64, side: &mut i64) -> i64
    ensures answer { result ≡ returns_zero (sum_outcome table.now g key) }
    ensures bits { bits.new ≡ writes 0 (λ x. double_bits x.sum) (sum_outcome table.now g key) }
    ensures side { side.new ≡ writes (pos 0) (λ x. side_number x.side) (sum_outcome table.now g key) }
{
    *bits = 0;
    *side = 0;
    match finish::sum(table, g as usize, key).rounded() {
        Ok(x) => {
            *bits = f64::to_bits(x.sum);
            *side = x.side as i64;
            0
        }
        Err(r) => minus(r),
    }
}

// The mill figure of a section.
pub fn girth_figure(table: &[u8], g: u64, key: u32, figure: &mut i64) -> i64
    ensures answer { result ≡ returns_zero (figure_outcome table.now g key) }
    ensures figure { figure.new ≡ writes (pos 0) (λ z. z) (figure_outcome table.now g key) }
{
    *figure = 0;
    match finish::figure(table, g as usize, key) {
        Ok(z) => {
            *figure = z as i64;
            0
        }
        Err(r) => minus(r),
    }
}

// The finished line of a section: row count, sum as 64 bits, mill figure, the sum's side of the kept value.
pub fn girth_line(
    table: &[u8],
    g: u64,
    key: u32,
    count: &mut u64,
    bits: &mut u64,
    figure: &mut i64,
    side: &mut i64,
) -> i64
    ensures answer { result ≡ returns_zero (line_outcome table.now g key) }
    ensures count { count.new ≡ writes 0 (λ l. l.count) (line_outcome table.now g key) }
    ensures bits { bits.new ≡ writes 0 (λ l. double_bits l.sum) (line_outcome table.now g key) }
    ensures figure { figure.new ≡ writes (pos 0) (λ l. l.figure) (line_outcome table.now g key) }
    ensures side { side.new ≡ writes (pos 0) (λ l. side_number l.side) (line_outcome table.now g key) }
{
    *count = 0;
    *bits = 0;
    *figure = 0;
    *side = 0;
    match finish::line(table, g as usize, key) {
        Ok(l) => {
            *count = l.count as u64;
            *bits = f64::to_bits(l.sum);
            *figure = l.figure as i64;
            *side = l.side as i64;
            0
        }
        Err(r) => minus(r),
    }
}

// Whether a section's kept value is known to be the exact sum of its rows: 1 if so, 0 if not.
pub fn girth_exact(table: &[u8], g: u64, key: u32) -> i64
    ensures { result ≡ returns_flag (exactness_outcome table.now g key) }
{
    match finish::exactness(table, g as usize, key) {
        Ok(exact) => i64::from(exact),
        Err(r) => minus(r),
    }
}

// How many sections and rows a table has.
pub fn girth_totals(table: &[u8], g: u64, sections: &mut u64, rows: &mut u64) -> i64
    ensures answer { result ≡ returns_zero (totals_outcome table.now g) }
    ensures sections { sections.new ≡ writes 0 (λ t. t.groups) (totals_outcome table.now g) }
    ensures rows { rows.new ≡ writes 0 (λ t. t.count) (totals_outcome table.now g) }
{
    *sections = 0;
    *rows = 0;
    match totals::totals(table, g as usize) {
        Ok(t) => {
            *sections = t.groups;
            *rows = t.count;
            0
        }
        Err(r) => minus(r),
    }
}

// The patch file of two columns, without notes, at the front of out: its length, or minus the refusal's number.
pub fn girth_write(keys: &[u8], values: &[u8], out: &mut [u8]) -> i64
    ensures answer { result ≡ returns_count (write_outcome keys.now values.now (length out.old)) }
    ensures content { out.new ≡ write_leaves keys.now values.now out.old }
{
    count_or_minus(patch::write(keys, values, out))
}

// The file of a table of g records, at the front of out: its length, or minus the refusal's number.
pub fn girth_save(table: &[u8], g: u64, out: &mut [u8]) -> i64
    ensures answer { result ≡ returns_count (save_outcome table.now g (length out.old)) }
    ensures content { out.new ≡ save_leaves table.now g out.old }
{
    count_or_minus(checkpoint::save(table, g as usize, out))
}

// The records of a saved table, at the front of a lent one: their group count, or minus the refusal's number.
pub fn girth_load(file: &[u8], table: &mut [u8]) -> i64
    ensures answer { result ≡ returns_count (load_outcome file.now (length table.old)) }
    ensures content { table.new ≡ load_leaves file.now table.old }
{
    count_or_minus(checkpoint::load(file, table))
}

// The report of a patch file, at the front of out: the length of its text, or -16 where out is shorter.
pub fn girth_report(file: &[u8], out: &mut [u8]) -> i64
    ensures answer { result ≡ returns_count (print_outcome out.old (report_text file.now)) }
    ensures content { out.new ≡ print_leaves out.old (report_text file.now) }
{
    count_or_minus(report::report(file, out))
}
