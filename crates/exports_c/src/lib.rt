// The C functions of the archive: each is the call of crate exports of the same name, with its clauses again. A slice crosses as a pointer and a length.
// Kept beside crate exports, which Rattle programs call: only a static library gives functions to C.
#![tactic(auto)]

ghost use Rattle.std.specs.Prelude.{◌≡◌, pos, length};
ghost use Rattle.columns.specs.Columns.{width};
ghost use Rattle.patch.specs.File.{kind_of, file_outcome, key_start, value_start};
ghost use Rattle.patch.specs.Serializer.{write_outcome, write_leaves};
ghost use Rattle.table.specs.Calls.{cleared, merge_outcome, merge_leaves};
ghost use Rattle.limbs.specs.Side.{side_number};
ghost use Rattle.finish.specs.Finish.{sum_outcome, figure_outcome, line_outcome};
ghost use Rattle.finish.specs.Exact.{exactness_outcome};
ghost use Rattle.totals.specs.Totals.{totals_outcome};
ghost use Rattle.checkpoint.specs.Calls.{save_outcome, save_leaves, load_outcome, load_leaves};
ghost use Rattle.report.specs.Text.{report_text};
ghost use Rattle.report.specs.Answer.{print_outcome, print_leaves};
ghost use Rattle.exports.specs.Width.{kind_of_width, add_of_width, add_of_width_leaves, remove_of_width, remove_of_width_leaves};
ghost use Rattle.exports.specs.Calls.{returned, returns_count, returns_zero, returns_flag, writes, double_bits};

// The row count of a patch file, where its columns start, and how many bytes each of its values has.
#[unsafe(no_mangle)]
pub extern "C" fn girth_read(
    file: &[u8],
    keys_at: &mut u64,
    values_at: &mut u64,
    value_width: &mut u64,
) -> i64
    ensures answer { result ≡ returned (λ x. x.count) (file_outcome file.now) }
    ensures key_start { keys_at.new ≡ key_start (kind_of file.now) file.now }
    ensures value_start { values_at.new ≡ value_start (kind_of file.now) file.now }
    ensures width { value_width.new ≡ writes 0 (λ x. width x.kind) (file_outcome file.now) }
{
    exports::girth_read(file, keys_at, values_at, value_width)
}

// Adds the rows of two columns to a table of g records, each value having so many bytes. The work buffer holds only zeros afterwards.
#[unsafe(no_mangle)]
pub extern "C" fn girth_add(
    table: &mut [u8],
    g: u64,
    keys: &[u8],
    values: &[u8],
    value_width: u64,
    work: &mut [u8],
) -> i64
    ensures answer { result ≡ returns_count (add_of_width (kind_of_width value_width) table.old g keys.now values.now (length work.old)) }
    ensures content { table.new ≡ add_of_width_leaves (kind_of_width value_width) table.old g keys.now values.now (length work.old) }
    ensures work { work.new ≡ cleared work.old }
{
    exports::girth_add(table, g, keys, values, value_width, work)
}

// Removes the rows of two columns from a table of g records, each value having so many bytes. The work buffer holds only zeros afterwards.
#[unsafe(no_mangle)]
pub extern "C" fn girth_remove(
    table: &mut [u8],
    g: u64,
    keys: &[u8],
    values: &[u8],
    value_width: u64,
    work: &mut [u8],
) -> i64
    ensures answer { result ≡ returns_count (remove_of_width (kind_of_width value_width) table.old g keys.now values.now (length work.old)) }
    ensures content { table.new ≡ remove_of_width_leaves (kind_of_width value_width) table.old g keys.now values.now (length work.old) }
    ensures work { work.new ≡ cleared work.old }
{
    exports::girth_remove(table, g, keys, values, value_width, work)
}

// Merges a table of g2 records into one of g1.
#[unsafe(no_mangle)]
pub extern "C" fn girth_merge(first: &mut [u8], g1: u64, second: &[u8], g2: u64) -> i64
    ensures answer { result ≡ returns_count (merge_outcome first.old g1 second.now g2) }
    ensures content { first.new ≡ merge_leaves first.old g1 second.now g2 }
{
    exports::girth_merge(first, g1, second, g2)
}

// The sum of a section, as 64 bits, and its side of the kept value.
#[unsafe(no_mangle)]
pub extern "C" fn girth_sum(table: &[u8], g: u64, key: u32, bits: &mut u64, side: &mut i64) -> i64
    ensures answer { result ≡ returns_zero (sum_outcome table.now g key) }
    ensures bits { bits.new ≡ writes 0 (λ x. double_bits x.sum) (sum_outcome table.now g key) }
    ensures side { side.new ≡ writes (pos 0) (λ x. side_number x.side) (sum_outcome table.now g key) }
{
    exports::girth_sum(table, g, key, bits, side)
}

// The mill figure of a section.
#[unsafe(no_mangle)]
pub extern "C" fn girth_figure(table: &[u8], g: u64, key: u32, figure: &mut i64) -> i64
    ensures answer { result ≡ returns_zero (figure_outcome table.now g key) }
    ensures figure { figure.new ≡ writes (pos 0) (λ z. z) (figure_outcome table.now g key) }
{
    exports::girth_figure(table, g, key, figure)
}

// The finished line of a section: row count, sum as 64 bits, mill figure, the sum's side of the kept value.
#[unsafe(no_mangle)]
pub extern "C" fn girth_line(
    table: &[u8],
    g: u64,
    key: u32,
    count: &mut u64,
    bits: &mut u64,
    figure: &mut i64,
    side: &mut i64,
) -> i64
    ensures answer { result ≡ returns_zero (line_outcome table.now g key) }
    ensures count { count.new ≡ writes 0 (λ l. l.count) (line_outcome table.now g key) }
    ensures bits { bits.new ≡ writes 0 (λ l. double_bits l.sum) (line_outcome table.now g key) }
    ensures figure { figure.new ≡ writes (pos 0) (λ l. l.figure) (line_outcome table.now g key) }
    ensures side { side.new ≡ writes (pos 0) (λ l. side_number l.side) (line_outcome table.now g key) }
{
    exports::girth_line(table, g, key, count, bits, figure, side)
}

// Whether a section's kept value is known to be the exact sum of its rows: 1 if so, 0 if not.
#[unsafe(no_mangle)]
pub extern "C" fn girth_exact(table: &[u8], g: u64, key: u32) -> i64
    ensures { result ≡ returns_flag (exactness_outcome table.now g key) }
{
    exports::girth_exact(table, g, key)
}

// How many sections and rows a table has.
#[unsafe(no_mangle)]
pub extern "C" fn girth_totals(table: &[u8], g: u64, sections: &mut u64, rows: &mut u64) -> i64
    ensures answer { result ≡ returns_zero (totals_outcome table.now g) }
    ensures sections { sections.new ≡ writes 0 (λ t. t.groups) (totals_outcome table.now g) }
    ensures rows { rows.new ≡ writes 0 (λ t. t.count) (totals_outcome table.now g) }
{
    exports::girth_totals(table, g, sections, rows)
}

// The patch file of two columns, without notes, at the front of out: its length, or minus the refusal's number.
#[unsafe(no_mangle)]
pub extern "C" fn girth_write(keys: &[u8], values: &[u8], out: &mut [u8]) -> i64
    ensures answer { result ≡ returns_count (write_outcome keys.now values.now (length out.old)) }
    ensures content { out.new ≡ write_leaves keys.now values.now out.old }
{
    exports::girth_write(keys, values, out)
}

// The file of a table of g records, at the front of out: its length, or minus the refusal's number.
#[unsafe(no_mangle)]
pub extern "C" fn girth_save(table: &[u8], g: u64, out: &mut [u8]) -> i64
    ensures answer { result ≡ returns_count (save_outcome table.now g (length out.old)) }
    ensures content { out.new ≡ save_leaves table.now g out.old }
{
    exports::girth_save(table, g, out)
}

// The records of a saved table, at the front of a lent one: their group count, or minus the refusal's number.
#[unsafe(no_mangle)]
pub extern "C" fn girth_load(file: &[u8], table: &mut [u8]) -> i64
    ensures answer { result ≡ returns_count (load_outcome file.now (length table.old)) }
    ensures content { table.new ≡ load_leaves file.now table.old }
{
    exports::girth_load(file, table)
}

// The report of a patch file, at the front of out: the length of its text, or -16 where out is shorter.
#[unsafe(no_mangle)]
pub extern "C" fn girth_report(file: &[u8], out: &mut [u8]) -> i64
    ensures answer { result ≡ returns_count (print_outcome out.old (report_text file.now)) }
    ensures content { out.new ≡ print_leaves out.old (report_text file.now) }
{
    exports::girth_report(file, out)
}
