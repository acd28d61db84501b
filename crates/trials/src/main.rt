// The test program: random row sets through the library. tests/exact.py makes the same sets and computes what this program must write.
#![tactic(auto)]

ghost use Rattle.std.specs.Prelude.{◌<◌};

use codec::Field;

const SIGN: u64 = 0x8000000000000000;

// The next number of the generator (xorshift).
fn next(x: u64) -> u64 {
    let a = x ^ (x << 13);
    let b = a ^ (a >> 7);
    b ^ (b << 17)
}

// A double's bits from its exponent field and the sign and fraction of x.
fn with_field(x: u64, field: u64) -> u64 {
    (x & 0x800FFFFFFFFFFFFF) | (field << 52)
}

// The kinds of rows; those of a set are of one kind.
#[derive(Clone, Copy)]
enum RowKind {
    // Any bits.
    Any,
    // Small subnormals.
    Subnormal,
    // Subnormals and the least normal doubles.
    Least,
    // Exact halves of a level's unit.
    Half,
    // Small lengths, of few bits.
    SmallLength,
    // Large lengths.
    LargeLength,
    // The largest doubles; now and then none that is finite.
    Largest,
    // Exponent fields close together, from this one on.
    Close(u64),
}

// The kind that a number stands for.
impl From<u64> for RowKind {
    fn from(number: u64) -> RowKind {
        match number & 15 {
            0 => RowKind::Any,
            1 => RowKind::Subnormal,
            2 => RowKind::Least,
            3 => RowKind::Half,
            4 => RowKind::SmallLength,
            5 => RowKind::LargeLength,
            6 => RowKind::Largest,
            _ => RowKind::Close((number >> 8) & 0x7C0),
        }
    }
}

// The generator's number, and the kind of the rows that it makes.
#[derive(Clone, Copy)]
struct Draw {
    x: u64,
    kind: RowKind,
}

impl Draw {
    // The next draw, of the same kind.
    fn next(self) -> Draw {
        Draw {
            x: next(self.x),
            ..self
        }
    }

    // The row of a draw, as a double's bits.
    fn row(self) -> u64 {
        let x = self.x;
        match self.kind {
            RowKind::Any => x,
            RowKind::Subnormal => with_field(x & 0x800000FFFFFFFFFF, 0),
            RowKind::Least => with_field(x, (x >> 53) & 1),
            RowKind::Half => with_field(x & 0x800E000000000000, 28 + 40 * ((x >> 16) % 51)),
            RowKind::SmallLength => with_field(x & 0x800FF00000000000, 1020 + (x >> 8) % 8),
            RowKind::LargeLength => with_field(x, 1030 + (x >> 8) % 32),
            RowKind::Largest => with_field(x, 2043 + (x >> 8) % 4 + ((x >> 12) % 64) / 63),
            RowKind::Close(field) => with_field(x, field | ((x >> 8) & 0x3F)),
        }
    }
}

// n random rows in the columns; some take back the row before them.
fn fill(keys: &mut [u8], values: &mut [u8], n: usize, start: Draw) {
    let mut draw = start;
    let mut bits: u64 = 0;
    let cells = keys.as_chunks_mut::<4>().0.iter_mut();
    for (key, value) in cells.zip(values.as_chunks_mut::<8>().0).take(n) {
        draw = draw.next();
        bits = if draw.x & 48 == 0 {
            bits ^ SIGN
        } else {
            draw.row()
        };
        *key = (((draw.x >> 40) % 16) as u32).to_le_bytes();
        *value = bits.to_le_bytes();
    }
}

// Rows of the double 1 all over the columns, each a section further by step.
fn fill_ones(keys: &mut [u8], values: &mut [u8], step: u32) {
    let mut section: u32 = 0;
    let cells = keys.as_chunks_mut::<4>().0.iter_mut();
    for (key, value) in cells.zip(values.as_chunks_mut::<8>().0) {
        *key = section.to_le_bytes();
        *value = 0x3FF0000000000000u64.to_le_bytes();
        section = section.wrapping_add(step);
    }
}

// A number, in hexadecimal. A write that fails is not told: the output is then not the stored one.
fn print(rt: &HostRuntime, x: u64) {
    let _ = print!(rt; "{x:x} ");
}

fn end_line(rt: &HostRuntime) {
    let _ = println!(rt);
}

// A mixed number of all words of a buffer.
fn digest(t: &[u8]) -> u64 {
    let mut h: u64 = 1;
    for word in t.as_chunks::<8>().0 {
        h = next(h).wrapping_add(u64::from_le_bytes(*word));
    }
    h
}

// The first n bytes of a slice, or nothing where it is shorter.
fn part(s: &[u8], n: usize) -> &[u8] {
    s.get(..n).unwrap_or_default()
}

// Random rows in columns that have room for more.
#[derive(Drop)]
struct RandomRows {
    keys: [u8; 128],
    values: [u8; 256],
    count: u32,
}

impl RandomRows {
    // The first rows that follow a draw, as many as count says.
    fn new(count: u32, draw: Draw) -> RandomRows {
        let mut keys = [0u8; 128];
        let mut values = [0u8; 256];
        let start = Draw {
            x: draw.x ^ 0x9E3779B97F4A7C15,
            ..draw
        };
        fill(&mut keys, &mut values, count as usize, start);
        RandomRows {
            keys,
            values,
            count,
        }
    }

    // The sections' column.
    fn keys(&self) -> &[u8] {
        part(&self.keys, self.count as usize * 4)
    }

    // The values' column, longer by a number of bytes.
    fn values(&self, more: u32) -> &[u8] {
        part(&self.values, self.count as usize * 8 + more as usize)
    }
}

// A table: its bytes as they are lent, and its group count.
#[derive(Drop)]
struct Table<'a> {
    bytes: &'a mut [u8],
    groups: u64,
}

impl Table<'_> {
    // Keeps the group count that a call answered; a refusal changes none.
    fn keep(&mut self, answer: i64) {
        self.groups = u64::try_from(answer).unwrap_or(self.groups);
    }

    // The other table merged into this one.
    fn merge(&mut self, other: &Table<'_>) -> i64 {
        exports::girth_merge(self.bytes, self.groups, other.bytes, other.groups)
    }

    // n random rows added; now and then with a wrong group count, a short work buffer, or a column too short.
    fn add_random(&mut self, n: u32, draw: Draw) -> i64 {
        let rows = RandomRows::new(n, draw);
        let mut work = [7u8; 640];
        let (groups, more, room) = match (draw.x >> 20) & 15 {
            0 => (self.groups.wrapping_add(1), 0, 640),
            1 => (self.groups, 0, 256),
            2 => (self.groups, 4, 640),
            _ => (self.groups, 0, 640),
        };
        exports::girth_add(
            self.bytes,
            groups,
            rows.keys(),
            rows.values(more),
            8,
            &mut work[..room],
        )
    }

    // The first n rows of such an add, or all of them, taken out.
    fn remove_random(&mut self, n: u32, draw: Draw) -> i64 {
        let rows = RandomRows::new(n, draw);
        let mut work = [7u8; 640];
        exports::girth_remove(
            self.bytes,
            self.groups,
            rows.keys(),
            rows.values(0),
            8,
            &mut work,
        )
    }

    // One call: an add, or a merge of the other table.
    fn call(&mut self, other: &Table<'_>, draw: Draw) -> i64 {
        if draw.x & 28 == 0 {
            return self.merge(other);
        }
        self.add_random(((draw.x >> 8) % 32) as u32, draw)
    }

    // Says what a call answered, and keeps the group count in it.
    fn print_and_keep(&mut self, rt: &HostRuntime, answer: i64) {
        print(rt, answer.cast_unsigned());
        self.keep(answer);
    }
}

// Section, answer, row count and side of the line, sum and its side, mill figure, whether it is exact; nothing of an absent section below 16.
fn print_section(rt: &HostRuntime, table: &Table<'_>, key: u32) {
    let t = &*table.bytes;
    let g = table.groups;
    let mut count: u64 = 9;
    let mut bits: u64 = 9;
    let mut figure: i64 = 9;
    let mut side: i64 = 9;
    let r = exports::girth_line(t, g, key, &mut count, &mut bits, &mut figure, &mut side);
    if r == -13 && key < 16 {
        return;
    }
    print(rt, key as u64);
    print(rt, r.cast_unsigned());
    print(rt, count);
    print(rt, side.cast_unsigned());
    exports::girth_sum(t, g, key, &mut bits, &mut side);
    print(rt, bits);
    print(rt, side.cast_unsigned());
    exports::girth_figure(t, g, key, &mut figure);
    print(rt, figure.cast_unsigned());
    print(rt, exports::girth_exact(t, g, key).cast_unsigned());
    end_line(rt);
}

// The answer of the totals for g records of a table, the sections and the rows.
fn print_totals(rt: &HostRuntime, t: &Table<'_>, g: u64) {
    let mut sections: u64 = 9;
    let mut rows: u64 = 9;
    let r = exports::girth_totals(t.bytes, g, &mut sections, &mut rows);
    print(rt, r.cast_unsigned());
    print(rt, sections);
    print(rt, rows);
}

// What a load of a file into a table says, and what it leaves there.
fn print_load(rt: &HostRuntime, file: &[u8], t: &mut [u8]) {
    print(rt, exports::girth_load(file, t).cast_unsigned());
    print(rt, digest(t));
}

// What a save says and leaves in an output with room for 6 groups, then the load of the file that was written (of no bytes where it is refused), into a table with room for 5.
fn print_save(rt: &HostRuntime, t: &Table<'_>) {
    let mut out = [0xC3u8; 400];
    let mut other = [0x5Au8; 320];
    let r = exports::girth_save(t.bytes, t.groups, &mut out);
    print(rt, r.cast_unsigned());
    print(rt, digest(&out));
    print_load(rt, part(&out, r.cast_unsigned() as usize), &mut other);
}

// Group count and digest of a table, its totals, those for a record too many, how it is saved and loaded, then its sections.
fn print_table(rt: &HostRuntime, t: &Table<'_>) {
    print(rt, t.groups);
    print(rt, digest(t.bytes));
    print_totals(rt, t, t.groups);
    print_totals(rt, t, t.groups.wrapping_add(1));
    print_save(rt, t);
    end_line(rt);
    for key in 0..17 {
        print_section(rt, t, key);
    }
}

// What a removal says and leaves.
fn print_removal(rt: &HostRuntime, t: &mut Table<'_>, n: u32, draw: Draw) {
    print(rt, t.remove_random(n, draw).cast_unsigned());
    print(rt, digest(t.bytes));
    end_line(rt);
}

// Twelve calls on two tables, then what they hold; the second one without the rows of the last call, and the first one without the first of these.
fn run_calls(rt: &HostRuntime, a: &mut Table<'_>, b: &mut Table<'_>, start: Draw) {
    let mut draw = start;
    for _ in 0..6 {
        draw = draw.next();
        let r = a.call(b, draw);
        a.print_and_keep(rt, r);
        draw = draw.next();
        let q = b.call(a, draw);
        b.print_and_keep(rt, q);
    }
    end_line(rt);
    print_table(rt, a);
    print_table(rt, b);
    print_removal(rt, b, ((draw.x >> 8) % 32) as u32, draw);
    print_removal(rt, a, ((draw.x >> 8) % 4) as u32, draw);
}

// Each table merged into the other in turn, until the row count is full.
fn run_merges(rt: &HostRuntime, a: &mut Table<'_>, b: &mut Table<'_>) {
    let draw = Draw {
        x: 0x123456789,
        kind: RowKind::SmallLength,
    };
    let answer = a.add_random(9, draw);
    a.keep(answer);
    for _ in 0..24 {
        let r = b.merge(a);
        b.print_and_keep(rt, r);
        let q = a.merge(b);
        a.print_and_keep(rt, q);
    }
    end_line(rt);
    print_table(rt, a);
    print_table(rt, b);
}

// Runs calls on two tables that start empty.
fn on_two_tables<F: FnOnce(&mut Table<'_>, &mut Table<'_>)>(run: F)
    requires { (x : _) (y : _) → F.pre run x y }
{
    let mut first = [0x5Au8; 640];
    let mut second = [0x5Au8; 384];
    let mut a = Table {
        bytes: &mut first,
        groups: 0,
    };
    let mut b = Table {
        bytes: &mut second,
        groups: 0,
    };
    run(&mut a, &mut b);
}

// The first 64 bytes of a table, as words.
fn print_record(rt: &HostRuntime, t: &[u8]) {
    for word in t.as_chunks::<8>().0.iter().take(8) {
        print(rt, u64::from_le_bytes(*word));
    }
    end_line(rt);
}

// 15 adds of the same columns, then one of their first row.
fn add_often(rt: &HostRuntime, t: &mut Table<'_>, work: &mut [u8], keys: &[u8], values: &[u8]) {
    for _ in 0..15 {
        let r = exports::girth_add(t.bytes, t.groups, keys, values, 8, work);
        t.keep(r);
    }
    print_record(rt, t.bytes);
    exports::girth_add(t.bytes, t.groups, part(keys, 4), part(values, 8), 8, work);
    print_record(rt, t.bytes);
}

// 65,535 rows of 1, then one more.
fn run_ones(rt: &HostRuntime) {
    let mut keys = [0u8; 17476];
    let mut values = [0u8; 34952];
    fill_ones(&mut keys, &mut values, 0);
    let mut bytes = [0u8; 64];
    let mut work = [0u8; 64];
    let mut t = Table {
        bytes: &mut bytes,
        groups: 0,
    };
    add_often(rt, &mut t, &mut work, &keys, &values);
}

// What the reader says of a file.
fn print_file(rt: &HostRuntime, file: &[u8]) {
    let mut keys: u64 = 9;
    let mut values: u64 = 9;
    let mut width: u64 = 9;
    let n = exports::girth_read(file, &mut keys, &mut values, &mut width);
    print(rt, n.cast_unsigned());
    print(rt, keys);
    print(rt, values);
    print(rt, width);
    end_line(rt);
}

// A mark of doubles, of short floats or of neither.
fn patch_mark(x: u64) -> u32 {
    match x % 3 {
        0 => 0x5453414C,
        1 => 0x3453414C,
        _ => 0x5453414B,
    }
}

// A file of 64 bytes whose trailer is near a good one; the mark is of either kind, or of none.
fn run_file(rt: &HostRuntime, x: u64) {
    let mut file = [0u8; 64];
    ((x % 4) as u32).write(&mut file, 48);
    ((14 + (x >> 8) % 64) as u32).write(&mut file, 52);
    ((14 + (x >> 16) % 64) as u32).write(&mut file, 56);
    patch_mark(x >> 24).write(&mut file, 60);
    print_file(rt, &file);
}

fn run_files(rt: &HostRuntime) {
    let long = [0u8; 65537];
    print_file(rt, &long);
    print_file(rt, part(&long, 15));
    print_file(rt, part(&long, 16));
    let mut x: u64 = 0xDEADBEEFCAFE;
    for _ in 0..400 {
        x = next(x);
        run_file(rt, x);
    }
}

// A saved table of one record, now and then with a row count of 0, a finest power of 2,099 or a wrong field of its trailer, loaded into a table that may be a byte too short.
fn run_saved_file(rt: &HostRuntime, x: u64) {
    let mut file = [0u8; 80];
    let mut t = [0x5Au8; 72];
    let mut short = [0x5Au8; 63];
    ((x >> 48) as u32).write(&mut file, 0);
    (((x % 8 + 6) / 7) as u32).write(&mut file, 4);
    ((2091 + (x >> 44) % 9) as u32).write(&mut file, 12);
    ((1 + ((x >> 8) % 8) / 7) as u32).write(&mut file, 64);
    ((80 + ((x >> 16) % 8) / 7) as u32).write(&mut file, 68);
    ((((x >> 24) % 8) / 7) as u32).write(&mut file, 72);
    ((0x4C424154 - ((x >> 32) % 8) / 7) as u32).write(&mut file, 76);
    if (x >> 40) % 4 == 0 {
        print_load(rt, &file, &mut short);
    } else {
        print_load(rt, &file, &mut t);
    }
    end_line(rt);
}

fn run_saved_files(rt: &HostRuntime) {
    let mut x: u64 = 0xBADC0FFEE;
    for _ in 0..100 {
        x = next(x);
        run_saved_file(rt, x);
    }
}

// A table of 1,024 groups, which cannot be saved, and its first 1,023, which can: the file, and the table that it is loaded into.
fn save_full(rt: &HostRuntime, t: &[u8], out: &mut [u8], other: &mut [u8]) {
    print(rt, exports::girth_save(t, 1024, out).cast_unsigned());
    print(rt, digest(out));
    let r = exports::girth_save(t, 1023, out);
    print(rt, r.cast_unsigned());
    print(rt, digest(out));
    print_load(rt, part(out, r.cast_unsigned() as usize), other);
    end_line(rt);
}

fn run_full(rt: &HostRuntime) {
    let mut keys = [0u8; 4096];
    let mut values = [0u8; 8192];
    fill_ones(&mut keys, &mut values, 1);
    let mut t = [0u8; 65536];
    let mut work = [0u8; 65536];
    print(
        rt,
        exports::girth_add(&mut t, 0, &keys, &values, 8, &mut work).cast_unsigned(),
    );
    let mut out = [0xC3u8; 65560];
    save_full(rt, &t, &mut out, &mut work);
}

fn main(rt: HostRuntime) {
    run_ones(&rt);
    on_two_tables(|a, b| run_merges(&rt, a, b));
    run_files(&rt);
    run_saved_files(&rt);
    run_full(&rt);
    let mut x: u64 = 88172645463325252;
    for i in 0..320u64 {
        x = next(x);
        let draw = Draw {
            x,
            kind: RowKind::from((x & 0xFFFFFFFFFFFFFFF0) | (i & 15)),
        };
        on_two_tables(|a, b| run_calls(&rt, a, b, draw));
    }
}
