// The 64-byte record of a section: read, written and looked up in a lent buffer.
#![tactic(auto)]

ghost use Rattle.std.specs.Prelude.{◌≡◌, cond, ◌+◌, ◌*◌, ◌≤◌, ◌∷◌, ◌++◌, length, take, drop, T, ltb};
ghost use Rattle.std.proofs.lemmas.List.Edits.{sets};
ghost use Rattle.record.specs.Layout.{total_at, record_at, encode_total, encode, decode, records};
ghost use Rattle.record.specs.Keys.{record_keys, rising, place};

use codec::Field;
use level::SplitTotal;

// A record's fields, as they stand in its 64 bytes.
#[derive(Clone, Copy)]
pub struct Record {
    pub key: u32,
    pub count: u32,
    pub top: u32,
    pub finest: u32,
    pub high: SplitTotal,
    pub middle: SplitTotal,
    pub low: SplitTotal,
}

// The total in the 16 bytes from at on.
fn get_total(t: &[u8], at: usize) -> SplitTotal
    requires { at + 16 ≤ length t.now }
    ensures { result ≡ total_at t.now at }
{
    SplitTotal {
        residue: u64::read(t, at),
        carry: i64::read(t, at + 8),
    }
}

// Record i.
// Kept: that it lies within the bytes stays a clause here and in put, which read and write any bytes; of a sound table the methods of SoundTable know it.
pub fn get(t: &[u8], i: usize) -> Record
    requires { i * 64 + 64 ≤ length t.now }
    ensures { result ≡ record_at t.now (i * 64) }
{
    let at = i * 64;
    Record {
        key: u32::read(t, at),
        count: u32::read(t, at + 4),
        top: u32::read(t, at + 8),
        finest: u32::read(t, at + 12),
        high: get_total(t, at + 16),
        middle: get_total(t, at + 32),
        low: get_total(t, at + 48),
    }
}

// The 16 bytes from at on become the total.
fn put_total(t: &mut [u8], at: usize, x: SplitTotal)
    requires { at + 16 ≤ length t.old }
    ensures { t.new ≡ sets t.old at (encode_total x) }
{
    x.residue.write(t, at);
    x.carry.write(t, at + 8);
}

// Record i becomes r.
pub fn put(t: &mut [u8], i: usize, r: Record)
    requires { i * 64 + 64 ≤ length t.old }
    ensures { (t.new ≡ sets t.old (i * 64) (encode r)) × (decode (encode r) ≡ r) }
{
    let at = i * 64;
    r.key.write(t, at);
    r.count.write(t, at + 4);
    r.top.write(t, at + 8);
    r.finest.write(t, at + 12);
    put_total(t, at + 16, r.high);
    put_total(t, at + 32, r.middle);
    put_total(t, at + 48, r.low);
}

// 1 for x below y, else 0, by a quotient that is 2 or 1: that of y - x and 2^33 - 1 by 2^32. The compiler makes a jump of a comparison, and none of this.
fn is_below(x: u32, y: u32) -> usize
    ensures { result ≡ cond (ltb x y) 1 0 }
{
    (((y as u64) + 8589934591 - (x as u64)) >> 32) as usize - 1
}

// Where a key stands among the records (Ok), or how many stand before the place where it would (Err).
pub fn binary_search(t: &[u8], g: usize, key: u32) -> Result<usize, usize>
    requires { (g * 64 ≤ length t.now) × T (rising (record_keys (records t.now g))) }
    ensures { result ≡ place key (record_keys (records t.now g)) }
{
    // The steps depend on g alone, and each chooses a number, not a way through the code.
    // Kept: the records are bytes of a lent buffer and no slice of records, which the library could search; each step halves what is left, which no range says.
    let mut lo = 0;
    let mut n = g;
    while 0 < n {
        let half = (n + 1) / 2;
        lo += half * is_below(u32::read(t, (lo + half - 1) * 64), key);
        n -= half;
    }
    if lo < g && u32::read(t, lo * 64) == key {
        return Ok(lo);
    }
    Err(lo)
}

// Record r is put before record i of g; the later ones move up.
pub fn insert(t: &mut [u8], g: usize, i: usize, r: Record)
    requires { (i ≤ g) × (g * 64 + 64 ≤ length t.old) }
    ensures { records t.new (g + 1) ≡ take i (records t.old g) ++ r ∷ drop i (records t.old g) }
{
    codec::move_up(t, i * 64, g * 64, 64);
    put(t, i, r);
}

// The most groups that a table can have.
const MOST_GROUPS: usize = 1024;

// How many groups a buffer of n bytes has room for.
pub fn capacity(n: usize) -> usize
    ensures { result ≡ Rattle.record.specs.Layout.capacity n }
{
    (n / 64).min(MOST_GROUPS)
}
