// Whether the bytes of a buffer hold a sound table.
#![tactic(auto)]

ghost use Rattle.std.specs.Prelude.{◌≡◌, ◌&&◌, ◌||◌, ◌+◌, ◌*◌, ◌≤◌, length, leb};
ghost use Rattle.level.specs.Level.{level_bound};
ghost use Rattle.level.specs.Carry.{carry_base};
ghost use Rattle.record.specs.Layout.{records};
ghost use Rattle.record.specs.Keys.{record_keys, rising};
ghost use Rattle.record.specs.Sound.{sound_total, is_zero, sound_record, sound_records, sound};

mod sound;

use codec::Field;
use level::{CARRY_BASE, HIGHEST_POWER, LEVEL_BOUND, SplitTotal};
use record::Record;
pub use sound::{SoundRecord, SoundTable};
use std::cmp::Ordering;

// Whether k * 2^50 + s is at most count * 2^39: neither side need fit 64 bits. 2^50 is 2,048 times 2^39.
fn at_most(k: u64, s: u64, count: u32) -> bool
    requires { s ≤ carry_base }
    ensures { result ≡ leb (k * carry_base + s) (count * level_bound) }
{
    let q = (count / 2048) as u64;
    match k.cmp(&q) {
        Ordering::Less => true,
        Ordering::Equal => s <= ((count % 2048) as u64) * LEVEL_BOUND,
        Ordering::Greater => false,
    }
}

// Whether a total is split as it is kept, and no larger than so many rows allow.
pub fn total_sound(x: SplitTotal, count: u32) -> bool
    ensures { result ≡ sound_total count x }
{
    let s = x.residue;
    let c = x.carry;
    if s < CARRY_BASE {
        if c < 0 {
            return at_most(!c as u64, CARRY_BASE - s, count);
        }
        return at_most(c as u64, s, count);
    }
    false
}

// Whether a level holds nothing.
fn is_zero(x: SplitTotal) -> bool
    ensures { result ≡ is_zero x }
{
    (x.residue == 0) & (x.carry == 0)
}

// Whether a record is sound by itself.
fn record_sound(r: Record) -> bool
    ensures { result ≡ sound_record r }
{
    let n = r.count;
    let head = (1 <= n) & (r.top <= 52) & (r.finest <= HIGHEST_POWER);
    let a = head & total_sound(r.high, n) & total_sound(r.middle, n) & total_sound(r.low, n);
    a & ((1 <= r.top) | is_zero(r.middle)) & ((2 <= r.top) | is_zero(r.low))
}

// Whether the keys rise and each record is sound by itself.
fn records_sound(t: &[u8], g: usize) -> bool
    requires { g * 64 ≤ length t.now }
    ensures { result ≡ rising (record_keys (records t.now g)) && sound_records (records t.now g) }
{
    for i in 0..g {
        let r = record::get(t, i);
        if !record_sound(r) {
            return false;
        }
        let next = i + 1;
        if next < g {
            if u32::read(t, next * 64) <= r.key {
                return false;
            }
        }
    }
    true
}

// Whether the bytes hold a sound table of g records.
pub fn is_sound(t: &[u8], g: usize) -> bool
    ensures { result ≡ sound t.now g }
{
    if record::capacity(t.len()) < g {
        return false;
    }
    records_sound(t, g)
}
