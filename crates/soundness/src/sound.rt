// Sound tables and records as types: who has one need not test it again.

ghost use Rattle.std.specs.Prelude.{ℕ, get_or, ◌≡◌, ◌+◌, ◌*◌, ◌<◌, ◌≤◌, false, T, MatchOption, IfOk};
ghost use Rattle.std.proofs.Math.Option.{none, some};
ghost use Rattle.codec.specs.Bytes.{number_at};
ghost use Rattle.record.specs.Layout.{record_at, records};
ghost use Rattle.record.specs.Keys.{record_keys, place};
ghost use Rattle.record.specs.Section.{meaning, sections, find};
ghost use Rattle.record.specs.Sound.{sound_record, sound};

use codec::Field;
use record::Record;

// A record that is sound by itself.
#[derive(Clone, Copy)]
pub struct SoundRecord {
    pub raw: Record,
    ghost sound: { T (sound_record raw) },
}

// Document 01's sound table: so many records from the front of lent bytes. That bytes are below 256 is said too, since the type of a field tells a proof nothing.
#[derive(Clone, Copy)]
pub struct SoundTable<'a> {
    pub bytes: &'a [u8],
    pub groups: usize,
    ghost sound: { T (sound bytes.now groups) },
    ghost bytes_fit: { (i : ℕ) → get_or bytes.now i 0 < 256 },
}

impl<'a> SoundTable<'a> {
    // The table of so many groups in the bytes, if they hold a sound one.
    pub fn new(bytes: &'a [u8], groups: usize) -> Option<SoundTable<'a>>
        ensures { MatchOption result (sound bytes.now groups ≡ false) (λ t. (t.bytes.now ≡ bytes.now) × (t.groups ≡ groups)) }
    {
        if crate::is_sound(bytes, groups) {
            Some(SoundTable { bytes, groups })
        } else {
            None
        }
    }

    // The same of bytes that are known to hold one, without the test.
    pub fn known(bytes: &'a [u8], groups: usize) -> SoundTable<'a>
        requires { T (sound bytes.now groups) }
        ensures { (result.bytes.now ≡ bytes.now) × (result.groups ≡ groups) }
    {
        SoundTable { bytes, groups }
    }

    // The field of record i that starts so many bytes after its front.
    fn field(self, i: usize, at: usize) -> u32
        requires { (i < self.groups) × (at ≤ 60) }
        ensures { result ≡ number_at 4 self.entry.bytes.now (i * 64 + at) }
    {
        u32::read(self.bytes, i * 64 + at)
    }

    // The key of record i.
    pub fn key(self, i: usize) -> u32
        requires { i < self.groups }
        ensures { result ≡ number_at 4 self.entry.bytes.now (i * 64) }
    {
        self.field(i, 0)
    }

    // The row count of record i.
    pub fn count(self, i: usize) -> u32
        requires { i < self.groups }
        ensures { result ≡ number_at 4 self.entry.bytes.now (i * 64 + 4) }
    {
        self.field(i, 4)
    }

    // The top of record i.
    pub fn top(self, i: usize) -> u32
        requires { i < self.groups }
        ensures { result ≡ number_at 4 self.entry.bytes.now (i * 64 + 8) }
    {
        self.field(i, 8)
    }

    // Record i.
    pub fn record(self, i: usize) -> SoundRecord
        requires { i < self.groups }
        ensures { result.raw ≡ record_at self.entry.bytes.now (i * 64) }
    {
        let raw = record::get(self.bytes, i);
        SoundRecord { raw }
    }

    // Where a key stands among the records (Ok), or how many stand before the place where it would (Err).
    pub fn binary_search(self, key: u32) -> Result<usize, usize>
        ensures place { result ≡ place key (record_keys (records self.entry.bytes.now self.entry.groups)) }
        ensures within { IfOk result (λ i. i < self.entry.groups) }
    {
        record::binary_search(self.bytes, self.groups, key)
    }

    // The record of a section, where there is one.
    pub fn find(self, key: u32) -> Option<SoundRecord>
        ensures { MatchOption result (find key (sections self.entry.bytes.now self.entry.groups) ≡ none) (λ r. find key (sections self.entry.bytes.now self.entry.groups) ≡ some (meaning r.raw)) }
    {
        match self.binary_search(key) {
            Ok(i) => Some(self.record(i)),
            Err(_) => None,
        }
    }
}
