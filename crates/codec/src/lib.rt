// Little-endian numbers at a place of a byte slice.
#![tactic(auto)]

ghost use Rattle.std.specs.Prelude.{ℕ, ◌^◌, refl, ◌≡◌, ◌+◌, ◌-◌, ◌≤◌, ◌<◌, ◌++◌, length, take, drop, replicate};
ghost use Rattle.std.proofs.lemmas.List.Edits.{sets};
ghost use Rattle.std.specs.Int.{w64};
ghost use Rattle.std.proofs.Common.{to_z, of_z};
ghost use Rattle.std.proofs.lemmas.Int.{of_z-to_z};
ghost use Rattle.codec.specs.Bytes.{bytes, number_at};

// A number that fills a field of so many bytes, the low one first.
pub trait Field: Copy {
    ghost width: { ℕ };

    // the value that a field's number stands for, and the number of a value
    ghost from_number: { ℕ → Self };

    ghost to_number: { Self → ℕ };

    fn read(s: &[u8], at: usize) -> Self
        requires { at + width ≤ length s.now }
        ensures { result ≡ from_number (number_at width s.now at) };

    fn write(self, s: &mut [u8], at: usize)
        requires { at + width ≤ length s.old }
        ensures { s.new ≡ sets s.old at (bytes width (to_number self)) };

    // What was read from a field is written as it was.
    // The law doesn't say that what is written is read back: that holds of values that fit alone, and a law is of all numbers.
    ghost written_back: { (n : ℕ) → n < 256 ^ width → to_number (from_number n) ≡ n };
}

// The w bytes of x are put in place from at on.
pub fn write(s: &mut [u8], at: usize, w: usize, x: u64)
    requires { at + w ≤ length s.old }
    ensures { s.new ≡ sets s.old at (bytes w x) }
{
    let mut y = x;
    for k in 0..w {
        s[at + k] = (y % 256) as u8;
        y = y / 256;
    }
}

// Read byte by byte and in no loop: so the compiler makes one load of it before it decides what to inline.
impl Field for u32 {
    ghost width = { 4 };

    ghost from_number = { λ n. n };

    ghost to_number = { λ x. x };

    ghost written_back = { λ n h. refl };

    fn read(s: &[u8], at: usize) -> u32 {
        u32::from_le_bytes([s[at], s[at + 1], s[at + 2], s[at + 3]])
    }

    fn write(self, s: &mut [u8], at: usize) {
        write(s, at, 4, self as u64);
    }
}

// Read in no loop too, for the same reason.
impl Field for u64 {
    ghost width = { 8 };

    ghost from_number = { λ n. n };

    ghost to_number = { λ x. x };

    ghost written_back = { λ n h. refl };

    fn read(s: &[u8], at: usize) -> u64 {
        u64::from_le_bytes([
            s[at],
            s[at + 1],
            s[at + 2],
            s[at + 3],
            s[at + 4],
            s[at + 5],
            s[at + 6],
            s[at + 7],
        ])
    }

    fn write(self, s: &mut [u8], at: usize) {
        write(s, at, 8, self);
    }
}

// In two's complement.
impl Field for i64 {
    ghost width = { 8 };

    ghost from_number = { λ n. to_z w64 n };

    ghost to_number = { λ x. of_z w64 x };

    ghost written_back = { λ n h. of_z-to_z w64 n h };

    fn read(s: &[u8], at: usize) -> i64 {
        u64::read(s, at).cast_signed()
    }

    fn write(self, s: &mut [u8], at: usize) {
        self.cast_unsigned().write(s, at);
    }
}

// The bytes from a to e move up by d.
// Kept, as clear is: the library's move under the definition that the callers' proofs speak in.
pub fn move_up(s: &mut [u8], a: usize, e: usize, d: usize)
    requires { (a ≤ e) × (e + d ≤ length s.old) }
    ensures { s.new ≡ sets s.old (a + d) (take (e - a) (drop a s.old)) }
{
    s.copy_within(a..e, a + d);
}

// The first n bytes of s in the place of d's.
// Kept: byte by byte, since of the library's copy the compiler makes a call of memmove, a name that the archive for C does not have to ask for.
pub fn copy(d: &mut [u8], s: &[u8], n: usize)
    requires { (n ≤ length d.old) × (n ≤ length s.now) }
    ensures { d.new ≡ take n s.now ++ drop n d.old }
{
    for i in 0..n {
        d[i] = s[i];
    }
}

// Zeros over the whole length.
pub fn clear(s: &mut [u8])
    ensures { s.new ≡ replicate (length s.old) 0 }
{
    s.fill(0);
}

// Zeros from one place up to another.
pub fn clear_part(s: &mut [u8], from: usize, to: usize)
    requires { (from ≤ to) × (to ≤ length s.old) }
    ensures { s.new ≡ take from s.old ++ (replicate (to - from) 0 ++ drop to s.old) }
{
    clear(&mut s[from..to]);
}
