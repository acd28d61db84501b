// Numerals put into lent buffers, and at the end of a text in memory of a fixed size.
// Kept: not by `write!` and Display, since std's contracts don't say that a write which has room answers Ok.
#![tactic(auto)]

ghost use Rattle.std.specs.Prelude.{◌≡◌, ℕ, ◌+◌, ◌<◌, ◌≤◌, List, [], ◌∷◌, ◌++◌, length, take};
ghost use Rattle.std.proofs.lemmas.List.Edits.{sets};
ghost use Rattle.numerals.specs.Numerals.{digit, digits, decimal, integer, hexadecimal};

use std::marker::Model;

// The most bytes that a numeral takes, which are those of the largest number of 64 bits in decimal.
pub const LONGEST_NUMERAL: usize = 20;

// The byte of a digit.
#[tactic(auto, unfolding(crate::specs::Numerals::digit))]
fn digit_byte(d: u64) -> u8
    requires { d < 16 }
    ensures { result ≡ digit d }
{
    if d < 10 {
        return b'0' + d as u8;
    }
    b'A' - 10 + d as u8
}

// The last digits of n to the base fill the part.
#[tactic(auto, using(crate::proofs::Digits::last_digit_put))]
fn put_digits(part: &mut [u8], n: u64, base: u64)
    requires { (2 ≤ base) × (base ≤ 16) }
    ensures { part.new ≡ digits base (length part.old) n }
{
    let mut y = n;
    for k in (0..part.len()).rev() {
        part[k] = digit_byte(y % base);
        y = y / base;
    }
}

// How many decimal digits n has.
#[tactic(auto, using(crate::proofs::Digits::digits_by_log))]
fn decimal_length(n: u64) -> usize
    ensures { result ≡ length (decimal n) }
{
    n.max(1).ilog10() as usize + 1
}

// These bytes, put into a lent buffer from a place on; the place after them is returned.
#[tactic(auto, using(crate::proofs::Edits::part_put))]
pub fn print_bytes(out: &mut [u8], at: usize, w: &[u8]) -> usize
    requires { at + length w.now ≤ length out.old }
    ensures content { out.new ≡ sets out.old at w.now }
    ensures end { result ≡ at + length w.now }
{
    let end = at + w.len();
    out[at..end].copy_from_slice(w);
    end
}

// A numeral and the byte that ends it, put there in the same way.
#[tactic(auto, using(crate::proofs::Edits::sets_more))]
pub fn print_field<T: Numeral>(out: &mut [u8], at: usize, n: T, ending: u8) -> usize
    requires { at + length (T.numeral n) < length out.old }
    ensures content { out.new ≡ sets out.old at (T.numeral n ++ ending ∷ []) }
    ensures end { result ≡ at + length (T.numeral n) + 1 }
{
    let numeral = n.numeral();
    let end = print_bytes(out, at, numeral.as_bytes());
    out[end] = ending;
    end + 1
}

// A text of at most N bytes.
#[derive(Drop)]
pub struct Text<const N: usize> {
    memory: [u8; N],
    filled: usize,
}

// Clauses see the bytes of the text.
impl<const N: usize> Model for Text<N> {
    ghost Value = { List ℕ };

    ghost view = { λ t. take t.filled t.memory };

    ghost invariant = { λ t. t.filled ≤ N };
}

impl<const N: usize> Text<N> {
    // The empty text.
    pub fn new() -> Self
        ensures { result ≡ [] }
    {
        Text {
            memory: [0; N],
            filled: 0,
        }
    }

    // The text, to be read.
    pub fn as_bytes(&self) -> &[u8]
        ensures { result.now ≡ self.now }
    {
        &self.memory[..self.filled]
    }

    // One byte more.
    pub fn push(&mut self, byte: u8)
        requires { length self.old < N }
        ensures { self.new ≡ self.old ++ byte ∷ [] }
    {
        self.memory[self.filled] = byte;
        self.filled += 1;
    }

    // These bytes too.
    pub fn push_bytes(&mut self, w: &[u8])
        requires { length self.old + length w.now ≤ N }
        ensures { self.new ≡ self.old ++ w.now }
    {
        self.filled = print_bytes(&mut self.memory[..], self.filled, w);
    }

    // The last w digits of n to the base.
    fn push_digits(&mut self, n: u64, base: u64, w: usize)
        requires { (2 ≤ base) × (base ≤ 16) × (length self.old + w ≤ N) }
        ensures { self.new ≡ self.old ++ digits base w n }
    {
        let end = self.filled + w;
        let memory = &mut self.memory[..];
        put_digits(&mut memory[self.filled..end], n, base);
        self.filled = end;
    }

    // n in decimal.
    #[tactic(auto, using(crate::proofs::Digits::last_decimal))]
    fn push_decimal(&mut self, n: u64)
        requires { length self.old + length (decimal n) ≤ N }
        ensures { self.new ≡ self.old ++ decimal n }
    {
        let w = decimal_length(n);
        self.push_digits(n, 10, w);
    }

    // A numeral and the byte that ends it.
    pub fn push_field<T: Numeral>(&mut self, n: T, ending: u8)
        requires { length self.old + length (T.numeral n) < N }
        ensures { self.new ≡ self.old ++ T.numeral n ++ ending ∷ [] }
    {
        self.filled = print_field(&mut self.memory[..], self.filled, n, ending);
    }
}

// What is printed as a numeral.
pub trait Numeral {
    // a minus sign where it is negative, then its digits
    ghost numeral: { Self → List ℕ };

    // The numeral as a text of its own.
    fn numeral(self) -> Text<LONGEST_NUMERAL>
        ensures { result ≡ numeral self };
}

impl Numeral for u64 {
    ghost numeral = { decimal };

    #[tactic(auto, using(crate::proofs::Size::length_u64))]
    fn numeral(self) -> Text<LONGEST_NUMERAL> {
        let mut text = Text::new();
        text.push_decimal(self);
        text
    }
}

impl Numeral for u32 {
    ghost numeral = { decimal };

    fn numeral(self) -> Text<LONGEST_NUMERAL> {
        u64::from(self).numeral()
    }
}

impl Numeral for i32 {
    ghost numeral = { integer };

    fn numeral(self) -> Text<LONGEST_NUMERAL> {
        let mut text = Text::new();
        if self < 0 {
            text.push(b'-');
        }
        text.push_decimal(u64::from(self.unsigned_abs()));
        text
    }
}

// 64 bits, whose numeral is their 16 hexadecimal digits.
#[derive(Clone, Copy)]
pub struct Bits(pub u64);

impl Numeral for Bits {
    ghost numeral = { λ b. hexadecimal b.0 };

    fn numeral(self) -> Text<LONGEST_NUMERAL> {
        let mut text = Text::new();
        text.push_digits(self.0, 16, 16);
        text
    }
}
