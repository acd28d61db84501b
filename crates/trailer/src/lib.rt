// The trailer that a file is read by: its last 16 bytes, three numbers and a mark.
#![tactic(auto)]

ghost use Rattle.std.specs.Prelude.{◌≡◌, ◌+◌, ◌≤◌, length};
ghost use Rattle.std.proofs.lemmas.List.Edits.{sets};
ghost use Rattle.codec.specs.Bytes.{bytes};
ghost use Rattle.trailer.specs.Trailer.{trailer_field, trailer_of};

use codec::Field;

// The most bytes of a file that is read.
pub const LONGEST_FILE: usize = 65536;

// The bytes of a trailer; a shorter file is refused.
pub const TRAILER_LENGTH: usize = 16;

// Where the mark starts, in bytes before the end.
pub const AT_MARK: usize = 4;

// The trailer's field that starts so many bytes before the end.
// Kept: patch files and saved tables name their fields differently, by constants, so that no one enum says which.
pub fn trailer_field(file: &[u8], from_end: usize) -> u32
    requires { (4 ≤ from_end) × (from_end ≤ length file.now) }
    ensures { result ≡ trailer_field file.now from_end }
{
    u32::read(file, file.len() - from_end)
}

// The trailer of three numbers and a mark, put in place from at on.
pub fn put_trailer(out: &mut [u8], at: usize, a: u32, b: u32, c: u32, mark: u32)
    requires { at + 16 ≤ length out.old }
    ensures { out.new ≡ sets out.old at (trailer_of a b c (bytes 4 mark)) }
{
    a.write(out, at);
    b.write(out, at + 4);
    c.write(out, at + 8);
    mark.write(out, at + 12);
}
