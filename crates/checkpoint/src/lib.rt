// A table kept in a file: its records and a trailer, saved from a lent table and loaded into one.
#![tactic(auto)]

ghost use Rattle.std.specs.Prelude.{◌≡◌, ◌≤◌, length};
ghost use Rattle.refusal.specs.Answer.{outcome_of};
ghost use Rattle.checkpoint.specs.Saved.{wrong_layout};
ghost use Rattle.checkpoint.specs.Calls.{save_outcome, save_leaves, load_outcome, load_leaves};

use refusal::Refusal;
use trailer::{AT_MARK, LONGEST_FILE, TRAILER_LENGTH, trailer_field};

// Where the trailer's fields start, in bytes before the end.
const AT_GROUP_COUNT: usize = 16;

const AT_DISTANCE: usize = 12;

const AT_ZERO: usize = 8;

// The mark, the lowest byte first.
const TABLE_MARK: u32 = 0x4C424154;

// The most groups of a saved table: one more would make its file longer than 65,536 bytes.
const MOST_FILE_GROUPS: usize = 1023;

// The records and the trailer of a table of g records at the front of out; a refused call leaves that untouched.
pub fn save(table: &[u8], g: usize, out: &mut [u8]) -> Result<usize, Refusal>
    ensures answer { outcome_of result ≡ save_outcome table.now g (length out.old) }
    ensures content { out.new ≡ save_leaves table.now g out.old }
{
    if !soundness::is_sound(table, g) {
        return Err(Refusal::TableNotSound);
    }
    if MOST_FILE_GROUPS < g {
        return Err(Refusal::TooManyFileGroups);
    }
    let len = 64 * g + 16;
    if out.len() < len {
        return Err(Refusal::OutputTooShort);
    }
    codec::copy(out, table, 64 * g);
    trailer::put_trailer(out, 64 * g, g as u32, len as u32, 0, TABLE_MARK);
    Ok(len)
}

// Whether the file's length, its distance or the zero after it is not what its group count asks for.
#[tactic(auto, unfolding(crate::specs::Saved::wrong_layout))]
fn wrong_layout(file: &[u8]) -> bool
    requires { 16 ≤ length file.now }
    ensures { result ≡ wrong_layout file.now }
{
    let len = 64 * (trailer_field(file, AT_GROUP_COUNT) as usize) + 16;
    file.len() != len
        || trailer_field(file, AT_DISTANCE) as usize != len
        || trailer_field(file, AT_ZERO) != 0
}

// The records of a saved table at the front of a lent one, which a refused call leaves untouched: they are tested where they stand in the file.
pub fn load(file: &[u8], table: &mut [u8]) -> Result<usize, Refusal>
    ensures answer { outcome_of result ≡ load_outcome file.now (length table.old) }
    ensures content { table.new ≡ load_leaves file.now table.old }
{
    if LONGEST_FILE < file.len() {
        return Err(Refusal::FileTooLong);
    }
    if file.len() < TRAILER_LENGTH {
        return Err(Refusal::FileTooShort);
    }
    if trailer_field(file, AT_MARK) != TABLE_MARK {
        return Err(Refusal::MarkMissing);
    }
    if wrong_layout(file) {
        return Err(Refusal::SavedTableLayout);
    }
    let g = trailer_field(file, AT_GROUP_COUNT) as usize;
    if table.len() < 64 * g {
        return Err(Refusal::OutputTooShort);
    }
    if !soundness::is_sound(file, g) {
        return Err(Refusal::TableNotSound);
    }
    codec::copy(table, file, 64 * g);
    Ok(g)
}
