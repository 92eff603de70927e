// The operations in either edition, 64 labels in rows of one word or 256 in rows of four: bytes and words in, an answer out. The answer is an enum; one
// definition gives document 01's number and values for each of its cases (crate answer), and the contracts go by it. Each edition's operations for C are a
// crate of their own (pezvoran, pezvoran_large), so that the compiler makes code for its width alone.
#![tactic(auto)]

ghost use Rattle.std.specs.Prelude.{◌≡◌, ◌*◌, ◌^◌, ◌<◌, ◌≤◌, length};
ghost use Rattle.std.specs.Int.Count.{count_trailing_zeros};
ghost use Rattle.rows.specs.Edition.{labels, words, word_count};
ghost use Rattle.rows.specs.Run.{room_for, rows_of};
ghost use Rattle.answer.specs.Answer.{outcome_of};
ghost use Rattle.verdicts.specs.Verdict.{verdict_outcome, verdict_words};
ghost use Rattle.verdicts.specs.Check.{check_outcome};
ghost use Rattle.sets.specs.Value.{value};
ghost use Rattle.operations.specs.Judgment.{judgment};

use answer::{Answer, Refusal};
use rows::{LARGE_TABLE_WORDS, TABLE_WORDS};
use sets::Set;

// The label of the guest: an answer names it beside a label that the guest holds.
const GUEST: u8 = 3;

// The lowest label of a set that has one.
fn lowest_label(wide: bool, s: Set) -> u8
    requires { 0 < value wide s }
    ensures { result ≡ count_trailing_zeros (labels wide) (value wide s) }
{
    sets::lowest(wide, s).0
}

// What the forbidden labels in the guest's bag and the number of facts amount to.
fn judged(wide: bool, held: Set, count: u32) -> Answer
    ensures { outcome_of result ≡ judgment (labels wide) (value wide held) count }
{
    if sets::is_empty(wide, held) {
        Answer::Confined(count)
    } else {
        Answer::Leaks(lowest_label(wide, held), GUEST, count)
    }
}

// The verdict on a file in either edition; the least table is left in the lent words.
pub fn judge(file: &[u8], wide: bool, table: &mut [u64]) -> Answer
    ensures result_value { outcome_of result ≡ verdict_outcome (labels wide) (room_for (words wide) table.old) file.now }
    ensures table_after { table.new ≡ verdict_words (words wide) (labels wide) file.now table.old }
{
    if table.len() < rows::word_count(wide) {
        return Answer::Refused(Refusal::TableTooShort, 0);
    }
    let (sheet, ending) = reader::read(file, wide);
    if let Err(no) = ending {
        return Answer::Refused(no.refusal, no.position);
    }
    solver::solve(table, file, wide, &sheet);
    let held = whole::held(table, wide, sheet.forbidden);
    judged(wide, held, whole::count(table, wide))
}

// The words of two tables, the room of a check, in the edition of 64 labels and in that of 256.
pub const ROOM_WORDS: usize = 2 * TABLE_WORDS;

pub const LARGE_ROOM_WORDS: usize = 2 * LARGE_TABLE_WORDS;

// The check of a finished table in either edition; `room` is for two tables, and what stood there counts for nothing.
pub fn examine(file: &[u8], wide: bool, table: &[u64], room: &mut [u64]) -> Answer
    requires { 2 * word_count wide ≤ length room.old }
    ensures { outcome_of result ≡ check_outcome (labels wide) file.now (rows_of (words wide) table.now) }
{
    if table.len() < rows::word_count(wide) {
        return Answer::Refused(Refusal::TableTooShort, 0);
    }
    let (sheet, ending) = reader::read(file, wide);
    if let Err(no) = ending {
        return Answer::Refused(no.refusal, no.position);
    }
    if let Some(gap) = checker::lowest_gap(room, table, file, wide, &sheet) {
        return Answer::Refused(Refusal::TableNotClosed, gap);
    }
    let held = whole::held(table, wide, sheet.forbidden);
    if sets::is_empty(wide, held) {
        Answer::Accepted(0)
    } else {
        Answer::Holds(lowest_label(wide, held), GUEST)
    }
}

// The same, with ROOM words of its own for the two tables.
pub fn examine_here<const ROOM: usize>(file: &[u8], wide: bool, table: &[u64]) -> Answer
    requires enough { 2 * word_count wide ≤ ROOM }
    requires size { ROOM < 2 ^ 60 }
    ensures { outcome_of result ≡ check_outcome (labels wide) file.now (rows_of (words wide) table.now) }
{
    let mut room = [0u64; ROOM];
    examine(file, wide, table, &mut room)
}
