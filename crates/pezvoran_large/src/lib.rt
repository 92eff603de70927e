// The operations of the edition of 256 labels, as a C program calls them (document 02, Req 13): bytes and words in, four words to a row, one word out.
#![tactic(auto)]

ghost use Rattle.std.specs.Prelude.{◌≡◌};
ghost use Rattle.rows.specs.Run.{room_for, rows_of};
ghost use Rattle.answer.specs.Outcome.{packed};
ghost use Rattle.answer.specs.Answer.{outcome_of};
ghost use Rattle.verdicts.specs.Verdict.{verdict_outcome, verdict_words};
ghost use Rattle.verdicts.specs.Check.{check_outcome};

use answer::Answer;
use operations::LARGE_ROOM_WORDS;

// The verdict: see `packed` in the crate answer for the word.
#[unsafe(no_mangle)]
pub extern "C" fn verdict_large(file: &[u8], table: &mut [u64]) -> u64
    ensures value { result ≡ packed (verdict_outcome 256 (room_for 4 table.old) file.now) }
    ensures table_after { table.new ≡ verdict_words 4 256 file.now table.old }
{
    answer::pack(operations::judge(file, true, table))
}

// The check of a finished table, which is only read.
pub fn examine(file: &[u8], table: &[u64]) -> Answer
    ensures { outcome_of result ≡ check_outcome 256 file.now (rows_of 4 table.now) }
{
    operations::examine_here::<LARGE_ROOM_WORDS>(file, true, table)
}

// The check, for C.
#[unsafe(no_mangle)]
pub extern "C" fn check_large(file: &[u8], table: &[u64]) -> u64
    ensures { result ≡ packed (check_outcome 256 file.now (rows_of 4 table.now)) }
{
    answer::pack(examine(file, table))
}
