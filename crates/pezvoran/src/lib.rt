// The operations of the edition of 64 labels, as a C program calls them: bytes and a table in, one word out.
#![tactic(auto)]

ghost use Rattle.std.specs.Prelude.{◌≡◌, length};
ghost use Rattle.answer.specs.Outcome.{packed};
ghost use Rattle.answer.specs.Answer.{outcome_of};
ghost use Rattle.verdicts.specs.Verdict.{verdict_outcome, verdict_table};
ghost use Rattle.verdicts.specs.Check.{check_outcome};

use answer::Answer;
use operations::ROOM_WORDS;

// The verdict, for C: see `packed` in the crate answer for the word.
#[unsafe(no_mangle)]
pub extern "C" fn verdict(file: &[u8], table: &mut [u64]) -> u64
    ensures value { result ≡ packed (verdict_outcome 64 (length table.old) file.now) }
    ensures table_after { table.new ≡ verdict_table 64 file.now table.old }
{
    answer::pack(operations::judge(file, false, table))
}

// The check of a finished table, which is only read.
pub fn examine(file: &[u8], table: &[u64]) -> Answer
    ensures { outcome_of result ≡ check_outcome 64 file.now table.now }
{
    operations::examine_here::<ROOM_WORDS>(file, false, table)
}

// The check, for C.
#[unsafe(no_mangle)]
pub extern "C" fn check(file: &[u8], table: &[u64]) -> u64
    ensures { result ≡ packed (check_outcome 64 file.now table.now) }
{
    answer::pack(examine(file, table))
}
