// The operations of the edition of 256 labels as include/pezvoran.h declares them. A crate is a library or an archive for C: these are the exports of
// libpezvoran_large.a, and each promises what the function of the library pezvoran_large does that it calls. C passes a slice as a pointer and then a length.
#![tactic(auto)]

ghost use Rattle.std.specs.Prelude.{◌≡◌};
ghost use Rattle.rows.specs.Run.{room_for, rows_of};
ghost use Rattle.answer.specs.Outcome.{packed};
ghost use Rattle.verdicts.specs.Verdict.{verdict_outcome, verdict_words};
ghost use Rattle.verdicts.specs.Check.{check_outcome};

// The verdict.
#[unsafe(no_mangle)]
pub extern "C" fn verdict_large(file: &[u8], table: &mut [u64]) -> u64
    ensures value { result ≡ packed (verdict_outcome 256 (room_for 4 table.old) file.now) }
    ensures table_after { table.new ≡ verdict_words 4 256 file.now table.old }
{
    pezvoran_large::verdict_large(file, table)
}

// The check of a finished table, which is only read.
#[unsafe(no_mangle)]
pub extern "C" fn check_large(file: &[u8], table: &[u64]) -> u64
    ensures { result ≡ packed (check_outcome 256 file.now (rows_of 4 table.now)) }
{
    pezvoran_large::check_large(file, table)
}
