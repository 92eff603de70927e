// The operations of the edition of 64 labels as include/pezvoran.h declares them. A crate is a library or an archive for C: these are the exports of
// libpezvoran.a, and each promises what the function of the library pezvoran does that it calls. C passes a slice as a pointer and then a length.
#![tactic(auto)]

ghost use Rattle.std.specs.Prelude.{◌≡◌, length};
ghost use Rattle.answer.specs.Outcome.{packed};
ghost use Rattle.verdicts.specs.Verdict.{verdict_outcome, verdict_table};
ghost use Rattle.verdicts.specs.Check.{check_outcome};

// The verdict.
#[unsafe(no_mangle)]
pub extern "C" fn verdict(file: &[u8], table: &mut [u64]) -> u64
    ensures value { result ≡ packed (verdict_outcome 64 (length table.old) file.now) }
    ensures table_after { table.new ≡ verdict_table 64 file.now table.old }
{
    pezvoran::verdict(file, table)
}

// The check of a finished table, which is only read.
#[unsafe(no_mangle)]
pub extern "C" fn check(file: &[u8], table: &[u64]) -> u64
    ensures { result ≡ packed (check_outcome 64 file.now table.now) }
{
    pezvoran::check(file, table)
}
