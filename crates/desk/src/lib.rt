// The programs `verdict` and `verdict_large`: a statement file is read on standard input, and the verdict printed (document 01, "Listed files"). One byte
// more than is allowed is read, so that a file that is too long is refused and never cut off. A file that was not read to its end has no verdict: then
// nothing is printed on standard output, and a line on standard error says why.
#![tactic(auto)]

ghost use Rattle.std.specs.Prelude.{◌≤◌, length};
ghost use Rattle.rows.specs.Edition.{word_count};

use std::io;
use std::io::Error;

// The verdict on a file, printed.
pub fn print_verdict(rt: &impl Print, file: &[u8], wide: bool, table: &mut [u64]) -> io::Result<()>
    requires { word_count wide ≤ length table.old }
{
    let answer = operations::judge(file, wide, table);
    report::print(rt, answer, wide, lent::row(table, 0, wide, 1))
}

// Input that could not be read, or output that could not be written.
enum Failed {
    Reading(Error),
    Writing(Error),
}

// Reads a file on standard input and prints the verdict on it.
fn judge_input(rt: &HostRuntime, wide: bool, table: &mut [u64]) -> Result<(), Failed>
    requires { word_count wide ≤ length table.old }
{
    let mut file = [0u8; layout::LONGEST + 1];
    let n = input::read_all(rt, &mut rt.stdin(), &mut file).map_err(Failed::Reading)?;
    print_verdict(rt, &file[..n], wide, table).map_err(Failed::Writing)
}

// A program of the edition: what it says of its use, of input that cannot be read, of output that cannot be written.
pub fn run(
    rt: &HostRuntime,
    wide: bool,
    table: &mut [u64],
    usage: &[u8],
    unread: &[u8],
    unwritten: &[u8],
)
    requires { word_count wide ≤ length table.old }
{
    let trouble = rt.stderr();
    if input::has_words(rt) {
        let _ = trouble.write_all(usage);
        return;
    }
    match judge_input(rt, wide, table) {
        Ok(()) => {}
        Err(Failed::Reading(error)) => input::fail(&trouble, unread, error),
        Err(Failed::Writing(error)) => input::fail(&trouble, unwritten, error),
    }
}
