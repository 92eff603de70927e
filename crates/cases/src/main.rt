// A test of the operations: for each file of data/ prints the verdict, and what the check says of the table it left, in the edition of 64 labels and then in
// that of 256. The first eight are document 01's listed files, the next use every kind of record, then labels above 63, then one load with keys at the borders,
// then the names outside a class, the last guests held to a class. What must be printed comes from the second implementation (`cargo run --example
// report_cases` in tests/second). Of a file that cannot be read nothing is printed, and a line on standard error says why.
#![tactic(auto)]

use answer::Answer;
use input::Trouble;
use rows::{LARGE_TABLE_WORDS, TABLE_WORDS};
use std::io;

const FILES: [&str; 32] = [
    "listed-1",
    "listed-2",
    "listed-3",
    "listed-4",
    "listed-5",
    "listed-6",
    "listed-7",
    "listed-8",
    "every-1",
    "every-2",
    "every-3",
    "every-4",
    "large-1",
    "large-2",
    "key-4",
    "key-129",
    "key-135",
    "key-136",
    "key-137",
    "key-143",
    "key-144",
    "outside-1",
    "outside-2",
    "profile-1",
    "profile-2",
    "profile-3",
    "profile-4",
    "profile-5",
    "profile-6",
    "profile-7",
    "profile-8",
    "profile-9",
];

// What the check says, printed.
fn print_check(rt: &impl Print, answer: Answer, wide: bool) -> io::Result<()> {
    report::print(rt, answer, wide, sets::none(wide))
}

// What both editions say of a file.
fn judge_both(rt: &impl Print, file: &[u8]) -> io::Result<()> {
    let mut table = [0u64; TABLE_WORDS];
    desk::print_verdict(rt, file, false, &mut table)?;
    print_check(rt, pezvoran::examine(file, &table), false)?;
    let mut table = [0u64; LARGE_TABLE_WORDS];
    desk::print_verdict(rt, file, true, &mut table)?;
    print_check(rt, pezvoran_large::examine(file, &table), true)
}

fn show<'a>(rt: &HostRuntime, name: &'a str) -> Result<(), Trouble<'a>> {
    let mut file = [0u8; layout::LONGEST + 1];
    let n = input::read_file(rt, name, &mut file).map_err(|error| Trouble { what: name, error })?;
    judge_both(rt, &file[..n]).map_err(|error| Trouble {
        what: "cases: standard output",
        error,
    })
}

fn main(rt: HostRuntime) {
    if input::has_words(&rt) {
        let _ = eprintln!(rt; "usage: cases (in the folder that has its files)");
        return;
    }
    for name in FILES {
        if let Err(trouble) = show(&rt, name) {
            input::fail(&rt.stderr(), trouble.what.as_bytes(), trouble.error);
        }
    }
}
