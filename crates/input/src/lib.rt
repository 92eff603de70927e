// A whole file from a reader, or word of why it could not be read. A program lends one byte more than it allows, so that a file that is too long fills the
// buffer and is never cut off. Beside it what else a program has from outside: whether there are words on its command line, and how it says what failed.
//
// Proved: every function is safe and ends, and a count lies within the buffer. No contract says which bytes a reader of the system's gives; that they are
// the file's, and that an error is not taken for the end, `tests/c` tests.
#![tactic(auto)]

mod wait;

ghost use Rattle.std.specs.Io.{ReadsAtMost};

use std::env::{Env, FillError};
use std::fs::Files;
use std::io::{Error, ErrorKind, Read};
use std::time::Clock;
use std::{fmt, fs, io};

// What failed, and why.
#[derive(Clone, Copy)]
pub struct Trouble<'a> {
    pub what: &'a str,
    pub error: Error,
}

impl fmt::Display for Trouble<'_> {
    fn fmt<W: fmt::Write>(&self, f: &mut fmt::Formatter<W>) -> fmt::Result {
        write!(f, "{}: {}", self.what, self.error)
    }
}

// Says in one line what failed, and why. There is nowhere to say that this line could not be written.
pub fn fail(to: &impl Print, what: &[u8], error: Error) {
    if to.write_all(what).is_ok() {
        let _ = println!(to; ": {error}");
    }
}

// How often one read is tried again: at a millisecond each, longer than any machine lasts. Where it runs out, the read failed.
const TRIES: u64 = u64::MAX;

// Reads to the end of the file, or until the buffer is full: so many bytes stand at the start of the buffer.
pub fn read_all<R: Read>(rt: &impl Clock, file: &mut R, buf: &mut [u8]) -> io::Result<usize>
    ensures { ReadsAtMost result buf.new }
{
    let mut done: usize = 0;
    while done < buf.len() {
        let n = read_some(rt, file, &mut buf[done..])?;
        if n == 0 {
            break;
        }
        done += n;
    }
    Ok(done)
}

// The file of that name, as `read_all` reads it.
pub fn read_file<R: Files + Clock>(rt: &R, name: &str, buf: &mut [u8]) -> io::Result<usize>
    ensures { ReadsAtMost result buf.new }
{
    read_all(rt, &mut fs::open(rt, name)?, buf)
}

// What one read brings, 0 bytes at the end of the file. It is tried again as long as it was interrupted or there is nothing yet.
fn read_some<R: Read>(rt: &impl Clock, file: &mut R, rest: &mut [u8]) -> io::Result<usize>
    ensures { ReadsAtMost result rest.new }
{
    for _ in 0..TRIES {
        match file.read(rest) {
            Err(error) if wait::tries_again(rt, &error) => {}
            got => return got,
        }
    }
    Err(Error::from(ErrorKind::TimedOut))
}

// Whether there is a word on the command line behind the program's name.
pub fn has_words(rt: &impl Env) -> bool {
    let mut word = [0u8; 1];
    !matches!(rt.arg(1, &mut word), Err(FillError::NotPresent))
}
