// A test of the reader: prints what reading gives for each file of `data/cases`, and for files of 32,767 to 32,769 bytes, in the edition of 64 labels
// and then in that of 256. The cases are the edges of every field of every kind, cut records and functions left out; they and what this program must
// print come from the reader in tests/second, which was written from the papers alone (`cargo run --example edge_cases` there). Where they cannot be read
// nothing is printed, and a line on standard error says why.
#![tactic(auto)]

use answer::Answer;
use input::Trouble;

// One byte more than the cases may have.
const MOST: usize = 262144;

// What reading a file gives. A line that cannot be written is passed over.
fn show(rt: &impl Print, file: &[u8], wide: bool) {
    let _ = match reader::read(file, wide).1 {
        Ok(_) => println!(rt; "read"),
        Err(no) => rt.println(Answer::Refused(no.refusal, no.position)),
    };
}

// Each case: two bytes of length, the low one first, then the file.
fn show_all(rt: &impl Print, cases: &[u8], wide: bool) {
    let mut rest = cases;
    while let Some((length, after)) = rest.split_first_chunk::<2>() {
        let n = usize::from(u16::from_le_bytes(*length));
        let Some((file, next)) = after.split_at_checked(n) else {
            return;
        };
        show(rt, file, wide);
        rest = next;
    }
}

// The files of the largest size, and of a byte less and more.
fn show_sizes(rt: &impl Print, wide: bool) {
    let full = [3u8; layout::LONGEST + 1];
    show(rt, &full[..layout::LONGEST - 1], wide);
    show(rt, &full[..layout::LONGEST], wide);
    show(rt, &full, wide);
}

fn show_edition(rt: &impl Print, cases: &[u8], wide: bool) {
    show_all(rt, cases, wide);
    show_sizes(rt, wide);
}

fn show_file<'a>(rt: &HostRuntime, name: &'a str) -> Result<(), Trouble<'a>> {
    let mut cases = [0u8; MOST];
    let trouble = |error| Trouble { what: name, error };
    let n = input::read_file(rt, name, &mut cases).map_err(trouble)?;
    if n == MOST {
        let _ = eprintln!(rt; "{name}: is too long");
        return Ok(());
    }
    show_edition(rt, &cases[..n], false);
    show_edition(rt, &cases[..n], true);
    Ok(())
}

fn main(rt: HostRuntime) {
    if input::has_words(&rt) {
        let _ = eprintln!(rt; "usage: edges (in the folder that has its file)");
        return;
    }
    if let Err(trouble) = show_file(&rt, "cases") {
        input::fail(&rt.stderr(), trouble.what.as_bytes(), trouble.error);
    }
}
