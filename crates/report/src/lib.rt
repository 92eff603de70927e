// What the programs print of an answer (document 01, "Listed files"): its line, and for a verdict the labels in the guest's bag. The line is the answer's own
// (`line` in the crate answer); that the guest's follows it no contract can say, and the programs' `stdout` files hold it.
// Each function stops at the first write that fails, and its error says why.
#![tactic(auto)]

use answer::Answer;
use sets::Set;
use std::io;

// The end of a verdict's line, and what the guest's bag may hold: its labels, ascending, a space before each.
fn print_guest(rt: &impl Print, wide: bool, bag: Set) -> io::Result<()> {
    print!(rt; "\nguest")?;
    for label in sets::labels(wide, bag) {
        print!(rt; " {}", label.0)?;
    }
    println!(rt; "")
}

// The answer, and for a verdict the labels in the guest's bag.
pub fn print(rt: &impl Print, a: Answer, wide: bool, bag: Set) -> io::Result<()> {
    match a {
        Answer::Confined(_) | Answer::Leaks(..) => {
            print!(rt; "{a}")?;
            print_guest(rt, wide, bag)
        }
        _ => println!(rt; "{a}"),
    }
}
