// Reads a statement file on standard input and prints the verdict.
#![tactic(auto)]

use rows::TABLE_WORDS;

fn main(rt: HostRuntime) {
    let mut table = [0u64; TABLE_WORDS];
    desk::run(
        &rt,
        false,
        &mut table,
        b"usage: verdict < FILE (a statement file; the verdict is printed on standard output)\n",
        b"verdict: standard input",
        b"verdict: standard output",
    );
}
