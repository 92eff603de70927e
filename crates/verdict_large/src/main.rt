// Reads a statement file of the edition of 256 labels on standard input and prints the verdict.
#![tactic(auto)]

use rows::LARGE_TABLE_WORDS;

fn main(rt: HostRuntime) {
    let mut table = [0u64; LARGE_TABLE_WORDS];
    desk::run(
        &rt,
        true,
        &mut table,
        b"usage: verdict_large < FILE (a statement file of up to 256 labels; the verdict is printed on standard output)\n",
        b"verdict_large: standard input",
        b"verdict_large: standard output",
    );
}
