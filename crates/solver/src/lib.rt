// The least table of a readable file, on the words that are lent: whole passes over its rules in place until one adds nothing, with a search between them where
// a file needs many.
#![tactic(auto)]

ghost use Rattle.std.specs.Prelude.{◌≡◌, ◌≤◌, length};
ghost use Rattle.rows.specs.Edition.{labels, word_count};
ghost use Rattle.rules.specs.Table.{empty_table};
ghost use Rattle.format.specs.Reading.{Readable};
ghost use Rattle.lent.specs.Table.{table_at};
ghost use Rattle.uses.specs.Use.{Lent};
ghost use Rattle.laying.specs.Arrays.{Arrays};
ghost use Rattle.solver.specs.Solved.{Settled, Solved};

use host::Host;
use sheet::Sheet;
use turns::search_on;

// From a table without facts to the least one: only a pass that adds nothing ends the work.
fn settle(t: &mut [u64], file: &[u8], wide: bool, sheet: &Sheet)
    requires { Lent wide 0 (length t.old) × Readable (labels wide) file.now × Arrays wide file.now sheet.now × (table_at wide 0 t.old ≡ empty_table (labels wide)) }
    ensures { Settled wide file.now t.old t.new }
{
    let mut host = Host::new(sheet);
    laying::lay_out(wide, file, &mut host);
    let mut keeps = [0; 256];
    let mut passes: u8 = 0;
    let mut again = true;
    // A label, so that the loop keeps its name in proofs whatever its test says.
    'rounds: while again {
        search_on(passes, t, wide, file, &host, &mut keeps);
        kept::forget(&mut keeps, wide);
        again = passes::pass(t, 0, wide, &host, &mut keeps, file);
        passes = passes.saturating_add(1);
    }
}

// The least table of the file, whose declarations the sheet has; what stood in the rows counts for nothing, words beyond them stay. It is not inlined: what it
// knows of a file would lie on the stack already while the file is read.
#[inline(never)]
pub fn solve(t: &mut [u64], file: &[u8], wide: bool, sheet: &Sheet)
    requires { (word_count wide ≤ length t.old) × Readable (labels wide) file.now × Arrays wide file.now sheet.now }
    ensures { Solved wide file.now t.old t.new }
{
    whole::clear(t, wide);
    settle(t, file, wide, sheet);
}
