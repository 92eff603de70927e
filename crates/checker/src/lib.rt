// The check's look at a table that is given: one use of all rules on a copy of it shows the lowest row that lacks something.
#![tactic(auto)]

ghost use Rattle.std.specs.Prelude.{◌≡◌, ◌*◌, ◌≤◌, ◌<◌, length, IfSome};
ghost use Rattle.std.specs.Option.{unwrap_or};
ghost use Rattle.rows.specs.Edition.{labels, word_count};
ghost use Rattle.rows.specs.Row.{row_count};
ghost use Rattle.rules.specs.Gap.{gap};
ghost use Rattle.format.specs.Reading.{read_file, Readable};
ghost use Rattle.program.specs.Program.{program_in};
ghost use Rattle.analysis.specs.Rules.{rules};
ghost use Rattle.verdicts.specs.Check.{cleaned};
ghost use Rattle.lent.specs.Table.{table_at};
ghost use Rattle.uses.specs.Use.{Lent, tells, Used};
ghost use Rattle.laying.specs.Arrays.{Arrays};

use host::Host;
use sheet::Sheet;

// One pass over the rules of the file with this sheet, into the table at o.
fn pass_into(t: &mut [u64], o: usize, file: &[u8], wide: bool, sheet: &Sheet) -> bool
    requires { Lent wide o (length t.old) × Readable (labels wide) file.now × Arrays wide file.now sheet.now }
    ensures { Used wide o (tells wide (rules (labels wide) (program_in (labels wide) file.now))) t.old t.old t.new result }
{
    let mut host = Host::new(sheet);
    laying::lay_out(wide, file, &mut host);
    let mut keeps = [0; 256];
    passes::pass(t, o, wide, &host, &mut keeps, file)
}

// The lowest row that one use of all rules would enlarge in the given table, cleaned, if there is one. The sheet has the file's declarations; t is room for
// two tables, and what stood there counts for nothing.
pub fn lowest_gap(
    t: &mut [u64],
    table: &[u64],
    file: &[u8],
    wide: bool,
    sheet: &Sheet,
) -> Option<usize>
    requires { (word_count wide ≤ length table.now) × (2 * word_count wide ≤ length t.old) × Readable (labels wide) file.now × Arrays wide file.now sheet.now }
    ensures value { unwrap_or result (row_count (labels wide)) ≡ gap (labels wide) (cleaned (labels wide) (read_file (labels wide) file.now).sheet (table_at wide 0 table.now)) (rules (labels wide) (program_in (labels wide) file.now)) }
    ensures within { IfSome result (λ row. row < row_count (labels wide)) }
{
    let known = cleaning::declared(&sheet.types, wide);
    cleaning::clean(table, known, wide, t);
    let o = rows::word_count(wide);
    pass_into(t, o, file, wide, sheet);
    cleaning::lowest_grown(t, wide)
}
