// What the check does before and after its one use of all rules: the given table is cleaned and written twice, and once the second was added to, the lowest
// row in which it holds more than the first is looked for.
#![tactic(auto)]

ghost use Rattle.std.specs.Prelude.{◌≡◌, cond, not, ◌*◌, ◌^◌, ◌≤◌, ◌<◌, eqb, length};
ghost use Rattle.words.specs.Words.{union};
ghost use Rattle.rows.specs.Edition.{labels, word_count};
ghost use Rattle.rows.specs.Row.{row_count};
ghost use Rattle.sets.specs.Value.{value};
ghost use Rattle.cleaning.specs.Copies.{Declares, BothStored, Cleans, Grown};

use rows::Label;
use sets::Set;

// The declared labels.
pub fn declared(types: &[u8; 256], wide: bool) -> Set
    ensures { Declares wide types.now (value wide result) }
{
    let mut all = sets::none(wide);
    for l in 0..rows::labels(wide) {
        if types[l] != 0 {
            let one = sets::single(wide, Label(l as u8));
            all = sets::union(wide, all, one);
        }
    }
    all
}

// The set s, into row r of both tables.
fn write_both(t: &mut [u64], wide: bool, r: usize, s: Set)
    requires { (2 * word_count wide ≤ length t.old) × (r < row_count (labels wide)) }
    ensures { BothStored wide r (value wide s) t.old t.new }
{
    let o = rows::word_count(wide);
    lent::write(t, 0, wide, r, s);
    lent::write(t, o, wide, r, s);
}

// The table without row 0 and without labels that are not declared, twice.
pub fn clean(table: &[u64], declared: Set, wide: bool, t: &mut [u64])
    requires { (word_count wide ≤ length table.now) × (2 * word_count wide ≤ length t.old) }
    ensures { Cleans wide (value wide declared) table.now t.new }
{
    write_both(t, wide, 0, sets::none(wide));
    for r in 1..rows::row_count(wide) {
        let row = lent::row(table, 0, wide, r);
        write_both(t, wide, r, sets::meet(wide, row, declared));
    }
}

// The lowest row in which the second table holds a label that the first lacks.
pub fn lowest_grown(t: &[u64], wide: bool) -> Option<usize>
    requires { 2 * word_count wide ≤ length t.now }
    ensures { Grown wide t.now result }
{
    let o = rows::word_count(wide);
    for r in 0..rows::row_count(wide) {
        let old = lent::row(t, 0, wide, r);
        let new = lent::row(t, o, wide, r);
        if !sets::is_within(wide, new, old) {
            return Some(r);
        }
    }
    None
}
