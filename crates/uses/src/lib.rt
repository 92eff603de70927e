// Rules that are one join, and unions over the labels of a set: a function reads the table at 0 and joins to the table at o of the same lent words.
#![tactic(auto)]

ghost use Rattle.std.specs.Prelude.{◌≡◌, ◌+◌, ◌^◌, ◌≤◌, ◌<◌, length, get_or};
ghost use Rattle.rows.specs.Edition.{labels, word_count};
ghost use Rattle.rows.specs.Row.{row_count};
ghost use Rattle.sets.specs.Value.{value};
ghost use Rattle.uses.specs.Use.{Lent, table_of, giving, including, Used};
ghost use Rattle.uses.specs.Gather.{row_from, under_names, Gathered, Added};

pub mod spread;

use rows::{Label, Name, Var};
use sets::Set;

// What variable v holds.
pub fn held(t: &[u64], wide: bool, v: Var) -> Set
    requires { word_count wide ≤ length t.now }
    ensures { value wide result ≡ get_or (table_of wide t.now) v.0 0 }
{
    lent::row(t, 0, wide, v.row())
}

// Label m, into row y.
pub fn give(t: &mut [u64], o: usize, wide: bool, y: usize, m: Label) -> bool
    requires { Lent wide o (length t.old) × (y < row_count (labels wide)) × (m.0 < labels wide) }
    ensures { Used wide o (giving y m.0) t.old t.old t.new result }
{
    let s = sets::single(wide, m);
    lent::join(t, o, wide, y, s)
}

// What row x holds, into row y.
pub fn include(t: &mut [u64], o: usize, wide: bool, y: usize, x: usize) -> bool
    requires { Lent wide o (length t.old) × (y < row_count (labels wide)) × (x < row_count (labels wide)) }
    ensures { Used wide o (including y x) t.old t.old t.new result }
{
    let s = lent::row(t, 0, wide, x);
    lent::join(t, o, wide, y, s)
}

// The rows base + l, for each label l of the word w, joined to what is there so far. The bound of the word is for the caller.
pub fn gather_word(t: &[u64], wide: bool, base: usize, w: u64, start: Set) -> Set
    requires { (word_count wide ≤ length t.now) × (base + 64 ≤ row_count (labels wide)) }
    ensures added { Added (row_from base) (table_of wide t.now) w (value wide start) (value wide result) }
    ensures bound { w < 2 ^ 64 }
{
    let mut all = start;
    for l in words::labels(w) {
        let row = lent::row(t, 0, wide, base + l);
        all = sets::union(wide, all, row);
    }
    all
}

// The union of the rows base + l, for each label l of s: word by word, which is faster than asking a set for its next label.
#[tactic(auto, using(crate::proofs::Unions::word_fits, crate::proofs::Unions::words_fit))]
pub fn gather(t: &[u64], wide: bool, base: usize, s: Set) -> Set
    requires { (word_count wide ≤ length t.now) × (base + labels wide ≤ row_count (labels wide)) }
    ensures { Gathered (row_from base) (table_of wide t.now) (table_of wide t.now) (value wide s) (value wide result) }
{
    let first = gather_word(t, wide, base, s.a, sets::none(wide));
    if !wide {
        return first;
    }
    let second = gather_word(t, wide, base + 64, s.b, first);
    let third = gather_word(t, wide, base + 128, s.c, second);
    gather_word(t, wide, base + 192, s.d, third)
}

// The union of the properties of the labels of s, under the names of a word.
pub fn gather_under(t: &[u64], wide: bool, names: u64, s: Set) -> Set
    requires { word_count wide ≤ length t.now }
    ensures { Gathered (under_names names) (table_of wide t.now) (table_of wide t.now) (value wide s) (value wide result) }
{
    let mut all = sets::none(wide);
    for l in sets::labels(wide, s) {
        all = gather_word(t, wide, l.property(Name(0)), names, all);
    }
    all
}
