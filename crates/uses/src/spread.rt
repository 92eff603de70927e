// A set joined to many rows, and the meet of what they hold then.
ghost use Rattle.std.specs.Prelude.{ℕ, ◌+◌, ◌*◌, ◌≤◌, ◌<◌, ◌≡◌, length, get_or};
ghost use Rattle.words.specs.Words.{bit};
ghost use Rattle.rows.specs.Edition.{labels};
ghost use Rattle.rows.specs.Row.{row_count};
ghost use Rattle.sets.specs.Value.{value};
ghost use Rattle.uses.specs.Use.{Lent};
ghost use Rattle.uses.specs.Spread.{row_after, named_rows, formal_row, taken_by, SpreadTo};

use rows::{Label, Name, Var};
use sets::Set;

// Whether a row grew, and labels that all the rows hold.
#[derive(Clone, Copy)]
pub struct Spread {
    pub grew: bool,
    pub least: Set,
}

// The set x, into row r.
fn spread_one(t: &mut [u64], o: usize, wide: bool, r: usize, x: Set, start: Set) -> Spread
    requires { Lent wide o (length t.old) × (r < row_count (labels wide)) }
    ensures spread_to { SpreadTo wide o (λ q. q ≡ r) (value wide x) t.old t.new result.grew (value wide result.least) }
    ensures by_index { (m : ℕ) → bit (value wide result.least) m ≡ 1 → bit (value wide start) m ≡ 1 }
{
    if r == 0 {
        return Spread {
            grew: false,
            least: start,
        };
    }
    let grew = lent::join(t, o, wide, r, x);
    let held = lent::row(t, o, wide, r);
    Spread {
        grew,
        least: sets::meet(wide, start, held),
    }
}

// The set x, into the rows base + n, for each name n of the word w.
fn spread_names(
    t: &mut [u64],
    o: usize,
    wide: bool,
    base: usize,
    w: u64,
    x: Set,
    start: Set,
) -> Spread
    requires { Lent wide o (length t.old) × (base + 64 ≤ row_count (labels wide)) }
    ensures spread_to { SpreadTo wide o (taken_by (row_after base) w) (value wide x) t.old t.new result.grew (value wide result.least) }
    ensures by_index { (m : ℕ) → bit (value wide result.least) m ≡ 1 → bit (value wide start) m ≡ 1 }
{
    let mut grew = false;
    let mut least = start;
    for n in words::labels(w) {
        let one = spread_one(t, o, wide, base + n, x, least);
        grew |= one.grew;
        least = one.least;
    }
    Spread { grew, least }
}

// The set x, into the properties of each label of s under the names of a word.
pub fn spread_under(t: &mut [u64], o: usize, wide: bool, names: u64, s: Set, x: Set) -> Spread
    requires { Lent wide o (length t.old) }
    ensures { SpreadTo wide o (taken_by (named_rows names) (value wide s)) (value wide x) t.old t.new result.grew (value wide result.least) }
{
    let mut grew = false;
    let mut least = sets::full(wide);
    for l in sets::labels(wide, s) {
        let one = spread_names(t, o, wide, l.property(Name(0)), names, x, least);
        grew |= one.grew;
        least = one.least;
    }
    Spread { grew, least }
}

// The j-th input of function f: this, then six formals.
fn formal(formals: &[u8; 1792], f: Label, j: usize) -> Var
    requires { j < 7 }
    ensures { result.0 ≡ get_or formals.now (7 * f.0 + j) 0 }
{
    Var(formals[7 * usize::from(f.0) + j])
}

// The set x, into the j-th input of each function of s.
pub fn spread_input(
    t: &mut [u64],
    o: usize,
    wide: bool,
    formals: &[u8; 1792],
    j: usize,
    s: Set,
    x: Set,
) -> Spread
    requires { Lent wide o (length t.old) × (j < 7) }
    ensures { SpreadTo wide o (taken_by (formal_row formals.now j) (value wide s)) (value wide x) t.old t.new result.grew (value wide result.least) }
{
    let mut grew = false;
    let mut least = sets::full(wide);
    for f in sets::labels(wide, s) {
        let one = spread_one(t, o, wide, formal(formals, f, j).row(), x, least);
        grew |= one.grew;
        least = one.least;
    }
    Spread { grew, least }
}
