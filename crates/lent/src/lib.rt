// Rows of the lent words. `o` is the place at which a table begins and `wide` says that a row has four words, else one. No index is
// the product of two variables.
#![tactic(auto)]

ghost use Rattle.std.specs.Prelude.{◌≡◌, true, false, ◌+◌, ◌≤◌, length};
ghost use Rattle.rows.specs.Run.{number};
ghost use Rattle.rows.specs.Edition.{words};
ghost use Rattle.sets.specs.Value.{value};
ghost use Rattle.lent.specs.Table.{place};
ghost use Rattle.lent.specs.Stored.{Stored, Joined};

use sets::Set;

// The four words from place i on.
fn four(t: &[u64], i: usize) -> Set
    requires { i + 4 ≤ length t.now }
    ensures { value true result ≡ number 4 t.now i }
{
    Set {
        a: t[i],
        b: t[i + 1],
        c: t[i + 2],
        d: t[i + 3],
    }
}

// The word at place i.
#[tactic(auto, unfolding(sets::specs::Value::value, rows::specs::Run::number))]
fn one(t: &[u64], i: usize) -> Set
    requires { i + 1 ≤ length t.now }
    ensures { value false result ≡ number 1 t.now i }
{
    Set {
        a: t[i],
        b: 0,
        c: 0,
        d: 0,
    }
}

// Row r of the table at o.
#[tactic(auto, using(crate::proofs::Views::fits_wide, crate::proofs::Views::fits_narrow))]
pub fn row(t: &[u64], o: usize, wide: bool, r: usize) -> Set
    requires { place wide o r + words wide ≤ length t.now }
    ensures { value wide result ≡ number (words wide) t.now (place wide o r) }
{
    if wide {
        four(t, o + 4 * r)
    } else {
        one(t, o + r)
    }
}

// The set s, into the four words from place i on.
fn write_four(t: &mut [u64], i: usize, s: Set)
    requires { i + 4 ≤ length t.old }
    ensures { Stored 4 i (value true s) t.old t.new }
{
    t[i] = s.a;
    t[i + 1] = s.b;
    t[i + 2] = s.c;
    t[i + 3] = s.d;
}

// The set s, into the word at place i.
fn write_one(t: &mut [u64], i: usize, s: Set)
    requires { i + 1 ≤ length t.old }
    ensures { Stored 1 i (value false s) t.old t.new }
{
    t[i] = s.a;
}

// The set s, into row r of the table at o.
#[tactic(auto, using(crate::proofs::Views::fits_wide, crate::proofs::Views::fits_narrow))]
pub fn write(t: &mut [u64], o: usize, wide: bool, r: usize, s: Set)
    requires { place wide o r + words wide ≤ length t.old }
    ensures { Stored (words wide) (place wide o r) (value wide s) t.old t.new }
{
    if wide {
        write_four(t, o + 4 * r, s);
    } else {
        write_one(t, o + r, s);
    }
}

// The set s, joined to row r of the table at o; row 0 takes nothing. Says whether the row grew.
pub fn join(t: &mut [u64], o: usize, wide: bool, r: usize, s: Set) -> bool
    requires { place wide o r + words wide ≤ length t.old }
    ensures { Joined (words wide) o r (value wide s) t.old t.new result }
{
    if r == 0 {
        return false;
    }
    let old = row(t, o, wide, r);
    if sets::is_within(wide, s, old) {
        return false;
    }
    let new = sets::union(wide, old, s);
    write(t, o, wide, r, new);
    true
}
