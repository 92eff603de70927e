// One use of the rules that are a few joins and remember nothing, beside the paper's words: named, grant, property, held, copy, make, throw, catch.
#![tactic(auto)]

ghost use Rattle.std.specs.Prelude.{◌<◌, length};
ghost use Rattle.rows.specs.Edition.{labels};
ghost use Rattle.rows.specs.Row.{variable, property, thrown, row_count};
ghost use Rattle.rules.specs.Rule.{give, include, both};
ghost use Rattle.program.specs.Statement.{bag};
ghost use Rattle.uses.specs.Use.{Lent, tells, Used};
ghost use Rattle.joins.specs.Mutual.{Mutual};

use rows::{Label, Name, Var};

// The guest's bag.
const BAG: Var = Var(1);

// Label 0, the global object, whose properties named variables are.
const GLOBAL: Label = Label(0);

// The name of the prototype.
const PROTOTYPE: Name = Name(3);

// Rows x and y hold the same: each is joined to the other.
fn same(t: &mut [u64], o: usize, wide: bool, y: usize, x: usize) -> bool
    requires { Lent wide o (length t.old) × (y < row_count (labels wide)) × (x < row_count (labels wide)) }
    ensures { Used wide o (Mutual y x) t.old t.old t.new result }
{
    let to = uses::include(t, o, wide, y, x);
    let from = uses::include(t, o, wide, x, y);
    to | from
}

// "S(v) = H(0,n)"
pub fn name_variable(t: &mut [u64], o: usize, wide: bool, v: Var, n: Name) -> bool
    requires { Lent wide o (length t.old) × (n.0 < 32) }
    ensures { Used wide o (tells wide (both (include (variable v.0) (property 0 n.0)) (include (property 0 n.0) (variable v.0)))) t.old t.old t.new result }
{
    same(t, o, wide, v.row(), GLOBAL.property(n))
}

// "copies between v and 1 each way"
pub fn grant(t: &mut [u64], o: usize, wide: bool, v: Var) -> bool
    requires { Lent wide o (length t.old) }
    ensures { Used wide o (tells wide (both (include (variable bag) (variable v.0)) (include (variable v.0) (variable bag)))) t.old t.old t.new result }
{
    same(t, o, wide, BAG.row(), v.row())
}

// "H(l,n) holds l'"
pub fn set_property(t: &mut [u64], o: usize, wide: bool, l: Label, n: Name, m: Label) -> bool
    requires { Lent wide o (length t.old) × (l.0 < labels wide) × (n.0 < 32) × (m.0 < labels wide) }
    ensures { Used wide o (tells wide (give (property l.0 n.0) m.0)) t.old t.old t.new result }
{
    uses::give(t, o, wide, l.property(n), m)
}

// "S(v) holds l"
pub fn give_label(t: &mut [u64], o: usize, wide: bool, v: Var, l: Label) -> bool
    requires { Lent wide o (length t.old) × (l.0 < labels wide) }
    ensures { Used wide o (tells wide (give (variable v.0) l.0)) t.old t.old t.new result }
{
    uses::give(t, o, wide, v.row(), l)
}

// "S(y) includes S(source)"
pub fn copy(t: &mut [u64], o: usize, wide: bool, y: Var, x: Var) -> bool
    requires { Lent wide o (length t.old) }
    ensures { Used wide o (tells wide (include (variable y.0) (variable x.0))) t.old t.old t.new result }
{
    uses::include(t, o, wide, y.row(), x.row())
}

// "S(y) holds l", "also H(l,3) holds q"
pub fn make_function(t: &mut [u64], o: usize, wide: bool, y: Var, l: Label, q: Label) -> bool
    requires { Lent wide o (length t.old) × (l.0 < labels wide) × (q.0 < labels wide) }
    ensures { Used wide o (tells wide (both (give (variable y.0) l.0) (give (property l.0 3) q.0))) t.old t.old t.new result }
{
    let made = give_label(t, o, wide, y, l);
    let set = set_property(t, o, wide, l, PROTOTYPE, q);
    made | set
}

// "T(k) includes S(value)"
pub fn throw(t: &mut [u64], o: usize, wide: bool, k: Label, x: Var) -> bool
    requires { Lent wide o (length t.old) × (k.0 < labels wide) }
    ensures { Used wide o (tells wide (include (thrown k.0) (variable x.0))) t.old t.old t.new result }
{
    uses::include(t, o, wide, k.thrown(wide), x.row())
}

// "S(y) includes T(k)"
pub fn catch(t: &mut [u64], o: usize, wide: bool, k: Label, y: Var) -> bool
    requires { Lent wide o (length t.old) × (k.0 < labels wide) }
    ensures { Used wide o (tells wide (include (variable y.0) (thrown k.0))) t.old t.old t.new result }
{
    uses::include(t, o, wide, y.row(), k.thrown(wide))
}
