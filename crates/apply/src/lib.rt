// One use of the rules of each statement, by its variant (crates joins and lookups): what the rule tells of the table at 0 is joined to the table at o, in
// place or into a second table.
#![tactic(auto)]

ghost use Rattle.std.specs.Prelude.{◌≡◌, length};
ghost use Rattle.rows.specs.Edition.{labels};
ghost use Rattle.program.specs.Program.{Program};
ghost use Rattle.uses.specs.Use.{Lent, tells, Reached};
ghost use Rattle.records.specs.Say.{rule_by, InBounds};
ghost use Rattle.host.specs.Lays.{Lays, Serves};
ghost use Rattle.shared.specs.Apply.{Applies};

use host::Host;
use joins::{catch, copy, give_label, grant, make_function, name_variable, set_property, throw};
use lookups::call::{call, convert, make_new};
use lookups::property::{load, load_part, store};
use records::Statement;
use sets::Set;

// One use of the rules of a statement.
pub fn apply(
    t: &mut [u64],
    o: usize,
    wide: bool,
    host: &Host,
    keeps: &mut [u64; 256],
    s: Statement,
) -> bool
    requires { Lent wide o (length t.old) × InBounds (labels wide) s }
    ensures { (p : Program) → Serves wide p host.now → Applies wide o p (tells wide (rule_by p s)) t.old keeps.old t.new keeps.new result }
{
    match s {
        Statement::Nothing => false,
        Statement::Named(v, n) => name_variable(t, o, wide, v, n),
        Statement::Grant(v) => grant(t, o, wide, v),
        Statement::Property(l, n, m) => set_property(t, o, wide, l, n, m),
        Statement::Held(v, l) => give_label(t, o, wide, v, l),
        Statement::Copy(y, x) => copy(t, o, wide, y, x),
        Statement::Load(y, x, key, w) => load(t, o, wide, host, keeps, y, x, key, w),
        Statement::Store(x, key, a) => store(t, o, wide, host, keeps, x, key, a),
        Statement::Make(y, l) => give_label(t, o, wide, y, l),
        Statement::MakeFunction(y, l, q) => make_function(t, o, wide, y, l, q),
        Statement::Call(site) => call(t, o, wide, host, keeps, site),
        Statement::New(site, l) => make_new(t, o, wide, host, keeps, site, l),
        Statement::Return => false,
        Statement::Throw(k, x) => throw(t, o, wide, k, x),
        Statement::Catch(k, y) => catch(t, o, wide, k, y),
        Statement::Convert(k, x) => convert(t, o, wide, host, keeps, k, x),
    }
}

// A part of a use, in place: of a load for these labels of its object, of another statement nothing.
pub fn apply_part(t: &mut [u64], wide: bool, host: &Host, s: Statement, part: Set) -> bool
    requires { Lent wide 0 (length t.old) × InBounds (labels wide) s }
    ensures reached { (p : Program) → Lays wide p host.now → Reached wide 0 (tells wide (rule_by p s)) t.old t.new }
    ensures t_len_unchanged { length t.new ≡ length t.old }
{
    match s {
        Statement::Load(y, x, key, _) => load_part(t, wide, host, y, x, key, part),
        _ => false,
    }
}
