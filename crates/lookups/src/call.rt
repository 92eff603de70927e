// Calls, new and prim.
ghost use Rattle.std.specs.Prelude.{◌≡◌, ◌<◌, length};
ghost use Rattle.rows.specs.Edition.{labels};
ghost use Rattle.program.specs.Program.{Program};
ghost use Rattle.analysis.specs.Rules.{converting};
ghost use Rattle.sets.specs.Value.{value};
ghost use Rattle.uses.specs.Use.{Lent, tells};
ghost use Rattle.records.specs.Say.{input_at};
ghost use Rattle.host.specs.Lays.{Lays, Functions, FormalsOf, Serves};
ghost use Rattle.shared.specs.Apply.{Applies};
ghost use Rattle.lookups.specs.Passing.{handing, handing_all, call_by, object_rule, new_by};

use host::Host;
use records::{Inputs, Site};
use rows::{Label, Var};
use sets::Set;
use shared::spread::spread_inputs;
use shared::told::{hand_back, look_up, throw_on, told_chains, told_under};

// What variable v holds, into the j-th input of the functions fs.
fn hand_over(
    t: &mut [u64],
    o: usize,
    wide: bool,
    host: &Host,
    keeps: &mut [u64; 256],
    fs: Set,
    j: usize,
    v: Var,
) -> bool
    requires { Lent wide o (length t.old) × (j < 7) }
    ensures { (p : Program) → FormalsOf p host.now.sheet.now.formals → Functions p (value wide fs) → Applies wide o p (handing wide p (value wide fs) j v.0) t.old keeps.old t.new keeps.new result }
{
    let x = uses::held(t, wide, v);
    if sets::is_empty(wide, x) {
        return false;
    }
    spread_inputs(t, o, wide, host, keeps, j, fs, x)
}

// Each input of a call, to the functions fs: the j-th argument to the j-th input.
fn hand_all(
    t: &mut [u64],
    o: usize,
    wide: bool,
    host: &Host,
    keeps: &mut [u64; 256],
    fs: Set,
    inputs: Inputs,
) -> bool
    requires { Lent wide o (length t.old) }
    ensures { (p : Program) → FormalsOf p host.now.sheet.now.formals → Functions p (value wide fs) → Applies wide o p (handing_all wide p (value wide fs) (input_at inputs) 7) t.old keeps.old t.new keeps.new result }
{
    let mut grew = false;
    for j in 0..7 {
        grew |= hand_over(t, o, wide, host, keeps, fs, j, inputs[j]);
    }
    grew
}

// `calling`: for each function of S(callee): its inputs get the arguments, S(y) what it hands back, T(k) what it throws.
pub fn call(
    t: &mut [u64],
    o: usize,
    wide: bool,
    host: &Host,
    keeps: &mut [u64; 256],
    site: Site,
) -> bool
    requires { Lent wide o (length t.old) × (site.scope.0 < labels wide) }
    ensures { (p : Program) → Serves wide p host.now → Applies wide o p (tells wide (call_by p site)) t.old keeps.old t.new keeps.new result }
{
    let held = uses::held(t, wide, site.callee);
    let fs = host.functions_among(wide, held);
    if sets::is_empty(wide, fs) {
        return false;
    }
    let handed = hand_all(t, o, wide, host, keeps, fs, site.inputs);
    let back = hand_back(t, o, wide, host, keeps, site.result, fs);
    let thrown = throw_on(t, o, wide, keeps, site.scope, fs);
    handed | (back | thrown)
}

// The first part of `making`: S(t) holds l; S(y) gets S(t); P(l) what is found under name 3 along the chains of the callee.
fn make_object(
    t: &mut [u64],
    o: usize,
    wide: bool,
    host: &Host,
    keeps: &mut [u64; 256],
    site: Site,
    l: Label,
) -> bool
    requires { Lent wide o (length t.old) × (l.0 < labels wide) }
    ensures { (p : Program) → Lays wide p host.now → Applies wide o p (tells wide (object_rule site.result.0 site.callee.0 (input_at site.inputs 0) l.0)) t.old keeps.old t.new keeps.new result }
{
    let this = site.inputs[0];
    let gave = uses::give(t, o, wide, this.row(), l);
    let same = joins::copy(t, o, wide, site.result, this);
    let held = uses::held(t, wide, site.callee);
    let on = told_chains(t, wide, keeps, site.callee, held);
    let found = look_up(t, o, wide, host, keeps, l.chain(wide), PROTOTYPE, on);
    gave | (same | found)
}

// `making`: the object, then a call with t as this.
pub fn make_new(
    t: &mut [u64],
    o: usize,
    wide: bool,
    host: &Host,
    keeps: &mut [u64; 256],
    site: Site,
    l: Label,
) -> bool
    requires { Lent wide o (length t.old) × (site.scope.0 < labels wide) × (l.0 < labels wide) }
    ensures { (p : Program) → Serves wide p host.now → Applies wide o p (tells wide (new_by p site l.0)) t.old keeps.old t.new keeps.new result }
{
    let made = make_object(t, o, wide, host, keeps, site, l);
    let called = call(t, o, wide, host, keeps, site);
    made | called
}

// The names that new and prim look under.
const PROTOTYPE: u8 = 3;

const TO_STRING: u8 = 1;

const VALUE_OF: u8 = 2;

// `converting`: for each function found under toString or valueOf along the object's chains: its this gets S(object), T(k) what it throws.
pub fn convert(
    t: &mut [u64],
    o: usize,
    wide: bool,
    host: &Host,
    keeps: &mut [u64; 256],
    k: Label,
    x: Var,
) -> bool
    requires { Lent wide o (length t.old) × (k.0 < labels wide) }
    ensures { (p : Program) → Lays wide p host.now → FormalsOf p host.now.sheet.now.formals → Applies wide o p (tells wide (converting p k.0 x.0)) t.old keeps.old t.new keeps.new result }
{
    let held = uses::held(t, wide, x);
    let on = told_chains(t, wide, keeps, x, held);
    let none = sets::none(wide);
    let strings = told_under(t, wide, host, keeps, TO_STRING, on, none);
    let values = told_under(t, wide, host, keeps, VALUE_OF, on, none);
    let fs = host.functions_among(wide, sets::union(wide, strings, values));
    if sets::is_empty(wide, fs) {
        return false;
    }
    let handed = spread_inputs(t, o, wide, host, keeps, 0, fs, held);
    let thrown = throw_on(t, o, wide, keeps, k, fs);
    handed | thrown
}
