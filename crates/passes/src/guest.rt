// The guest's statements, which no record says.
ghost use Rattle.std.specs.Prelude.{◌≡◌, Bool, ℕ, ◌<◌, length, eqb};
ghost use Rattle.words.specs.Words.{bit};
ghost use Rattle.rows.specs.Edition.{labels};
ghost use Rattle.layout.specs.Key.{Key};
ghost use Rattle.rules.specs.Rule.{none, both};
ghost use Rattle.program.specs.Program.{Program};
ghost use Rattle.analysis.specs.Rules.{rule_of};
ghost use Rattle.uses.specs.Use.{Lent, tells};
ghost use Rattle.records.specs.Say.{rule_by, InBounds};
ghost use Rattle.host.specs.Lays.{names_in, Serves};
ghost use Rattle.shared.specs.Apply.{Applies};
ghost use Rattle.passes.specs.Order.{guest_statement, the_site, guest_rules};

use host::Host;
use records::{Site, Statement};
use rows::{Label, Var};

// The label of the guest and of whatever it makes, and its bag.
pub const GUEST: Label = Label(3);

const BAG: Var = Var(1);

// The name of a function's prototype property.
const PROTOTYPE: usize = 3;

// A call of the guest: its bag in every place.
fn guest_site() -> Site
    ensures { result ≡ the_site }
{
    Site {
        scope: GUEST,
        result: BAG,
        callee: BAG,
        inputs: [BAG; 7],
    }
}

// How the guest makes a function: with a prototype property, or without.
fn made(prototyped: bool) -> Statement
    ensures result_value { (p : Program) (key : ℕ) → rule_by p result ≡ both (rule_of p (guest_statement key prototyped 0)) none }
    ensures in_bounds { (wide : Bool) → InBounds (labels wide) result }
{
    if prototyped {
        Statement::MakeFunction(BAG, GUEST, GUEST)
    } else {
        Statement::Make(BAG, GUEST)
    }
}

// The i-th statement of the guest that has this key. By number, so that one of them is on the stack at a time and not all eight.
fn statement(key: u8, prototyped: bool, i: usize) -> Statement
    requires { Key key × (i < 8) }
    ensures result_value { (p : Program) → rule_by p result ≡ both (rule_of p (guest_statement key prototyped i)) none }
    ensures in_bounds { (wide : Bool) → InBounds (labels wide) result }
{
    match i {
        0 => made(prototyped),
        1 => Statement::Load(BAG, BAG, key, GUEST),
        2 => Statement::Store(BAG, key, BAG),
        3 => Statement::Call(guest_site()),
        4 => Statement::New(guest_site(), GUEST),
        5 => Statement::Return,
        6 => Statement::Throw(GUEST, BAG),
        _ => Statement::Catch(GUEST, BAG),
    }
}

// Whether name 3 is one of the key's.
fn is_prototyped(host: &Host, key: u8) -> bool
    requires { Key key }
    ensures { result ≡ eqb (bit (names_in host.now key) 3) 1 }
{
    words::contains(host.names(key), PROTOTYPE)
}

// One use of the guest's rules.
pub fn guest(t: &mut [u64], o: usize, wide: bool, host: &Host, keeps: &mut [u64; 256]) -> bool
    requires { Lent wide o (length t.old) }
    ensures { (p : Program) → Serves wide p host.now → Applies wide o p (tells wide (guest_rules p)) t.old keeps.old t.new keeps.new result }
{
    let key = host.guest_key();
    let prototyped = is_prototyped(host, key);
    let mut grew = false;
    for i in 0..8 {
        grew |= apply::apply(t, o, wide, host, keeps, statement(key, prototyped, i));
    }
    grew
}
