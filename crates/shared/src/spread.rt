// A set spread to many rows; those of which the kept meet says that they hold it are passed over.
ghost use Rattle.std.specs.Prelude.{◌≡◌, ℕ, ◌<◌, length};
ghost use Rattle.std.specs.Fn.{TakesWithState, CalledWithState};
ghost use Rattle.layout.specs.Key.{Key};
ghost use Rattle.program.specs.Program.{Program};
ghost use Rattle.sets.specs.Value.{value};
ghost use Rattle.sets.specs.declared.Set.{Set};
ghost use Rattle.uses.specs.Use.{Lent, Apart};
ghost use Rattle.kept.specs.Pairs.{pair_count};
ghost use Rattle.kept.specs.Promise.{Slot, slot_of, Union, input, stored};
ghost use Rattle.host.specs.Lays.{names_in, Lays, Functions, FormalsOf};
ghost use Rattle.shared.specs.Apply.{Applies, spreading, Gives};

use crate::told::of_class_zero;
use host::Host;
use sets::Set;
use uses::spread::Spread;

// The set x, into rows of the labels of s, by a pair: `give` has it for the labels whose rows may lack something.
fn spread<F: FnMut(&mut [u64], Set) -> Spread>(
    t: &mut [u64],
    wide: bool,
    keeps: &mut [u64; 256],
    pair: usize,
    s: Set,
    x: Set,
    mut give: F,
) -> bool
    requires { (rest : Set) → TakesWithState F.FnMut give t.old rest }
    ensures { (o : ℕ) (p : Program) (slot : Slot) → Apart wide o → (Union slot → ⊥) → (pair < pair_count wide → slot_of pair ≡ slot) → Gives wide o p slot t.old (value wide s) (value wide x) (λ rest r u. (f : F) × CalledWithState F.FnMut give t.old rest r f u) → Applies wide o p (spreading wide p slot (value wide s) (value wide x)) t.old keeps.old t.new keeps.new result }
{
    let left = kept::leave(keeps, wide, pair, s, x);
    let done = give(t, left.unwrap_or(s));
    kept::learn(keeps, wide, pair, s, left, done.least);
    done.grew
}

// The set x, into the properties of the labels of s under a key for which there is no room for a pair. Passed over are labels of which the pair for class 0
// says that all their properties hold x.
fn spread_unkept(
    t: &mut [u64],
    o: usize,
    wide: bool,
    host: &Host,
    keeps: &[u64; 256],
    names: u64,
    s: Set,
    x: Set,
) -> bool
    requires { Lent wide o (length t.old) }
    ensures { (p : Program) (key : ℕ) → Lays wide p host.now → Key key → names ≡ names_in host.now key → Applies wide o p (spreading wide p (stored key) (value wide s) (value wide x)) t.old keeps.now t.new keeps.now result }
{
    let rest = if of_class_zero(host, names) {
        kept::leave(keeps, wide, kept::STORED, s, x).unwrap_or(s)
    } else {
        s
    };
    uses::spread::spread_under(t, o, wide, names, rest, x).grew
}

// The set x, into the properties of the labels of s under a key.
pub fn spread_stored(
    t: &mut [u64],
    o: usize,
    wide: bool,
    host: &Host,
    keeps: &mut [u64; 256],
    key: u8,
    s: Set,
    x: Set,
) -> bool
    requires { Lent wide o (length t.old) × Key key }
    ensures { (p : Program) → Lays wide p host.now → Applies wide o p (spreading wide p (stored key) (value wide s) (value wide x)) t.old keeps.old t.new keeps.new result }
{
    let names = host.names(key);
    let Some(pair) = kept::stored_pair(wide, key) else {
        return spread_unkept(t, o, wide, host, keeps, names, s, x);
    };
    spread(t, wide, keeps, pair, s, x, |t, rest| {
        uses::spread::spread_under(t, o, wide, names, rest, x)
    })
}

// The set x, into the j-th input of the functions of s.
pub fn spread_inputs(
    t: &mut [u64],
    o: usize,
    wide: bool,
    host: &Host,
    keeps: &mut [u64; 256],
    j: usize,
    s: Set,
    x: Set,
) -> bool
    requires { Lent wide o (length t.old) × (j < 7) }
    ensures { (p : Program) → FormalsOf p host.now.sheet.now.formals → Functions p (value wide s) → Applies wide o p (spreading wide p (input j) (value wide s) (value wide x)) t.old keeps.old t.new keeps.new result }
{
    let formals = &host.sheet.formals;
    spread(t, wide, keeps, kept::INPUTS + j, s, x, |t, rest| {
        uses::spread::spread_input(t, o, wide, formals, j, rest, x)
    })
}
