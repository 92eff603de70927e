// Loads and stores.
ghost use Rattle.std.specs.Prelude.{◌≡◌, ℕ, ◌<◌, length};
ghost use Rattle.rows.specs.Edition.{labels};
ghost use Rattle.layout.specs.Key.{Key};
ghost use Rattle.program.specs.Program.{Program};
ghost use Rattle.analysis.specs.Rules.{loading, storing};
ghost use Rattle.uses.specs.Use.{Lent, tells, Reached};
ghost use Rattle.host.specs.Lays.{Lays};
ghost use Rattle.shared.specs.Apply.{Applies};

use host::Host;
use rows::{Label, Var};
use sets::Set;
use shared::spread::spread_stored;
use shared::told::{look_up, told_chains};

// `loading`: S(object) holds w; what w and the labels of S(object) find along their chains under the key goes to S(y).
pub fn load(
    t: &mut [u64],
    o: usize,
    wide: bool,
    host: &Host,
    keeps: &mut [u64; 256],
    y: Var,
    x: Var,
    key: u8,
    w: Label,
) -> bool
    requires { Lent wide o (length t.old) × Key key × (w.0 < labels wide) }
    ensures { (p : Program) → Lays wide p host.now → Applies wide o p (tells wide (loading p y.0 x.0 key w.0)) t.old keeps.old t.new keeps.new result }
{
    let gave = uses::give(t, o, wide, x.row(), w);
    let held = uses::held(t, wide, x);
    let s = sets::union(wide, held, sets::single(wide, w));
    let on = told_chains(t, wide, keeps, x, s);
    let more = look_up(t, o, wide, host, keeps, y.row(), key, on);
    gave | more
}

// `storing`: S(value) goes to the properties, under the key, of the labels of S(object) that are not built-in.
pub fn store(
    t: &mut [u64],
    o: usize,
    wide: bool,
    host: &Host,
    keeps: &mut [u64; 256],
    x: Var,
    key: u8,
    a: Var,
) -> bool
    requires { Lent wide o (length t.old) × Key key }
    ensures { (p : Program) → Lays wide p host.now → Applies wide o p (tells wide (storing p x.0 key a.0)) t.old keeps.old t.new keeps.new result }
{
    let held = uses::held(t, wide, x);
    let s = host.without_built_ins(wide, held);
    let value = uses::held(t, wide, a);
    spread_stored(t, o, wide, host, keeps, key, s, value)
}

// A part of `loading`, in place: what those of the labels that S(object) holds find along their chains under the key goes to S(y).
pub fn load_part(
    t: &mut [u64],
    wide: bool,
    host: &Host,
    y: Var,
    x: Var,
    key: u8,
    labels: Set,
) -> bool
    requires { Lent wide 0 (length t.old) × Key key }
    ensures reached { (p : Program) (w : ℕ) → Lays wide p host.now → Reached wide 0 (tells wide (loading p y.0 x.0 key w)) t.old t.new }
    ensures t_len_unchanged { length t.new ≡ length t.old }
{
    let held = uses::held(t, wide, x);
    let s = sets::meet(wide, held, labels);
    let on = uses::gather(t, wide, Label(0).chain(wide), s);
    let names = host.names(key);
    let more = uses::gather_under(t, wide, names, on);
    lent::join(t, 0, wide, y.row(), more)
}
