// What the labels of a set tell, as much of it as is not held already.
ghost use Rattle.std.specs.Prelude.{◌≡◌, true, ℕ, List, ◌≤◌, ◌<◌, length};
ghost use Rattle.words.specs.Words.{difference};
ghost use Rattle.rows.specs.Edition.{labels, word_count};
ghost use Rattle.rows.specs.Row.{thrown, number, row_count};
ghost use Rattle.layout.specs.Key.{inside, Key};
ghost use Rattle.program.specs.Program.{Program};
ghost use Rattle.sets.specs.Value.{value};
ghost use Rattle.uses.specs.Use.{Lent};
ghost use Rattle.kept.specs.Pairs.{pair_count};
ghost use Rattle.kept.specs.Promise.{Slot, chains, throws, handed, under, slot_of, Union, Tellings};
ghost use Rattle.host.specs.Lays.{names_in, Lays, ReturnsOf, Functions};
ghost use Rattle.shared.specs.Apply.{Applies, gathering, Reads};

use host::Host;
use kept::Asked;
use rows::{Label, Var};
use sets::Set;

// What the labels of s tell, by a pair: what stands there already, and the rest as `read` has it.
fn told<F: FnOnce(Set) -> Set>(
    wide: bool,
    keeps: &mut [u64; 256],
    pair: usize,
    s: Set,
    have: Set,
    read: F,
) -> Set
    requires { F.IsAlwaysCallable read }
    ensures { (p : Program) (slot : Slot) (t : List ℕ) → Union slot → (pair < pair_count wide → slot_of pair ≡ slot) → Reads wide p slot t (value wide s) (F.post read) → Tellings wide p slot t (value wide s) (value wide have) (value wide result) keeps.old keeps.new }
{
    match kept::ask(keeps, wide, pair, s, have) {
        Asked::Told(all) => all,
        Asked::Open(rest) => {
            let more = read(rest.labels);
            kept::answer(keeps, wide, pair, s, rest, more)
        }
    }
}

// The pair for the chains of what a variable holds.
fn chain_pair(v: Var) -> usize
    ensures { result < 4 }
{
    v.row() % 4
}

// The chains of the labels of s, which a variable holds: variables have four pairs among them.
pub fn told_chains(t: &[u64], wide: bool, keeps: &mut [u64; 256], v: Var, s: Set) -> Set
    requires { word_count wide ≤ length t.now }
    ensures { (p : Program) → Tellings wide p chains t.now (value wide s) 0 (value wide result) keeps.old keeps.new }
{
    let first = Label(0).chain(wide);
    told(wide, keeps, chain_pair(v), s, sets::none(wide), |rest| {
        uses::gather(t, wide, first, rest)
    })
}

// What the functions of s throw.
fn told_throws(t: &[u64], wide: bool, keeps: &mut [u64; 256], s: Set, have: Set) -> Set
    requires { word_count wide ≤ length t.now }
    ensures { (p : Program) → Tellings wide p throws t.now (value wide s) (value wide have) (value wide result) keeps.old keeps.new }
{
    let first = Label(0).thrown(wide);
    told(wide, keeps, kept::THROWS, s, have, |rest| {
        uses::gather(t, wide, first, rest)
    })
}

// Every name of the word is of class 0, which is so in every file that can be read.
pub fn of_class_zero(host: &Host, names: u64) -> bool
    ensures { result ≡ true → difference names (names_in host.now inside) ≡ 0 }
{
    words::without(names, host.names(layout::INSIDE)) == 0
}

// The properties of the labels of s under a key for which there is no room for a pair. Left out are labels of which the pair for class 0 says that all their
// properties are held already.
fn told_unkept(
    t: &[u64],
    wide: bool,
    host: &Host,
    keeps: &[u64; 256],
    names: u64,
    s: Set,
    have: Set,
) -> Set
    requires { word_count wide ≤ length t.now }
    ensures { (p : Program) (key : ℕ) → Lays wide p host.now → Key key → names ≡ names_in host.now key → Tellings wide p (under key) t.now (value wide s) (value wide have) (value wide result) keeps.now keeps.now }
{
    let rest = if of_class_zero(host, names) {
        kept::spare(keeps, wide, kept::UNDER, s, have)
    } else {
        s
    };
    uses::gather_under(t, wide, names, rest)
}

// The properties of the labels of s under a key.
pub fn told_under(
    t: &[u64],
    wide: bool,
    host: &Host,
    keeps: &mut [u64; 256],
    key: u8,
    s: Set,
    have: Set,
) -> Set
    requires { (word_count wide ≤ length t.now) × Key key }
    ensures { (p : Program) → Lays wide p host.now → Tellings wide p (under key) t.now (value wide s) (value wide have) (value wide result) keeps.old keeps.new }
{
    let names = host.names(key);
    let Some(pair) = kept::under_pair(wide, key) else {
        return told_unkept(t, wide, host, keeps, names, s, have);
    };
    told(wide, keeps, pair, s, have, |rest| {
        uses::gather_under(t, wide, names, rest)
    })
}

// What the functions of s hand back.
fn told_handed(t: &[u64], wide: bool, host: &Host, keeps: &mut [u64; 256], s: Set, have: Set) -> Set
    requires { word_count wide ≤ length t.now }
    ensures { (p : Program) → ReturnsOf p host.now.returns → Functions p (value wide s) → Tellings wide p handed t.now (value wide s) (value wide have) (value wide result) keeps.old keeps.new }
{
    let returns = &host.returns;
    told(wide, keeps, kept::HANDED, s, have, |rest| {
        returns.gather_handed(t, wide, rest)
    })
}

// What the labels of s hold under a key, into row y. This and the two below have a row read, a telling and a join in common: a function that is handed the telling
// would hand it the table, the pairs and the row, and be no plainer.
pub fn look_up(
    t: &mut [u64],
    o: usize,
    wide: bool,
    host: &Host,
    keeps: &mut [u64; 256],
    y: usize,
    key: u8,
    s: Set,
) -> bool
    requires { Lent wide o (length t.old) × (y < row_count (labels wide)) × Key key }
    ensures { (p : Program) → Lays wide p host.now → Applies wide o p (gathering wide p y (under key) (value wide s)) t.old keeps.old t.new keeps.new result }
{
    let have = lent::row(t, o, wide, y);
    let more = told_under(t, wide, host, keeps, key, s, have);
    lent::join(t, o, wide, y, more)
}

// What the functions of s throw, into T(k).
pub fn throw_on(
    t: &mut [u64],
    o: usize,
    wide: bool,
    keeps: &mut [u64; 256],
    k: Label,
    s: Set,
) -> bool
    requires { Lent wide o (length t.old) × (k.0 < labels wide) }
    ensures { (p : Program) → Applies wide o p (gathering wide p (number (labels wide) (thrown k.0)) throws (value wide s)) t.old keeps.old t.new keeps.new result }
{
    let y = k.thrown(wide);
    let have = lent::row(t, o, wide, y);
    let more = told_throws(t, wide, keeps, s, have);
    lent::join(t, o, wide, y, more)
}

// What the functions of s hand back, into S(y).
pub fn hand_back(
    t: &mut [u64],
    o: usize,
    wide: bool,
    host: &Host,
    keeps: &mut [u64; 256],
    y: Var,
    s: Set,
) -> bool
    requires { Lent wide o (length t.old) }
    ensures { (p : Program) → ReturnsOf p host.now.returns → Functions p (value wide s) → Applies wide o p (gathering wide p y.0 handed (value wide s)) t.old keeps.old t.new keeps.new result }
{
    let r = y.row();
    let have = lent::row(t, o, wide, r);
    let more = told_handed(t, wide, host, keeps, s, have);
    lent::join(t, o, wide, r, more)
}
