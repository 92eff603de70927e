// What the code remembers of a pass, in one array: pairs of a set of labels and the union, or the meet, over it. A record that asks for the union over the same
// labels as the one before it, which is what most records do, then costs a few tests of words. Nothing here reads the table.
#![tactic(auto)]

ghost use Rattle.std.specs.Prelude.{◌≡◌, true, List, ℕ, ◌≤◌, ◌<◌, IfSome, IfNone, is_some, unwrap_or};
ghost use Rattle.layout.specs.Key.{Key};
ghost use Rattle.sets.specs.Value.{value};
ghost use Rattle.program.specs.Program.{Program};
ghost use Rattle.kept.specs.Pairs.{pair_count, Holds, Refreshed, Cleared, Asks, AsksFor, Spares, Answers, Leaves, Learns};
ghost use Rattle.kept.specs.Promise.{under, stored, slot_of, Remembers};

use sets::Set;

// How many pairs there is room for.
fn count(wide: bool) -> usize
    ensures { result ≡ pair_count wide }
{
    if wide { 32 } else { 128 }
}

// The pair becomes s and v.
fn keep(keeps: &mut [u64; 256], wide: bool, pair: usize, s: Set, v: Set)
    requires { pair < pair_count wide }
    ensures { Refreshed wide pair (value wide s) (value wide v) keeps.old keeps.new }
{
    lent::write(keeps, 0, wide, 2 * pair, s);
    lent::write(keeps, 0, wide, 2 * pair + 1, v);
}

// What stands in a pair: labels, and the union or the meet over them.
#[derive(Clone, Copy)]
struct Kept {
    labels: Set,
    over: Set,
}

// What stands in a pair, if there is room for it.
fn read(keeps: &[u64; 256], wide: bool, pair: usize) -> Option<Kept>
    ensures { IfSome result (λ now. Holds wide keeps.now pair (value wide now.labels) (value wide now.over)) }
{
    if count(wide) <= pair {
        return None;
    }
    Some(Kept {
        labels: lent::row(keeps, 0, wide, 2 * pair),
        over: lent::row(keeps, 0, wide, 2 * pair + 1),
    })
}

// What is still to be read for a union: `base` is told already, and the labels are to be read. `fresh` says that the answer may take the pair's place, which
// is of use no longer or is for fewer labels.
#[derive(Clone, Copy)]
pub struct Rest {
    pub base: Set,
    pub labels: Set,
    pub fresh: bool,
}

// What the pair says of a union: all of it, or some.
#[derive(Clone, Copy)]
pub enum Asked {
    Told(Set),
    Open(Rest),
}

// The rest of s is to be read, if there is any.
fn told_but(wide: bool, base: Set, labels: Set, fresh: bool) -> Asked
    ensures { (keeps : List ℕ) (pair s have : ℕ) → Asks wide keeps pair s have (value wide base) (value wide labels) fresh → AsksFor wide keeps pair s have result }
{
    if sets::is_empty(wide, labels) {
        return Asked::Told(base);
    }
    Asked::Open(Rest {
        base,
        labels,
        fresh,
    })
}

// What is still to be read for the union over s, where what `have` holds need not be told.
pub fn ask(keeps: &[u64; 256], wide: bool, pair: usize, s: Set, have: Set) -> Asked
    ensures { AsksFor wide keeps.now pair (value wide s) (value wide have) result }
{
    let none = sets::none(wide);
    let Some(now) = read(keeps, wide, pair) else {
        return Asked::Open(Rest {
            base: none,
            labels: s,
            fresh: false,
        });
    };
    let labels = sets::without(wide, s, now.labels);
    if sets::is_within(wide, now.labels, s) {
        return told_but(wide, now.over, labels, true);
    }
    if sets::is_within(wide, now.over, have) {
        return told_but(wide, none, labels, false);
    }
    Asked::Open(Rest {
        base: none,
        labels: s,
        fresh: sets::size(wide, now.labels) <= sets::size(wide, s),
    })
}

// The labels of s that may tell what `have` lacks: those of the kept set do not, where the kept union is held already.
pub fn spare(keeps: &[u64; 256], wide: bool, pair: usize, s: Set, have: Set) -> Set
    ensures { Spares wide keeps.now pair (value wide s) (value wide have) (value wide result) }
{
    match read(keeps, wide, pair) {
        Some(now) if sets::is_within(wide, now.over, have) => sets::without(wide, s, now.labels),
        _ => s,
    }
}

// What was read of more labels than this is kept.
const FEW: u32 = 3;

// The union, once `more` was read of the rest; a large one is kept.
pub fn answer(keeps: &mut [u64; 256], wide: bool, pair: usize, s: Set, rest: Rest, more: Set) -> Set
    requires { rest.fresh ≡ true → pair < pair_count wide }
    ensures { Answers wide pair (value wide s) (value wide rest.base) (value wide more) (value wide result) rest.fresh keeps.old keeps.new }
{
    let all = sets::union(wide, rest.base, more);
    if rest.fresh && FEW < sets::size(wide, rest.labels) {
        keep(keeps, wide, pair, s, all);
    }
    all
}

// Which labels of s are still to be given x, if the rows of some hold it already; else all of them are.
pub fn leave(keeps: &[u64; 256], wide: bool, pair: usize, s: Set, x: Set) -> Option<Set>
    ensures { Leaves wide keeps.now pair (value wide s) (value wide x) (value wide (unwrap_or result s)) (is_some result) }
{
    let now = read(keeps, wide, pair)?;
    sets::is_within(wide, x, now.over).then(|| sets::without(wide, s, now.labels))
}

// The rows of the labels that were left were given x, and all of them hold `least`: kept, if they are many.
pub fn learn(keeps: &mut [u64; 256], wide: bool, pair: usize, s: Set, left: Option<Set>, least: Set)
    ensures { Learns wide pair (value wide s) (value wide (unwrap_or left s)) (value wide least) keeps.old keeps.new (is_some left) }
{
    let Some(now) = read(keeps, wide, pair) else {
        return;
    };
    let n = sets::size(wide, left.unwrap_or(s));
    if n <= FEW {
        return;
    }
    match left {
        Some(rest) => {
            let labels = sets::union(wide, now.labels, rest);
            let over = sets::meet(wide, now.over, least);
            keep(keeps, wide, pair, labels, over);
        }
        None => {
            if sets::size(wide, now.labels) <= n {
                keep(keeps, wide, pair, s, least);
            }
        }
    }
}

// The pairs from `from` up to `to` are emptied.
fn clear(keeps: &mut [u64; 256], wide: bool, from: usize, to: usize)
    requires { (from ≤ to) × (to ≤ pair_count wide) }
    ensures { Cleared wide from to keeps.old keeps.new }
{
    let none = sets::none(wide);
    for pair in from..to {
        keep(keeps, wide, pair, none, none);
    }
}

// The unions are forgotten, as a pass begins: what is told from here on is told of the table as it is now. Meets stay true.
pub fn forget(keeps: &mut [u64; 256], wide: bool)
    ensures { (o : ℕ) (p : Program) (old t : List ℕ) → Remembers wide o p old t keeps.old → Remembers wide o p t t keeps.new }
{
    clear(keeps, wide, 0, INPUTS);
    if !wide {
        clear(keeps, wide, UNDER_NAMES, STORED_OUTSIDE);
    }
}

// The pair of each thing that is looked up or spread: see `slot_of`.
pub const CHAINS: usize = 0;

pub const THROWS: usize = 4;

pub const HANDED: usize = 5;

pub const INPUTS: usize = 17;

// What is under a key: the first is of class 0, which has every name, and those of classes 1 to 7 follow.
pub const UNDER: usize = 6;

// Under the names 1 to 3, behind those of the classes; under other single names, and under the names outside classes 0 to 7.
const UNDER_OFTEN: usize = 13;

const UNDER_NAMES: usize = 32;

const UNDER_OUTSIDE: usize = 64;

// The same for what is stored.
pub const STORED: usize = 24;

const STORED_OUTSIDE: usize = 72;

const STORED_NAMES: usize = 80;

// The pair for the properties under a key, room or none.
fn under_at(key: u8) -> usize
    requires { Key key }
    ensures result_value { slot_of result ≡ under key }
    ensures bound { result < 128 }
{
    if layout::OUTSIDE <= key {
        return UNDER_OUTSIDE + usize::from(key - layout::OUTSIDE);
    }
    if layout::INSIDE <= key {
        return UNDER + usize::from(key - layout::INSIDE);
    }
    match usize::from(key) {
        0 => UNDER_NAMES,
        k @ 1..=3 => UNDER_OFTEN + k,
        k => UNDER_NAMES + k,
    }
}

// The pair for values that are stored under a key, room or none.
fn stored_at(key: u8) -> usize
    requires { Key key }
    ensures result_value { slot_of result ≡ stored key }
    ensures bound { result < 128 }
{
    if layout::OUTSIDE <= key {
        return STORED_OUTSIDE + usize::from(key - layout::OUTSIDE);
    }
    if layout::INSIDE <= key {
        return STORED + usize::from(key - layout::INSIDE);
    }
    STORED_NAMES + usize::from(key)
}

// The pair for the properties under a key, if there is room for it.
pub fn under_pair(wide: bool, key: u8) -> Option<usize>
    requires { Key key }
    ensures some { IfSome result (λ pair. (slot_of pair ≡ under key) × (pair < pair_count wide)) }
    ensures none { IfNone result (wide ≡ true) }
    ensures no_room { IfNone result ((pair : ℕ) × (slot_of pair ≡ under key) × (pair < 128) × (pair_count wide ≤ pair)) }
{
    let pair = under_at(key);
    (pair < count(wide)).then_some(pair)
}

// The pair for values that are stored under a key, if there is room for it.
pub fn stored_pair(wide: bool, key: u8) -> Option<usize>
    requires { Key key }
    ensures some { IfSome result (λ pair. (slot_of pair ≡ stored key) × (pair < pair_count wide)) }
    ensures none { IfNone result (wide ≡ true) }
    ensures no_room { IfNone result ((pair : ℕ) × (slot_of pair ≡ stored key) × (pair < 128) × (pair_count wide ≤ pair)) }
{
    let pair = stored_at(key);
    (pair < count(wide)).then_some(pair)
}
