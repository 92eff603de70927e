// A set of labels as four words by value. `wide` says whether all four count (256 labels) or the first alone (64 labels); what stands in
// the others then is of no matter, so that no function asks anything of a set. No function branches on `wide` more than once.
#![tactic(auto)]

ghost use Rattle.std.specs.Prelude.{◌≡◌, ℕ, ◌*◌, ◌^◌, ◌<◌, ◌≤◌, eqb, get_or};
ghost use Rattle.std.specs.Int.Bits.{bit_and};
ghost use Rattle.std.specs.Int.Count.{count_trailing_zeros};
ghost use Rattle.words.specs.Words.{bit, union, difference, count_below};
ghost use Rattle.rows.specs.Edition.{words, labels};
ghost use Rattle.sets.specs.Value.{words_of, value};
ghost use Rattle.sets.specs.Each.{EachWord};
ghost use Rattle.sets.specs.Steps.{Steps};

use rows::Label;

#[derive(Clone, Copy)]
pub struct Set {
    pub a: u64,
    pub b: u64,
    pub c: u64,
    pub d: u64,
}

// What f makes of each word of x and the same word of y.
fn each<F: Fn(u64, u64) -> u64>(wide: bool, x: Set, y: Set, f: F) -> Set
    requires { F.IsAlwaysCallable f }
    ensures { EachWord wide (F.post f) x y result }
{
    let a = f(x.a, y.a);
    if wide {
        Set {
            a,
            b: f(x.b, y.b),
            c: f(x.c, y.c),
            d: f(x.d, y.d),
        }
    } else {
        Set { a, ..NONE }
    }
}

// The labels of either set.
pub fn union(wide: bool, x: Set, y: Set) -> Set
    ensures { value wide result ≡ union (value wide x) (value wide y) }
{
    each(wide, x, y, |a, b| a | b)
}

// The labels of both sets.
pub fn meet(wide: bool, x: Set, y: Set) -> Set
    ensures { value wide result ≡ bit_and (value wide x) (value wide y) }
{
    each(wide, x, y, |a, b| a & b)
}

// The labels of the first set that are not in the second.
pub fn without(wide: bool, x: Set, y: Set) -> Set
    ensures { value wide result ≡ difference (value wide x) (value wide y) }
{
    each(wide, x, y, |a, b| a ^ (a & b))
}

const NONE: Set = Set {
    a: 0,
    b: 0,
    c: 0,
    d: 0,
};

// No label.
pub fn none(wide: bool) -> Set
    ensures { value wide result ≡ 0 }
{
    NONE
}

// Label l alone.
pub fn single(wide: bool, label: Label) -> Set
    requires { label.0 < labels wide }
    ensures { value wide result ≡ 2 ^ label.0 }
{
    let l = usize::from(label.0);
    let word = words::single(l % 64);
    // by tests: a match on l / 64 is compiled to a jump, which is slower; in `word` too
    if l < 64 {
        return Set { a: word, ..NONE };
    }
    if l < 128 {
        return Set { b: word, ..NONE };
    }
    if l < 192 {
        return Set { c: word, ..NONE };
    }
    Set { d: word, ..NONE }
}

// Whether there is no label in the set.
pub fn is_empty(wide: bool, x: Set) -> bool
    ensures { result ≡ eqb (value wide x) 0 }
{
    if wide {
        (x.a | x.b | x.c | x.d) == 0
    } else {
        x.a == 0
    }
}

// Whether every label of x is in y. The bound of x is for callers, to whom a parameter's range is far to reach.
pub fn is_within(wide: bool, x: Set, y: Set) -> bool
    ensures value { result ≡ eqb (difference (value wide x) (value wide y)) 0 }
    ensures bound { value wide x < 2 ^ (64 * words wide) }
{
    is_empty(wide, without(wide, x, y))
}

// Word i of the set.
fn word(x: Set, i: usize) -> u64
    requires { i < 4 }
    ensures { result ≡ get_or (words_of x) i 0 }
{
    if i < 2 {
        return if i < 1 { x.a } else { x.b };
    }
    if i < 3 { x.c } else { x.d }
}

// Whether label l is in the set.
pub fn contains(wide: bool, x: Set, label: Label) -> bool
    requires { label.0 < labels wide }
    ensures { result ≡ eqb (bit (value wide x) label.0) 1 }
{
    let l = usize::from(label.0);
    words::contains(word(x, l / 64), l % 64)
}

// How many labels are in the set.
pub fn size(wide: bool, x: Set) -> u32
    ensures { result ≡ count_below (value wide x) (labels wide) }
{
    if wide {
        words::size(x.a) + words::size(x.b) + words::size(x.c) + words::size(x.d)
    } else {
        words::size(x.a)
    }
}

// The lowest label of the set, taken from it.
#[inline]
pub fn take(wide: bool, x: &mut Set) -> Option<Label>
    ensures { Steps wide (value wide x.old) result (value wide x.new) }
{
    if let Some(l) = words::take(&mut x.a) {
        return Some(Label(l as u8));
    }
    if !wide {
        return None;
    }
    if let Some(l) = words::take(&mut x.b) {
        return Some(Label((64 + l) as u8));
    }
    if let Some(l) = words::take(&mut x.c) {
        return Some(Label((128 + l) as u8));
    }
    let l = words::take(&mut x.d)?;
    Some(Label((192 + l) as u8))
}

// The lowest label of a set.
pub fn lowest(wide: bool, x: Set) -> Label
    requires { 0 < value wide x }
    ensures { result.0 ≡ count_trailing_zeros (labels wide) (value wide x) }
{
    let mut rest = x;
    take(wide, &mut rest).unwrap()
}

// The labels of a set that a loop has still to come to, from the lowest up.
#[derive(Clone, Copy)]
pub struct LabelsLeft {
    wide: bool,
    rest: Set,
}

pub fn labels(wide: bool, x: Set) -> LabelsLeft
    ensures wide { result.wide ≡ wide }
    ensures rest { result.rest ≡ x }
{
    LabelsLeft { wide, rest: x }
}

impl Iterator for LabelsLeft {
    ghost use Rattle.std.specs.Iterator.{at_most};

    type Item = Label;

    ghost next_gives = { λ s r t. (t.wide ≡ s.wide) × Steps s.wide (value s.wide s.rest) r (value s.wide t.rest) };

    ghost remaining = { λ s. at_most (value s.wide s.rest) };

    #[inline]
    fn next(&mut self) -> Option<Label> {
        take(self.wide, &mut self.rest)
    }
}

// Every label.
pub fn full(wide: bool) -> Set
    ensures { (l : ℕ) → l < labels wide → bit (value wide result) l ≡ 1 }
{
    Set {
        a: u64::MAX,
        b: u64::MAX,
        c: u64::MAX,
        d: u64::MAX,
    }
}
