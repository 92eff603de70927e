// A word as a set of labels: bit l of the word says whether label l is in the set. Contracts above this crate speak of sets, and
// not of shifts.
#![tactic(auto)]

ghost use Rattle.std.specs.Prelude.{◌≡◌, ◌/◌, ◌^◌, ◌<◌, ◌≤◌, eqb};
ghost use Rattle.std.specs.Int.Bits.{bit_and};
ghost use Rattle.words.specs.Words.{bit, union, difference, count_below, Steps};

// The set that holds label l alone.
pub fn single(l: usize) -> u64
    requires { l < 64 }
    ensures { result ≡ 2 ^ l }
{
    1u64 << l
}

// The labels of either set.
#[tactic(auto, unfolding(crate::specs::Words::union))]
pub fn join(x: u64, y: u64) -> u64
    ensures { result ≡ union x y }
{
    x | y
}

// The labels of both sets.
pub fn meet(x: u64, y: u64) -> u64
    ensures { result ≡ bit_and x y }
{
    x & y
}

// The labels of the first set that are not in the second.
#[tactic(auto, unfolding(crate::specs::Words::difference))]
pub fn without(x: u64, y: u64) -> u64
    ensures { result ≡ difference x y }
{
    x ^ (x & y)
}

// The labels from s up, counted from s.
pub fn above(x: u64, s: usize) -> u64
    requires { s < 64 }
    ensures { result ≡ x / 2 ^ s }
{
    x >> s
}

// Whether label l is in the set.
pub fn contains(x: u64, l: usize) -> bool
    requires { l < 64 }
    ensures { result ≡ eqb (bit x l) 1 }
{
    (x >> l) & 1 == 1
}

// How many labels are in the set.
pub fn size(x: u64) -> u32
    ensures value { result ≡ count_below x 64 }
    ensures bound { result ≤ 64 }
{
    u64::count_ones(x)
}

// The lowest label of the set, taken from it.
#[inline]
pub fn take(x: &mut u64) -> Option<usize>
    ensures { Steps 64 x.old result x.new }
{
    let all = *x;
    if all == 0 {
        return None;
    }
    *x = all & (all - 1);
    Some(u64::trailing_zeros(all) as usize)
}

// The labels of a set that a loop has still to come to, from the lowest up.
#[derive(Clone, Copy)]
pub struct LabelsLeft {
    rest: u64,
}

pub fn labels(x: u64) -> LabelsLeft
    ensures { result.rest ≡ x }
{
    LabelsLeft { rest: x }
}

impl Iterator for LabelsLeft {
    ghost use Rattle.std.specs.Iterator.{at_most};

    type Item = usize;

    ghost next_gives = { λ s r t. Steps 64 s.rest r t.rest };

    ghost remaining = { λ s. at_most s.rest };

    #[inline]
    fn next(&mut self) -> Option<usize> {
        take(&mut self.rest)
    }
}
