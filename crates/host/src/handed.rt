// What functions hand back: the union of the variables that they return.
ghost use Rattle.std.specs.Prelude.{◌≡◌, ◌≤◌, length};
ghost use Rattle.sets.specs.Value.{value};
ghost use Rattle.rows.specs.Edition.{word_count};
ghost use Rattle.uses.specs.Use.{table_of};
ghost use Rattle.uses.specs.Gather.{Gathered};
ghost use Rattle.host.specs.Lays.{returns_for, returned, handed_back, Handing, ReturnsNothing};

use rows::Label;
use sets::Set;

// The variables that functions return, as four words for each; an array has 64 functions.
#[derive(Drop)]
pub struct Returns {
    pub first: [u64; 256],
    pub second: [u64; 256],
    pub third: [u64; 256],
    pub fourth: [u64; 256],
}

impl Returns {
    // No variable of any function.
    pub fn none() -> Self
        ensures { ReturnsNothing result }
    {
        Returns {
            first: [0; 256],
            second: [0; 256],
            third: [0; 256],
            fourth: [0; 256],
        }
    }

    // The array that has function f.
    fn array(&self, f: Label) -> &[u64; 256]
        ensures { result.now ≡ returns_for self.now f.0 }
    {
        if f.0 < 64 {
            return &self.first;
        }
        if f.0 < 128 {
            return &self.second;
        }
        if f.0 < 192 {
            return &self.third;
        }
        &self.fourth
    }

    // The variables that function f returns, a bit for each.
    pub fn of(&self, f: Label) -> Set
        ensures { result ≡ returned self.now f.0 }
    {
        let ws = self.array(f);
        let i = 4 * (usize::from(f.0) % 64);
        Set {
            a: ws[i],
            b: ws[i + 1],
            c: ws[i + 2],
            d: ws[i + 3],
        }
    }

    // The rows of the variables that f returns, joined to what is there so far: 64 variables to a word.
    fn hand(&self, t: &[u64], wide: bool, f: Label, start: Set) -> Set
        requires { word_count wide ≤ length t.now }
        ensures { Handing self.now f.0 (table_of wide t.now) (value wide start) (value wide result) }
    {
        let variables = self.of(f);
        let first = uses::gather_word(t, wide, 0, variables.a, start);
        let second = uses::gather_word(t, wide, 64, variables.b, first);
        let third = uses::gather_word(t, wide, 128, variables.c, second);
        uses::gather_word(t, wide, 192, variables.d, third)
    }

    // What the functions of s hand back.
    pub fn gather_handed(&self, t: &[u64], wide: bool, s: Set) -> Set
        requires { word_count wide ≤ length t.now }
        ensures { Gathered (handed_back self.now) (table_of wide t.now) (table_of wide t.now) (value wide s) (value wide result) }
    {
        let mut all = sets::none(wide);
        for f in sets::labels(wide, s) {
            all = self.hand(t, wide, f, all);
        }
        all
    }
}
