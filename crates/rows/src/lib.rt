// Variables, labels and names are each a kind to themselves, and the rows of the table are computed from them. The contracts equate
// each row with its number in specs/Row.antt, for the edition of 64 labels or of 256.
#![tactic(auto)]

ghost use Rattle.std.specs.Prelude.{◌≡◌, ◌<◌, ◌≤◌};
ghost use Rattle.rows.specs.Row.{variable, property, chain, thrown, number, row_count};
ghost use Rattle.rows.specs.Edition.{labels, word_count};

// The number of a variable, 0 to 255.
#[derive(Clone, Copy)]
pub struct Var(pub u8);

// The number of a label, below 64 or 256.
#[derive(Clone, Copy)]
pub struct Label(pub u8);

// The number of a name, below 32.
#[derive(Clone, Copy)]
pub struct Name(pub u8);

impl Var {
    // The row of S(v).
    pub fn row(self) -> usize
        ensures value { result ≡ number 64 (variable self.0) }
        ensures bound { result < row_count 64 }
    {
        self.0 as usize
    }
}

impl Label {
    // The row of H(l, n).
    pub fn property(self, n: Name) -> usize
        requires { n.0 < 32 }
        ensures value { result ≡ number 256 (property self.0 n.0) }
        ensures bound { result < row_count 256 }
    {
        VARIABLES + NAMES * (self.0 as usize) + (n.0 as usize)
    }

    // The row of P(l).
    pub fn chain(self, wide: bool) -> usize
        requires { self.0 < labels wide }
        ensures value { result ≡ number (labels wide) (chain self.0) }
        ensures bound { result < row_count (labels wide) }
    {
        VARIABLES + NAMES * labels(wide) + (self.0 as usize)
    }

    // The row of T(k), where k is this label's scope.
    pub fn thrown(self, wide: bool) -> usize
        requires { self.0 < labels wide }
        ensures value { result ≡ number (labels wide) (thrown self.0) }
        ensures bound { result < row_count (labels wide) }
    {
        VARIABLES + (NAMES + 1) * labels(wide) + (self.0 as usize)
    }
}

const VARIABLES: usize = 256;

const NAMES: usize = 32;

// How many labels there are in the edition.
pub fn labels(wide: bool) -> usize
    ensures { (result ≡ labels wide) × (result ≤ 256) }
{
    if wide { 256 } else { 64 }
}

// How many rows a table has.
pub fn row_count(wide: bool) -> usize
    ensures value { result ≡ row_count (labels wide) }
    ensures bound { result ≤ 8960 }
{
    VARIABLES + (NAMES + 2) * labels(wide)
}

// The words of a table in the edition of 64 labels and in that of 256, for arrays, whose lengths are constants.
pub const TABLE_WORDS: usize = 2432;

pub const LARGE_TABLE_WORDS: usize = 35840;

// How many words a table has.
pub fn word_count(wide: bool) -> usize
    ensures value { result ≡ word_count wide }
    ensures bound { result ≤ 35840 }
{
    if wide {
        4 * row_count(wide)
    } else {
        row_count(wide)
    }
}
