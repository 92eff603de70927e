// The table as a whole: cleared, and counted.
#![tactic(auto)]

ghost use Rattle.std.specs.Prelude.{◌≡◌, ◌≤◌, length, get_or};
ghost use Rattle.std.specs.Int.Bits.{bit_and};
ghost use Rattle.rows.specs.Edition.{labels, word_count};
ghost use Rattle.rules.specs.Table.{facts};
ghost use Rattle.sets.specs.Value.{value};
ghost use Rattle.lent.specs.Table.{table_at};
ghost use Rattle.whole.specs.Cleared.{Cleared};

use sets::Set;

// No facts at all; the words beyond the rows stay.
pub fn clear(t: &mut [u64], wide: bool)
    requires { word_count wide ≤ length t.old }
    ensures { Cleared wide t.old t.new }
{
    t[..rows::word_count(wide)].fill(0);
}

// The number of facts in the rows.
pub fn count(t: &[u64], wide: bool) -> u32
    requires { word_count wide ≤ length t.now }
    ensures value { result ≡ facts (labels wide) (table_at wide 0 t.now) }
    ensures bound { result ≤ 2293760 }
{
    let mut all = 0;
    for r in 0..rows::row_count(wide) {
        all += sets::size(wide, lent::row(t, 0, wide, r));
    }
    all
}

// The forbidden labels in row 1, the guest's bag.
pub fn held(t: &[u64], wide: bool, forbidden: Set) -> Set
    requires { word_count wide ≤ length t.now }
    ensures { value wide result ≡ bit_and (get_or (table_at wide 0 t.now) 1 0) (value wide forbidden) }
{
    let bag = lent::row(t, 0, wide, 1);
    sets::meet(wide, bag, forbidden)
}
