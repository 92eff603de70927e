// The rules that belong to no record: the chains of declared objects, and the guest's prototypes.
#![tactic(auto)]

ghost use Rattle.std.specs.Prelude.{◌≡◌, ◌⊎◌, ◌↔◌, ℕ, ◌<◌, length, take};
ghost use mathlib.Core.List.{[], ◌∷◌, Memᴰ};
ghost use Rattle.words.specs.Words.{bit};
ghost use Rattle.rows.specs.Edition.{labels};
ghost use Rattle.rows.specs.Row.{chain};
ghost use Rattle.rules.specs.Rule.{give, over, when};
ghost use Rattle.format.specs.Sheet.{declared};
ghost use Rattle.program.specs.Program.{Program};
ghost use Rattle.analysis.specs.Rules.{parents_of, chain_rule, declared_labels};
ghost use Rattle.sets.specs.Value.{value};
ghost use Rattle.uses.specs.Use.{Lent, tells, Used};
ghost use Rattle.shared.specs.Apply.{Applies};
ghost use Rattle.lines.specs.Chain.{chain_by};

use rows::{Label, Var};
use sets::Set;
use shared::told::told_chains;

// The prototypes of plain objects, functions and arrays.
const OBJECT_PROTOTYPE: Label = Label(1);

const FUNCTION_PROTOTYPE: Label = Label(2);

const ARRAY_PROTOTYPE: Label = Label(4);

// The type of plain objects, and that of functions.
const PLAIN: u8 = 1;

const FUNCTION: u8 = 2;

// The variable whose pair for chains is asked here.
const ASKED: Var = Var(0);

// The prototype of a type's objects.
fn parent_of(kind: u8) -> Label
    requires { 0 < kind }
    ensures kind_value { parents_of kind ≡ result.0 ∷ [] }
    ensures bound { result.0 < 64 }
{
    match kind {
        PLAIN => OBJECT_PROTOTYPE,
        FUNCTION => FUNCTION_PROTOTYPE,
        _ => ARRAY_PROTOTYPE,
    }
}

// What is on the chain of l at once: l, and the prototype of its type.
fn first_on(wide: bool, l: Label, kind: u8) -> Set
    requires { (l.0 < labels wide) × (0 < kind) }
    ensures { (m : ℕ) → (bit (value wide result) m ≡ 1) ↔ ((m ≡ l.0) ⊎ Memᴰ m (parents_of kind)) }
{
    let own = sets::single(wide, l);
    let above = sets::single(wide, parent_of(kind));
    sets::union(wide, own, above)
}

// "P(l) holds l, .. with every member's P", of a label of this type: one join.
pub fn chain_line(
    t: &mut [u64],
    o: usize,
    wide: bool,
    keeps: &mut [u64; 256],
    l: Label,
    kind: u8,
) -> bool
    requires { Lent wide o (length t.old) × (l.0 < labels wide) × (0 < kind) }
    ensures { (p : Program) → Applies wide o p (tells wide (chain_by kind l.0)) t.old keeps.old t.new keeps.new result }
{
    let row = l.chain(wide);
    let held = lent::row(t, 0, wide, row);
    let on = told_chains(t, wide, keeps, ASKED, held);
    let first = first_on(wide, l, kind);
    let joined = sets::union(wide, first, on);
    lent::join(t, o, wide, row, joined)
}

// The chain of label l, if it is declared.
fn declared_line(
    t: &mut [u64],
    o: usize,
    wide: bool,
    types: &[u8; 256],
    keeps: &mut [u64; 256],
    l: Label,
) -> bool
    requires { Lent wide o (length t.old) × (l.0 < labels wide) }
    ensures { (p : Program) → p.sheet.types ≡ take (labels wide) types.now → Applies wide o p (tells wide (when (declared p.sheet l.0) (chain_rule p.sheet l.0))) t.old keeps.old t.new keeps.new result }
{
    let kind = types[usize::from(l.0)];
    if kind == 0 {
        return false;
    }
    chain_line(t, o, wide, keeps, l, kind)
}

// "P(l) holds l for each declared l, with every member's P": the labels ascending.
pub fn chain_lines(
    t: &mut [u64],
    o: usize,
    wide: bool,
    types: &[u8; 256],
    keeps: &mut [u64; 256],
) -> bool
    requires { Lent wide o (length t.old) }
    ensures { (p : Program) → p.sheet.types ≡ take (labels wide) types.now → Applies wide o p (tells wide (over (declared_labels (labels wide) p.sheet) (chain_rule p.sheet))) t.old keeps.old t.new keeps.new result }
{
    let mut grew = false;
    for l in 0..rows::labels(wide) {
        grew |= declared_line(t, o, wide, types, keeps, Label(l as u8));
    }
    grew
}

// All prototypes.
fn prototypes(wide: bool) -> Set
    ensures { (m : ℕ) → (bit (value wide result) m ≡ 1) ↔ Memᴰ m (1 ∷ 2 ∷ 4 ∷ []) }
{
    let plain = sets::single(wide, OBJECT_PROTOTYPE);
    let functions = sets::single(wide, FUNCTION_PROTOTYPE);
    let arrays = sets::single(wide, ARRAY_PROTOTYPE);
    let others = sets::union(wide, functions, arrays);
    sets::union(wide, plain, others)
}

// "1, 2 and 4 for label 3": all prototypes are on the chain of what guest g makes.
pub fn guest_line(t: &mut [u64], o: usize, wide: bool, g: Label) -> bool
    requires { Lent wide o (length t.old) × (g.0 < labels wide) }
    ensures { Used wide o (tells wide (over (1 ∷ 2 ∷ 4 ∷ []) (λ m. give (chain g.0) m))) t.old t.old t.new result }
{
    lent::join(t, o, wide, g.chain(wide), prototypes(wide))
}
